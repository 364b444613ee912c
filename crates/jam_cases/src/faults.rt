//! The texts of faults.
use b2_base::expand_fault::ExpandFault;
use transcript::answer::Answer;

/// Adds why a word or a body stands for nothing.
pub fn put_expand_fault(answer: &mut Answer, fault: &ExpandFault) {
    match fault {
        ExpandFault::BadIndex { text } => answer.put_two("bad index", text.as_str()),
        ExpandFault::BadModifier { text } => answer.put_two("bad modifier", text.as_str()),
        ExpandFault::TooDeep => answer.put("expansion too deep"),
        ExpandFault::TooLarge { bytes } => answer.put_between("expansion of ", *bytes, " bytes"),
        ExpandFault::OutOfMemory => answer.cut(),
    }
}
