//! Names with what they are to hold.
use b2_base::text_list::TextList;
use std::alloc::Global;
use std::mem::ManuallyDrop;
use transcript::case_fault::CaseFault;
use transcript::command::Word;
use transcript::words::named;

/// The first word, and the others as texts, to lend.
pub fn name_and_value(
    alloc: Global,
    words: &[Word],
) -> Result<(&str, ManuallyDrop<TextList>), CaseFault> {
    let (name, value) = named(alloc, words)?;
    Ok((name, ManuallyDrop::new(value)))
}
