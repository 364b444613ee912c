//! Faults of native rules.
use crate::refusal::Refusal;
use b2_base::text::Text;

/// Why a native rule has no answer.
#[derive(Drop)]
pub enum NativeFault {
    /// A pattern of MATCH was refused.
    PatternRefused { refusal: Refusal },
    /// IMPORT or EXPORT names a rule that the module does not have.
    NoSuchRule { module: Text, name: Text },
    /// DEPENDS, INCLUDES, ALWAYS or NOTFILE was called outside a step's rule, where `text` is the first target, or names what
    /// has no place in the step: `text` is a target that is not the step's own, or an input that is empty. `rule` is the native
    /// rule.
    DependsElsewhere { rule: Text, text: Text },
}
