//! What native rules answer.
use b2_base::fault::OutOfMemory;
use b2_base::text::Text;
use b2_base::text_list::TextList;
use jam_patterns::native_fault::NativeFault;

/// What a native rule asks for.
#[derive(Drop)]
pub enum NativeStep {
    /// No native rule has this name.
    Unknown,
    /// The value of the call.
    Value(TextList),
    /// Evaluation ends with this text.
    Exit(Text),
    /// A rule is called for each item. The values are joined, or with `filter` the items are kept whose value is true.
    Each {
        /// The rule, with further elements of its first argument.
        rule: TextList,
        /// The elements that the rule is called with, one call each.
        items: TextList,
        /// Whether items are kept.
        filter: bool,
    },
}

/// Why a native rule has no step.
#[derive(Drop)]
pub enum NativeError {
    /// What the rule refuses.
    Fault(NativeFault),
    /// The lists are not those that the rule takes.
    Arity,
    /// A call of the host failed.
    Host,
    /// No memory was left.
    OutOfMemory,
}

impl From<OutOfMemory> for NativeError {
    ghost use Rattle.std.specs.Prelude.{◌≡◌};
    ghost use Rattle.jam_meaning.specs.declared.native_answer.NativeError.TheVariants as errors;

    ghost from_gives = { λ _ error. error ≡ errors.OutOfMemory };

    fn from(_error: OutOfMemory) -> NativeError {
        NativeError::OutOfMemory
    }
}
