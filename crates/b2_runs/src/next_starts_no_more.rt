//! Laws of two updates without edits between them: what was done is not done again.
ghost use Rattle.b2_runs.specs.NextLaws.{NoneStartsAfterAllWent, NoneDoneStartsAgain, NoneDoneStartsAfterStop};

/// After an update that answered that all went well, the next one starts no step but those that an always-step or a notfile step
/// reaches.
pub fn none_starts_after_all_went()
    ensures { NoneStartsAfterAllWent }
{}

/// Whatever an update answered, the next one starts no step that was done well before its last start, with the same exceptions.
pub fn none_done_starts_again()
    ensures { NoneDoneStartsAgain }
{}

/// Nor does it where the update was stopped, and the host was opened again after it.
pub fn none_done_starts_after_stop()
    ensures { NoneDoneStartsAfterStop }
{}
