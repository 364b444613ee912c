//! Laws of verdicts and records.
ghost use Rattle.b2_verdicts.specs.Laws.{VerdictTells, MadeIsRecord, MissingIsGone};

/// A verdict by true facts is that of the update.
pub fn verdict_tells()
    ensures { VerdictTells }
{}

/// A record that is made by true facts is the one that an update appends.
pub fn made_is_record()
    ensures { MadeIsRecord }
{}

/// Where true facts tell that a file of a step is missing, it is gone.
pub fn missing_is_gone()
    ensures { MissingIsGone }
{}
