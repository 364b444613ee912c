//! Laws of what an update leaves: what is settled and skipped, and that failures leave nothing.
ghost use Rattle.b2_runs.specs.OutcomeLaws.{OutputsSettleTogether, SkippedExactly, AllWentBySettled, AllWentSettles, AllWentMissesNothing, NothingLeftAtEntry, NothingLeftAfterStart, NothingLeftAfterGoodEnd, NothingLeftAfterBadEnd, NothingLeftThroughWork, NothingLeftAfterRemoval, NothingLeftAfterLine, SkippedWhereQuits};

/// Where one output of a step is settled, all are.
pub fn outputs_settle_together()
    ensures { OutputsSettleTogether }
{}

/// A needed step that is known to read what is missing, failed or skipped is skipped.
pub fn skipped_exactly()
    ensures { SkippedExactly }
{}

/// All went well where each wanted file is given, each needed step is settled, and nothing failed.
pub fn all_went_by_settled()
    ensures { AllWentBySettled }
{}

/// Where all went well each needed step is settled.
pub fn all_went_settles()
    ensures { AllWentSettles }
{}

/// Where all went well no path is missing.
pub fn all_went_misses_nothing()
    ensures { AllWentMissesNothing }
{}

/// Where nothing has failed, nothing is left of failures.
pub fn nothing_left_at_entry()
    ensures { NothingLeftAtEntry }
{}

/// Nothing is left of failures as a step starts.
pub fn nothing_left_after_start()
    ensures { NothingLeftAfterStart }
{}

/// Nothing is left of failures as a step is done well.
pub fn nothing_left_after_good_end()
    ensures { NothingLeftAfterGoodEnd }
{}

/// Nothing is left of a step that is done badly, where its outputs are removed and the log has no record for them.
pub fn nothing_left_after_bad_end()
    ensures { NothingLeftAfterBadEnd }
{}

/// Children at work leave nothing of failed steps.
pub fn nothing_left_through_work()
    ensures { NothingLeftThroughWork }
{}

/// Nothing is left of failures as a file is removed.
pub fn nothing_left_after_removal()
    ensures { NothingLeftAfterRemoval }
{}

/// What was dropped stays dropped as lines of other steps are appended.
pub fn nothing_left_after_line()
    ensures { NothingLeftAfterLine }
{}

/// Where the update quits, a step is skipped exactly where it is left.
pub fn skipped_where_quits()
    ensures { SkippedWhereQuits }
{}
