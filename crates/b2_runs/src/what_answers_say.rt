//! Laws of the answers of an update: what each says, and that no two are said of one run.
ghost use Rattle.b2_runs.specs.AnswerLaws.{ListsAreOne, MayAnswerAllWent, AllWentLacksNothing, AllWentHasNoCycle, FailedHasNoCycle, AllWentStartsNothing, CycleEndsNoReport, AllWentHasNoBadEnd, SinkFaultIsFirst, NoneLeftWithoutRisk, NoneLeftWithoutFault, UpdateReadsOnce, DoneWellStands, SoundAtExit};

/// An update that has ended may answer that all went well where each wanted file is a source or an output, each needed step is
/// settled, and none failed.
pub fn may_answer_all_went()
    ensures { MayAnswerAllWent }
{}

/// It does not answer so where a step failed or was skipped, or a file is missing.
pub fn all_went_lacks_nothing()
    ensures { AllWentLacksNothing }
{}

/// It does not answer so where there is a step cycle.
pub fn all_went_has_no_cycle()
    ensures { AllWentHasNoCycle }
{}

/// It does not answer that a step failed or was skipped, or a file is missing, where there is a step cycle.
pub fn failed_has_no_cycle()
    ensures { FailedHasNoCycle }
{}

/// A run has one set of lists.
pub fn lists_are_one()
    ensures { ListsAreOne }
{}

/// After an update that answers that all went well, the next one starts nothing that it need not.
pub fn all_went_starts_nothing()
    ensures { AllWentStartsNothing }
{}

/// Where there is a step cycle no part of the end of a report is written.
pub fn cycle_ends_no_report()
    ensures { CycleEndsNoReport }
{}

/// Over every host an update that answers that all went well has had no bad end.
pub fn all_went_has_no_bad_end()
    ensures { AllWentHasNoBadEnd }
{}

/// After a fault of the sink the host's count of faults is as at entry, unless a wait failed.
pub fn sink_fault_is_first()
    ensures { SinkFaultIsFirst }
{}

/// Where no wait may fail an update leaves no child.
pub fn none_left_without_risk()
    ensures { NoneLeftWithoutRisk }
{}

/// Nor does it where no wait failed, unless the count of failed waits can rise no more.
pub fn none_left_without_fault()
    ensures { NoneLeftWithoutFault }
{}

/// Judged by stamps, an update reads no file whose scan line the log had then.
pub fn update_reads_once()
    ensures { UpdateReadsOnce }
{}

/// Wherever an update ends, each output that a step has to make stands, if the step was done well.
pub fn done_well_stands()
    ensures { DoneWellStands }
{}

/// Wherever an update ends, whatever it answers, the disk is sound to its events.
pub fn sound_at_exit()
    ensures { SoundAtExit }
{}
