//! Small updates for which all that the laws ask for holds, so that no law speaks of nothing.
ghost use Rattle.b2_run_examples.specs.Examples.{CopyingHolds, CopyingFiled, CopyingJudged, CirclingHolds, TailedHolds};
ghost use Rattle.b2_run_examples.specs.Overlap.{OverlapHolds, FailureHolds};
ghost use Rattle.b2_run_examples.specs.DigestUpdates.{DigestsHold};
ghost use Rattle.b2_run_examples.specs.Headers.{HeadersHold};
ghost use Rattle.b2_run_examples.specs.Scans.{ScansHold};
ghost use Rattle.b2_run_examples.specs.Reported.{ReportsHold};
ghost use Rattle.b2_run_examples.specs.Quits.{QuitHolds};
ghost use Rattle.b2_run_examples.specs.HeaderPlaces.{HeaderLostHolds, HeaderCircleHolds};
ghost use Rattle.b2_run_examples.specs.Missing.{MissingHolds};
ghost use Rattle.b2_run_examples.specs.Flags.{FlagsHold};
ghost use Rattle.b2_run_examples.specs.CopySession.{CopySessionHolds};

/// An update that copies one file: its run is a whole run in which all went well, its disk is sound, its log is true and
/// tells what was done.
pub fn copying_holds()
    ensures { CopyingHolds }
{}

/// The log of that update as a file: it counts as the one line, is true, and tells the record; torn, it is true and tells
/// nothing.
pub fn copying_filed()
    ensures { CopyingFiled }
{}

/// The step of that update is fresh to the next one where nothing was done, and stale where a file, the log, its closure or
/// its text is another.
pub fn copying_judged()
    ensures { CopyingJudged }
{}

/// An update whose step reads what it writes: nothing can start, and the step is stuck.
pub fn circling_holds()
    ensures { CirclingHolds }
{}

/// An update whose first step reads an output of two steps that read one another's: all are stuck, and the cycle has these
/// two alone.
pub fn tailed_holds()
    ensures { TailedHolds }
{}

/// An update of three steps with two jobs: children that overlap are a whole run, and other events are none.
pub fn overlap_holds()
    ensures { OverlapHolds }
{}

/// The same update where the second child fails: the step that needs it is skipped, and the others are not.
pub fn failure_holds()
    ensures { FailureHolds }
{}

/// Five updates, one after the other, judged by digests but for the fourth: a dependent does not start where its inputs have
/// the bytes that they had, and records without digests get them.
pub fn digests_hold()
    ensures { DigestsHold }
{}

/// An update whose header is found by the include of a file that is made: the header's step is needed as soon as this file is
/// there. The file's scan line tells the include.
pub fn headers_hold()
    ensures { HeadersHold }
{}

/// Scan lines and reads in that update: a file is scanned once it is settled, its line is demanded, and it is read once.
pub fn scans_hold()
    ensures { ScansHold }
{}

/// The printed bytes of some updates, of steps without a name, and of refusals.
pub fn reports_hold()
    ensures { ReportsHold }
{}

/// An update that is to quit at a failure: nothing starts after it, and all that is left is skipped.
pub fn quit_holds()
    ensures { QuitHolds }
{}

/// A header that is lost from the first place where it is looked for: the closure has that in the second place, and the step runs.
pub fn header_lost_holds()
    ensures { HeaderLostHolds }
{}

/// Two sources that include one another: the closure has both, and the step runs once.
pub fn header_circle_holds()
    ensures { HeaderCircleHolds }
{}

/// An update whose step reads a path that is missing: the step is skipped, and the path is told.
pub fn missing_holds()
    ensures { MissingHolds }
{}

/// Always-steps and notfile steps: they run each time, and a notfile step leaves no record and owes no file.
pub fn flags_hold()
    ensures { FlagsHold }
{}

/// The update that copies has done all that an update does which answers that all went well, and is a session. A session is none whose answer is a fault that no count tells.
pub fn copy_session_holds()
    ensures { CopySessionHolds }
{}
