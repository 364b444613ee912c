//! Laws of the log over a whole update: what it begins with, and what the events add.
ghost use Rattle.b2_runs.specs.LogCourseLaws.{FirstLinesAreOne, BeginTellsRecords, BeginTellsScans, BeginIsAmong, HeldIsCounted, BeginIsRead, LinesAreRead, LogGrows, LogTellsOthers, LogTellsOpen, LogTellsUnstarted, JudgedByLog, LogDropsFailed, LogHasRecords, ScansOnce, MigratesOnce, StandsIsScanned, AlreadyIsNoted, NoneToMigrate, MigratedAfterStart, MigratedAfterChange};
ghost use Rattle.b2_runs.specs.LogCourseLaws.{ScannedAfterStart, ScannedAfterFailure, ToScanAfterEnd, ScannedAfterLine, ScannedAfterChange, LogMoves, LogStaysTrue, ScansStayTrue, LogIsNoted, GoodBytesAreSpelled, ReplacedIsOther, AppendLeavesFile, LogStandsThen, WholeLogCounts, WholeIsCut, WholeLogIsAppendedTo, CutLogThroughEnd, CutLogThroughChange, CutLogIsTrue, CutLogIsNoted, FinishedIsKept, FinishedIsNotStarted};

/// A log is opened with one list of lines.
pub fn begins_with_one()
    ensures { FirstLinesAreOne }
{}

/// The lines that a log is opened with tell of each step what the log's file told.
pub fn begin_tells_records()
    ensures { BeginTellsRecords }
{}

/// They tell of each file that was scanned what the log's file told.
pub fn begin_tells_scans()
    ensures { BeginTellsScans }
{}

/// They are among the lines of the log's file.
pub fn begin_is_among()
    ensures { BeginIsAmong }
{}

/// They are good, and within the limit.
pub fn begin_is_read()
    ensures { BeginIsRead }
{}

/// A file of good lines within the limit counts as them.
pub fn lines_are_read()
    ensures { LinesAreRead }
{}

/// The lines of a log count so by the bytes of its file, also where none stands.
pub fn held_is_counted()
    ensures { HeldIsCounted }
{}

/// To the lines that an update began with, lines are only appended.
pub fn log_grows()
    ensures { LogGrows }
{}

/// The log says nothing new of outputs that are those of no step of the plan.
pub fn log_tells_others()
    ensures { LogTellsOthers }
{}

/// Of a step that runs the log tells what it told at first.
pub fn log_tells_open()
    ensures { LogTellsOpen }
{}

/// Of a step that was not started it tells the same, or it has its record with digests.
pub fn log_tells_unstarted()
    ensures { LogTellsUnstarted }
{}

/// A step that was not started is judged by the log as by the one at entry.
pub fn judged_by_log()
    ensures { JudgedByLog }
{}

/// The log has no record of a step that failed.
pub fn log_drops_failed()
    ensures { LogDropsFailed }
{}

/// For each step that was done well and has to make files, the log has its record.
pub fn log_has_records()
    ensures { LogHasRecords }
{}

/// The log as it stands when a file is read is the lines that it has.
pub fn log_stands_then()
    ensures { LogStandsThen }
{}

/// The log's file after an update that was not cut off counts as the lines that its events call for.
pub fn whole_log_counts()
    ensures { WholeLogCounts }
{}

/// Once a file has got its scan line, no other is called for.
pub fn scans_once()
    ensures { ScansOnce }
{}

/// Once a step has got its record with digests, no other is called for.
pub fn migrates_once()
    ensures { MigratesOnce }
{}

/// A file that stands with its scan line has the line of its bytes.
pub fn stands_is_scanned()
    ensures { StandsIsScanned }
{}

/// A record with digests that a fresh step has already is that of the step and of its files.
pub fn already_is_noted()
    ensures { AlreadyIsNoted }
{}

/// No record with digests is called for where judging is by stamps.
pub fn none_to_migrate()
    ensures { NoneToMigrate }
{}

/// A start calls for no record with digests.
pub fn migrated_after_start()
    ensures { MigratedAfterStart }
{}

/// No record with digests is lacking after steps that run or failed change their outputs.
pub fn migrated_after_change()
    ensures { MigratedAfterChange }
{}

/// A start calls for no scan line.
pub fn scanned_after_start()
    ensures { ScannedAfterStart }
{}

/// The bad end of a step calls for no scan line.
pub fn scanned_after_failure()
    ensures { ScannedAfterFailure }
{}

/// A file that was to have a scan line is to have it after the end of a step too.
pub fn to_scan_after_end()
    ensures { ToScanAfterEnd }
{}

/// A file keeps its scan line as a line is appended that is called for.
pub fn scanned_after_line()
    ensures { ScannedAfterLine }
{}

/// No scan line is lacking after steps that run or failed change their outputs.
pub fn scanned_after_change()
    ensures { ScannedAfterChange }
{}

/// The lines stay what the events call for as steps that run or failed change their outputs.
pub fn log_moves()
    ensures { LogMoves }
{}

/// They are true where those were that the update began with.
pub fn log_stays_true()
    ensures { LogStaysTrue }
{}

/// Their scan lines are true where those were, whatever the records are.
pub fn scans_stay_true()
    ensures { ScansStayTrue }
{}

/// Their last lines are on what was done with each step.
pub fn log_is_noted()
    ensures { LogIsNoted }
{}

/// Bytes all of which are good are the spelling of their lines.
pub fn good_bytes_are_spelled()
    ensures { GoodBytesAreSpelled }
{}

/// A log that has a torn tail or is long is replaced by other bytes.
pub fn replaced_is_other()
    ensures { ReplacedIsOther }
{}

/// Where one line more is appended, the file that is left has the bytes of all lines.
pub fn append_leaves_file()
    ensures { AppendLeavesFile }
{}

/// Each log file that an update may leave which was not cut off is also one that an update may leave which was.
pub fn whole_is_cut()
    ensures { WholeIsCut }
{}

/// A log that has no torn tail and is neither long nor too large is only appended to.
pub fn healthy_grows()
    ensures { WholeLogIsAppendedTo }
{}

/// A log that an update may leave stays so as an open step ends.
pub fn cut_log_through_end()
    ensures { CutLogThroughEnd }
{}

/// It stays so as steps that run or failed change their outputs.
pub fn cut_log_through_change()
    ensures { CutLogThroughChange }
{}

/// Wherever an update was cut off its log is true, where the log at entry was.
pub fn cut_log_is_true()
    ensures { CutLogIsTrue }
{}

/// Wherever an update was cut off, its log's last lines are on what was done in a run so far that holds each of its starts.
pub fn cut_log_is_noted()
    ensures { CutLogIsNoted }
{}

/// Of a step that was done well before the last start the log has a record that agrees, wherever the update was cut off.
pub fn finished_is_kept()
    ensures { FinishedIsKept }
{}

/// The next update does not start it, unless an always-step or a notfile step reaches it.
pub fn finished_is_not_started()
    ensures { FinishedIsNotStarted }
{}
