//! Laws of the log's file: which lines it counts as, and what keeps it true.
ghost use Rattle.b2_runs.specs.LogFileLaws.{FileIsOneLog, FileIsSomeLog, ReadFileTells, TrueFileTells, EmptyFileIsTrue, FileTrueAsPastGrows, TrueFront, TrueWithSpelling, TrueWithTornSpelling, TrueOfKept, AppendAdds, TornAppendLeaves, ReadTellsLog, TrueByFile, TrueWhereMissing, TrueWhereStill, TornTellsOthers, KeptTellsSame, RecordIsProper, DropIsProper, TrueThroughWork, TrueThroughRemoval};

/// A file counts as one list of lines.
pub fn file_is_one_log()
    ensures { FileIsOneLog }
{}

/// There is no file that counts as no list of lines.
pub fn file_is_some_log()
    ensures { FileIsSomeLog }
{}

/// A file tells of outputs what is found in the lines that were read from it, and nothing else.
pub fn read_file_tells()
    ensures { ReadFileTells }
{}

/// What a true file tells is a true record of the outputs that were asked for.
pub fn true_file_tells()
    ensures { TrueFileTells }
{}

/// The file without bytes is true.
pub fn empty_file_is_true()
    ensures { EmptyFileIsTrue }
{}

/// A true file stays true where more has stood.
pub fn file_true_as_past_grows()
    ensures { FileTrueAsPastGrows }
{}

/// Any first bytes of a file whose lines are true are a true file.
pub fn true_front()
    ensures { TrueFront }
{}

/// A true file all of whose bytes are good stays true where the spelling of a true line is appended.
pub fn true_with_spelling()
    ensures { TrueWithSpelling }
{}

/// Such a file stays true where only the first part of the spelling is appended.
pub fn true_with_torn_spelling()
    ensures { TrueWithTornSpelling }
{}

/// The kept lines of a true file are a true file, and so is any first part of their spelling.
pub fn true_of_kept()
    ensures { TrueOfKept }
{}

/// Where the spelling of a good line is appended to a file all of whose bytes are good, and the whole is within the limit,
/// it counts as one line more.
pub fn append_adds()
    ensures { AppendAdds }
{}

/// A file that a torn append left counts as the lines before, and as the whole line too exactly where no byte is missing.
pub fn torn_append_leaves()
    ensures { TornAppendLeaves }
{}

/// A read of the log within the limit tells its lines.
pub fn read_tells_log()
    ensures { ReadTellsLog }
{}

/// The log on a disk is true where the file that stands there is.
pub fn true_by_file()
    ensures { TrueByFile }
{}

/// The log on a disk is true where no file stands.
pub fn true_where_missing()
    ensures { TrueWhereMissing }
{}

/// The log on a disk stays true where its file stays as it is and no file that stood is forgotten.
pub fn true_where_still()
    ensures { TrueWhereStill }
{}

/// A file that a torn append left tells of other outputs what it told before.
pub fn torn_tells_others()
    ensures { TornTellsOthers }
{}

/// The kept lines of a file tell of all outputs what the file told.
pub fn kept_tells_same()
    ensures { KeptTellsSame }
{}

/// The record of a step with the stamps of its outputs and of its closure's members is one whose line can be read back.
pub fn record_is_proper()
    ensures { RecordIsProper }
{}

/// A line that drops a step's record can be read back.
pub fn drop_is_proper()
    ensures { DropIsProper }
{}

/// The log on a disk stays true while children work.
pub fn true_through_work()
    ensures { TrueThroughWork }
{}

/// The log on a disk stays true where an output is removed.
pub fn true_through_removal()
    ensures { TrueThroughRemoval }
{}
