//! Laws of written lines, and of what a log tells.
ghost use Rattle.std.specs.Prelude.{List};
ghost use Rattle.b2_log.specs.declared.line.LogLine.{LogLine};
ghost use Rattle.b2_log.specs.Laws.{OneSpelling, OneReading, ReadBack, TornLine, ToldIsThere, LastWord, OthersUnsaid, KeptIsTold, KeptAgain};

/// A good line has one spelling, and no other good line has it or begins it.
pub fn one_spelling()
    ensures { OneSpelling }
{}

/// Bytes are read as one list of lines.
pub fn one_reading()
    ensures { OneReading }
{}

/// A good line that is written at the end of a good log is read back.
pub fn read_back()
    ensures { ReadBack }
{}

/// A torn line at the end of a good log leaves the lines before it.
pub fn torn_line()
    ensures { TornLine }
{}

/// What a log tells of a subject is a line of it about this subject.
pub fn told_is_there()
    ensures { ToldIsThere }
{}

/// A line at the end has the last word on its subject.
pub fn last_word()
    ensures { LastWord }
{}

/// A line says nothing of other subjects.
pub fn others_unsaid()
    ensures { OthersUnsaid }
{}

/// The kept lines are those that the log tells of their subjects.
pub fn kept_is_told()
    ensures { KeptIsTold }
{}

/// The kept lines tell of each subject what the log tells, and all of them are kept again.
pub fn kept_again()
    ensures { (log : List LogLine) → KeptAgain log }
{}
