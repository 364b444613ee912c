//! Laws of the files that an update reads, and of those that are too big for it.
ghost use Rattle.b2_runs.specs.ReadLaws.{LargeIsTooBig, TooBigIsLarge, NothingTooBig, ReadsNone, ReadsMore, ReadsAlong, ReadsThroughEnd, InputThroughEnd, NeededOutThroughEnd, ReadsAsPastGrows, ScannedIsNotRead, UnscannedIsNotRead, TooBigThroughEnd, TooBigThroughChange, LinesOfNone, LinesBeforeRead, LinesAfterRead, StandsAfterLine, StandsAlong, StandsAfterChange, LinesAsPastGrows, NoneReadTwice};

/// A file that is to be scanned and has more bytes than are scanned is too big, and stands.
pub fn large_is_too_big()
    ensures { LargeIsTooBig }
{}

/// Where a file is too big it stands with so many bytes, which are more than are scanned.
pub fn too_big_is_large()
    ensures { TooBigIsLarge }
{}

/// No file is too big where none is above the limits.
pub fn nothing_too_big()
    ensures { NothingTooBig }
{}

/// An update that has read nothing reads once.
pub fn reads_none()
    ensures { ReadsNone }
{}

/// So does one that then reads the log, or what is called for.
pub fn reads_more()
    ensures { ReadsMore }
{}

/// It stays so as events come.
pub fn reads_along()
    ensures { ReadsAlong }
{}

/// It stays so as an open step ends, though others could start.
pub fn reads_through_end()
    ensures { ReadsThroughEnd }
{}

/// What a needed step is known to read stays so as an open step ends.
pub fn input_through_end()
    ensures { InputThroughEnd }
{}

/// An output of a needed step stays one as an open step ends.
pub fn needed_out_through_end()
    ensures { NeededOutThroughEnd }
{}

/// It stays so where more has stood.
pub fn reads_as_past_grows()
    ensures { ReadsAsPastGrows }
{}

/// Judged by stamps, no file is read whose stamp has a scan line in the log.
pub fn scanned_is_not_read()
    ensures { ScannedIsNotRead }
{}

/// Judged by stamps, no file is read that is not scanned.
pub fn unscanned_is_not_read()
    ensures { UnscannedIsNotRead }
{}

/// A file that is too big stays so as a step ends.
pub fn too_big_through_end()
    ensures { TooBigThroughEnd }
{}

/// It stays so as steps that run or failed change their outputs.
pub fn too_big_through_change()
    ensures { TooBigThroughChange }
{}

/// An update that has read nothing owes no scan line.
pub fn lines_of_none()
    ensures { LinesOfNone }
{}

/// Where all reads so far have their scan lines in the log, one more may come.
pub fn lines_before_read()
    ensures { LinesBeforeRead }
{}

/// A read whose scan line stands in the log has it with the others.
pub fn lines_after_read()
    ensures { LinesAfterRead }
{}

/// They have them where more has stood.
pub fn lines_as_past_grows()
    ensures { LinesAsPastGrows }
{}

/// A file that stands with its scan line does as a line is appended.
pub fn stands_after_line()
    ensures { StandsAfterLine }
{}

/// It does as events come.
pub fn stands_along()
    ensures { StandsAlong }
{}

/// It does as steps that run or failed change their outputs.
pub fn stands_after_change()
    ensures { StandsAfterChange }
{}

/// Judged by stamps, no file is read twice as it stands.
pub fn none_read_twice()
    ensures { NoneReadTwice }
{}
