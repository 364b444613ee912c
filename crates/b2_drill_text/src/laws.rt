//! What the project file of a drill is.
ghost use Rattle.b2_drill_text.specs.Laws.{DrillReads, DrillIsSmall};

/// The file of a drill reads as a tree of one statement for the actions and one for each target.
pub fn drill_reads()
    ensures { DrillReads }
{}

/// With at most 2,000 targets the file is within the limit of files that are read.
pub fn drill_is_small()
    ensures { DrillIsSmall }
{}
