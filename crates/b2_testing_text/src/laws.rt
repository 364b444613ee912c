//! What the build text of tests is, and what it does.
ghost use Rattle.b2_testing_text.specs.Laws.{TextReads, TextRuns, SixDefinitions};

/// The text reads as one tree, and in no other way.
pub fn text_reads()
    ensures { TextReads }
{}

/// Wherever it runs with eight turns or more, it goes on to its end and leaves its six definitions. So it cannot fault.
pub fn text_runs()
    ensures runs { TextRuns }
    ensures six { SixDefinitions }
{}
