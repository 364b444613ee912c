//! Laws of what is settled: it stands as in the clean build.
ghost use Rattle.b2_runs.specs.SettledLaws.{SettledIsClean, FreshIsClean, OutputsAreClean, WantedIsClean};

/// What is settled has a value in the clean build, and where it is bytes they stand there.
pub fn settled_is_clean()
    ensures { SettledIsClean }
{}

/// The outputs of a fresh step whose closure is settled stand with the clean build's bytes.
pub fn fresh_is_clean()
    ensures { FreshIsClean }
{}

/// Each settled output of a needed step, but for those of notfile steps, stands with the clean build's bytes.
pub fn outputs_are_clean()
    ensures { OutputsAreClean }
{}

/// Where nothing is missing, failed, skipped or stuck, each wanted file is that of the clean build.
pub fn wanted_is_clean()
    ensures { WantedIsClean }
{}
