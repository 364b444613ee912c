//! Laws of the words of a build, and of those of plain Jam mode.
ghost use Rattle.b2_top.specs.Laws.{FewJobs, FewJamJobs};

/// Words that ask for a build ask for at most 64 jobs.
pub fn few_jobs()
    ensures { FewJobs }
{}

/// Words of plain Jam mode ask for at most 64 jobs.
pub fn few_jam_jobs()
    ensures { FewJamJobs }
{}
