//! Laws of the log along a run: its last line on each step is the right one.
ghost use Rattle.b2_runs.specs.NotedLaws.{OutsDiffer, NotedByRecord, NotedBesideLine, NotedBesideChange, OutputsAreNewer, FailedIsStale, NoneOlderAtEntry, NoneOlderAfterStart, NoneOlderAfterEnd, NoneOlderAfterChange};

/// No two steps have the same outputs.
pub fn outs_differ()
    ensures { OutsDiffer }
{}

/// Once the record of a step is appended it is the last line on it.
pub fn noted_by_record()
    ensures { NotedByRecord }
{}

/// It stays so as a line about other outputs is appended.
pub fn noted_beside_line()
    ensures { NotedBesideLine }
{}

/// Of a step that was not started it stays so as steps that run or failed change their outputs.
pub fn noted_beside_change()
    ensures { NotedBesideChange }
{}

/// A child that ends well leaves no output older than a member of its step's closure.
pub fn outputs_are_newer()
    ensures { OutputsAreNewer }
{}

/// A failed step whose outputs do not stand is stale to the next update.
pub fn failed_is_stale()
    ensures { FailedIsStale }
{}

/// Before any event no output that was made is older than what it was made of.
pub fn none_older_at_entry()
    ensures { NoneOlderAtEntry }
{}

/// It stays so as a step starts.
pub fn none_older_after_start()
    ensures { NoneOlderAfterStart }
{}

/// It stays so as a step ends, where its own outputs are not older.
pub fn none_older_after_end()
    ensures { NoneOlderAfterEnd }
{}

/// It stays so as steps that run or failed change their outputs.
pub fn none_older_after_change()
    ensures { NoneOlderAfterChange }
{}
