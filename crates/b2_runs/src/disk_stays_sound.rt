//! Laws of sound disks: what keeps a disk sound to an update, and that records which it appends are true.
ghost use Rattle.b2_runs.specs.SoundLaws.{TrueLogServes, SoundAtEntry, SoundAfterStart, SoundAfterChange, SoundAfterEnd, WorkIsAllowed, RemovalIsAllowed, LogIsAllowed, DistinguishesLess, RecordIsTrue};

/// Of a true log all that an update uses is true.
pub fn true_log_serves()
    ensures { TrueLogServes }
{}

/// Where an update begins, the disk is sound to it.
pub fn sound_at_entry()
    ensures { SoundAtEntry }
{}

/// The disk stays sound as a step starts.
pub fn sound_after_start()
    ensures { SoundAfterStart }
{}

/// The disk stays sound as steps that run or failed change their outputs, and as the log changes.
pub fn sound_after_change()
    ensures { SoundAfterChange }
{}

/// The disk stays sound as a child ends; where it ended well, its outputs have the clean build's bytes.
pub fn sound_after_end()
    ensures { SoundAfterEnd }
{}

/// Children at work change nothing but outputs of steps that run.
pub fn work_is_allowed()
    ensures { WorkIsAllowed }
{}

/// Removing an output of a step that runs or failed is an allowed change.
pub fn removal_is_allowed()
    ensures { RemovalIsAllowed }
{}

/// A change of the log alone is an allowed change.
pub fn log_is_allowed()
    ensures { LogIsAllowed }
{}

/// Digests that tell apart what stood by now told apart what stood before.
pub fn distinguishes_less()
    ensures { DistinguishesLess }
{}

/// The record of a step whose closure and outputs are settled is true before it is appended.
pub fn record_is_true()
    ensures { RecordIsTrue }
{}
