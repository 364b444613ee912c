//! What the definitions say in other words.
ghost use Rattle.jam_natives.specs.Laws.{HidesOutputs};

/// A file directly in a directory lies below an output root, and so is no source, exactly where the directory is an output root
/// or lies below one.
pub fn outputs_are_hidden()
    ensures { HidesOutputs }
{}
