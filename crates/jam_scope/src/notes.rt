//! What is noted of a step.
use b2_base::path_list::PathList;

/// What is noted of the step whose rule is being run.
#[derive(Drop)]
pub struct StepNotes {
    /// Its outputs.
    pub outs: PathList,
    /// Its inputs.
    pub ins: PathList,
    /// The inputs that its rule added, in order.
    pub depends: PathList,
    /// Whether it is run in each update.
    pub always: bool,
    /// Whether its outputs are no files.
    pub notfile: bool,
}

/// What the notes of an open step were at a mark.
#[derive(Clone, Copy)]
pub struct NotesThen {
    /// How many inputs had been added.
    pub depends: usize,
    /// Whether it was run in each update.
    pub always: bool,
    /// Whether its outputs were no files.
    pub notfile: bool,
}
