//! Points of staleness.

/// Why a step is stale: the first point that holds, in the order in which they stand here. Places are those in lists of the
/// step's [`crate::step_numbers::StepNumbers`], and members that stand in neither are told by their numbers.
#[derive(Clone, Copy, Debug)]
pub enum Point {
    /// The update runs all.
    All,
    /// The step is an always-step.
    Always,
    /// The step is a notfile step.
    Notfile,
    /// The output at this place is missing, the first in order.
    Lacks(usize),
    /// The output at a place is older than the member at a place: the first output, and its first member in byte order. By
    /// digests this is no point.
    Older(usize, usize),
    /// This member is an output of a notfile step.
    FromNotfile(u32),
    /// This member is an output of a step that is done in this update.
    Done(u32),
    /// The log tells no record of the outputs.
    NoRecord,
    /// The record has another text.
    Text,
    /// The record has another stamp for the output at this place, the first in order.
    Outputs(usize),
    /// The record's inputs first differ from the members at this place, by a path or by a stamp. Where both have a path there
    /// they differ at the lesser one.
    Inputs(usize),
}
