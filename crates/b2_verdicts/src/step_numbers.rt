//! The numbers of a step's files.
use b2_base::list::List;

/// The files of a step whose closure is settled, by their numbers in what is known of files.
pub struct StepNumbers {
    /// The outputs, in the step's order.
    pub outs: List<u32>,
    /// The members of the closure that have bytes, in byte order of path.
    pub ins: List<u32>,
    /// A member that is an output of a notfile step, if there is one. It has no bytes.
    pub notfile: Option<u32>,
    /// A member that is an output of a step that is done in this update, if there is one.
    pub done: Option<u32>,
}

/// By hand, so that dropping one is one call.
impl Drop for StepNumbers {
    fn drop(self) {
        let StepNumbers {
            outs,
            ins,
            notfile: _,
            done: _,
        } = self;
        drop(outs);
        drop(ins);
    }
}
