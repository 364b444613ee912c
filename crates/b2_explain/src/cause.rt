//! Why a step is to run, or is not.
use b2_base::list::List;
use b2_base::path::Path;
use b2_base::text::Text;

/// Why a step is to run, or why not: of the causes that hold the first one, in the order in which they stand here.
pub enum Cause {
    /// The step reads a missing file: this one, the first in byte order.
    Lacks {
        path: Path,
    },
    /// The step reads an output of a step that is to run, or waits too: this one, the first in byte order.
    Waits {
        path: Path,
    },
    /// All that is needed runs.
    All,
    /// The step is an always-step.
    Always,
    /// The step is a notfile step.
    NotFile,
    /// This output is missing, the first in order.
    NoOutput {
        path: Path,
    },
    /// This output is older than this file that the step reads: the first output that is older than one, and the first such file in
    /// byte order.
    Older {
        out: Path,
        out_stamp: u64,
        member: Path,
        member_stamp: u64,
    },
    /// The log has no record of the outputs.
    NoRecord,
    /// The record has this text, which is not the step's.
    OtherText {
        logged: Text,
    },
    /// The record has another stamp for this output, the first in order.
    OtherOutput {
        path: Path,
        logged: u64,
        now: u64,
    },
    /// The record's inputs and the files that the step reads differ at this path, the first in byte order: by their stamps, or one
    /// of both has none there.
    OtherInput {
        path: Path,
        logged: Option<u64>,
        now: Option<u64>,
    },
    /// Nothing calls for a run.
    Fresh,
}

/// By hand, so that dropping one is one call.
impl Drop for Cause {
    fn drop(self) {
        match self {
            Cause::Lacks { path: _path } => {}
            Cause::Waits { path: _path } => {}
            Cause::All | Cause::Always | Cause::NotFile => {}
            Cause::NoOutput { path: _path } => {}
            Cause::Older {
                out: _out,
                out_stamp: _,
                member: _member,
                member_stamp: _,
            } => {}
            Cause::NoRecord => {}
            Cause::OtherText { logged: _logged } => {}
            Cause::OtherOutput {
                path: _path,
                logged: _,
                now: _,
            } => {}
            Cause::OtherInput {
                path: _path,
                logged: _,
                now: _,
            } => {}
            Cause::Fresh => {}
        }
    }
}

/// Why the step with a number is to run, or is not.
pub struct Why {
    pub step: u32,
    pub cause: Cause,
}

/// By hand, so that dropping one is one call.
impl Drop for Why {
    fn drop(self) {
        let Why { step: _, cause } = self;
        drop(cause);
    }
}

/// Why steps are to run or are not, in order of their numbers; seen as the list of them.
pub type WhyList = List<Why>;
