//! How statements end.
ghost use Rattle.jam_effects.specs.Views.{IsValueOf, IsFileEnd};

use crate::fault::EvalFault;
use b2_base::text_list::TextList;
use std::alloc::Global;

/// How a statement ends.
#[derive(Drop)]
pub enum Flow {
    /// The next one follows.
    GoesOn,
    /// The rule or the file ends with this value.
    Returns(TextList),
}

/// The value of a rule whose statements ended so.
pub fn value_of(alloc: Global, ended: Result<Flow, EvalFault>) -> Result<TextList, EvalFault>
    ensures { IsValueOf ended result }
{
    match ended {
        Ok(Flow::GoesOn) => Ok(TextList::new(alloc)),
        Ok(Flow::Returns(value)) => Ok(value),
        Err(fault) => Err(fault),
    }
}

/// What follows a file that ended so: the next statement, unless it was a fault.
pub fn file_ended(ended: Result<Flow, EvalFault>) -> Result<Flow, EvalFault>
    ensures { IsFileEnd ended result }
{
    match ended {
        Ok(_) => Ok(Flow::GoesOn),
        Err(fault) => Err(fault),
    }
}
