//! A list of numbers of steps.
use b2_base::list::List;

/// Numbers of steps in order, seen as the list of them.
pub type NumberList = List<u32>;
