//! What an update that failed names.
use crate::number_list::NumberList;
use b2_base::path_list::PathList;

/// The steps that failed and those that were skipped, by their numbers in rising order, and the missing files in byte
/// order.
#[derive(Drop)]
pub struct FailedLists {
    pub failed: NumberList,
    pub skipped: NumberList,
    pub missing: PathList,
}
