//! Why each needed step of a plan is to run or is not, and the removal of all that the steps have made.
//!
//! [`explain::explain`] finds the first cause of each needed step, without starting one and without a write.
//! [`check::check`] decides on its own whether a claimed cause is the right one. [`clean::clean_plan`] removes outputs, and drops
//! their records.
//!
//! # What is proved
//!
//! Over every host:
//!
//! - Explaining and checking change nothing but the reads and the count of faults.
//! - No fault comes but where its count rose.
//! - Cleaning changes only what `specs/Cleaning` allows, whatever comes of it.
//!
//! Where files are visible and the lines of the log are true:
//!
//! - Each needed step is told with its first cause, in order.
//! - A claim is answered with true exactly where it is that cause.
//! - After Ok, cleaning has removed and dropped everything.
//!
//! Laws:
//!
//! - A step has one cause, and so one explanation.
//! - The causes tell which steps an update starts first.
//! - After cleaning each step is to run by the first or the second point.
#![tactic(auto)]

pub mod cause;
mod causes;
pub mod check;
mod checks;
pub mod clean;
pub mod explain;
pub mod fault;
pub mod laws;
pub mod lines;
mod survey;
