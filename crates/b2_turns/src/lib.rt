//! What becomes of an update as its steps start and end.
//!
//! [`starts::take_start`] takes the next step that is to start. After its end [`ends::note_made`] appends its record, or
//! [`ends::clear_failed`] leaves nothing of it; then [`ends::finish`] tells the schedule.
//!
//! # What is proved
//!
//! Over every host:
//!
//! - The step that is taken is the lowest that was judged stale.
//! - What was seen of its outputs is forgotten.
//! - After each end the schedule is as it is told.
//!
//! Where files are visible and a run is under way, it is so after each start and each end:
//!
//! - A step that ended well has its record.
//! - Of a step that failed nothing stands, and no record counts.
//! - Where no step can be looked at, the schedule has what the run has.
#![tactic(auto)]

pub mod ends;
pub mod laws;
pub mod starts;
