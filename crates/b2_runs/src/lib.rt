//! What a run of an update is, and the laws that its outcome follows from; and steps by their numbers.
//!
//! # What is proved
//!
//! The modules are named after what they prove. A law is a function with an empty body, whose contract is the theorem.
//!
//! - A run, an outcome, a report, a log, an answer and a session are definitions. The laws follow from these alone.
//! - The clauses of the update, of builds and of sessions rest on the laws.
//! - Some laws are for the reader alone, as those on what the next update does not start again.
#![tactic(auto)]

pub mod children_follow_events;
pub mod clean_build_is_one;
pub mod disk_stays_sound;
pub mod events_are_in_order;
pub mod failures_leave_nothing;
pub mod files_are_read_once;
pub mod judged_however_run;
pub mod last_line_is_right;
pub mod log_file_stays_true;
pub mod log_follows_events;
pub mod log_stays_true;
pub mod next_starts_no_more;
pub mod no_work_is_lost;
pub mod nothing_is_left;
pub mod report_lines_follow;
pub mod runs_go_on;
pub mod scan_lines_tell;
pub mod sessions_end_clean;
pub mod settled_afterwards;
pub mod settled_is_clean;
pub mod stale_by_points;
pub mod steps;
pub mod steps_by_numbers;
pub mod stuck_is_cycle;
pub mod what_answers_say;
