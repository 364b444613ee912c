//! The commands of the part `loads` of a transcript: loading, over files in memory. There are files, none at first, and what was
//! loaded last.
//!
//! - `new` starts over: no files, nothing loaded, 1,000,000 turns for each load.
//! - `edit PATH` makes the text lines of the command the file, `edit PATH BYTES` those bytes, `edit PATH TEXT TIMES` a text, so
//!   many times.
//! - `turns N` gives each load so many turns; `fail_calls KIND N ..` lets the N-th calls of a kind (`read`, `stat`, `list`)
//!   fail from now on.
//! - `load WORDS` loads the projects of the folder, with these target words. It shows the lines of ECHO, and then why the load
//!   is refused, or `ok`. All other commands show what the last load that was not refused has loaded; `left` shows the turns
//!   that the last load left.
//! - `projects` shows each project with its number, directory, file and module, and `in` its parent's number, where it has a
//!   parent. `targets` shows each main target with its project's number, kind and name, and its line. Below each stand its
//!   lists that are not empty: requirements as `<feature>value` after their conditions, or as `@` and the number of a rule.
//! - `tests` shows each test with its project's number, rule, name and line, and below it its sources and requirements.
//! - `indirect` shows the rules of indirect requirements: number, project, rule, line. `dir_of ID ..` shows the directory of
//!   an id, `roots` the output roots.
//! - `count` shows the number of features, `find NAME ..` features with their values and attributes, `parts_of F V` what a
//!   value is composed of; `type_of PATH ..` the types of files, `suffix_of TYPE ..` the first suffixes of types,
//!   `generator ID ..` generators with what they take, give and require.
//! - `decls` shows the recorded calls with their lines.
#![tactic(auto)]

pub mod faults;
pub mod host;
mod load;
mod projects;
pub mod session;
mod shown;
mod tables;
