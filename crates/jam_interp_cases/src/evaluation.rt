//! The part `evaluation`: files in memory that are run with the native rules. The text lines of a command are statements.
//!
//! - `new` starts over: no files, an empty world, the global module, 1,000,000 turns for each run.
//! - `file PATHS` puts a file with the text lines at each path; `module NAME` makes this the module of the files that are run.
//! - `turns N` gives each run so many turns.
//! - `run PATH` runs the text lines as a file of this path. It shows the lines of ECHO, then why it ended, unless all was done.
//! - `call_rolled RULE LISTS` calls a rule with lists that are divided by `:`, and shows its value, a text on each line.
//! - `step_text NAME : OUTS : INS : PROPERTIES` shows the text of a step, declared at line 1 of `Jamroot` in this module, and
//!   what its rule noted.
//! - `value NAMES` shows what variables hold in this module, `on TARGET NAMES` what they hold on a target. `left` shows the turns
//!   that the last run left, and `decls` the recorded calls.

mod calls;
pub mod faults;
mod looks;
mod machine;
mod running;
pub mod session;
mod steps;
