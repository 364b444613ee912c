//! Joined steps, and the paths of outputs. There are current steps, none at first.
//!
//! - `add NAME TEXT : OUTS : INS : DIRS : FLAGS` lets a step join the others and shows its number, or the path that clashes,
//!   or how many steps there would be. A flag is `always` or `notfile`; lists at the end may be left out.
//! - `add_each FROM TO` adds a step `note` with the one output `bin/N` for each number N from the first to the last, up to
//!   the first that is refused, and shows the last answer. `add_deep COUNT` adds one whose output has so many segments.
//! - `steps` shows each step: its number and its name, and its outputs. `into_steps` takes the steps away and shows the same.
//! - `new` takes all steps away.
//! - `source_tail PATH`, `converted_tail TAIL SUFFIX`, with no suffix where none is given, `named_tail DIR NAME` and
//!   `output_path ELEMENTS TAIL` show the path that the call of this name gives.
//! - `location_path DIR LOCATION NAME : ROOTS` shows the path, or the one that would lie outside. `is_in_roots PATH : ROOTS`
//!   shows whether the path lies under a root.

mod adding;
mod paths;
pub mod session;
mod shown;
