//! Calls of declaring rules. A call is written as its rule and its lists, divided by words `:`.
//!
//! - `declaration RULE WORD .. : WORD .. : ..` answers what the call declares: a line with its kind and its name, and below it
//!   a line for each of its lists that is not empty; `none` where there is no such declaration.
//! - `is_refused RULE ..` answers whether what the call declares is refused for its name, `none` where it declares nothing.
//! - `named_directories DIR RULE ..` answers the directories that the call names in the project file of DIR, a line each;
//!   `none` where it declares nothing.
//!
//! Words of one line have one space between them, and `""` is the empty word.

pub mod calls;
pub mod shown;
