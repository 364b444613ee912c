//! The words of the command line. There is one command, named after the call that it makes:
//!
//! - `read_words WORD ..` answers `usage` where the words are not of the grammar. Else it answers what they ask for:
//!   `build N` with the number of jobs and then `all`, `quit` and `digest` where they stand, `look steps`, `look table` or
//!   `drill N`; and below it a line `<WORD>` for each word that is no option.

pub mod session;
mod shown;
