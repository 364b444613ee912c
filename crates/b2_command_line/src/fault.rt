//! Why words cannot be read.

/// Why words cannot be read.
#[derive(Clone, Copy)]
pub enum WordsFault {
    /// The words are not of the grammar.
    Usage,
    OutOfMemory,
}
