//! When a log is replaced as it is opened.

/// For what a log is opened. In either case one with a torn tail is replaced by its kept lines, and one that is too large by
/// the empty text.
#[derive(Clone, Copy)]
pub enum OpeningRule {
    /// For an update: a long log, of more lines than twice the kept ones plus 100, is replaced by its kept lines too.
    Update,
    /// For a cut: a long log stays as it is.
    Cut,
}
