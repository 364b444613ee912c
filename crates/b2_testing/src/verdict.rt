//! What an update made of a test.

/// A test failed where its marker's step did, or was skipped and needs one that did. It was not run where that step was skipped
/// otherwise. Else it passed.
#[derive(Clone, Copy)]
pub enum Verdict {
    Passed,
    Failed,
    NotRun,
}
