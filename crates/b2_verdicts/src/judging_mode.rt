//! Ways of judging.

/// How an update judges steps.
#[derive(Clone, Copy, Debug)]
pub struct JudgingMode {
    /// All that is needed runs.
    pub all: bool,
    /// Judging is by digests; else it is by stamps.
    pub by_digest: bool,
}
