//! How an update is asked for.

/// How an update is asked for.
#[derive(Clone, Copy)]
pub struct Options {
    /// How many children may run at a time, from 1 to 64.
    pub jobs: u32,
    /// Whether all that is needed runs.
    pub all: bool,
    /// Whether nothing starts after a failure.
    pub quit: bool,
    /// Whether judging is by digests; else it is by time stamps.
    pub by_digest: bool,
}
