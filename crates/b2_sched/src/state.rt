//! What became of a step.

/// A step is judged once. A stale one is started once, and settles or fails as it ends; a fresh one settles at once.
#[derive(Clone, Copy)]
pub enum State {
    Unjudged,
    Stale,
    Running,
    Settled,
    Failed,
}
