//! An update while it runs.
use b2_looks::looks::Looks;
use b2_reach::sights::Sights;

/// An update while it runs.
pub struct Run {
    /// What is known of the steps.
    pub looks: Looks,
    /// What is known of files, and the log.
    pub sights: Sights,
    /// Whether nothing starts after a failure.
    pub quit: bool,
    /// How many steps were updated.
    pub updated: usize,
    /// How many children are to be waited for.
    pub waits: u32,
}

/// By hand, so that dropping one is one call.
impl Drop for Run {
    fn drop(self) {
        let Run {
            looks,
            sights,
            quit: _,
            updated: _,
            waits: _,
        } = self;
        drop(looks);
        drop(sights);
    }
}
