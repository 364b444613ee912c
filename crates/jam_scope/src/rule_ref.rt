//! Where a rule or actions stand.

/// A name in a module, under which a rule or actions stand. It borrows its texts, so that looking up takes no memory.
#[derive(Clone, Copy)]
pub struct RuleRef<'a> {
    /// The module; the global one has the empty name.
    pub module: &'a str,
    /// The name in the module.
    pub name: &'a str,
}
