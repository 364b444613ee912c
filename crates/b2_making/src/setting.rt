//! What all steps of a plan are made in.
use b2_base::path::Path;
use b2_features::registry::Registry;
use b2_generators::types::Types;
use std::alloc::Global;

/// What all steps of a plan are made in: where memory comes from, what is registered, and the output roots.
#[derive(Clone, Copy)]
pub struct Setting<'a> {
    pub alloc: Global,
    pub registry: &'a Registry,
    pub types: &'a Types,
    pub roots: &'a [Path],
}
