//! A file that stood.
use crate::contents::Content;
use b2_base::path::Path;

/// A path with the bytes that stood there.
#[derive(Drop)]
pub struct Version {
    pub path: Path,
    pub content: Content,
}
