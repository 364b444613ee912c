//! What texts name.
use crate::name::NameList;
use b2_base::path::Path;

/// What a text names: a file, by its path from the folder, or main targets in order, or nothing.
#[derive(Drop)]
pub enum Meaning {
    File { path: Path },
    Targets { names: NameList },
    Nothing,
}
