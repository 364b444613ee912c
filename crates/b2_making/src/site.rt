//! A main target whose steps are made.
use b2_base::path::Path;
use b2_base::text::Text;
use b2_declaring_calls::declaration::Kind;
use b2_props::props::Props;
use b2_virtual::entry::Supply;

/// What making the steps of a main target reads of it and of its project.
#[derive(Clone, Copy)]
pub struct Site<'a> {
    pub kind: Kind,
    pub name: &'a Text,
    /// The rule of a `make`; empty for others.
    pub rule: &'a Text,
    /// The line of the call that declares it.
    pub line: u32,
    /// The directory of its project, from the folder.
    pub dir: &'a Path,
    /// The module of its project.
    pub owner: &'a Text,
    /// The file of its project.
    pub file: &'a Path,
    /// Its properties.
    pub set: &'a Props,
    /// What its sources supply.
    pub sources: &'a [Supply],
    /// What its sources and its libraries supply.
    pub parts: &'a [Supply],
    /// What is to be there before each of its steps, and is no input of its text.
    pub order: &'a [Path],
}
