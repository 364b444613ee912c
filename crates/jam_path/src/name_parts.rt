//! The parts of a file name.
use b2_base::text::Text;

/// The five parts of a file name; a part that the name lacks is empty.
#[derive(Drop)]
pub struct NameParts {
    /// Where the name belongs to, with its `<` and `>` where it was read from a name.
    pub grist: Text,
    /// The directory, without a slash at its end unless it is the root.
    pub dir: Text,
    /// The file's name without suffix and member.
    pub base: Text,
    /// What stands from the last dot on, with the dot.
    pub suffix: Text,
    /// A part of an archive, without its parentheses.
    pub member: Text,
}
