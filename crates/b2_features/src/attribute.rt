//! The attributes of features.
ghost use Rattle.std.specs.Prelude.{◌≡◌};
ghost use Rattle.b2_features.specs.Attributes.{name_of, has, is_attribute};

use b2_base::text::{Text, is_among};

/// What a feature may be declared to be.
#[derive(Clone, Copy)]
pub enum Attribute {
    /// A value stands for itself, without the feature's name.
    Implicit,
    /// A value may be composed of properties of other features.
    Composite,
    /// Any text is a value, and a set may have several.
    Free,
    /// A set need not have a value.
    Optional,
    /// A target hands the value on to its dependencies.
    Propagated,
    /// The value always shows in the path of what is built.
    Symmetric,
    /// The value never shows in the path of what is built.
    Incidental,
    /// The value is a path.
    Path,
    /// The value names a target.
    Dependency,
}

impl Attribute {
    /// How the attribute is written; takes no memory.
    pub fn name(self) -> &'static str
        ensures { result.now ≡ name_of self }
    {
        match self {
            Attribute::Implicit => "implicit",
            Attribute::Composite => "composite",
            Attribute::Free => "free",
            Attribute::Optional => "optional",
            Attribute::Propagated => "propagated",
            Attribute::Symmetric => "symmetric",
            Attribute::Incidental => "incidental",
            Attribute::Path => "path",
            Attribute::Dependency => "dependency",
        }
    }

    /// Whether the attribute stands among some words; takes no memory.
    pub fn stands_in(self, words: &[Text]) -> bool
        ensures { result ≡ has self words.now }
    {
        let name = self.name();
        words.iter().any(|word| word.as_str() == name)
    }
}

/// How the attributes are written.
static NAMES: [&str; 9] = [
    "implicit",
    "composite",
    "free",
    "optional",
    "propagated",
    "symmetric",
    "incidental",
    "path",
    "dependency",
];

/// Whether a word is an attribute; takes no memory.
pub fn is_attribute_word(word: &str) -> bool
    ensures { result ≡ is_attribute word.now }
{
    is_among(word, &NAMES)
}
