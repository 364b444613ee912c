//! What a name stands for.
ghost use Rattle.std.specs.Prelude.{ℕ, List, ◌≡◌};

use crate::text::Text;

/// Something that knows a list of texts for each name. A name that it does not know has the empty list.
pub trait Look {
    /// What the value says of each name.
    ghost answer: { Self → List ℕ → List (List ℕ) };

    /// The texts of a name, none where it is not known.
    fn look(&self, name: &str) -> &[Text]
        ensures { result.now ≡ answer self.now name.now };
}
