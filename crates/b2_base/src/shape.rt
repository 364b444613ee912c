//! How many texts the lists of a call have.
ghost use Rattle.std.specs.Prelude.{◌≡◌};
ghost use Rattle.b2_base.specs.Shapes.{is_counted, are_empty, has_shape};

use crate::text::Text;
use crate::text_list::TextList;

/// How many texts a list has.
#[derive(Clone, Copy)]
pub enum Count {
    Nothing,
    One,
    AtMostOne,
    Any,
    AtLeastOne,
}

impl Count {
    /// Whether some texts are as many as this says; takes no memory.
    pub fn holds(self, texts: &[Text]) -> bool
        ensures { result ≡ is_counted self texts.now }
    {
        match self {
            Count::Nothing => texts.is_empty(),
            Count::One => texts.len() == 1,
            Count::AtMostOne => texts.len() <= 1,
            Count::Any => true,
            Count::AtLeastOne => texts.len() >= 1,
        }
    }
}

/// Whether nothing stands in some lists; takes no memory.
pub fn are_empty(lists: &[TextList]) -> bool
    ensures { result ≡ are_empty lists.now }
{
    lists
        .iter()
        .all(|list| Count::Nothing.holds(list.as_slice()))
}

/// Whether each list has as many texts as is said. Lists that are not given are empty, and nothing stands in further
/// ones. Takes no memory.
pub fn has_shape(counts: &[Count], lists: &[TextList]) -> bool
    ensures { result ≡ has_shape counts.now lists.now }
{
    match counts {
        [] => are_empty(lists),
        [count, others @ ..] => match lists {
            [] => count.holds(&[]) && has_shape(others, &[]),
            [list, more @ ..] => count.holds(list.as_slice()) && has_shape(others, more),
        },
    }
}
