//! A set of properties.
ghost use Rattle.std.specs.Prelude.{◌≡◌, ◌↔◌, [], IfOk, IsTrue};
ghost use Rattle.std.specs.List.{list_any};
ghost use Rattle.b2_props.specs.Sets.{same};
ghost use Rattle.b2_props.specs.Numbers.{number_of};

use crate::numbered_pairs::NumberedPairs;
use b2_base::fault::OutOfMemory;
use b2_base::text::Text;
use std::alloc::Global;
use std::marker::Model;
use std::rc::Rc;

/// A set of properties, seen as the list of its pairs of a feature and a value: first the features that are not free, in
/// the order of their registry and each once at most, then the free pairs in order, each once. The copies of a set share its
/// pairs, and the empty set takes no memory.
pub struct Props {
    shared: Option<Rc<NumberedPairs>>,
}

impl Model for Props {
    ghost use Rattle.std.specs.Prelude.{ℕ, List, []};
    ghost use Rattle.std.specs.Option.{option_map_or};

    ghost Value = { List (List ℕ × List ℕ) };

    ghost view = { λ p. option_map_or (λ numbered. numbered.value.pairs.items) p.shared [] };
}

/// By hand, so that dropping a set is one call: a derived drop is two cases wherever a set is dropped.
impl Drop for Props {
    fn drop(self) {
        let Props { shared } = self;
        drop(shared);
    }
}

impl Props {
    /// The empty set.
    pub fn new(_alloc: Global) -> Props
        ensures { result ≡ [] }
    {
        Props { shared: None }
    }

    /// These pairs as a set.
    pub(crate) fn from_vec(alloc: Global, pairs: Vec<(Text, Text)>) -> Result<Props, OutOfMemory>
        ensures { IfOk result (λ made. made ≡ pairs.items) }
    {
        if pairs.is_empty() {
            return Ok(Props::new(alloc));
        }
        let shared = Rc::new(alloc, NumberedPairs::new(pairs))?;
        Ok(Props {
            shared: Some(shared),
        })
    }

    /// The same set again, whose pairs are shared; takes no memory.
    pub fn copy(&self, _alloc: Global) -> Result<Props, OutOfMemory>
        ensures { IfOk result (λ made. made ≡ self.now) }
    {
        let shared = match &self.shared {
            None => None,
            Some(shared) => Some(shared.clone()?),
        };
        Ok(Props { shared })
    }

    /// The pairs in order; takes no memory.
    pub fn pairs(&self) -> &[(Text, Text)]
        ensures { result.now ≡ self.now }
    {
        match &self.shared {
            None => &[],
            Some(shared) => shared.pairs.as_slice(),
        }
    }

    /// The number of the list of pairs; takes no memory.
    #[tactic(auto, unfolding(crate::specs::Numbers::number_of))]
    fn number(&self) -> u64
        ensures { result ≡ number_of self.now }
    {
        match &self.shared {
            None => 0,
            Some(shared) => shared.number,
        }
    }

    /// Whether two sets have the same pairs in the same order; takes no memory. Sets with different numbers are told apart
    /// by these alone.
    pub fn equals(&self, other: &Props) -> bool
        ensures { IsTrue result ↔ (self.now ≡ other.now) }
    {
        self.number() == other.number() && self.pairs() == other.pairs()
    }

    /// Whether the set has a feature with this value; takes no memory.
    pub fn contains(&self, feature: &str, value: &str) -> bool
        ensures { result ≡ list_any (λ pair. same pair (feature.now, value.now)) self.now }
    {
        self.pairs().iter().any(|pair| pair.0.as_str() == feature && pair.1.as_str() == value)
    }
}
