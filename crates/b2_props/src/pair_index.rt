//! Pairs for look-ups.
ghost use Rattle.std.specs.Prelude.{◌≡◌, ◌++◌, ◌∷◌, [], List, IfOk, OnOk};
ghost use Rattle.std.specs.List.{list_all};
ghost use Rattle.b2_props.specs.Sets.{Pair};
ghost use Rattle.b2_props.specs.Indexing.{is_indexed, IsIndexOf};

use crate::pair_list::copy_pair;
use b2_base::fault::OutOfMemory;
use b2_base::text::Text;
use std::alloc::Global;
use std::collections::BTreeSet;

/// The pairs of a list, in order of their texts.
#[derive(Drop)]
pub struct PairIndex {
    known: BTreeSet<(Text, Text)>,
}

impl PairIndex {
    fn empty(alloc: Global) -> PairIndex
        ensures { IsIndexOf [] result }
    {
        PairIndex {
            known: BTreeSet::new(alloc),
        }
    }

    fn add(&mut self, pair: &(Text, Text)) -> Result<(), OutOfMemory>
        ensures { (pairs : List Pair) → IsIndexOf pairs self.old → OnOk result (IsIndexOf (pairs ++ pair.now ∷ []) self.new) }
    {
        let _is_new = self.known.insert(copy_pair(pair)?)?;
        Ok(())
    }

    /// The index of some pairs.
    pub fn new(alloc: Global, pairs: &[(Text, Text)]) -> Result<PairIndex, OutOfMemory>
        ensures { IfOk result (IsIndexOf pairs.now) }
    {
        let mut index = PairIndex::empty(alloc);
        for pair in pairs {
            index.add(pair)?;
        }
        Ok(index)
    }

    /// Whether a pair is there; takes no memory.
    pub fn has(&self, pair: &(Text, Text)) -> bool
        ensures { result ≡ is_indexed self.now pair.now }
    {
        self.known.contains(pair)
    }

    /// Whether all of some pairs are there; takes no memory.
    pub fn has_all(&self, pairs: &[(Text, Text)]) -> bool
        ensures { result ≡ list_all (is_indexed self.now) pairs.now }
    {
        pairs.iter().all(|pair| self.has(pair))
    }
}
