//! Pairs by their features.
ghost use Rattle.std.specs.Prelude.{◌≡◌, ◌++◌, ◌∷◌, [], ◌<◌, List, None, length, IfOk, OnOk};
ghost use Rattle.std.specs.FinMap as finite;
ghost use Rattle.b2_props.specs.Sets.{Pair};
ghost use Rattle.b2_references.specs.Requests.{by_feature};
ghost use Rattle.b2_references.specs.Grouping.{AreGroups};

use b2_base::fault::OutOfMemory;
use b2_base::list::List;
use b2_base::text::Text;
use b2_base::text_map::TextMap;
use b2_props::pair_list::{PairList, copy_pair};
use std::alloc::Global;

/// Lists of pairs in order.
pub(crate) type PairLists = List<PairList>;

/// The pairs of each feature, and the place of each feature's list.
#[derive(Drop)]
pub(crate) struct Groups {
    lists: Vec<PairList>,
    places: TextMap<usize>,
}

/// Adds a pair at the end.
pub(crate) fn push_copy(list: &mut PairList, pair: &(Text, Text)) -> Result<(), OutOfMemory>
    ensures { OnOk result (list.new ≡ list.old ++ pair.now ∷ []) }
{
    let (feature, value) = copy_pair(pair)?;
    list.push(feature, value)
}

impl Groups {
    fn new(alloc: Global) -> Groups
        ensures { AreGroups [] result }
    {
        let lists = Vec::new(alloc);
        let places = TextMap::new(alloc);
        Groups { lists, places }
    }

    /// Adds the first pair of a feature.
    fn begin(&mut self, alloc: Global, pair: &(Text, Text)) -> Result<(), OutOfMemory>
        ensures lists { OnOk result (self.new.lists.items ≡ self.old.lists.items ++ (pair.now ∷ []) ∷ []) }
        ensures places { OnOk result (self.new.places ≡ finite.insert self.old.places pair.now.0 (length self.old.lists.items)) }
    {
        let _before = self.places.insert(pair.0.copy()?, self.lists.len())?;
        let mut list = PairList::new(alloc);
        push_copy(&mut list, pair)?;
        self.lists.push(list)?;
        Ok(())
    }

    fn add(&mut self, alloc: Global, pair: &(Text, Text)) -> Result<(), OutOfMemory>
        requires { (before : List Pair) × AreGroups before self.old }
        ensures { (before : List Pair) → AreGroups before self.old → OnOk result (AreGroups (before ++ pair.now ∷ []) self.new) }
    {
        match self.places.get(&pair.0).copied() {
            None => self.begin(alloc, pair),
            Some(place) => push_copy(&mut self.lists[place], pair),
        }
    }
}

/// Some pairs by their features.
pub(crate) fn by_feature(alloc: Global, pairs: &[(Text, Text)]) -> Result<PairLists, OutOfMemory>
    ensures { IfOk result (λ made. made ≡ by_feature pairs.now) }
{
    let mut groups = Groups::new(alloc);
    for pair in pairs {
        groups.add(alloc, pair)?;
    }
    Ok(List::from_vec(groups.lists))
}
