//! The first two ways down the layers.
ghost use Rattle.std.specs.Prelude.{◌≡◌, ℕ, suc, ◌≤◌, ◌&&◌, length, IfOk};
ghost use Rattle.b2_generators.specs.Places.{takes_any_at};
ghost use Rattle.b2_generators.specs.Descents.{is_above, is_below, branch_after, IsLowest, CanGoOn, IsConnected, IsWalk};

use crate::generator_table::GeneratorTable;
use crate::places::{takes_any, targets_at};
use b2_base::fault::OutOfMemory;
use b2_base::list::List;
use b2_base::text::Text;
use std::alloc::Global;

/// Where the second way leaves the first one.
#[derive(Clone, Copy)]
pub(crate) struct Branch {
    /// How many generators stand before.
    pub before: usize,
    /// The generator that stands there in the second way.
    pub place: usize,
    /// How many come after it.
    pub after: usize,
}

/// The first way, and where the second one leaves it, if there are two.
#[derive(Drop)]
pub(crate) struct Descent {
    pub places: List<usize>,
    pub branch: Option<Branch>,
}

fn is_above(bound: Option<usize>, place: usize) -> bool
    ensures { result ≡ is_above bound place }
{
    match bound {
        None => true,
        Some(bound) => bound < place,
    }
}

fn is_below(place: usize, found: Option<usize>) -> bool
    ensures { result ≡ is_below place found }
{
    match found {
        None => true,
        Some(found) => place < found,
    }
}

/// Whether a place above the bound, whose generator takes one of the types, lies below what was found.
fn improves(
    generators: &GeneratorTable,
    types: &[Text],
    bound: Option<usize>,
    place: usize,
    found: Option<usize>,
) -> bool
    ensures { result ≡ (is_above bound place && takes_any_at generators.now types.now place && is_below place found) }
{
    is_above(bound, place) && takes_any(generators, types, place) && is_below(place, found)
}

/// The lowest place of a layer above a bound whose generator takes one of the types; takes no memory.
fn lowest(
    generators: &GeneratorTable,
    layer: &[usize],
    types: &[Text],
    bound: Option<usize>,
) -> Option<usize>
    ensures { IsLowest (λ place. is_above bound place && takes_any_at generators.now types.now place) layer.now result }
{
    let mut found = None;
    for place in layer {
        if improves(generators, types, bound, *place, found) {
            found = Some(*place);
        }
    }
    found
}

fn branch_after(
    branch: Option<Branch>,
    next: Option<usize>,
    before: usize,
    after: usize,
) -> Option<Branch>
    ensures { result ≡ branch_after branch next before after }
{
    match next {
        None => branch,
        Some(place) => Some(Branch {
            before,
            place,
            after,
        }),
    }
}

/// The way down so many layers that comes first, from some types on: the lowest place in each layer. The second one leaves
/// it where there is another place for the last time.
pub(crate) fn descend(
    alloc: Global,
    generators: &GeneratorTable,
    layers: &[List<usize>],
    depth: usize,
    types: &[Text],
) -> Result<Descent, OutOfMemory>
    requires within { depth ≤ length layers.now }
    requires connected { IsConnected generators.now layers.now }
    requires start { (count : ℕ) → depth ≡ suc count → CanGoOn generators.now layers.now count types.now }
    ensures { IfOk result (λ made. IsWalk generators.now layers.now depth types.now made.places made.branch) }
{
    let mut places = List::new(alloc);
    let mut branch = None;
    let mut types = types;
    let mut left = depth;
    while left > 0 {
        left -= 1;
        let layer = layers[left].as_slice();
        let Some(place) = lowest(generators, layer, types, None) else {
            unreachable!()
        };
        let next = lowest(generators, layer, types, Some(place));
        branch = branch_after(branch, next, places.as_slice().len(), left);
        places.push(place)?;
        types = targets_at(generators, place);
    }
    Ok(Descent { places, branch })
}
