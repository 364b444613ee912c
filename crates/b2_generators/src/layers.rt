//! The layers of generators between two types.
ghost use Rattle.std.specs.Prelude.{[], IfOk, IfNone, IfSome};
ghost use Rattle.std.specs.Str.{bytes_eq};
ghost use Rattle.b2_base.specs.Bytes.{HasNoZero};
ghost use Rattle.b2_generators.specs.Layers.{Moves, AreLayers, IsApart};

use crate::generator_table::GeneratorTable;
use crate::givers::{Givers, givers, move_givers, next_layer};
use crate::places::is_taken_by;
use b2_base::fault::OutOfMemory;
use b2_base::list::List;
use b2_base::text::Text;
use b2_props::props::Props;
use std::alloc::Global;

/// Takes the generators that give the type at the end.
fn first_layer(alloc: Global, givers: &mut Givers, to: &str) -> Result<List<usize>, OutOfMemory>
    requires { HasNoZero to.now }
    ensures { IfOk result (λ first. Moves (λ type. bytes_eq type to.now) givers.old givers.new [] first) }
{
    let mut first = List::new(alloc);
    move_givers(alloc, givers, &Text::new(alloc, to)?, &mut first)?;
    Ok(first)
}

/// The layers between two types, where generators that can be used lead from the one to the other: breadth first, backwards
/// from the end, each type once.
pub(crate) fn layers(
    alloc: Global,
    generators: &GeneratorTable,
    set: &Props,
    from: &str,
    to: &str,
) -> Result<Option<Vec<List<usize>>>, OutOfMemory>
    requires { HasNoZero to.now }
    ensures found { IfOk result (λ found. IfSome found (λ layers. AreLayers generators.now set.now to.now from.now layers.items)) }
    ensures none { IfOk result (λ found. IfNone found (IsApart generators.now set.now to.now from.now)) }
{
    let mut layers = Vec::new(alloc);
    if from == to {
        return Ok(Some(layers));
    }
    let mut givers = givers(alloc, generators, set)?;
    let mut layer = first_layer(alloc, &mut givers, to)?;
    while !layer.as_slice().is_empty() {
        if is_taken_by(generators, layer.as_slice(), from) {
            layers.push(layer)?;
            return Ok(Some(layers));
        }
        let next = next_layer(alloc, &mut givers, generators, layer.as_slice())?;
        layers.push(layer)?;
        layer = next;
    }
    Ok(None)
}
