//! Whether a graph can be planned.
ghost use Rattle.std.specs.Prelude.{◌↔◌, IsTrue};
ghost use Rattle.std.specs.List.{AllByRecursion};
ghost use Rattle.jam_graph.specs.Graphs.{HasActions, HasTarget};

use crate::graph::{Act, Graph};
use jam_scope::rule_ref::RuleRef;
use jam_scope::world::World;

/// Whether an act has a target, and actions stand at its name and module.
fn is_ready_act(world: &World, act: &Act) -> bool
    ensures { IsTrue result ↔ (HasActions world.now.now act.now × HasTarget act.now) }
{
    let at = RuleRef {
        module: act.module.as_str(),
        name: act.name.as_str(),
    };
    !act.targets.as_slice().is_empty() && world.action_body(&at).is_some()
}

/// Whether each act of a graph has a target and actions.
pub(crate) fn is_ready(graph: &Graph) -> bool
    ensures { IsTrue result ↔ AllByRecursion (λ act. HasActions graph.now.world.now act × HasTarget act) graph.now.acts }
{
    for act in graph.acts.as_slice() {
        if !is_ready_act(&graph.world, act) {
            return false;
        }
    }
    true
}
