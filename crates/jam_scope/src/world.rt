//! The world of a running build file.
use crate::body::ActionBody;
use crate::parents::Parents;
use crate::roots::Roots;
use crate::rule::Rule;
use crate::steps::Steps;
use b2_base::fault::OutOfMemory;
use b2_base::path::{Path, folder};
use jam_journal::past::Past;
use jam_journal::past_lists::PastLists;
use jam_journal::saved::Saved;
use jam_journal::variables::Variables;
use std::alloc::Global;
use std::marker::Model;

mod finding;
mod frames;
pub mod listing;
mod marks;
mod project;
mod rules;
mod scopes;
mod step;

/// Modules with variables, rules and actions, and a module above each that has one; frames, which bind names for a time; own
/// values of targets; the directory of the project that is being loaded or whose step is being made; the output roots; and the
/// notes of the step whose rule is being run. The global module is the one with the empty name. It is seen as the present world
/// and the marked ones, the newest first.
///
/// A call that answers no `Result` takes no memory. After an error the world is as before.
pub struct World {
    alloc: Global,
    variables: Variables,
    rules: Past<Rule>,
    actions: Past<ActionBody>,
    parents: Parents,
    own: PastLists,
    place: Saved<Path>,
    roots: Saved<Roots>,
    frozen: Saved<bool>,
    steps: Steps,
}

impl Drop for World {
    fn drop(self) {
        let World {
            alloc: _,
            variables,
            rules,
            actions,
            parents,
            own,
            place,
            roots,
            frozen,
            steps,
        } = self;
        drop(variables);
        drop(rules);
        drop(actions);
        drop(parents);
        drop(own);
        drop(place);
        drop(roots);
        drop(frozen);
        drop(steps);
    }
}

impl Model for World {
    ghost use Rattle.std.specs.Prelude.{◌≡◌, length};
    ghost use Rattle.jam_scope.specs.Worlds.{Worlds};
    ghost use Rattle.jam_scope.specs.WorldCodes.{worlds_code};
    ghost use Rattle.jam_scope.specs.WorldParts.{together, worlds_of};

    ghost Value = { Worlds };

    ghost coded = { worlds_code };

    ghost view = { λ w. worlds_of (together w.variables (together w.rules (together w.actions (together w.parents (together w.own (together w.place (together w.roots (together w.frozen w.steps)))))))) };

    ghost invariant = { λ w. length w.variables.1 ≡ length (together w.variables (together w.rules (together w.actions (together w.parents (together w.own (together w.place (together w.roots (together w.frozen w.steps)))))))).1 };
}

impl World {
    ghost use Rattle.std.specs.Prelude.{◌≡◌, IfOk};
    ghost use Rattle.jam_scope.specs.Changes.{first_worlds};

    /// The world at first: no frame, nothing in any module, no own value, the directory `.`, the output roots `bin`, `stage` and
    /// `dist`, which are not frozen, no open step, and no mark.
    pub fn new(alloc: Global) -> Result<World, OutOfMemory>
        ensures { IfOk result (λ made. made ≡ first_worlds) }
    {
        let variables = Variables::new(alloc)?;
        let place = folder(alloc)?;
        let roots = Roots::new(alloc)?;
        Ok(World {
            alloc,
            variables,
            rules: Past::new(alloc),
            actions: Past::new(alloc),
            parents: Parents::new(alloc),
            own: PastLists::new(alloc),
            place: Saved::new(alloc, place),
            roots: Saved::new(alloc, roots),
            frozen: Saved::new(alloc, false),
            steps: Steps::new(alloc),
        })
    }
}
