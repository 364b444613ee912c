//! Calls from outside any statement.
ghost use Rattle.std.specs.Prelude.{◌≡◌, ◌≤◌, IfErr};
ghost use Rattle.b2_base.specs.Bytes.{HasNoZero};
ghost use Rattle.b2_host.specs.OutsideLaws.{Keeps};
ghost use Rattle.jam_meaning.specs.Refused.{TookTurn};
ghost use Rattle.jam_effects.specs.Causes.{refused_of, HoldsNoMemory};
ghost use Rattle.jam_effects.specs.Does.{TellsOn, Counts};
ghost use Rattle.jam_interp.specs.FunctionParts.{call_rolled_at, call_value};
ghost use Rattle.jam_interp.specs.FunctionParts.{call_value};

use crate::calls::call;
use b2_base::text::Text;
use b2_base::text_list::TextList;
use b2_host::files::Files;
use jam_effects::at::{At, LEVELS};
use jam_effects::fault::EvalFault;
use jam_effects::turns::Turns;
use jam_meaning::natives::Natives;
use jam_scope::world::World;
use std::alloc::Global;

/// A struct of its own, since more may be told of a call than its value.
#[derive(Drop)]
pub struct CallAnswer {
    pub value: TextList,
}

/// Calls a rule from outside any statement, and undoes what it changed in the world, after a fault too. A fault that comes while
/// no statement runs has the empty path and line 0; one of the host comes only where its count of faults rose.
pub fn call_rolled<N: Natives, F: Files>(
    alloc: Global,
    world: &mut World,
    rule: &str,
    args: &[TextList],
    turns: &mut Turns,
    natives: &mut N,
    files: &mut F,
) -> Result<CallAnswer, EvalFault>
    requires { HasNoZero rule.now }
    ensures told { TellsOn N.kept N.meaning F.outside call_value (call_rolled_at rule.now args.now) world.old turns.old natives.old files.old world.new turns.new natives.new files.new result }
    ensures world { world.new ≡ world.old }
    ensures turns { turns.new.left ≤ turns.old.left }
    ensures budget { turns.new.budget ≡ turns.old.budget }
    ensures meaning { N.meaning natives.new ≡ N.meaning natives.old }
    ensures disk { (F.outside files.new).disk ≡ (F.outside files.old).disk }
    ensures children { (F.outside files.new).children ≡ (F.outside files.old).children }
    ensures keeps { Keeps (F.outside files.old) (F.outside files.new) }
    ensures counts { Counts result (F.outside files.old) (F.outside files.new) }
    ensures whole { IfErr result HoldsNoMemory }
    ensures took { TookTurn (refused_of result) turns.old.left turns.new.left }
{
    let name = Text::new(alloc, rule)?;
    let nowhere = Text::new(alloc, "")?;
    let mark = world.mark()?;
    let at = At {
        path: &nowhere,
        line: 0,
        levels: LEVELS,
    };
    let ended = call(alloc, world, turns, natives, files, &name, args, &at);
    world.roll_back(mark);
    let value = ended?;
    Ok(CallAnswer { value })
}
