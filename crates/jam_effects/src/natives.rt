//! What natives are asked.
ghost use Rattle.jam_meaning.specs.Faults.{arity as arity_of, unknown_rule as no_rule};
ghost use Rattle.jam_effects.specs.Causes.{IsFault};
ghost use Rattle.jam_effects.specs.Spots.{spot_of};
ghost use Rattle.jam_effects.specs.declared.turns.Turns.{Turns as Counted};
ghost use Rattle.jam_effects.specs.Does.{DoesInCallOn, DoesApartOn};
ghost use Rattle.jam_effects.specs.AskedNatives.{native_step_at, record_call_at, IsNativeFault};
ghost use Rattle.jam_effects.specs.Views.{truth, step};

use crate::at::At;
use crate::fault::{EvalCause, EvalFault};
use b2_base::text::Text;
use b2_base::text_list::TextList;
use b2_host::files::Files;
use jam_meaning::natives::{NativeError, NativeStep, Natives};
use jam_scope::world::World;
use std::alloc::Global;

/// The fault of a native rule of a name.
fn native_fault(error: NativeError, name: &Text, at: &At<'_>) -> EvalFault
    ensures { IsNativeFault error name.now (spot_of at.now) result }
{
    match error {
        NativeError::Fault(fault) => at.fault(EvalCause::Native(fault)),
        NativeError::Arity => arity(name, at),
        NativeError::Host => EvalFault::Host,
        NativeError::OutOfMemory => EvalFault::OutOfMemory,
    }
}

/// The fault of a rule that cannot take its arguments.
pub fn arity(name: &Text, at: &At<'_>) -> EvalFault
    ensures { IsFault (spot_of at.now) (arity_of name.now) result }
{
    match name.copy() {
        Ok(rule) => at.fault(EvalCause::Arity { rule }),
        Err(_) => EvalFault::OutOfMemory,
    }
}

/// The fault of a name that stands for no rule.
pub fn unknown_rule(name: &Text, at: &At<'_>) -> EvalFault
    ensures { IsFault (spot_of at.now) (no_rule name.now) result }
{
    match name.copy() {
        Ok(name) => at.fault(EvalCause::UnknownRule { name }),
        Err(_) => EvalFault::OutOfMemory,
    }
}

/// What the native rule of a name asks for.
pub fn native_step<N: Natives, F: Files>(
    alloc: Global,
    world: &mut World,
    natives: &mut N,
    files: &mut F,
    name: &Text,
    given: &[TextList],
    at: &At<'_>,
) -> Result<NativeStep, EvalFault>
    ensures { (turns : Counted) → DoesInCallOn N.kept N.meaning F.outside step (native_step_at name.now given.now at.now) world.old turns natives.old files.old world.new turns natives.new files.new result }
{
    match natives.call(alloc, name.as_str(), given, at.line, world, files) {
        Ok(step) => Ok(step),
        Err(error) => Err(native_fault(error, name, at)),
    }
}

/// Tells natives of a call of a name, where it has actions, and answers whether it was recorded.
pub fn record_call<N: Natives>(
    alloc: Global,
    world: &mut World,
    natives: &mut N,
    name: &Text,
    given: &[TextList],
    at: &At<'_>,
) -> Result<bool, EvalFault>
    ensures { DoesApartOn N.kept N.meaning truth (record_call_at name.now given.now at.now) world.old natives.old world.new natives.new result }
{
    if world.find_actions(name.as_str()).is_none() {
        return Ok(false);
    }
    match natives.acted(alloc, name.as_str(), given, at.line, world) {
        Ok(recorded) => Ok(recorded),
        Err(error) => Err(native_fault(error, name, at)),
    }
}
