//! Turns.
ghost use Rattle.std.specs.Prelude.{◌≡◌, ◌+◌, OnOk, OnErr, IfErr};
ghost use Rattle.jam_meaning.specs.Faults.{turns as turns_over};
ghost use Rattle.jam_effects.specs.Causes.{IsFault};
ghost use Rattle.jam_effects.specs.Spots.{spot_of};

use crate::at::At;
use crate::fault::{EvalCause, EvalFault};

/// How many starts of statements, of rounds and of calls are left, of those that there were at first.
#[derive(Clone, Copy)]
pub struct Turns {
    pub left: u32,
    pub budget: u32,
}

impl Turns {
    /// So many turns.
    pub fn new(left: u32) -> Turns
        ensures left { result.left ≡ left }
        ensures budget { result.budget ≡ left }
    {
        Turns { left, budget: left }
    }
}

/// Takes a turn, where one is left.
pub fn take_turn(turns: &mut Turns, at: &At<'_>) -> Result<(), EvalFault>
    ensures ok { OnOk result (turns.old.left ≡ turns.new.left + 1) }
    ensures budget { turns.new.budget ≡ turns.old.budget }
    ensures none { OnErr result (turns.old.left ≡ 0) }
    ensures same { OnErr result (turns.new ≡ turns.old) }
    ensures fault { IfErr result (IsFault (spot_of at.now) (turns_over turns.old.budget)) }
{
    if turns.left == 0 {
        return Err(at.fault(EvalCause::Turns {
            budget: turns.budget,
        }));
    }
    turns.left -= 1;
    Ok(())
}
