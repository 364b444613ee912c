//! The pieces that a request asks for, generated one after another.
ghost use Rattle.std.specs.Prelude.{◌≡◌};
ghost use Rattle.b2_generate.specs.Generating.{IsReady};
ghost use Rattle.b2_generate.specs.Pieces.{GivesPiece, GivesPieces};

use crate::fault::GenFault;
use crate::generation::Generation;
use b2_base::list::List;
use b2_evaluator::evaluate::Evaluate;
use b2_references::asked::{AskedList, AskedPiece};

/// The place among all nodes of what a piece gives. A word that names no target is refused.
#[tactic(none)]
fn give<'a, E: Evaluate + Drop>(
    generation: &mut Generation<'a, E>,
    piece: AskedPiece,
) -> Result<usize, GenFault<E::Fault>>
    requires { IsReady generation.old }
    ensures piece { GivesPiece E.answers E.kept E.faults E.is_host_fault E.is_out_of_memory E.CanFault piece generation.old generation.new result }
    ensures project { generation.new.asker.index.now ≡ generation.old.asker.index.now }
    ensures roots { generation.new.roots.now ≡ generation.old.roots.now }
{
    match piece {
        AskedPiece::Main { name, set } => generation.generate(name, set),
        AskedPiece::NoTarget { word } => Err(GenFault::NoTarget { name: word }),
    }
}

/// The places of what pieces give, in order, up to the first refusal. A main target that an earlier piece asked for with the same
/// set is generated again, and no step is new.
#[tactic(none)]
pub fn give_all<'a, E: Evaluate + Drop>(
    generation: &mut Generation<'a, E>,
    pieces: AskedList,
) -> Result<List<usize>, GenFault<E::Fault>>
    requires { IsReady generation.old }
    ensures pieces { GivesPieces E.answers E.kept E.faults E.is_host_fault E.is_out_of_memory E.CanFault pieces generation.old generation.new result }
    ensures project { generation.new.asker.index.now ≡ generation.old.asker.index.now }
    ensures roots { generation.new.roots.now ≡ generation.old.roots.now }
{
    let mut places = List::new(generation.asker.alloc);
    for piece in pieces.into_vec() {
        let place = give(generation, piece)?;
        places.push(place)?;
    }
    Ok(places)
}
