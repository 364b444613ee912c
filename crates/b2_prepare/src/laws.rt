//! Laws of what files and words come to.
ghost use Rattle.b2_prepare.specs.Laws.{OneMeaning, OneAsking, NoneAsked};

use b2_generate::laws::one_plan;
use b2_project::laws::one_ending;
use jam_effects::fault::EvalFault;

/// The files of a disk and the words of a command come to one thing.
pub fn one_meaning()
    ensures { OneMeaning }
{
    one_ending();
    one_plan::<EvalFault>();
}

/// A plan that they come to asks for its tests in one way, and for none where the load declared none.
pub fn one_asking()
    ensures one { OneAsking }
    ensures none { NoneAsked }
{
    one_ending();
}
