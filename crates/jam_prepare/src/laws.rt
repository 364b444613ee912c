//! A law of what a file and words come to.
ghost use Rattle.jam_prepare.specs.Laws.{OneMeaning};

use jam_engine::laws::one_plan;

/// A file and words come to the same lines, and to one plan or one refusal.
pub fn one_meaning()
    ensures { OneMeaning }
{
    one_plan();
}
