//! Whether two steps are equal.
ghost use Rattle.std.specs.Prelude.{◌≡◌};
ghost use Rattle.b2_virtual.specs.Joining.{is_same};

use b2_plan::step::Step;

/// Whether all that two steps are is equal; takes no memory.
#[tactic(auto, unfolding(crate::specs::Joining::is_same))]
pub fn is_same(a: &Step, b: &Step) -> bool
    ensures { result ≡ is_same a.now b.now }
{
    a.name == b.name
        && a.text == b.text
        && a.outs.as_slice() == b.outs.as_slice()
        && a.ins.as_slice() == b.ins.as_slice()
        && a.dirs.as_slice() == b.dirs.as_slice()
        && a.always == b.always
        && a.notfile == b.notfile
}
