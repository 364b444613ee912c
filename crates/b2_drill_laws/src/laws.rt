//! How the updates of a drill answer.
ghost use Rattle.b2_drill_laws.specs.Laws.{DrillsGoWell};

use b2_drill_means::laws::{drill_means, no_pattern_is_refused};
use b2_prepare::laws::one_meaning;

/// In each drill every update answers Ok or out of memory, where nothing may go wrong with the host.
pub fn drills_go_well()
    ensures { DrillsGoWell }
{
    drill_means();
    no_pattern_is_refused();
    one_meaning();
}
