//! What the files of a drill come to.
ghost use Rattle.b2_drill_means.specs.Laws.{DrillMeans, NoPatternIsRefused};

use b2_generate::laws::one_plan;
use b2_prepare::laws::one_meaning;
use b2_project::laws::one_ending;
use jam_effects::fault::EvalFault;
use jam_values::laws::one_reading;

/// Where `Jamroot` is that of a drill, the files come to the plan of the drill.
pub fn drill_means()
    ensures { DrillMeans }
{
    one_reading();
}

/// There no pattern is refused.
pub fn no_pattern_is_refused()
    ensures { NoPatternIsRefused }
{
    one_reading();
    one_meaning();
    one_ending();
    one_plan::<EvalFault>();
}
