//! What the request of a drill comes to.
ghost use Rattle.b2_drill_plan.specs.Laws.{StepsJoin, DrillPlans};

/// The step of a target joins those of the targets before it, and where they stand it joins no more.
pub fn steps_join()
    ensures { StepsJoin }
{}

/// The request without words has a plan of one step for each target, whatever else the project's own text answers.
pub fn drill_plans<E>()
    ensures { DrillPlans E }
{}
