//! The steps of a plan by their numbers.
ghost use Rattle.std.specs.Prelude.{◌≡◌, Some};
ghost use Rattle.b2_plan.specs.declared.step.Step.{Step};
ghost use Rattle.b2_plan.specs.Plans.{step_at};

use b2_plan::step::Step;

/// The step with a number, which counts from 1.
pub fn step_of(steps: &[Step], number: u32) -> &Step
    requires { (step : Step) × (step_at steps.now number ≡ Some step) }
    ensures { step_at steps.now number ≡ Some result.now }
{
    &steps[number as usize - 1]
}
