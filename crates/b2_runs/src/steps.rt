//! Steps of a plan by their numbers, and what a report names them by.
ghost use Rattle.std.specs.Prelude.{◌≡◌, IfOk, string_bytes};
ghost use Rattle.std.specs.Option.{option_copied};
ghost use Rattle.b2_plan.specs.Plans.{step_at};
ghost use Rattle.b2_runs.specs.Reports.{start_line};
ghost use Rattle.b2_base.specs.Lists.{first_of};

use b2_base::fault::OutOfMemory;
use b2_plan::step::Step;
use std::alloc::Global;

/// The step with a number, counted from 1, where there is one.
pub fn find_step(steps: &[Step], number: u32) -> Option<&Step>
    ensures { option_copied result ≡ step_at steps.now number }
{
    if number == 0 {
        return None;
    }
    steps.get(number as usize - 1)
}

/// The step's first output, or the empty text where it has none.
pub fn first_path(step: &Step) -> &str
    ensures { result.now ≡ first_of step.now.outs }
{
    match step.outs.as_slice().first() {
        None => "",
        Some(out) => out.as_str(),
    }
}

/// The line of a step's start: its name and its first output; the empty text where the name is empty.
pub fn start_line(alloc: Global, step: &Step) -> Result<String, OutOfMemory>
    ensures { IfOk result (λ line. string_bytes line ≡ start_line step.now) }
{
    let name = step.name.as_str();
    if name.is_empty() {
        return Ok(String::new(alloc));
    }
    let out = first_path(step);
    Ok(format!(in alloc; "{name} {out}\n")?)
}
