//! The project: its files and its plan.
ghost use Rattle.std.specs.Prelude.{◌≡◌, ◌≤◌, [], ◌∷◌, IfOk, codes, length};
ghost use Rattle.b2_plan.specs.Plans.{Apart};
ghost use Rattle.b2_virtual.specs.Clashes.{AreApart};

use crate::asked::Asked;
use crate::fault::CostFault;
use crate::housed::are_housed;
use b2_base::path::Path;
use b2_base::path_list::{PathList, push_paths};
use b2_base::text::{Text, has_no_zero};
use b2_plan::plan::Plan;
use b2_plan::step::{Step, StepList};
use b2_virtual::builder::Builder;
use std::alloc::Global;

fn text_of(text: String) -> Result<Text, CostFault> {
    if !has_no_zero(text.as_str()) {
        return Err(CostFault::Plan);
    }
    Ok(Text::from_string(text))
}

fn output_path(alloc: Global, number: u32) -> Result<Path, CostFault> {
    let text = format!(in alloc; "bin/part{}/out{number}", number / 100)?;
    Ok(Path::normal(alloc, text.as_str())?)
}

fn source_path(alloc: Global, number: u32) -> Result<Path, CostFault> {
    let text = format!(in alloc; "src/part{}/in{number}", number / 100)?;
    Ok(Path::normal(alloc, text.as_str())?)
}

/// The sources.
pub fn source_paths(alloc: Global, count: u32) -> Result<PathList, CostFault> {
    let mut paths = PathList::new(alloc);
    for number in 0..count {
        paths.push(source_path(alloc, number)?)?;
    }
    Ok(paths)
}

/// The sources that a step reads: those that come next, after the last one the first again.
fn sources_of(
    alloc: Global,
    inputs: u32,
    sources: &[Path],
    number: u32,
) -> Result<PathList, CostFault> {
    let mut ins = PathList::new(alloc);
    if sources.is_empty() {
        return Ok(ins);
    }
    let first = (number as usize).wrapping_mul(inputs as usize);
    for next in 0..inputs {
        let place = first.wrapping_add(next as usize) % sources.len();
        ins.push(sources[place].copy()?)?;
    }
    Ok(ins)
}

/// The command of a step, which copies its first input.
fn command(alloc: Global, ins: &[Path], out: &Path) -> Result<Text, CostFault> {
    let first = ins.first().map_or("", |path| path.as_str());
    text_of(format!(in alloc; "cat {first} > {}", out.as_str())?)
}

/// The step with a number, counted from 0, of which the outputs of the steps before it are given.
fn step_of(
    alloc: Global,
    asked: Asked,
    sources: &[Path],
    outputs: &[Path],
    number: u32,
) -> Result<Step, CostFault> {
    let mut ins = sources_of(alloc, asked.inputs, sources, number)?;
    if asked.chained {
        if let Some(before) = outputs.last() {
            ins.push(before.copy()?)?;
        }
    }
    let out = output_path(alloc, number)?;
    let text = command(alloc, ins.as_slice(), &out)?;
    let mut outs = PathList::new(alloc);
    outs.push(out)?;
    Ok(Step {
        name: text_of(String::from_str(alloc, "copy")?)?,
        text,
        outs,
        ins,
        dirs: PathList::new(alloc),
        always: false,
        notfile: false,
    })
}

/// The one output root.
fn output_roots(alloc: Global) -> Result<PathList, CostFault>
    ensures { IfOk result (λ roots. roots ≡ codes "bin" ∷ []) }
{
    let mut roots = PathList::new(alloc);
    roots.push(Path::normal(alloc, "bin")?)?;
    Ok(roots)
}

/// The plan of steps, whose output root is `bin`.
fn plan_with(alloc: Global, steps: StepList, wanted: PathList) -> Result<Plan, CostFault>
    requires few { length steps ≤ 65536 }
    requires apart { AreApart steps }
    ensures { IfOk result (λ plan. Apart plan.steps plan.roots) }
{
    let roots = output_roots(alloc)?;
    if !are_housed(roots.as_slice(), steps.as_slice()) {
        return Err(CostFault::Plan);
    }
    Ok(Plan::new(alloc, steps, wanted, roots)?)
}

/// The plan of so many steps. All that they make is wanted.
pub fn plan_of(alloc: Global, asked: Asked, sources: &[Path]) -> Result<Plan, CostFault>
    ensures { IfOk result (λ plan. Apart plan.steps plan.roots) }
{
    let mut builder = Builder::new(alloc);
    let mut outputs = PathList::new(alloc);
    for number in 0..asked.steps {
        let step = step_of(alloc, asked, sources, outputs.as_slice(), number)?;
        push_paths(&mut outputs, step.outs.as_slice())?;
        if builder.add(step).is_err() {
            return Err(CostFault::Plan);
        }
    }
    plan_with(alloc, builder.into_steps(), outputs)
}
