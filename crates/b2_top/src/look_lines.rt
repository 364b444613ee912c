//! Lines of looks on the sink, each in one write.
ghost use Rattle.b2_request_plan.specs.Plans.{seen};
ghost use Rattle.b2_refusals.specs.Lines.{step_lines};
ghost use Rattle.b2_top.specs.Writing.{Writes};
ghost use Rattle.b2_top.specs.Looks.{table_lines, steps_lines, view_lines, look_report};

use crate::lines::{write_echoes, write_made};
use b2_base::text::Text;
use b2_command_line::words::View;
use b2_host::fault::IoFault;
use b2_host::sink::Sink;
use b2_plan::step::Step;
use b2_refusals::lines::{table_line, text_line};
use b2_request_plan::planned::{Built, Planned};
use b2_runs::steps::start_line;
use std::alloc::Global;

fn write_table<S: Sink>(alloc: Global, table: &[Built], out: &mut S) -> Result<(), IoFault>
    ensures { Writes (table_lines table.now) (S.output out.old) (S.output out.new) result }
{
    for row in table {
        let made = table_line(alloc, row.target.as_str(), row.alternative, &row.set);
        write_made(made, out)?;
    }
    Ok(())
}

/// Writes the line of a step's start, if it has one, and then its text.
fn write_step<S: Sink>(alloc: Global, step: &Step, out: &mut S) -> Result<(), IoFault>
    ensures { Writes (step_lines step.now) (S.output out.old) (S.output out.new) result }
{
    write_made(start_line(alloc, step), out)?;
    write_made(text_line(alloc, step), out)
}

fn write_steps<S: Sink>(alloc: Global, steps: &[Step], out: &mut S) -> Result<(), IoFault>
    ensures { Writes (steps_lines steps.now) (S.output out.old) (S.output out.new) result }
{
    for step in steps {
        write_step(alloc, step, out)?;
    }
    Ok(())
}

/// Writes what is asked for of a plan.
fn write_view<S: Sink>(
    alloc: Global,
    view: View,
    planned: &Planned,
    out: &mut S,
) -> Result<(), IoFault>
    ensures { Writes (view_lines view (seen planned.now)) (S.output out.old) (S.output out.new) result }
{
    match view {
        View::Steps => write_steps(alloc, planned.plan.steps.as_slice(), out),
        View::Table => write_table(alloc, planned.table.as_slice(), out),
    }
}

/// Writes the lines of ECHO, and then what is asked for of a plan.
pub fn write_look<S: Sink>(
    alloc: Global,
    echoes: &[Text],
    view: View,
    planned: &Planned,
    out: &mut S,
) -> Result<(), IoFault>
    ensures { Writes (look_report echoes.now view (seen planned.now)) (S.output out.old) (S.output out.new) result }
{
    write_echoes(alloc, echoes, out)?;
    write_view(alloc, view, planned, out)
}
