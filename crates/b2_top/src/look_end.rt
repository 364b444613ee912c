//! What the answer of a look is, and what is written with it.
ghost use Rattle.std.specs.Prelude.{IfErr};
ghost use Rattle.b2_prepare.specs.Preparing.{IsWhole as IsWholeStop};
ghost use Rattle.b2_request_plan.specs.Plans.{seen};
ghost use Rattle.b2_top.specs.Writing.{Says};
ghost use Rattle.b2_top.specs.Looks.{look_report};
ghost use Rattle.b2_top.specs.Tells.{AnswersWith};

use crate::answer::Answer;
use crate::look_lines::write_look;
use crate::tell::{tell_stop, unwritten};
use b2_base::text::Text;
use b2_command_line::words::View;
use b2_host::sink::Sink;
use b2_prepare::prepare::Preparation;
use b2_request_plan::planned::Planned;
use std::alloc::Global;
use std::mem::forget;

/// Writes the report of a look at a plan.
fn tell_look<S: Sink>(
    alloc: Global,
    view: View,
    echoes: &[Text],
    planned: &Planned,
    out: &mut S,
) -> Answer
    ensures { Says Answer.Ok (look_report echoes.now view (seen planned.now)) (S.output out.old) (S.output out.new) result }
{
    match write_look(alloc, echoes, view, planned, out) {
        Ok(()) => Answer::Ok,
        Err(fault) => unwritten(fault),
    }
}

/// Tells what the files and the words came to.
pub fn tell<S: Sink>(alloc: Global, view: View, prepared: Preparation, out: &mut S) -> Answer
    requires { IfErr prepared.result IsWholeStop }
    ensures { AnswersWith view prepared.echoes prepared.result (S.output out.old) (S.output out.new) result }
{
    let Preparation {
        echoes,
        result,
        tests: _tests,
    } = prepared;
    match result {
        Ok(planned) => {
            let answer = tell_look(alloc, view, echoes.as_slice(), &planned, out);
            // Not taken apart, which would cost time. The program plans once as a rule, and a session keeps each plan.
            forget(planned);
            answer
        }
        Err(stop) => tell_stop(alloc, echoes.as_slice(), stop, out),
    }
}
