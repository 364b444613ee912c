//! The verdicts of tests, which end the report of an update.
ghost use Rattle.std.specs.Prelude.{◌≡◌, ◌++◌, length, map, IfOk, string_bytes};
ghost use Rattle.std.specs.List.{zip};
ghost use Rattle.b2_plan.specs.Plans.{Apart};
ghost use Rattle.b2_runs.specs.Reports.{line};
ghost use Rattle.b2_testing.specs.Verdicts.{HasEnded, verdict_word, verdict_lines};
ghost use Rattle.b2_update.specs.Answers.{answer_of};
ghost use Rattle.b2_top.specs.Running.{own_answer, WritesVerdicts, TellsVerdicts};
ghost use Rattle.b2_top.specs.Writing.{Writes};

use crate::answer::Answer;
use crate::lines::write_made;
use crate::tell::unwritten;
use b2_base::fault::OutOfMemory;
use b2_base::text::Text;
use b2_host::fault::IoFault;
use b2_host::sink::Sink;
use b2_plan::plan::Plan;
use b2_refusals::fault::Fault;
use b2_testing::laws::tests_are_judged_once;
use b2_testing::pass_list::pass_list;
use b2_testing::verdict::Verdict;
use b2_update::update_answer::UpdateAnswer;
use std::alloc::Global;

/// What is said of a test with this verdict.
fn verdict_word(verdict: Verdict) -> &'static str
    ensures { result.now ≡ verdict_word verdict }
{
    match verdict {
        Verdict::Passed => "passed ",
        Verdict::Failed => "failed ",
        Verdict::NotRun => "not run ",
    }
}

/// The line of a test, by the main target of its marker.
fn verdict_line(alloc: Global, target: &str, verdict: Verdict) -> Result<String, OutOfMemory>
    ensures { IfOk result (λ made. string_bytes made ≡ line (verdict_word verdict ++ target.now)) }
{
    let word = verdict_word(verdict);
    Ok(format!(in alloc; "{word}{target}\n")?)
}

/// Writes the lines of these verdicts, which are those of the tests in order.
fn write_verdicts<S: Sink>(
    alloc: Global,
    tests: &[(Text, u32)],
    verdicts: &[Verdict],
    out: &mut S,
) -> Result<(), IoFault>
    requires { length verdicts.now ≡ length tests.now }
    ensures { Writes (verdict_lines (zip (map (λ test. test.0) tests.now) verdicts.now)) (S.output out.old) (S.output out.new) result }
{
    for (place, test) in tests.iter().enumerate() {
        write_made(verdict_line(alloc, test.0.as_str(), verdicts[place]), out)?;
    }
    Ok(())
}

/// Writes the verdicts of tests after an update of their plan that came to its end.
fn write_tests<S: Sink>(
    alloc: Global,
    plan: &Plan,
    tests: &[(Text, u32)],
    ended: &UpdateAnswer,
    out: &mut S,
) -> Result<(), IoFault>
    requires ended { HasEnded (answer_of ended.now) }
    requires apart { Apart plan.now.steps plan.now.roots }
    ensures { WritesVerdicts plan.now.steps ended.now tests.now (S.output out.old) (S.output out.new) result }
{
    tests_are_judged_once();
    match pass_list(alloc, plan, tests, ended) {
        Ok(verdicts) => write_verdicts(alloc, tests, verdicts.as_slice(), out),
        Err(_) => Err(IoFault::OutOfMemory),
    }
}

/// The answer of a call whose update ended so.
fn own_answer(ended: UpdateAnswer) -> Answer
    ensures { result ≡ own_answer ended }
{
    match ended {
        UpdateAnswer::Done => Answer::Ok,
        UpdateAnswer::Failed(lists) => Answer::Failed(lists),
        UpdateAnswer::StepCycle(list) => Answer::Refused(Fault::StepCycle { list }),
        UpdateAnswer::TooBig { path, size } => Answer::Refused(Fault::TooBig { path, size }),
        UpdateAnswer::HostFault => Answer::HostFault,
        UpdateAnswer::SinkFault => Answer::SinkFault,
        UpdateAnswer::OutOfMemory => Answer::OutOfMemory,
    }
}

/// Writes the verdicts of the tests that were asked for, after an update of their plan that came to its end. Where none was asked for
/// nothing is written, and no memory is taken.
pub(crate) fn tell_verdicts<S: Sink>(
    alloc: Global,
    plan: &Plan,
    tests: &[(Text, u32)],
    ended: UpdateAnswer,
    out: &mut S,
) -> Answer
    requires ended { HasEnded (answer_of ended) }
    requires apart { Apart plan.now.steps plan.now.roots }
    ensures { TellsVerdicts plan.now.steps tests.now ended (S.output out.old) (S.output out.new) result }
{
    if tests.is_empty() {
        return own_answer(ended);
    }
    match write_tests(alloc, plan, tests, &ended, out) {
        Ok(()) => own_answer(ended),
        Err(fault) => {
            drop(ended);
            unwritten(fault)
        }
    }
}
