//! A build of what words ask for.
ghost use Rattle.std.specs.Prelude.{◌≡◌, ◌≤◌, []};
ghost use Rattle.b2_host.specs.OutsideLaws.{Keeps};
ghost use Rattle.b2_plan.specs.Plans.{Apart};
ghost use Rattle.b2_runs.specs.UpdateAnswers.{LeavesNone};
ghost use Rattle.b2_update.specs.Moments.{moment};
ghost use Rattle.b2_top.specs.Plans.{options_of};
ghost use Rattle.b2_top.specs.Running.{Updates, Runs, Builds};

use crate::answer::Answer;
use crate::build_command::BuildCommand;
use crate::lines::write_echoes;
use crate::tell::{tell_host_fault, tell_refusal, tell_stop, unwritten};
use crate::verdicts::tell_verdicts;
use b2_base::text::Text;
use b2_command_line::words::BuildOptions;
use b2_host::children::Children;
use b2_host::sink::Sink;
use b2_plan::plan::Plan;
use b2_prepare::laws::one_meaning;
use b2_prepare::prepare::{Preparation, prepare};
use b2_refusals::fault::Fault;
use b2_update::options::Options;
use b2_update::update::update;
use b2_update::update_answer::UpdateAnswer;
use std::alloc::Global;
use std::mem::forget;

/// How an update is asked for by the options of a build.
pub(crate) fn options_of(options: BuildOptions) -> Options
    ensures { result ≡ options_of options }
{
    Options {
        jobs: options.jobs,
        all: options.all,
        quit: options.quit,
        by_digest: options.digest,
    }
}

/// Updates a plan, and tells the verdicts of the tests that were asked for, a refusal in the update, or a fault of the host.
fn update_plan<H: Children, S: Sink>(
    alloc: Global,
    plan: &Plan,
    tests: &[(Text, u32)],
    options: Options,
    host: &mut H,
    out: &mut S,
) -> Answer
    requires idle { (H.outside host.old).children.running ≡ [] }
    requires apart { Apart plan.now.steps plan.now.roots }
    requires some_job { 1 ≤ options.jobs }
    ensures updates { Updates H.made options plan.now tests.now (moment (H.outside host.old) (S.output out.old))
        (moment (H.outside host.new) (S.output out.new)) result }
    ensures none_left { LeavesNone (H.outside host.old) (H.outside host.new) }
    ensures keeps { Keeps (H.outside host.old) (H.outside host.new) }
{
    match update(alloc, plan, options, host, out) {
        UpdateAnswer::Done => tell_verdicts(alloc, plan, tests, UpdateAnswer::Done, out),
        UpdateAnswer::Failed(lists) => {
            tell_verdicts(alloc, plan, tests, UpdateAnswer::Failed(lists), out)
        }
        UpdateAnswer::StepCycle(list) => {
            let fault = Fault::StepCycle { list };
            tell_refusal(alloc, &[], plan.steps.as_slice(), fault, out)
        }
        UpdateAnswer::TooBig { path, size } => {
            let fault = Fault::TooBig { path, size };
            tell_refusal(alloc, &[], plan.steps.as_slice(), fault, out)
        }
        UpdateAnswer::HostFault => tell_host_fault(alloc, &[], out),
        UpdateAnswer::SinkFault => Answer::SinkFault,
        UpdateAnswer::OutOfMemory => Answer::OutOfMemory,
    }
}

/// Writes the lines of ECHO, and updates the plan.
pub(crate) fn run_plan<H: Children, S: Sink>(
    alloc: Global,
    echoes: &[Text],
    plan: &Plan,
    tests: &[(Text, u32)],
    options: Options,
    host: &mut H,
    out: &mut S,
) -> Answer
    requires idle { (H.outside host.old).children.running ≡ [] }
    requires apart { Apart plan.now.steps plan.now.roots }
    requires some_job { 1 ≤ options.jobs }
    ensures runs { Runs H.made echoes.now options plan.now tests.now (moment (H.outside host.old) (S.output out.old))
        (moment (H.outside host.new) (S.output out.new)) result }
    ensures none_left { LeavesNone (H.outside host.old) (H.outside host.new) }
    ensures keeps { Keeps (H.outside host.old) (H.outside host.new) }
{
    match write_echoes(alloc, echoes, out) {
        Ok(()) => update_plan(alloc, plan, tests, options, host, out),
        Err(fault) => unwritten(fault),
    }
}

/// Builds what is asked for, or tells why there is no plan.
pub fn build<H: Children, S: Sink>(
    alloc: Global,
    command: &BuildCommand,
    host: &mut H,
    out: &mut S,
) -> Answer
    requires idle { (H.outside host.old).children.running ≡ [] }
    requires some_job { 1 ≤ command.now.options.jobs }
    ensures builds { Builds H.made command.now (moment (H.outside host.old) (S.output out.old))
        (moment (H.outside host.new) (S.output out.new)) result }
    ensures none_left { LeavesNone (H.outside host.old) (H.outside host.new) }
    ensures keeps { Keeps (H.outside host.old) (H.outside host.new) }
{
    one_meaning();
    let options = options_of(command.options);
    let Preparation {
        echoes,
        result,
        tests,
    } = prepare(alloc, command.words.as_slice(), host);
    match result {
        Ok(planned) => {
            let answer = run_plan(
                alloc,
                echoes.as_slice(),
                &planned.plan,
                tests.as_slice(),
                options,
                host,
                out,
            );
            // Not taken apart, which would cost time. The program plans once as a rule, and a session keeps each plan.
            forget(planned);
            answer
        }
        Err(stop) => tell_stop(alloc, echoes.as_slice(), stop, out),
    }
}
