//! A plan as it is shown.
ghost use Rattle.jam_graph.specs.Graphs.{IsReady};

use crate::faults::push_refusal;
use b2_base::path::Path;
use b2_memory::memory::MemoryHost;
use b2_plan::plan::Plan;
use b2_plan::step::Step;
use jam_engine::plan::jam_plan;
use jam_graph::graph::Graph;
use std::alloc::Global;
use std::mem::ManuallyDrop;
use transcript::answer::Answer;
use transcript::case_fault::CaseFault;
use transcript::command::Word;
use transcript::words::texts;

/// Adds a line of a name and paths, where there are some.
fn push_paths(answer: &mut Answer, name: &str, paths: &[Path]) {
    if paths.is_empty() {
        return;
    }
    answer.put(name);
    answer.put_paths(paths);
    answer.end_line();
}

/// Adds a line of a flag that is set.
fn push_flag(answer: &mut Answer, name: &str, is_set: bool) {
    if is_set {
        answer.push_line(name);
    }
}

fn push_step(answer: &mut Answer, number: u64, step: &Step) {
    answer.put_number(number);
    if !step.name.as_str().is_empty() {
        answer.put_word(step.name.as_str());
    }
    answer.end_line();
    push_paths(answer, "outs", step.outs.as_slice());
    push_paths(answer, "ins", step.ins.as_slice());
    push_paths(answer, "dirs", step.dirs.as_slice());
    push_flag(answer, "always", step.always);
    push_flag(answer, "notfile", step.notfile);
    answer.put("text");
    answer.put_word(step.text.as_str());
    answer.end_line();
}

fn shown(alloc: Global, plan: &Plan) -> Result<Answer, CaseFault> {
    let mut answer = Answer::new(alloc);
    for (place, step) in plan.steps.as_slice().iter().enumerate() {
        push_step(&mut answer, place as u64 + 1, step);
    }
    push_paths(&mut answer, "wanted", plan.wanted.as_slice());
    Ok(answer)
}

/// Shows the plan of targets in a graph, or why there is none.
pub fn plan(
    alloc: Global,
    graph: &mut Graph,
    host: &mut MemoryHost,
    words: &[Word],
) -> Result<Answer, CaseFault>
    requires { IsReady graph.old }
{
    let targets = texts(alloc, words)?;
    match jam_plan(alloc, graph, targets.as_slice(), host) {
        Ok(plan) => {
            let plan = ManuallyDrop::new(plan);
            shown(alloc, &plan)
        }
        Err(fault) => {
            let fault = ManuallyDrop::new(fault);
            let mut answer = Answer::new(alloc);
            push_refusal(&mut answer, &fault);
            Ok(answer)
        }
    }
}
