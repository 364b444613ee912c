//! A graph as it is shown.
use b2_base::text::Text;
use jam_graph::graph::{Act, Graph};
use std::alloc::Global;
use transcript::answer::Answer;
use transcript::case_fault::CaseFault;

/// Adds a line of a name and texts, where there are some.
fn push_list(answer: &mut Answer, name: &str, texts: &[Text]) {
    if texts.is_empty() {
        return;
    }
    answer.put(name);
    answer.put_words(texts);
    answer.end_line();
}

/// Adds a line for each pair.
fn push_pairs(answer: &mut Answer, name: &str, pairs: &[(Text, Text)]) {
    for pair in pairs {
        answer.put(name);
        answer.put_word(pair.0.as_str());
        answer.put_word(pair.1.as_str());
        answer.end_line();
    }
}

fn push_act(answer: &mut Answer, act: &Act) {
    answer.put("act [");
    answer.put(act.module.as_str());
    answer.put_two("]", act.name.as_str());
    answer.put_between(" line ", act.line as u64, ":");
    answer.put_words(act.targets.as_slice());
    answer.put(" :");
    answer.put_words(act.sources.as_slice());
    answer.end_line();
}

/// Shows a graph.
pub fn shown(alloc: Global, graph: &Graph) -> Result<Answer, CaseFault> {
    let mut answer = Answer::new(alloc);
    push_list(&mut answer, "targets", graph.targets.as_slice());
    push_pairs(&mut answer, "depends", graph.depends.as_slice());
    push_pairs(&mut answer, "includes", graph.includes.as_slice());
    push_list(&mut answer, "always", graph.always.as_slice());
    push_list(&mut answer, "notfile", graph.notfile.as_slice());
    push_list(&mut answer, "nocare", graph.nocare.as_slice());
    for act in graph.acts.as_slice() {
        push_act(&mut answer, act);
    }
    Ok(answer)
}
