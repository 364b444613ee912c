//! Commands on the paths of a step, and on output roots that a call names.
use crate::world::quoted::push_quoted;
use b2_base::text_list::{TextList, list_at};
use jam_natives::output_dirs::{names_output_dirs, root_paths};
use jam_natives::target::{StepPaths, first_foreign};
use std::alloc::Global;
use std::mem::ManuallyDrop;
use transcript::answer::Answer;
use transcript::case_fault::CaseFault;
use transcript::command::Command;
use transcript::words::{lists, paths_of};

fn foreign(alloc: Global, given: &[TextList]) -> Result<Answer, CaseFault> {
    let outs = paths_of(alloc, list_at(given, 0))?;
    let ins = paths_of(alloc, list_at(given, 1))?;
    let added = paths_of(alloc, list_at(given, 2))?;
    let named = StepPaths {
        outs: outs.as_slice(),
        ins: ins.as_slice(),
        added: added.as_slice(),
    };
    let (targets, sources) = (list_at(given, 3), list_at(given, 4));
    let found = ManuallyDrop::new(first_foreign(alloc, targets, sources, &named)?);
    let mut answer = Answer::new(alloc);
    match &*found {
        None => answer.push_line("none"),
        Some(text) => push_quoted(&mut answer, "foreign", text.as_str()),
    }
    Ok(answer)
}

fn named_roots(alloc: Global, given: &[TextList]) -> Result<Answer, CaseFault> {
    if !names_output_dirs(given) {
        return Answer::line(alloc, "names none");
    }
    let roots = ManuallyDrop::new(root_paths(alloc, given)?);
    match &*roots {
        None => Answer::line(alloc, "no root"),
        Some(roots) => Answer::paths(alloc, roots.as_slice()),
    }
}

/// Carries out a command on the paths of a step or on output roots.
pub fn path_command(alloc: Global, command: &Command) -> Result<Answer, CaseFault> {
    let words = command.words();
    match command.name() {
        "first_foreign" => foreign(alloc, lists(alloc, words)?.as_slice()),
        "root_paths" => named_roots(alloc, lists(alloc, words)?.as_slice()),
        _ => Err(CaseFault::UnknownCommand),
    }
}
