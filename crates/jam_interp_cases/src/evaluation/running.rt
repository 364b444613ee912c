//! Running files.
use crate::evaluation::faults::push_fault;
use crate::evaluation::machine::Machine;
use b2_base::path::Path;
use jam_grammar::tree::Tree;
use jam_interp::fault::EvalFault;
use jam_interp::run::run;
use jam_interp::turns::Turns;
use jam_lexer::lex;
use jam_natives::natives::JamNatives;
use jam_parser::parse::parse;
use std::alloc::Global;
use std::mem::ManuallyDrop;
use transcript::answer::Answer;
use transcript::case_fault::CaseFault;
use transcript::command::Command;
use transcript::words::{only, path};

/// The statements of a text; `WrongWords` where it is none.
fn statements(alloc: Global, text: &str) -> Result<Tree, CaseFault> {
    if text.len() > 1_048_576 {
        return Err(CaseFault::WrongWords);
    }
    let Ok(tokens) = lex(alloc, text.as_bytes()) else {
        return Err(CaseFault::WrongWords);
    };
    let tokens = ManuallyDrop::new(tokens);
    match parse(alloc, &tokens) {
        Ok(tree) => Ok(tree),
        Err(_fault) => Err(CaseFault::WrongWords),
    }
}

/// Shows the lines of ECHO that were not shown yet.
fn push_echoes(answer: &mut Answer, natives: &JamNatives, shown: &mut usize) {
    let echoes = natives.echoes();
    for line in echoes.iter().skip(*shown) {
        answer.push_line(line.as_str());
    }
    *shown = echoes.len();
}

/// Runs statements in a module.
fn run_there(
    alloc: Global,
    machine: &mut Machine,
    module: &str,
    path: &Path,
    tree: &Tree,
    turns: &mut Turns,
) -> Result<(), EvalFault> {
    machine.world.enter(module)?;
    let ended = run(
        alloc,
        &mut machine.world,
        path,
        tree,
        turns,
        &mut *machine.natives,
        &mut *machine.host,
    );
    if machine.world.may_leave() {
        machine.world.leave();
    }
    ended
}

/// The path and the statements of a file that is run, read where no machine is.
fn file_of(
    alloc: Global,
    command: &Command,
) -> Result<(ManuallyDrop<Path>, ManuallyDrop<Tree>), CaseFault> {
    let path = path(alloc, only(command.words())?)?;
    let tree = statements(alloc, command.text())?;
    Ok((path, ManuallyDrop::new(tree)))
}

/// Runs the text lines of a command as a file in a module. It shows the lines of ECHO that were not shown yet, and why the run
/// ended, unless all was done.
pub fn run_text(
    alloc: Global,
    machine: &mut Machine,
    module: &str,
    command: &Command,
    turns: &mut Turns,
) -> Result<Answer, CaseFault> {
    let (path, tree) = file_of(alloc, command)?;
    let ended = ManuallyDrop::new(run_there(alloc, machine, module, &path, &tree, turns));
    let mut answer = Answer::new(alloc);
    push_echoes(&mut answer, &machine.natives, &mut machine.shown);
    if let Err(fault) = &*ended {
        push_fault(&mut answer, fault);
    }
    Ok(answer)
}
