//! What the words of a command line ask for, as lines.
use b2_command_line::words::{BuildOptions, Command as Asked, View, Words};
use std::alloc::Global;
use transcript::answer::Answer;
use transcript::case_fault::CaseFault;

fn push_build(answer: &mut Answer, options: BuildOptions) {
    answer.put("build ");
    answer.put_number(options.jobs as u64);
    if options.all {
        answer.put(" all");
    }
    if options.quit {
        answer.put(" quit");
    }
    if options.digest {
        answer.put(" digest");
    }
    answer.end_line();
}

fn push_explain(answer: &mut Answer, all: bool) {
    answer.put("explain");
    if all {
        answer.put(" all");
    }
    answer.end_line();
}

fn push_command(answer: &mut Answer, command: Asked) {
    match command {
        Asked::Build(options) => push_build(answer, options),
        Asked::Look(View::Steps) => answer.push_line("look steps"),
        Asked::Look(View::Table) => answer.push_line("look table"),
        Asked::Explain { all } => push_explain(answer, all),
        Asked::Clean => answer.push_line("clean"),
        Asked::Drill { steps } => {
            answer.put("drill ");
            answer.put_number(steps as u64);
            answer.end_line();
        }
    }
}

/// What the words ask for, and below it each word that is no option.
pub fn words_shown(alloc: Global, words: &Words) -> Result<Answer, CaseFault> {
    let mut answer = Answer::new(alloc);
    push_command(&mut answer, words.command);
    for word in words.words.as_slice() {
        answer.put("<");
        answer.put(word.as_str());
        answer.push_line(">");
    }
    Ok(answer)
}
