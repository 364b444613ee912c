//! The options as clap knows them.
ghost use Rattle.std.specs.Prelude.{◌≡◌, IfOk};
ghost use Rattle.clap.specs.Words.{app_of};
ghost use Rattle.b2_command_line.specs.Parser.{short_app, build_app};

use clap::{Arg, ArgAction, Command};
use std::alloc::{AllocError, Global};

/// clap's command with the options of one letter.
fn short_options<'a>(alloc: Global) -> Result<Command<'a>, AllocError>
    ensures { IfOk result (λ c. app_of c ≡ short_app) }
{
    let empty = Command::new(alloc, "b2")
        .no_binary_name(true)
        .disable_help_flag(true);
    let jobs = Arg::new(alloc, "jobs").short('j').action(ArgAction::Set);
    let with_jobs = empty.arg(jobs)?;
    let all = Arg::new(alloc, "all").short('a').action(ArgAction::SetTrue);
    let with_all = with_jobs.arg(all)?;
    let quit = Arg::new(alloc, "quit")
        .short('q')
        .action(ArgAction::SetTrue);
    let with_quit = with_all.arg(quit)?;
    let steps = Arg::new(alloc, "steps")
        .short('n')
        .action(ArgAction::SetTrue);
    with_quit.arg(steps)
}

/// The command of which clap reads the words of a build, a look, an explanation or of cleaning. It has neither help nor a version.
pub fn build_command<'a>(alloc: Global) -> Result<Command<'a>, AllocError>
    ensures { IfOk result (λ c. app_of c ≡ build_app) }
{
    let short = short_options(alloc)?;
    let by = Arg::new(alloc, "by").long("by").action(ArgAction::Set);
    let with_by = short.arg(by)?;
    let show = Arg::new(alloc, "show")
        .long("show")
        .action(ArgAction::SetTrue);
    let with_show = with_by.arg(show)?;
    let explain = Arg::new(alloc, "explain")
        .long("explain")
        .action(ArgAction::SetTrue);
    let with_explain = with_show.arg(explain)?;
    let clean = Arg::new(alloc, "clean")
        .long("clean")
        .action(ArgAction::SetTrue);
    let with_clean = with_explain.arg(clean)?;
    let word = Arg::new(alloc, "word").action(ArgAction::Append);
    with_clean.arg(word)
}
