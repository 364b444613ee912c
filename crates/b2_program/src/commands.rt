//! The commands, each with all that it promises.
ghost use Rattle.std.specs.Prelude.{◌≡◌, []};
ghost use Rattle.b2_update.specs.Moments.{moment};
ghost use Rattle.b2_top.specs.Modes.{mode_of};
ghost use Rattle.b2_host.specs.Outside.{Outside};
ghost use Rattle.b2_program.specs.Called.{IsBuild, IsJam, IsLook, IsExplanation, IsCleaning, IsDrill, Promises};

use b2_base::text::Text;
use b2_drill_call::drill::drill_in_memory;
use b2_host::children::Children;
use b2_host::files::Files;
use b2_host::sink::Sink;
use b2_top::answer::Answer;
use b2_top::clean::clean_b2;
use b2_top::explain::explain_b2;
use b2_top::jam::run_jam;
use b2_top::mode::{Mode, mode_of};
use b2_top::run::run_b2;
use b2_top::show::show_b2;
use std::alloc::Global;

/// The build command.
fn build<H: Children, S: Sink>(alloc: Global, words: &[Text], host: &mut H, out: &mut S) -> Answer
    requires { (H.outside host.old).children.running ≡ [] }
    ensures { IsBuild H.made words.now (moment (H.outside host.old) (S.output out.old))
        (moment (H.outside host.new) (S.output out.new)) result }
{
    run_b2(alloc, words, host, out)
}

/// The command of plain Jam mode.
fn jam<H: Children, S: Sink>(alloc: Global, words: &[Text], host: &mut H, out: &mut S) -> Answer
    requires { (H.outside host.old).children.running ≡ [] }
    ensures { IsJam H.made words.now (moment (H.outside host.old) (S.output out.old))
        (moment (H.outside host.new) (S.output out.new)) result }
{
    run_jam(alloc, words, host, out)
}

/// The look command.
fn look<H: Files, S: Sink>(alloc: Global, words: &[Text], host: &mut H, out: &mut S) -> Answer
    ensures { IsLook words.now (moment (H.outside host.old) (S.output out.old))
        (moment (H.outside host.new) (S.output out.new)) result }
{
    show_b2(alloc, words, host, out)
}

/// The explain command.
fn explain<H: Files, S: Sink>(alloc: Global, words: &[Text], host: &mut H, out: &mut S) -> Answer
    ensures { IsExplanation words.now (moment (H.outside host.old) (S.output out.old))
        (moment (H.outside host.new) (S.output out.new)) result }
{
    explain_b2(alloc, words, host, out)
}

/// The clean command.
fn clean<H: Files, S: Sink>(alloc: Global, words: &[Text], host: &mut H, out: &mut S) -> Answer
    ensures { IsCleaning words.now (moment (H.outside host.old) (S.output out.old))
        (moment (H.outside host.new) (S.output out.new)) result }
{
    clean_b2(alloc, words, host, out)
}

/// The drill command, over a host in memory of its own.
fn drill<S: Sink>(alloc: Global, words: &[Text], out: &mut S) -> Answer
    ensures { (host : Outside) → IsDrill words.now (moment host (S.output out.old)) (moment host (S.output out.new)) result }
{
    drill_in_memory(alloc, words, out)
}

/// The command that the words are for.
pub fn run_command<H: Children, S: Sink>(
    alloc: Global,
    words: &[Text],
    host: &mut H,
    out: &mut S,
) -> Answer
    requires { (H.outside host.old).children.running ≡ [] }
    ensures { Promises (mode_of words.now) H.made words.now (moment (H.outside host.old) (S.output out.old))
        (moment (H.outside host.new) (S.output out.new)) result }
{
    match mode_of(words) {
        Mode::Build => build(alloc, words, host, out),
        Mode::Look => look(alloc, words, host, out),
        Mode::Explain => explain(alloc, words, host, out),
        Mode::Clean => clean(alloc, words, host, out),
        Mode::Drill => drill(alloc, words, out),
        Mode::Jam => jam(alloc, words, host, out),
    }
}
