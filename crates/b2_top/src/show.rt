//! The look command.
ghost use Rattle.std.specs.Prelude.{◌≡◌, None};
ghost use Rattle.b2_top.specs.Endings.{IsUsageOrCutShort, IfRefused};
ghost use Rattle.b2_host.specs.OutsideLaws.{Keeps};
ghost use Rattle.b2_host.specs.OutputLaws.{OutKeeps};
ghost use Rattle.b2_top.specs.Askings.{IsProjectRefusal};
ghost use Rattle.b2_top.specs.Looks.{look_of};
ghost use Rattle.b2_top.specs.Shows.{ShownTold, ReportTold, CountsTold, UsageTold, CauseTold, IsOfLook, CompleteTold};
ghost use Rattle.b2_top.specs.Shows.{IsAnswered, Shows};
ghost use Rattle.b2_update.specs.Moments.{moment};

use crate::answer::Answer;
use crate::look::{LookRequest, look_of};
use crate::look_end::tell;
use crate::tell::tell_usage;
use b2_base::text::Text;
use b2_command_line::fault::WordsFault;
use b2_host::files::Files;
use b2_host::sink::Sink;
use b2_prepare::laws::one_meaning;
use b2_prepare::prepare::prepare;
use std::alloc::Global;

/// Prepares what the words of a look name, and tells it in the look's view.
fn show<H: Files, S: Sink>(alloc: Global, look: &LookRequest, host: &mut H, out: &mut S) -> Answer
    ensures shows { Shows look.now (moment (H.outside host.old) (S.output out.old)) (moment (H.outside host.new) (S.output out.new)) result }
    ensures disk { (H.outside host.new).disk ≡ (H.outside host.old).disk }
    ensures children { (H.outside host.new).children ≡ (H.outside host.old).children }
    ensures keeps { Keeps (H.outside host.old) (H.outside host.new) }
{
    one_meaning();
    let prepared = prepare(alloc, look.words.as_slice(), host);
    tell(alloc, look.view, prepared, out)
}

/// Reads the words, and shows what they ask for.
fn answer<H: Files, S: Sink>(alloc: Global, words: &[Text], host: &mut H, out: &mut S) -> Answer
    ensures answered { IsAnswered words.now (moment (H.outside host.old) (S.output out.old)) (moment (H.outside host.new) (S.output out.new)) result }
    ensures disk { (H.outside host.new).disk ≡ (H.outside host.old).disk }
    ensures children { (H.outside host.new).children ≡ (H.outside host.old).children }
    ensures keeps { Keeps (H.outside host.old) (H.outside host.new) }
{
    match look_of(alloc, words) {
        Ok(look) => show(alloc, &look, host, out),
        Err(WordsFault::Usage) => tell_usage(out),
        Err(WordsFault::OutOfMemory) => Answer::OutOfMemory,
    }
}

/// Shows the plan of what the words ask for, and builds nothing: with `--show` the table of main targets with their properties, with
/// `-n` the steps with their texts. The lines of ECHO come first. Changes no file, starts nothing and always returns.
pub fn show_b2<H: Files, S: Sink>(
    alloc: Global,
    words: &[Text],
    host: &mut H,
    out: &mut S,
) -> Answer
    // After Ok exactly the lines of ECHO and the table, or the steps with their texts, of the plan were written.
    ensures shown { ShownTold words.now (moment (H.outside host.old) (S.output out.old)) (moment (H.outside host.new) (S.output out.new)) result }
    // What was written is the report; each refusal has its cause.
    ensures reported { ReportTold words.now (moment (H.outside host.old) (S.output out.old)) (moment (H.outside host.new) (S.output out.new)) result }
    // No file has changed, and nothing was started.
    ensures disk { (H.outside host.new).disk ≡ (H.outside host.old).disk }
    ensures children { (H.outside host.new).children ≡ (H.outside host.old).children }
    // No count falls, and visible files stay visible.
    ensures keeps { Keeps (H.outside host.old) (H.outside host.new) }
    ensures out_keeps { OutKeeps (S.output out.old) (S.output out.new) }
    // Ok, Refused and Usage come only where both counts of faults are as at entry. A fault comes only where its count rose, and one of
    // the sink only where a write may fail.
    ensures counts { CountsTold (moment (H.outside host.old) (S.output out.old)) (moment (H.outside host.new) (S.output out.new)) result }
    // Words that are no look ask for the usage line, and nothing else does; all that the host is to its callers stays as it is.
    ensures usage { look_of words.now ≡ None → IsUsageOrCutShort result }
    ensures alone { look_of words.now ≡ None → H.outside host.new ≡ H.outside host.old }
    ensures no_usage { result ≡ Answer.Usage → look_of words.now ≡ None }
    // With the answer Usage exactly the usage line was written, over every host and sink.
    ensures usage_told { UsageTold (moment (H.outside host.old) (S.output out.old)) (moment (H.outside host.new) (S.output out.new)) result }
    // With Ok the words and the files come to a plan; a refusal is what they come to. That is told of every sink.
    ensures cause { CauseTold words.now (H.outside host.old) result }
    // No fault of the host and no out of memory is within a refusal.
    ensures whole { IfRefused IsProjectRefusal result }
    // A look has no list of failures, and no refusal but those of the load, the request and generation.
    ensures not_failed { IsOfLook result }
    // Where the words, the load, the request and generation come to a plan, the answer is Ok, or the call was cut short, or a pattern
    // of the project's own text was refused though it reads as one.
    ensures complete { CompleteTold words.now (H.outside host.old) result }
{
    answer(alloc, words, host, out)
}
