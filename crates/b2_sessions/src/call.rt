//! A call of the build command within a session.
ghost use Rattle.std.specs.Prelude.{◌≡◌, []};
ghost use Rattle.b2_update.specs.Moments.{moment};
ghost use Rattle.b2_top.specs.Askings.{build_of};
ghost use Rattle.b2_sessions.specs.BuildCalls.{IsCall};

use b2_base::text::Text;
use b2_host::children::Children;
use b2_host::sink::Sink;
use b2_top::answer::Answer;
use b2_top::run::run_b2;
use std::alloc::Global;

/// Builds what the words ask for. What it has done is told as a session has it.
pub fn call<H: Children, S: Sink>(
    alloc: Global,
    words: &[Text],
    host: &mut H,
    out: &mut S,
) -> Answer
    requires { (H.outside host.old).children.running ≡ [] }
    ensures { IsCall H.made (build_of words.now) result (moment (H.outside host.old) (S.output out.old))
        (moment (H.outside host.new) (S.output out.new)) }
{
    run_b2(alloc, words, host, out)
}
