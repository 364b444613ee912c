//! One call of the program.
ghost use Rattle.std.specs.Prelude.{◌≡◌, ◌≤◌, []};
ghost use Rattle.b2_host.specs.OutsideLaws.{Keeps};
ghost use Rattle.b2_host.specs.OutputLaws.{OutKeeps};
ghost use Rattle.b2_runs.specs.UpdateAnswers.{LeavesNone};
ghost use Rattle.b2_update.specs.Moments.{moment};
ghost use Rattle.b2_top.specs.Answered.{CleanTold, CleanFor};
ghost use Rattle.b2_top.specs.Askings.{jam_of};
ghost use Rattle.b2_top.specs.BetweenMoments.{CountsStay, HostFailedBeforeReport, WrittenTold};
ghost use Rattle.b2_top.specs.Shows.{IsShown};
ghost use Rattle.b2_top.specs.Explains.{IsTold as IsExplainedTold};
ghost use Rattle.b2_host.specs.ChildProcesses.{BothTold};
ghost use Rattle.b2_top.specs.Modes.{mode_of};
ghost use Rattle.b2_top.specs.declared.mode.Mode.TheVariants.{Build, Look, Explain, Clean, Drill, Jam};
ghost use Rattle.b2_source_laws.specs.AfterCleaning.{LeavesToBuild};
ghost use Rattle.b2_program.specs.Called.{EndsWith};
ghost use Rattle.b2_program.specs.Causes.{IsFailed, IsRefused, IsUsage, IsNoCommand, IsUsageStatus, IsSinkFault, IsDrillDone, IsCleanedFor};

use crate::commands::run_command;
use b2_base::text::Text;
use b2_host::children::Children;
use b2_host::sink::Sink;
use b2_source_laws::after_cleaning::next_after_cleaning;
use std::alloc::Global;

/// Carries out the command that the words are for, and gives the status of its answer.
fn run<H: Children, S: Sink>(alloc: Global, words: &[Text], host: &mut H, out: &mut S) -> u8
    requires { (H.outside host.old).children.running ≡ [] }
    ensures { EndsWith H.made words.now (moment (H.outside host.old) (S.output out.old))
        (moment (H.outside host.new) (S.output out.new)) result }
{
    let answer = run_command(alloc, words, host, out);
    let status = answer.status();
    drop(answer);
    status
}

/// Builds the project among the host's files, or targets of one Jam file, shows what the project means, tells why its steps are to run, removes what they made, or runs a
/// drill over files in memory, as the words ask for; what it has to say goes to the sink. Gives the exit status of the answer, from 0 to 6.
pub fn run_program<H: Children, S: Sink>(
    alloc: Global,
    words: &[Text],
    host: &mut H,
    out: &mut S,
) -> u8
    // No child process runs at entry.
    requires idle { (H.outside host.old).children.running ≡ [] }

    // The words alone decide which command is called. The status is that of its answer, of which all holds that the
    // command promises.
    ensures command { EndsWith H.made words.now (moment (H.outside host.old) (S.output out.old))
        (moment (H.outside host.new) (S.output out.new)) result }
    ensures status { result ≤ 6 }
    // The headline: after a build with status 0 each wanted file has the bytes of the clean build of the sources at entry.
    ensures clean { mode_of words.now ≡ Build → result ≡ 0
        → CleanTold H.made words.now (H.outside host.old) (H.outside host.new) }
    // The same of plain Jam mode.
    ensures built { mode_of words.now ≡ Jam → result ≡ 0
        → CleanFor H.made (jam_of words.now) (H.outside host.old) (H.outside host.new) }
    // After a look with status 0 exactly the lines of ECHO were written, and the table, or the steps with their texts, of
    // the plan.
    ensures shown { mode_of words.now ≡ Look → result ≡ 0
        → WrittenTold (moment (H.outside host.old) (S.output out.old)) (moment (H.outside host.new) (S.output out.new))
        (IsShown words.now) }
    // After an explanation with status 0 exactly the lines of ECHO were written, and the line of each needed step with its cause.
    ensures explained { mode_of words.now ≡ Explain → result ≡ 0
        → WrittenTold (moment (H.outside host.old) (S.output out.old)) (moment (H.outside host.new) (S.output out.new))
        (IsExplainedTold words.now) }
    // After cleaning with status 0 no output stands of the plan's steps, but for those of notfile steps, and the log tells no record
    // of them.
    ensures cleaned { mode_of words.now ≡ Clean → result ≡ 0 → BothTold (IsCleanedFor words.now)
        (H.outside host.old).disk (H.outside host.new).disk }
    // After cleaning with status 0 the next build of the same free words, with no edit between them, has the cleaned plan again, and
    // none of its steps is fresh. Each one that is needed starts, or it is told why not; with status 0 each wanted file has the bytes of
    // the clean build of the sources as they stood before cleaning.
    ensures builds_anew { mode_of words.now ≡ Clean → result ≡ 0
        → LeavesToBuild H.made words.now (H.outside host.old) (H.outside host.new) }
    // A drill with status 0 was a session over a host in memory, in which each update answered Ok; its summary was written.
    ensures drilled { mode_of words.now ≡ Drill → result ≡ 0 → IsDrillDone words.now (S.output out.old) (S.output out.new) }
    // Status 1: a build of which steps failed or were skipped, or files are missing.
    ensures failed { result ≡ 1 → IsFailed H.made words.now (H.outside host.old) (H.outside host.new) }
    // Status 2: a refusal that is the one to which the words and the files come, or that the update came to.
    ensures refused { result ≡ 2 → IsRefused H.made words.now (H.outside host.old) (H.outside host.new) }
    // Status 3: the words are of no command. The usage line was written, and nothing else was done.
    ensures usage { result ≡ 3 → IsUsage words.now (moment (H.outside host.old) (S.output out.old))
        (moment (H.outside host.new) (S.output out.new)) }
    ensures no_command { IsNoCommand (mode_of words.now) words.now → IsUsageStatus result }
    // Up to status 3 no call of the host and no write failed. Status 4: the host failed, and no write did before the
    // report of it began. Status 5: no memory was left, and no write failed. Status 6: a write failed.
    ensures counts { result ≤ 3 → CountsStay (moment (H.outside host.old) (S.output out.old))
        (moment (H.outside host.new) (S.output out.new)) }
    ensures host_fault { result ≡ 4 → HostFailedBeforeReport (moment (H.outside host.old) (S.output out.old))
        (moment (H.outside host.new) (S.output out.new)) }
    ensures no_memory { result ≡ 5 → (S.output out.new).faults ≡ (S.output out.old).faults }
    ensures sink_fault { result ≡ 6 → IsSinkFault (moment (H.outside host.old) (S.output out.old))
        (moment (H.outside host.new) (S.output out.new)) }
    // No child is left, but for one for each wait that failed.
    ensures none_left { LeavesNone (H.outside host.old) (H.outside host.new) }
    // No count falls, what may go wrong stays, visible files stay visible, and all that stood stays among the past.
    ensures keeps { Keeps (H.outside host.old) (H.outside host.new) }
    ensures out_keeps { OutKeeps (S.output out.old) (S.output out.new) }
{
    next_after_cleaning();
    run(alloc, words, host, out)
}
