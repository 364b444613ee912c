//! Whether a child may start beside those that run.
ghost use Rattle.std.specs.Prelude.{◌≡◌, IsTrue};
ghost use Rattle.std.specs.List.{list_all};
ghost use Rattle.b2_host.specs.ChildProcesses.{MayStart};
ghost use Rattle.b2_memory.specs.Families.{child_with};
ghost use Rattle.b2_memory.specs.Jobs.{given_of};
ghost use Rattle.b2_memory.specs.Hosts.{running_children};
ghost use Rattle.b2_host_cases.specs.Apart.{are_apart, is_beside};

use b2_base::path::Path;
use b2_memory::running_child::RunningChild;

/// Whether no path of the one list is in the other.
fn are_apart(some: &[Path], others: &[Path]) -> bool
    ensures { result ≡ are_apart some.now others.now }
{
    some.iter().all(|path| !others.contains(path))
}

/// Whether a child is not in the way of one that runs, and that one not in its way.
fn is_beside(child: &RunningChild, ins: &[Path], outs: &[Path]) -> bool
    ensures { result ≡ is_beside ins.now outs.now (child_with (given_of child.now.job.value)) }
{
    let job = child.job.as_ref();
    let written = job.outs.as_slice();
    are_apart(outs, job.ins.as_slice()) && are_apart(outs, written) && are_apart(ins, written)
}

/// The same of each child that runs.
fn are_beside(running: &[RunningChild], ins: &[Path], outs: &[Path]) -> bool
    ensures { result ≡ list_all (λ child. is_beside ins.now outs.now (child_with (given_of child.job.value))) running.now }
{
    running.iter().all(|child| is_beside(child, ins, outs))
}

/// Whether a child that reads `ins` and writes `outs` may start: it writes nothing that a running child reads or writes,
/// and reads nothing that one writes.
pub fn may_start(running: &[RunningChild], ins: &[Path], outs: &[Path]) -> bool
    ensures { IsTrue result → MayStart (running_children running.now) ins.now outs.now }
{
    are_beside(running, ins, outs)
}
