//! Child processes that run the texts of steps.
ghost use Rattle.std.specs.Prelude.{◌≡◌, ◌≢◌, ℕ, List, []};
ghost use Rattle.b2_host.specs.ChildProcesses.{MayStart};
ghost use Rattle.b2_host.specs.ChildCalls.{Starts, Waits};

use crate::fault::{Failed, IoFault};
use crate::files::Files;
use b2_base::path::Path;

/// An event of a child, by the number of its step: it started, or it is done, and whether it ended with status 0.
#[derive(Clone, Copy, Debug, PartialEq, Eq)]
pub enum ChildEvent {
    Start(u32),
    Done(u32, bool),
}

/// Child processes over the files, of which several may run at a time.
pub trait Children: Files {
    /// The bytes that a text makes of named inputs, at an output.
    ghost made: { List ℕ → List (List ℕ × List ℕ) → List ℕ → List ℕ };

    /// Starts a child with a step's text. After an error none was started. It takes the room that the child's end needs.
    fn start(&mut self, step: u32, text: &str, ins: &[Path], outs: &[Path]) -> Result<(), IoFault>
        requires { MayStart (Self.outside self.old).children.running ins.now outs.now }
        ensures { Starts step text.now ins.now outs.now (Self.outside self.old) (Self.outside self.new) result };

    /// Waits until any running child has ended, and says which, and whether it ended with status 0. After a failure the
    /// same children run. It takes no memory.
    fn wait_one(&mut self) -> Result<(u32, bool), Failed>
        requires { (Self.outside self.old).children.running ≢ [] }
        ensures { Waits made (Self.outside self.old) (Self.outside self.new) result };

    ghost use Rattle.std.specs.Prelude.{is_some};

    /// What each start gave is visible where the files are.
    ghost told_alike: { (host : Self) → is_some (Self.outside host).disk ≡ is_some (Self.outside host).children.given };
}
