//! The notes of the step whose rule is being run.
ghost use Rattle.std.specs.Prelude.{◌≡◌, [], false, IfOk};

use super::World;
use crate::notes::StepNotes;
use b2_base::fault::OutOfMemory;
use b2_base::path::Path;
use b2_base::path_list::{PathList, copy_paths};
use std::alloc::Global;

/// The notes of a step of which nothing is noted yet but its outputs and inputs.
fn first_notes(alloc: Global, outs: &[Path], ins: &[Path]) -> Result<StepNotes, OutOfMemory>
    ensures { IfOk result (λ notes. notes ≡ record { outs = outs.now; ins = ins.now; depends = []; always = false; notfile = false }) }
{
    let outs = copy_paths(alloc, outs)?;
    let ins = copy_paths(alloc, ins)?;
    Ok(StepNotes {
        outs,
        ins,
        depends: PathList::new(alloc),
        always: false,
        notfile: false,
    })
}

impl World {
    ghost use Rattle.std.specs.Prelude.{◌≡◌, None, OnOk, OnErr};
    ghost use Rattle.std.specs.Option.{option_copied};
    ghost use Rattle.jam_scope.specs.Changes.{changed, open_step, add_depends, set_always, set_notfile};

    /// Opens a step with these outputs and inputs, where none is open. Rolling back to a mark from before closes it again. After
    /// an error the world is as before.
    pub fn open_step(&mut self, outs: &[Path], ins: &[Path]) -> Result<(), OutOfMemory>
        requires { self.old.now.step ≡ None }
        ensures ok { OnOk result (self.new ≡ changed (open_step outs.now ins.now) self.old) }
        ensures err { OnErr result (self.new ≡ self.old) }
    {
        let notes = first_notes(self.alloc, outs, ins)?;
        self.steps.open(notes);
        Ok(())
    }

    /// The notes of the open step, none exactly where none is open. Takes no memory.
    pub fn step(&self) -> Option<&StepNotes>
        ensures { option_copied result ≡ self.now.now.step }
    {
        self.steps.get()
    }

    /// Adds an input to the open step; without one nothing changes. After an error the world is as before.
    pub fn add_depends(&mut self, path: Path) -> Result<(), OutOfMemory>
        ensures ok { OnOk result (self.new ≡ changed (add_depends path) self.old) }
        ensures err { OnErr result (self.new ≡ self.old) }
    {
        self.steps.add_depends(path)?;
        Ok(())
    }

    /// The open step is run in each update; without one nothing changes. Takes no memory.
    pub fn set_always(&mut self)
        ensures { self.new ≡ changed set_always self.old }
    {
        self.steps.set_always();
    }

    /// The outputs of the open step are no files; without one nothing changes. Takes no memory.
    pub fn set_notfile(&mut self)
        ensures { self.new ≡ changed set_notfile self.old }
    {
        self.steps.set_notfile();
    }
}
