//! Entering and leaving frames.
use super::World;
use b2_base::fault::OutOfMemory;

impl World {
    ghost use Rattle.std.specs.Prelude.{◌≡◌, ◌<◌, ◌↔◌, length, IsTrue, OnOk, OnErr};
    ghost use Rattle.jam_journal.specs.Scopes.{enter, enter_call, leave, caller_of, module_of};
    ghost use Rattle.jam_scope.specs.Changes.{rescoped, frames_at_mark};

    /// Opens a frame of a module, which is the present one until the frame is left. After an error the world is as before.
    pub fn enter(&mut self, module: &str) -> Result<(), OutOfMemory>
        ensures ok { OnOk result (self.new ≡ rescoped (enter «module».now) self.old) }
        ensures newer { OnOk result (frames_at_mark self.new.marked < length self.new.now.scopes.frames) }
        ensures err { OnErr result (self.new ≡ self.old) }
    {
        self.variables.enter(module)?;
        Ok(())
    }

    /// Opens a frame of a module for a call: it keeps the module that was the present one. After an error the world is as
    /// before.
    pub fn enter_call(&mut self, module: &str) -> Result<(), OutOfMemory>
        ensures ok { OnOk result (self.new ≡ rescoped (enter_call «module».now) self.old) }
        ensures newer { OnOk result (frames_at_mark self.new.marked < length self.new.now.scopes.frames) }
        ensures err { OnErr result (self.new ≡ self.old) }
    {
        self.variables.enter_call(module)?;
        Ok(())
    }

    /// Whether the newest frame was opened after the newest mark. Takes no memory.
    pub fn may_leave(&self) -> bool
        ensures { IsTrue result ↔ (frames_at_mark self.now.marked < length self.now.now.scopes.frames) }
    {
        self.variables.may_leave()
    }

    /// Closes the newest frame, which was opened after the newest mark. Its bindings go with it; what was assigned elsewhere
    /// stays. Takes no memory.
    pub fn leave(&mut self)
        requires { frames_at_mark self.old.marked < length self.old.now.scopes.frames }
        ensures { self.new ≡ rescoped leave self.old }
    {
        self.variables.leave();
    }

    /// The present module: that of the newest frame, else the global one. Takes no memory.
    pub fn module(&self) -> &str
        ensures { result.now ≡ module_of self.now.now.scopes.frames }
    {
        self.variables.module()
    }

    /// The module that the innermost frame of a call keeps, or the empty text. Takes no memory.
    pub fn caller(&self) -> &str
        ensures { result.now ≡ caller_of self.now.now.scopes.frames }
    {
        self.variables.caller()
    }
}
