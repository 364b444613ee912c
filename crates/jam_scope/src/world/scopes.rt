//! Looking up and setting names.
use super::World;
use b2_base::fault::OutOfMemory;
use b2_base::look::Look;
use b2_base::text::Text;
use b2_base::text_list::TextList;

impl Look for World {
    ghost use Rattle.jam_journal.specs.Scopes.{look};

    ghost answer = { λ ws name. look ws.now.scopes name };

    /// The value of a name: that of the innermost frame of the present module that binds it, for `<`, `>` and `1` to `9` of
    /// the innermost frame of any module; else the module's variable; else the empty list. Takes no memory.
    fn look(&self, name: &str) -> &[Text] {
        self.variables.look(name)
    }
}

impl World {
    ghost use Rattle.std.specs.Prelude.{◌≡◌, ◌≢◌, [], OnOk, OnErr};
    ghost use Rattle.std.specs.Option.{unwrap_or};
    ghost use Rattle.jam_journal.specs.Scopes.{append, assign, assigned, bind};
    ghost use Rattle.jam_journal.specs.Sizes.{size_of, capped};
    ghost use Rattle.jam_scope.specs.Changes.{rescoped};

    /// The value that `set` would replace: that of the innermost frame of the present module that binds the name, else of the
    /// module's variable; else the empty list. Takes no memory.
    pub fn assigned(&self, name: &str) -> &[Text]
        ensures { result.now ≡ unwrap_or (assigned self.now.now.scopes name.now) [] }
    {
        self.variables.assigned(name)
    }

    /// The size of the value that `set` would replace: the sum of its texts' lengths plus one each, or the largest number where
    /// that is larger. Takes no memory, and no time in proportion to the value.
    pub fn assigned_size(&self, name: &str) -> u64
        ensures { result ≡ capped (size_of (unwrap_or (assigned self.now.now.scopes name.now) [])) }
    {
        self.variables.assigned_size(name)
    }

    /// Sets a name in the innermost frame of the present module that binds it, else as the module's variable. After an
    /// error the world is as before.
    pub fn set(&mut self, name: &str, value: TextList) -> Result<(), OutOfMemory>
        ensures ok { OnOk result (self.new ≡ rescoped (assign name.now value) self.old) }
        ensures err { OnErr result (self.new ≡ self.old) }
    {
        self.variables.set(name, value)?;
        Ok(())
    }

    /// Adds texts, after those that are there, to the value that `set` would replace. Copies that value only where the name was
    /// neither bound, set nor added to since the newest mark. After an error the world is as before.
    pub fn append(&mut self, name: &str, value: &[Text]) -> Result<(), OutOfMemory>
        ensures ok { OnOk result (self.new ≡ rescoped (append name.now value.now) self.old) }
        ensures err { OnErr result (self.new ≡ self.old) }
    {
        self.variables.append(name, value)?;
        Ok(())
    }

    /// Binds a name in the newest frame, and needs one. The binding is of the frame's module, and hides older ones. After an
    /// error the world is as before.
    pub fn bind(&mut self, name: &str, value: TextList) -> Result<(), OutOfMemory>
        requires { self.old.now.scopes.frames ≢ [] }
        ensures ok { OnOk result (self.new ≡ rescoped (bind name.now value) self.old) }
        ensures err { OnErr result (self.new ≡ self.old) }
    {
        self.variables.bind(name, value)?;
        Ok(())
    }
}
