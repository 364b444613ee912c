//! Variables in modules and frames, and their past.
use crate::name::Name;
use crate::names::Names;
use crate::past::{Replacement, change};
use crate::registers::{Cell, Registers, Scope, closing, growing, looking, opening, unset};
use crate::sized_list::SizedList;
use crate::table::Table;
use b2_base::fault::OutOfMemory;
use b2_base::text::Text;
use b2_base::text_list::TextList;
use std::alloc::Global;
use std::marker::Model;
use std::mem;

mod layers;

/// The frames and bindings, and what was replaced, between two marks.
#[derive(Drop)]
struct Layer {
    entries: Vec<Scope>,
    changes: Vec<Replacement<Cell>>,
}

/// Variables in modules and frames, and what they were at marks. The present value of each name in each module is kept in one
/// table, with what each binding, and since a mark each assignment, replaced.
///
/// A call that answers no `Result` takes no memory. After an error all is as before.
pub struct Variables {
    alloc: Global,
    registers: Registers,
    /// The frames and bindings since the newest mark, the newest last.
    entries: Vec<Scope>,
    /// What assignments replaced since the newest mark, the newest last.
    changes: Vec<Replacement<Cell>>,
    /// The same before each mark, the newest last.
    older: Vec<Layer>,
}

impl Drop for Variables {
    fn drop(self) {
        let Variables {
            alloc: _,
            registers,
            entries,
            changes,
            older,
        } = self;
        drop(registers);
        drop(entries);
        drop(changes);
        drop(older);
    }
}

impl Model for Variables {
    ghost use Rattle.std.specs.Prelude.{reverse, map as each};
    ghost use Rattle.jam_journal.specs.Marks.{Marked};
    ghost use Rattle.jam_journal.specs.Scopes.{Scopes};
    ghost use Rattle.jam_journal.specs.ScopeCodes.{scopes_code};
    ghost use Rattle.std.specs.Coded.{coded_list, coded×};
    ghost use Rattle.jam_journal.specs.Stacks.{scopes_by, AllKept};
    ghost use Rattle.jam_journal.specs.Layers.{layers_of};

    ghost Value = { Marked Scopes };

    ghost coded = { coded× scopes_code (coded_list scopes_code) };

    ghost view = { λ v. scopes_by v.registers (reverse v.entries.items) (reverse v.changes.items) (layers_of v.older.items) };

    ghost invariant = { λ v. AllKept v.registers (reverse v.entries.items) (reverse v.changes.items) (layers_of v.older.items) };
}

impl Variables {
    ghost use Rattle.std.specs.Prelude.{◌≡◌, ◌≢◌, ◌<◌, ◌↔◌, [], map as each, string_bytes, length, IfOk, IsTrue, OnOk, OnErr};
    ghost use Rattle.std.specs.Option.{unwrap_or};
    ghost use Rattle.std.specs.FinMap as map;
    ghost use Rattle.jam_journal.specs.Tables.{row_of};
    ghost use Rattle.jam_journal.specs.Marks.{changed, marked, rolled};
    ghost use Rattle.jam_journal.specs.Sizes.{size_of, capped};
    ghost use Rattle.jam_journal.specs.Scopes.{look, assigned, assign, append, enter, enter_call, leave, bind, module_of, caller_of, first_scopes, frames_at_mark};

    /// No frame and no variable.
    pub fn new(alloc: Global) -> Result<Variables, OutOfMemory>
        ensures { IfOk result (λ made. made ≡ (first_scopes, [])) }
    {
        let owner = Name::new(alloc, "")?;
        let caller = Name::new(alloc, "")?;
        Ok(Variables {
            alloc,
            registers: Registers {
                cells: Table::new(alloc),
                innermost: Names::new(alloc),
                owner,
                caller,
            },
            entries: Vec::new(alloc),
            changes: Vec::new(alloc),
            older: Vec::new(alloc),
        })
    }

    /// The value of a name: that of the innermost frame of the present module that binds it, for an argument list of the
    /// innermost frame of any module; else the module's variable; else the empty list.
    pub fn look(&self, name: &str) -> &[Text]
        ensures { result.now ≡ look self.now.0 name.now }
    {
        looking::found(&self.registers, name)
    }

    /// The value that `set` would replace, or the empty list.
    pub fn assigned(&self, name: &str) -> &[Text]
        ensures { result.now ≡ unwrap_or (assigned self.now.0 name.now) [] }
    {
        looking::value_at(&self.registers.cells, self.registers.owner.as_str(), name)
    }

    /// The size of the value that `set` would replace: the sum of its texts' lengths plus one each, or the largest number where
    /// that is larger. Takes no time in proportion to the value.
    pub fn assigned_size(&self, name: &str) -> u64
        ensures { result ≡ capped (size_of (unwrap_or (assigned self.now.0 name.now) [])) }
    {
        looking::size_at(&self.registers.cells, self.registers.owner.as_str(), name)
    }

    /// The names of a module's variables, in byte order. Takes time in proportion to its names and to the bindings that stand.
    pub fn names(&self, home: &str) -> Result<Vec<&String>, OutOfMemory>
        ensures { IfOk result (λ names. each (λ name. string_bytes name.now) names.items ≡ map.keys (row_of self.now.0.variables home.now)) }
    {
        let mut unset = Names::new(self.alloc);
        let owner = self.registers.owner.as_str();
        let entries = self.entries.as_slice();
        let owner = unset::note_unset(self.alloc, entries, owner, home, &mut unset)?;
        layers::note_unset(self.alloc, self.older.as_slice(), owner, home, &mut unset)?;
        let row = self.registers.cells.row(self.alloc, home)?;
        unset::others(self.alloc, row.as_slice(), &unset)
    }

    /// The present module: that of the newest frame, else the global one.
    pub fn module(&self) -> &str
        ensures { result.now ≡ module_of self.now.0.frames }
    {
        self.registers.owner.as_str()
    }

    /// The module that the innermost frame of a call keeps, or the empty text.
    pub fn caller(&self) -> &str
        ensures { result.now ≡ caller_of self.now.0.frames }
    {
        self.registers.caller.as_str()
    }

    /// Opens a frame of a module.
    pub fn enter(&mut self, module: &str) -> Result<(), OutOfMemory>
        ensures ok { OnOk result (self.new ≡ changed (enter «module».now) self.old) }
        ensures newer { OnOk result (frames_at_mark self.new.1 < length self.new.0.frames) }
        ensures err { OnErr result (self.new ≡ self.old) }
    {
        opening::open_frame(self.alloc, &mut self.registers, &mut self.entries, module)?;
        Ok(())
    }

    /// Opens a frame of a module for a call: it keeps the module that was the present one.
    pub fn enter_call(&mut self, module: &str) -> Result<(), OutOfMemory>
        ensures ok { OnOk result (self.new ≡ changed (enter_call «module».now) self.old) }
        ensures newer { OnOk result (frames_at_mark self.new.1 < length self.new.0.frames) }
        ensures err { OnErr result (self.new ≡ self.old) }
    {
        opening::open_call(self.alloc, &mut self.registers, &mut self.entries, module)?;
        Ok(())
    }

    /// Whether the newest frame was opened after the newest mark.
    pub fn may_leave(&self) -> bool
        ensures { IsTrue result ↔ (frames_at_mark self.now.1 < length self.now.0.frames) }
    {
        closing::opens_frame(self.entries.as_slice())
    }

    /// Closes the newest frame, which was opened after the newest mark. Its bindings go with it; what was assigned elsewhere
    /// stays.
    pub fn leave(&mut self)
        requires { frames_at_mark self.old.1 < length self.old.0.frames }
        ensures { self.new ≡ changed leave self.old }
    {
        closing::close_frame(&mut self.registers, &mut self.entries);
    }

    /// Binds a name in the newest frame, which is there.
    pub fn bind(&mut self, name: &str, value: TextList) -> Result<(), OutOfMemory>
        requires { self.old.0.frames ≢ [] }
        ensures ok { OnOk result (self.new ≡ changed (bind name.now value) self.old) }
        ensures err { OnErr result (self.new ≡ self.old) }
    {
        let cell = Cell {
            value: SizedList::from_list(value),
            stamp: self.older.len(),
        };
        opening::bind(
            self.alloc,
            &mut self.registers,
            &mut self.entries,
            name,
            cell,
        )?;
        Ok(())
    }

    /// Sets a name in the innermost frame of the present module that binds it, else as the module's variable.
    pub fn set(&mut self, name: &str, value: TextList) -> Result<(), OutOfMemory>
        ensures ok { OnOk result (self.new ≡ changed (assign name.now value) self.old) }
        ensures err { OnErr result (self.new ≡ self.old) }
    {
        let stamp = self.older.len();
        let cell = Cell {
            value: SizedList::from_list(value),
            stamp,
        };
        let is_fresh = looking::is_fresh(&self.registers, name, stamp);
        opening::set(
            self.alloc,
            &mut self.registers,
            &mut self.changes,
            is_fresh,
            name,
            cell,
        )?;
        Ok(())
    }

    /// Adds texts, after those that are there, to the value that `set` would replace.
    pub fn append(&mut self, name: &str, texts: &[Text]) -> Result<(), OutOfMemory>
        ensures ok { OnOk result (self.new ≡ changed (append name.now texts.now) self.old) }
        ensures err { OnErr result (self.new ≡ self.old) }
    {
        let stamp = self.older.len();
        if looking::is_fresh(&self.registers, name, stamp) {
            growing::extend(self.alloc, &mut self.registers, name, stamp, texts)?;
            return Ok(());
        }
        let value = growing::longer(self.alloc, &self.registers, name, texts)?;
        opening::set(
            self.alloc,
            &mut self.registers,
            &mut self.changes,
            false,
            name,
            Cell { value, stamp },
        )?;
        Ok(())
    }

    /// Marks the present state, to come back to it. Copies nothing of it.
    pub fn mark(&mut self) -> Result<(), OutOfMemory>
        ensures ok { OnOk result (self.new ≡ marked self.old) }
        ensures err { OnErr result (self.new ≡ self.old) }
    {
        self.older.reserve(1)?;
        let entries = mem::replace(&mut self.entries, Vec::new(self.alloc));
        let changes = mem::replace(&mut self.changes, Vec::new(self.alloc));
        self.older.push_reserved(Layer { entries, changes });
        Ok(())
    }

    /// How many marks there are.
    pub fn marks(&self) -> usize
        ensures { result ≡ length self.now.1 }
    {
        self.older.len()
    }

    /// Goes back to the newest mark, and uses it up; without a mark nothing changes.
    pub fn roll_back(&mut self)
        ensures { self.new ≡ rolled self.old }
    {
        if let Some(layer) = self.older.pop() {
            closing::close(&mut self.registers, &mut self.entries);
            change::undo(&mut self.registers.cells, &mut self.changes);
            self.entries = layer.entries;
            self.changes = layer.changes;
        }
    }
}
