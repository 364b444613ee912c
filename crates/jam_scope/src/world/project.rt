//! Own values, the project's directory and the output roots.
ghost use Rattle.std.specs.Prelude.{◌≡◌, ◌≢◌, ℕ, [], map, take, string_bytes, IfOk, OnOk, OnErr};
ghost use Rattle.jam_journal.specs.Marks.{changed as with_scopes};
ghost use Rattle.jam_journal.specs.Scopes.{bind_each};

use super::World;
use b2_base::fault::OutOfMemory;
use b2_base::path::Path;
use b2_base::text::Text;
use b2_base::text_list::{TextList, copy_texts};
use jam_journal::sized_list::SizedList;
use jam_journal::variables::Variables;
use std::alloc::Global;

/// Binds the names of a row in the newest frame, which is there. After an error the first ones may be bound.
fn bind_row(
    alloc: Global,
    variables: &mut Variables,
    row: &[(&String, &SizedList)],
) -> Result<(), OutOfMemory>
    requires { variables.old.0.frames ≢ [] }
    ensures ok { OnOk result (variables.new ≡ with_scopes (bind_each (map (λ entry. (string_bytes entry.0.now, entry.1.now)) row.now)) variables.old) }
    ensures err { OnErr result ((count : ℕ) × (variables.new ≡ with_scopes (bind_each (take count (map (λ entry. (string_bytes entry.0.now, entry.1.now)) row.now))) variables.old)) }
{
    for (name, value) in row {
        let value = copy_texts(alloc, value.as_slice())?;
        variables.bind(name.as_str(), value)?;
    }
    Ok(())
}

impl World {
    ghost use Rattle.std.specs.Prelude.{List, ◌≡◌, ◌≢◌, ◌++◌, ℕ, [], not, take, IfOk, OnOk, OnErr};
    ghost use Rattle.std.specs.Option.{option_copied};
    ghost use Rattle.std.specs.FinMap as map;
    ghost use Rattle.jam_journal.specs.Scopes.{bind_each};
    ghost use Rattle.jam_journal.specs.Sizes.{size_of, capped};
    ghost use Rattle.jam_journal.specs.Tables.{Text};
    ghost use Rattle.jam_scope.specs.Texts.{first_roots};
    ghost use Rattle.jam_scope.specs.Changes.{changed, rescoped, own_of, own_value, set_on, append_on, set_place, add_roots, freeze_roots};

    /// Sets an own value of a target. After an error the world is as before.
    pub fn set_on(&mut self, target: &str, name: &str, value: TextList) -> Result<(), OutOfMemory>
        ensures ok { OnOk result (self.new ≡ changed (set_on target.now name.now value) self.old) }
        ensures err { OnErr result (self.new ≡ self.old) }
    {
        self.own.insert(target, name, SizedList::from_list(value))?;
        Ok(())
    }

    /// The own value of a target, if it has one. Takes no memory.
    pub fn on_target(&self, target: &str, name: &str) -> Option<&[Text]>
        ensures { option_copied result ≡ map.get self.now.now.own (target.now, name.now) }
    {
        match self.own.get(target, name) {
            Some(texts) => Some(texts.as_slice()),
            None => None,
        }
    }

    /// The size of the own value of a target: the sum of its texts' lengths plus one each, or the largest number where that is
    /// larger; 0 where it has none. Takes no memory, and no time in proportion to the value.
    pub fn own_size(&self, target: &str, name: &str) -> u64
        ensures { result ≡ capped (size_of (own_value target.now name.now self.now.now)) }
    {
        match self.own.get(target, name) {
            Some(texts) => texts.size(),
            None => 0,
        }
    }

    /// Adds texts to the own value of a target, after those that are there. Copies nothing that is there. After an error the world
    /// is as before.
    pub fn append_on(&mut self, target: &str, name: &str, texts: &[Text]) -> Result<(), OutOfMemory>
        ensures ok { OnOk result (self.new ≡ changed (append_on target.now name.now texts.now) self.old) }
        ensures err { OnErr result (self.new ≡ self.old) }
    {
        self.own.append(target, name, texts)?;
        Ok(())
    }

    /// Binds the own values of a target in the newest frame, and needs one. After an error the first of them may be bound, in the
    /// order of their names, and all else is as before.
    pub fn bind_own(&mut self, target: &str) -> Result<(), OutOfMemory>
        requires { self.old.now.scopes.frames ≢ [] }
        ensures ok { OnOk result (self.new ≡ rescoped (bind_each (own_of target.now self.old.now)) self.old) }
        ensures err { OnErr result ((count : ℕ) × (self.new ≡ rescoped (bind_each (take count (own_of target.now self.old.now))) self.old)) }
    {
        let row = self.own.row(target)?;
        bind_row(self.alloc, &mut self.variables, row.as_slice())?;
        Ok(())
    }

    /// The directory of the project that is being loaded or whose step is being made. Takes no memory.
    pub fn place(&self) -> &Path
        ensures { result.now ≡ self.now.now.place }
    {
        self.place.get()
    }

    /// Sets that directory. After an error the world is as before.
    pub fn set_place(&mut self, dir: &Path) -> Result<(), OutOfMemory>
        ensures ok { OnOk result (self.new ≡ changed (set_place dir.now) self.old) }
        ensures err { OnErr result (self.new ≡ self.old) }
    {
        let dir = dir.copy()?;
        self.place.set(dir);
        Ok(())
    }

    /// The output roots, of which the first are `bin`, `stage` and `dist`. Takes no memory.
    pub fn roots(&self) -> &[Path]
        ensures same { result.now ≡ self.now.now.roots }
        ensures first { (more : List Text) × (result.now ≡ first_roots ++ more) }
    {
        self.roots.get().as_slice()
    }

    /// Adds output roots after those that are there. Answers false, and changes nothing, exactly where they are frozen.
    /// After an error the world is as before.
    pub fn add_roots(&mut self, dirs: &[Path]) -> Result<bool, OutOfMemory>
        ensures added { IfOk result (λ added. added ≡ not self.old.now.frozen) }
        ensures ok { OnOk result (self.new ≡ changed (add_roots dirs.now) self.old) }
        ensures err { OnErr result (self.new ≡ self.old) }
    {
        if *self.frozen.get() {
            return Ok(false);
        }
        let roots = self.roots.get().with(self.alloc, dirs)?;
        self.roots.set(roots);
        Ok(true)
    }

    /// No output root is added from now on. Takes no memory.
    pub fn freeze_roots(&mut self)
        ensures { self.new ≡ changed freeze_roots self.old }
    {
        self.frozen.set(true);
    }
}
