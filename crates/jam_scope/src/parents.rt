//! The modules above modules.
use b2_base::fault::OutOfMemory;
use jam_journal::name::Name;
use jam_journal::past::Past;
use std::alloc::Global;
use std::marker::Model;

/// The module above each of some modules, and what it was at marks. No module is above itself.
pub(crate) struct Parents {
    past: Past<Name>,
}

/// By hand, so that dropping one is one call.
impl Drop for Parents {
    fn drop(self) {
        let Parents { past } = self;
        drop(past);
    }
}

impl Model for Parents {
    ghost use Rattle.std.specs.Coded.{coded_list, coded×};
    ghost use Rattle.std.specs.FinMap as map;
    ghost use Rattle.jam_journal.specs.Tables.{Table as Pairs, Text};
    ghost use Rattle.jam_journal.specs.Marks.{Marked};
    ghost use Rattle.jam_journal.specs.ScopeCodes.{text_code, key_code};
    ghost use Rattle.jam_scope.specs.Heights.{AllHaveLinesAtMarks};

    ghost Value = { Marked (Pairs Text) };

    ghost coded = { coded× (map.code key_code text_code) (coded_list (map.code key_code text_code)) };

    ghost view = { λ p. p.past };

    ghost invariant = { λ p. AllHaveLinesAtMarks p.past };
}

impl Parents {
    ghost use Rattle.std.specs.Prelude.{◌≡◌, ◌<◌, [], IsTrue, OnOk, OnErr, IfSome, option_map};
    ghost use Rattle.std.specs.Str.{IsUtf8};
    ghost use Rattle.std.specs.FinMap as map;
    ghost use Rattle.jam_journal.specs.Marks.{marked, rolled};
    ghost use Rattle.jam_scope.specs.Lines.{AreLines, may_be_above};
    ghost use Rattle.jam_scope.specs.Heights.{height};

    /// No module has one above it; takes no memory.
    pub(crate) fn new(alloc: Global) -> Parents
        ensures { result ≡ (map.empty, []) }
    {
        Parents {
            past: Past::new(alloc),
        }
    }

    /// The modules above each module end.
    pub(crate) fn lined(&self)
        ensures { AreLines self.now.0 }
    {
        let _ = &self.past;
    }

    /// The module above a module, if there is one, which has fewer above it. Takes no memory.
    pub(crate) fn above(&self, owner: &str) -> Option<&str>
        ensures value { option_map (λ above. above.now) result ≡ map.get self.now.0 (owner.now, []) }
        ensures lower { IfSome result (λ above. height self.now.0 above.now < height self.now.0 owner.now) }
        ensures utf8 { IfSome result (λ above. IsUtf8 above.now) }
    {
        match self.past.get(owner, "") {
            Some(above) => Some(above.as_str()),
            None => None,
        }
    }

    /// Whether a module may be put above another one: it is another, and the other is not above it. Takes no memory.
    #[tactic(auto, using(crate::proofs::ParentLinesAlwaysEnd::among_next, crate::proofs::ParentLinesAlwaysEnd::among_end, crate::proofs::ParentLinesAlwaysEnd::among_here))]
    pub(crate) fn may_be_above(&self, owner: &str, parent: &str) -> bool
        ensures { result ≡ may_be_above self.now.0 parent.now owner.now }
    {
        self.lined();
        let mut above = parent;
        'modules: while owner != above {
            match self.above(above) {
                Some(next) => above = next,
                None => return true,
            }
        }
        false
    }

    /// Puts a module above another one. After an error all is as before.
    pub(crate) fn set(
        &mut self,
        alloc: Global,
        owner: &str,
        parent: &str,
    ) -> Result<(), OutOfMemory>
        requires { IsTrue (may_be_above self.old.0 parent.now owner.now) }
        ensures ok { OnOk result (self.new ≡ (map.insert self.old.0 (owner.now, []) parent.now, self.old.1)) }
        ensures err { OnErr result (self.new ≡ self.old) }
    {
        let above = Name::new(alloc, parent)?;
        self.past.insert(owner, "", above)?;
        Ok(())
    }

    /// Marks the present state. After an error all is as before.
    pub(crate) fn mark(&mut self) -> Result<(), OutOfMemory>
        ensures ok { OnOk result (self.new ≡ marked self.old) }
        ensures err { OnErr result (self.new ≡ self.old) }
    {
        self.past.mark()?;
        Ok(())
    }

    /// Goes back to the newest mark, and uses it up; without a mark nothing changes. Takes no memory.
    pub(crate) fn roll_back(&mut self)
        ensures { self.new ≡ rolled self.old }
    {
        self.past.roll_back();
    }
}
