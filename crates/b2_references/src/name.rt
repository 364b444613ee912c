//! Names of main targets.
ghost use Rattle.std.specs.Prelude.{◌≡◌, ◌++◌, IfOk};
ghost use Rattle.std.specs.Hash as fed;
ghost use Rattle.std.specs.Hash.{and-Alike, on_Alike, same_Alike};
ghost use Rattle.std.specs.Cmp.{and_equiv, nat_eq_equiv, on_equiv, partial_equiv_from_equiv, unsigned_Decides};
ghost use Rattle.std.specs.Cmp.Lexicographic.{bytes_decides, nat_list_eq_equiv};
ghost use Rattle.b2_references.specs.Names.{Name, is_same};

use b2_base::fault::OutOfMemory;
use b2_base::list::List;
use b2_base::text::Text;
use std::hash::{Hash, Hasher};
use std::marker::Model;

/// A main target by the place of its project among the projects, from 0, and its name there; seen as the pair of both.
pub struct TargetName {
    project: usize,
    name: Text,
}

/// By hand, so that dropping one is one call.
impl Drop for TargetName {
    fn drop(self) {
        let TargetName { project: _, name } = self;
        drop(name);
    }
}

impl Model for TargetName {
    ghost use Rattle.std.specs.Prelude.{ℕ, List};

    ghost Value = { ℕ × List ℕ };

    ghost view = { λ t. (t.project, t.name) };
}

impl TargetName {
    /// The name of a main target of a project; takes no memory.
    pub fn new(project: usize, name: Text) -> TargetName
        ensures { result ≡ (project, name) }
    {
        TargetName { project, name }
    }

    /// The place of the project; takes no memory.
    pub fn project(&self) -> usize
        ensures { result ≡ self.now.0 }
    {
        self.project
    }

    /// The name in the project; takes no memory.
    pub fn name(&self) -> &Text
        ensures { result.now ≡ self.now.1 }
    {
        &self.name
    }

    /// The same name.
    pub fn copy(&self) -> Result<TargetName, OutOfMemory>
        ensures { IfOk result (λ made. made ≡ self.now) }
    {
        let name = self.name.copy()?;
        Ok(TargetName {
            project: self.project,
            name,
        })
    }

    /// Whether two names are one; takes no memory.
    pub fn equals(&self, other: &TargetName) -> bool
        ensures { result ≡ is_same self.now other.now }
    {
        self.project == other.project && self.name == other.name
    }
}

impl PartialEq for TargetName {
    ghost eq = { is_same };

    ghost laws = { partial_equiv_from_equiv (and_equiv (on_equiv (λ (a : Name). a.0) nat_eq_equiv) (on_equiv (λ (a : Name). a.1) nat_list_eq_equiv)) };

    fn eq(&self, other: &TargetName) -> bool {
        self.equals(other)
    }
}

impl Eq for TargetName {
    ghost laws = { and_equiv (on_equiv (λ (a : Name). a.0) nat_eq_equiv) (on_equiv (λ (a : Name). a.1) nat_list_eq_equiv) };
}

impl Hash for TargetName {
    ghost hash_input = { λ n. fed.usize n.0 ++ fed.str n.1 };

    ghost respects_eq = { (and-Alike (on_Alike (λ (a : Name). a.0) (same_Alike fed.usize unsigned_Decides)) (on_Alike (λ (a : Name). a.1) (same_Alike fed.str bytes_decides))).fed };

    fn hash<H: Hasher>(&self, state: &mut H) {
        self.project.hash(state);
        self.name.as_str().hash(state);
    }
}

/// Names of main targets in order.
pub type NameList = List<TargetName>;
