//! The output roots.
ghost use Rattle.std.specs.Prelude.{◌≡◌, ◌++◌, IfOk};
ghost use Rattle.jam_scope.specs.Texts.{first_roots};

use b2_base::fault::OutOfMemory;
use b2_base::path::{Path, path_of};
use b2_base::path_list::{PathList, copy_paths, push_paths};
use std::alloc::Global;
use std::marker::Model;

/// The output roots `bin`, `stage` and `dist`, and further ones after them.
pub(crate) struct Roots {
    paths: PathList,
}

/// By hand, so that dropping one is one call.
impl Drop for Roots {
    fn drop(self) {
        let Roots { paths } = self;
        drop(paths);
    }
}

impl Model for Roots {
    ghost use Rattle.std.specs.Prelude.{List, ◌≡◌, ◌++◌};
    ghost use Rattle.std.specs.Coded.{coded_list};
    ghost use Rattle.jam_journal.specs.Tables.{Text};
    ghost use Rattle.jam_journal.specs.ScopeCodes.{text_code};
    ghost use Rattle.jam_scope.specs.Texts.{first_roots};

    ghost Value = { List Text };

    ghost coded = { coded_list text_code };

    ghost view = { λ roots. roots.paths };

    ghost invariant = { λ roots. (more : List Text) × (roots.paths ≡ first_roots ++ more) };
}

impl Roots {
    ghost use Rattle.std.specs.Prelude.{List, ◌≡◌, ◌++◌, IfOk};
    ghost use Rattle.jam_journal.specs.Tables.{Text};
    ghost use Rattle.jam_scope.specs.Texts.{first_roots};

    /// `bin`, `stage` and `dist`.
    pub(crate) fn new(alloc: Global) -> Result<Roots, OutOfMemory>
        ensures { IfOk result (λ made. made ≡ first_roots) }
    {
        let paths = first_roots(alloc)?;
        Ok(Roots { paths })
    }

    /// All of them, in order. Takes no memory.
    pub(crate) fn as_slice(&self) -> &[Path]
        ensures same { result.now ≡ self.now }
        ensures first { (more : List Text) × (result.now ≡ first_roots ++ more) }
    {
        self.paths.as_slice()
    }

    /// These, and further ones after them.
    pub(crate) fn with(&self, alloc: Global, dirs: &[Path]) -> Result<Roots, OutOfMemory>
        ensures { IfOk result (λ made. made ≡ self.now ++ dirs.now) }
    {
        let paths = joined(alloc, self.as_slice(), dirs)?;
        Ok(Roots { paths })
    }
}

fn first_roots(alloc: Global) -> Result<PathList, OutOfMemory>
    ensures { IfOk result (λ made. made ≡ first_roots) }
{
    let mut paths = PathList::new(alloc);
    paths.push(path_of(alloc, "bin")?)?;
    paths.push(path_of(alloc, "stage")?)?;
    paths.push(path_of(alloc, "dist")?)?;
    Ok(paths)
}

/// Some paths, and further ones after them.
fn joined(alloc: Global, paths: &[Path], more: &[Path]) -> Result<PathList, OutOfMemory>
    ensures { IfOk result (λ made. made ≡ paths.now ++ more.now) }
{
    let mut made = copy_paths(alloc, paths)?;
    push_paths(&mut made, more)?;
    Ok(made)
}
