//! A graph with what is seen of its files.
ghost use Rattle.std.specs.Prelude.{◌≡◌, ◌++◌, ◌∷◌, [], true, false, is_some, IfOk, OnOk};
ghost use Rattle.std.specs.FinMap as map;
ghost use Rattle.std.specs.List.{filter_map};
ghost use Rattle.b2_base.specs.Bytes.{HasNoZero};
ghost use Rattle.b2_base.specs.Segments.{path_from};
ghost use Rattle.jam_path.specs.Names.{path_of};
ghost use Rattle.jam_scope.specs.Texts.{first_roots};
ghost use Rattle.jam_engine.specs.Targets.{or_here, plain, value, root_of, roots_in};
ghost use Rattle.jam_engine.specs.Scenes.{HasPath, HavePaths, IsKnown, is_there_in, stands_in, counts_in};
ghost use Rattle.jam_engine.specs.Tables.{is_in};

use crate::index::Index;
use b2_base::fault::OutOfMemory;
use b2_base::look::Look;
use b2_base::path::{Path, joined_path, path_of};
use b2_base::path_list::PathList;
use b2_base::rooted::is_rooted;
use b2_base::text::Text;
use b2_base::text_map::TextMap;
use jam_scope::world::World;
use std::alloc::Global;

/// What was found of a text: its path, and whether it stands as a source, where that is asked of it.
pub(crate) struct Found {
    pub(crate) path: Path,
    pub(crate) is_source: bool,
}

/// By hand, so that dropping one is one call.
impl Drop for Found {
    fn drop(self) {
        let Found { path, is_source: _ } = self;
        drop(path);
    }
}

/// The look-ups of a graph, its roots, and what was found of its texts.
pub(crate) struct Scene {
    pub(crate) index: Index,
    pub(crate) roots: PathList,
    pub(crate) found: TextMap<Found>,
}

/// By hand, so that dropping one is one call.
impl Drop for Scene {
    fn drop(self) {
        let Scene {
            index,
            roots,
            found,
        } = self;
        drop(index);
        drop(roots);
        drop(found);
    }
}

/// What follows the grist of a name.
fn after_grist(text: &str) -> &str
    ensures value { result.now ≡ path_of text.now }
    ensures no_zero { HasNoZero text.now → HasNoZero result.now }
{
    if !text.starts_with('<') {
        return text;
    }
    match text.find('>') {
        None => text,
        Some(end) => {
            let (_grist, path) = text.split_at(end + 1);
            path
        }
    }
}

/// A text, or that of the directory itself where it is empty.
pub(crate) fn or_here(text: &str) -> &str
    ensures value { result.now ≡ or_here text.now }
    ensures no_zero { HasNoZero text.now → HasNoZero result.now }
{
    if text.is_empty() { "." } else { text }
}

/// A name without its grist.
pub(crate) fn plain(target: &Text) -> &str
    ensures value { result.now ≡ plain target.now }
    ensures no_zero { HasNoZero result.now }
{
    or_here(after_grist(target.as_str()))
}

/// A variable of a target: its own value, else the global module's. Takes no memory.
pub(crate) fn value<'a>(world: &'a World, target: &Text, name: &str) -> &'a [Text]
    requires { world.now.now.scopes.frames ≡ [] }
    ensures { result.now ≡ value world.now.now target.now name.now }
{
    match world.on_target(target.as_str(), name) {
        Some(own) => own,
        None => world.look(name),
    }
}

/// The path of a text that is relative to a directory.
pub(crate) fn placed(alloc: Global, dir: &str, text: &str) -> Result<Path, OutOfMemory>
    requires dir { HasNoZero dir.now }
    requires text { HasNoZero text.now }
    ensures { IfOk result (λ path. path ≡ path_from dir.now text.now) }
{
    if is_rooted(text) {
        return path_of(alloc, text);
    }
    joined_path(alloc, dir, text)
}

/// Adds the path of a directory, unless its text is empty.
fn push_root(alloc: Global, roots: &mut PathList, dir: &Text) -> Result<(), OutOfMemory>
    ensures { OnOk result (roots.new ≡ roots.old ++ filter_map root_of (dir.now ∷ [])) }
{
    if dir.as_str().is_empty() {
        return Ok(());
    }
    roots.push(path_of(alloc, dir.as_str())?)
}

/// `bin`, `stage` and `dist`.
fn first_roots(alloc: Global) -> Result<PathList, OutOfMemory>
    ensures { IfOk result (λ made. made ≡ first_roots) }
{
    let mut roots = PathList::new(alloc);
    roots.push(path_of(alloc, "bin")?)?;
    roots.push(path_of(alloc, "stage")?)?;
    roots.push(path_of(alloc, "dist")?)?;
    Ok(roots)
}

/// The output roots: `bin`, `stage` and `dist`, then those of the global OUTPUT_DIRS.
pub(crate) fn roots_of(alloc: Global, world: &World) -> Result<PathList, OutOfMemory>
    requires { world.now.now.scopes.frames ≡ [] }
    ensures { IfOk result (λ made. made ≡ roots_in world.now.now) }
{
    let mut roots = first_roots(alloc)?;
    for dir in world.look("OUTPUT_DIRS") {
        push_root(alloc, &mut roots, dir)?;
    }
    Ok(roots)
}

impl Scene {
    /// The path of a text. Each text of a graph has one once all are found.
    pub(crate) fn path(&self, text: &Text) -> Result<Path, OutOfMemory>
        ensures { IfOk result (λ path. HasPath self.now text.now path) }
    {
        match self.found.get(text) {
            Some(found) => found.path.copy(),
            None => Err(OutOfMemory),
        }
    }

    /// The paths of some texts.
    pub(crate) fn paths(&self, alloc: Global, texts: &[Text]) -> Result<PathList, OutOfMemory>
        ensures { IfOk result (HavePaths self.now texts.now) }
    {
        let mut paths = PathList::new(alloc);
        for text in texts {
            paths.push(self.path(text)?)?;
        }
        Ok(paths)
    }

    /// Whether a text was found to stand as a source; takes no memory. Each text of which that is asked was looked at once all are
    /// found.
    fn stands(&self, text: &Text) -> Result<bool, OutOfMemory>
        ensures exact { IfOk result (λ stands. stands ≡ stands_in self.now text.now) }
        ensures known { IfOk result (λ _. is_some (map.get self.now.found text.now) ≡ true) }
    {
        match self.found.get(text) {
            Some(found) => Ok(found.is_source),
            None => Err(OutOfMemory),
        }
    }

    /// Whether a target is made or stands as a source; takes no memory.
    pub(crate) fn is_there(&self, text: &Text) -> Result<bool, OutOfMemory>
        ensures exact { IfOk result (λ there. there ≡ is_there_in self.now text.now) }
        ensures known { IfOk result (λ _. IsKnown self.now text.now) }
    {
        if self.index.is_acted(text) {
            return Ok(true);
        }
        self.stands(text)
    }

    /// Whether a target counts where a list leads to it: not where it is a group that is not made, and not where it is not made,
    /// does not stand and may be missing. Takes no memory.
    pub(crate) fn counts(&self, target: &Text) -> Result<bool, OutOfMemory>
        ensures exact { IfOk result (λ counts. counts ≡ counts_in self.now target.now) }
        ensures known { IfOk result (λ _. is_in self.now.index.notfile target.now ≡ false → is_in self.now.index.nocare target.now ≡ true → IsKnown self.now target.now) }
    {
        if self.index.is_acted(target) {
            return Ok(true);
        }
        if self.index.is_notfile(target) {
            return Ok(false);
        }
        if !self.index.is_nocare(target) {
            return Ok(true);
        }
        self.stands(target)
    }
}
