//! What sources, values of dependency properties and words name.
ghost use Rattle.std.specs.Prelude.{◌≡◌, ◌∷◌, [], IfOk};
ghost use Rattle.b2_base.specs.Bytes.{HasNoZero};
ghost use Rattle.b2_base.specs.Segments.{path_from};
ghost use Rattle.b2_references.specs.declared.meaning.Meaning.TheVariants as meanings;
ghost use Rattle.b2_references.specs.References.{project_before, target_meaning, reference_meaning, id_meaning, target_or_file, directory_meaning, plain_value_meaning, plain_word_meaning, source_meaning, value_meaning, word_meaning};

use crate::index::Index;
use crate::meaning::Meaning;
use crate::name::{NameList, TargetName};
use crate::projects::project_meaning;
use crate::written::cut_reference;
use b2_base::fault::OutOfMemory;
use b2_base::path::{Path, folder, path_from, path_of};
use b2_base::rooted::is_rooted;
use b2_base::text::Text;
use std::alloc::Global;

/// The place of Jamroot's project.
pub const ROOT: usize = 0;

/// What a reference means that names a main target by its project and its name.
fn one_target(alloc: Global, project: usize, name: Text) -> Result<Meaning, OutOfMemory>
    ensures { IfOk result (λ made. made ≡ meanings.Targets ((project, name) ∷ [])) }
{
    let mut names = NameList::new(alloc);
    names.push(TargetName::new(project, name))?;
    Ok(Meaning::Targets { names })
}

/// A main target of a project, where it is one.
fn target_meaning(
    alloc: Global,
    index: &Index,
    project: usize,
    name: &str,
) -> Result<Meaning, OutOfMemory>
    requires { HasNoZero name.now }
    ensures { IfOk result (λ made. made ≡ target_meaning index.now (project, name.now)) }
{
    let name = Text::new(alloc, name)?;
    if !index.is_target(project, &name) {
        return Ok(Meaning::Nothing);
    }
    one_target(alloc, project, name)
}

/// The project that stands before `//`, in a text of the project of a directory.
fn project_before(
    alloc: Global,
    index: &Index,
    dir: &Path,
    before: &str,
) -> Result<Option<usize>, OutOfMemory>
    requires { HasNoZero before.now }
    ensures { IfOk result (λ project. project ≡ project_before index.now dir.now before.now) }
{
    if before.is_empty() {
        return Ok(Some(ROOT));
    }
    if is_rooted(before) {
        return Ok(index.place_with(before));
    }
    let dir = path_from(alloc, dir, before)?;
    Ok(index.place_at(&dir))
}

/// A reference: what stands before its first `//`, and the name after it.
#[tactic(auto, unfolding(crate::specs::References::reference_meaning))]
fn reference_meaning(
    alloc: Global,
    index: &Index,
    dir: &Path,
    before: &str,
    name: &str,
) -> Result<Meaning, OutOfMemory>
    requires before { HasNoZero before.now }
    requires name { HasNoZero name.now }
    ensures { IfOk result (λ made. made ≡ reference_meaning index.now dir.now (before.now, name.now)) }
{
    match project_before(alloc, index, dir, before)? {
        Some(project) => target_meaning(alloc, index, project, name),
        None => Ok(Meaning::Nothing),
    }
}

/// What an id means without a `//NAME` after it: the project that has it, as a whole.
#[tactic(auto, unfolding(crate::specs::References::id_meaning))]
fn id_meaning(alloc: Global, index: &Index, id: &str) -> Result<Meaning, OutOfMemory>
    ensures { IfOk result (λ made. made ≡ id_meaning index.now id.now) }
{
    match index.place_with(id) {
        Some(project) => project_meaning(alloc, index, project),
        None => Ok(Meaning::Nothing),
    }
}

/// The path of a file of a directory. In the folder most texts are paths already, and their segments are not cut.
fn file_in(alloc: Global, dir: &Path, text: &Text) -> Result<Path, OutOfMemory>
    ensures { IfOk result (λ path. path ≡ path_from dir.now text.now) }
{
    match dir.as_str() {
        "." => path_of(alloc, text.as_str()),
        _ => path_from(alloc, dir, text.as_str()),
    }
}

/// A text without `//`: a main target of a project, else a file of its directory.
#[tactic(auto, unfolding(crate::specs::References::target_or_file))]
fn target_or_file(
    alloc: Global,
    index: &Index,
    project: usize,
    text: &Text,
) -> Result<Meaning, OutOfMemory>
    ensures { IfOk result (λ made. made ≡ target_or_file index.now project text.now) }
{
    if index.is_target(project, text) {
        return one_target(alloc, project, text.copy()?);
    }
    let dir = index.dir_of(project)?;
    let path = file_in(alloc, &dir, text)?;
    Ok(Meaning::File { path })
}

/// What a source of a main target of a project names: a reference where it has `//`, else a main target of the project, or
/// a file of the project's directory.
#[tactic(auto, unfolding(crate::specs::References::source_meaning))]
pub fn source_meaning(
    alloc: Global,
    index: &Index,
    project: usize,
    text: &Text,
) -> Result<Meaning, OutOfMemory>
    ensures { IfOk result (λ made. made ≡ source_meaning index.now project text.now) }
{
    match cut_reference(text.as_str()) {
        None => target_or_file(alloc, index, project, text),
        Some((before, name)) => {
            let dir = index.dir_of(project)?;
            reference_meaning(alloc, index, &dir, before, name)
        }
    }
}

#[tactic(auto, unfolding(crate::specs::References::plain_value_meaning))]
fn plain_value_meaning(alloc: Global, index: &Index, text: &Text) -> Result<Meaning, OutOfMemory>
    ensures { IfOk result (λ made. made ≡ plain_value_meaning index.now text.now) }
{
    if is_rooted(text.as_str()) {
        return id_meaning(alloc, index, text.as_str());
    }
    target_or_file(alloc, index, ROOT, text)
}

/// What the value of a dependency property names: a reference where it has `//`, else a project by its id, else a main
/// target of Jamroot or a file of the folder.
#[tactic(auto, unfolding(crate::specs::References::value_meaning))]
pub fn value_meaning(alloc: Global, index: &Index, text: &Text) -> Result<Meaning, OutOfMemory>
    ensures { IfOk result (λ made. made ≡ value_meaning index.now text.now) }
{
    match cut_reference(text.as_str()) {
        None => plain_value_meaning(alloc, index, text),
        Some((before, name)) => {
            let dir = folder(alloc)?;
            reference_meaning(alloc, index, &dir, before, name)
        }
    }
}

/// What a word without `//` means as a directory: the project there, as a whole. The empty word means nothing.
#[tactic(auto, unfolding(crate::specs::References::directory_meaning))]
fn directory_meaning(alloc: Global, index: &Index, word: &Text) -> Result<Meaning, OutOfMemory>
    ensures { IfOk result (λ made. made ≡ directory_meaning index.now word.now) }
{
    if word.as_str().is_empty() {
        return Ok(Meaning::Nothing);
    }
    let dir = folder(alloc)?;
    let dir = path_from(alloc, &dir, word.as_str())?;
    match index.place_at(&dir) {
        Some(project) => project_meaning(alloc, index, project),
        None => Ok(Meaning::Nothing),
    }
}

#[tactic(auto, unfolding(crate::specs::References::plain_word_meaning))]
fn plain_word_meaning(alloc: Global, index: &Index, word: &Text) -> Result<Meaning, OutOfMemory>
    ensures { IfOk result (λ made. made ≡ plain_word_meaning index.now word.now) }
{
    if is_rooted(word.as_str()) {
        return id_meaning(alloc, index, word.as_str());
    }
    if index.is_target(ROOT, word) {
        return one_target(alloc, ROOT, word.copy()?);
    }
    directory_meaning(alloc, index, word)
}

/// What a target word names: a reference where it has `//`, else a project by its id, else a main target of Jamroot, else
/// the project of a directory. The empty word names nothing.
#[tactic(auto, unfolding(crate::specs::References::word_meaning))]
pub fn word_meaning(alloc: Global, index: &Index, word: &Text) -> Result<Meaning, OutOfMemory>
    ensures { IfOk result (λ made. made ≡ word_meaning index.now word.now) }
{
    match cut_reference(word.as_str()) {
        None => plain_word_meaning(alloc, index, word),
        Some((before, name)) => {
            let dir = folder(alloc)?;
            reference_meaning(alloc, index, &dir, before, name)
        }
    }
}
