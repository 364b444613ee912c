//! Paths in normal form.
ghost use Rattle.std.specs.Prelude.{◌≡◌, ◌≢◌, ◌↔◌, ◌++◌, [], codes, IfOk, IfSome, IsErrOf, IsSome, IsTrue, string_bytes};
ghost use Rattle.b2_base.specs.Bytes.{HasNoZero};
ghost use Rattle.b2_base.specs.Segments.{here, normal_of, path_from, file_name, is_rooted, segments};
ghost use Rattle.b2_base.specs.Normal.{IsNormal, IsUnder, parts};
ghost use Rattle.b2_base.specs.Below.{is_below};
ghost use Rattle.b2_base.specs.Simpler.{Reaches, IsSimplest, IsOnlyEnd};

use crate::fault::OutOfMemory;
use crate::rooted::is_rooted;
use crate::segments::{cut, file_name, is_below, is_normal, join, keep};
use crate::text::{Text, has_no_zero};
use std::alloc::Global;
use std::cmp::Ordering;
use std::marker::Model;
use thiserror::Error;

/// Why a text is no path.
#[derive(Debug, Drop, Error)]
pub enum PathFault {
    /// The text is empty.
    #[error("the path is empty")]
    Empty,
    /// The text has a zero byte.
    #[error("the path has a zero byte")]
    Nul,
    /// No memory was left.
    #[error("out of memory")]
    OutOfMemory,
}

impl From<OutOfMemory> for PathFault {
    ghost use Rattle.b2_base.specs.declared.path.PathFault.TheVariants as faults;

    ghost from_gives = { λ _ fault. fault ≡ faults.OutOfMemory };

    fn from(_error: OutOfMemory) -> PathFault {
        PathFault::OutOfMemory
    }
}

/// A path in normal form, seen as its bytes: `.`, `/`, or some `..` and then names, joined by slashes. An absolute path
/// begins with a slash and has no `..`. Paths are ordered by their bytes.
#[derive(Debug)]
pub struct Path {
    text: Text,
}

/// By hand, so that dropping one is one call.
impl Drop for Path {
    fn drop(self) {
        let Path { text } = self;
        drop(text);
    }
}

impl Model for Path {
    ghost use Rattle.std.specs.Prelude.{ℕ, List};
    ghost use Rattle.b2_base.specs.Normal.{IsNormal};

    ghost Value = { List ℕ };

    ghost view = { λ p. p.text };

    ghost invariant = { λ p. IsNormal p.text };
}

/// The normal form of a text, from its segments.
fn simplified(alloc: Global, text: &str) -> Result<String, OutOfMemory>
    ensures { IfOk result (λ made. string_bytes made ≡ normal_of text.now) }
{
    let rooted = is_rooted(text);
    let cuts = cut(alloc, text)?;
    let kept = keep(alloc, rooted, cuts.as_slice())?;
    join(alloc, rooted, kept.as_slice())
}

/// The normal form of a text. Most texts are in normal form, and their segments are not cut.
fn normal_text(alloc: Global, text: &str) -> Result<Text, OutOfMemory>
    requires { HasNoZero text.now }
    ensures { IfOk result (λ made. made ≡ normal_of text.now) }
{
    if is_normal(text) {
        return Text::new(alloc, text);
    }
    let text = simplified(alloc, text)?;
    Ok(Text::from_string(text))
}

/// The path of a text that is not empty.
fn path_of_some(alloc: Global, text: &str) -> Result<Path, OutOfMemory>
    requires no_zero { HasNoZero text.now }
    requires some { text.now ≢ [] }
    ensures { IfOk result (λ path. path ≡ normal_of text.now) }
{
    match Path::normal(alloc, text) {
        Ok(path) => Ok(path),
        Err(PathFault::OutOfMemory) => Err(OutOfMemory),
        Err(PathFault::Empty | PathFault::Nul) => unreachable!(),
    }
}

/// The path of a text, which has no zero byte; that of the empty text is `.`.
pub fn path_of(alloc: Global, text: &str) -> Result<Path, OutOfMemory>
    requires { HasNoZero text.now }
    ensures { IfOk result (λ path. path ≡ normal_of text.now) }
{
    if text.is_empty() {
        path_of_some(alloc, ".")
    } else {
        path_of_some(alloc, text)
    }
}

/// The directory that relative paths start from, which is `.`.
pub fn folder(alloc: Global) -> Result<Path, OutOfMemory>
    ensures { IfOk result (λ path. path ≡ here) }
{
    path_of_some(alloc, ".")
}

/// The path of two texts with a slash between them.
pub fn joined_path(alloc: Global, dir: &str, text: &str) -> Result<Path, OutOfMemory>
    requires dir { HasNoZero dir.now }
    requires text { HasNoZero text.now }
    ensures { IfOk result (λ path. path ≡ normal_of (dir.now ++ codes "/" ++ text.now)) }
{
    let text = format!(in alloc; "{dir}/{text}")?;
    path_of(alloc, text.as_str())
}

/// The path of a text that is relative to a directory, unless it begins with a slash; that of the empty text is the directory.
pub fn path_from(alloc: Global, dir: &Path, text: &str) -> Result<Path, OutOfMemory>
    requires { HasNoZero text.now }
    ensures { IfOk result (λ path. path ≡ path_from dir.now text.now) }
{
    if is_rooted(text) {
        return path_of(alloc, text);
    }
    joined_path(alloc, dir.as_str(), text)
}

impl Path {
    /// The normal form of a text: empty segments and `.` are dropped, and a segment before `..` with it. A leading `..`
    /// stays, but for one at the root. What is left of nothing is `.`, or `/` at the root. `Empty` is answered exactly
    /// for the empty text, `Nul` exactly where a zero byte stands.
    ///
    /// Said by single steps: the path begins at the root where the text does. One step of simplification after another
    /// leads from the text's segments to the path's. No step leads on from these, and whichever steps are taken, they
    /// end in no other list.
    pub fn normal(alloc: Global, text: &str) -> Result<Path, PathFault>
        ensures exact { IfOk result (λ path. path ≡ normal_of text.now) }
        ensures normal { IfOk result IsNormal }
        ensures root { IfOk result (λ path. is_rooted path ≡ is_rooted text.now) }
        ensures reached { IfOk result (λ path. Reaches (is_rooted text.now) (segments text.now) (parts path)) }
        ensures simplest { IfOk result (λ path. IsSimplest (is_rooted path) (parts path)) }
        ensures only { IfOk result (λ path. IsOnlyEnd (is_rooted text.now) (segments text.now) (parts path)) }
        ensures empty { IsErrOf result PathFault.Empty ↔ (text.now ≡ []) }
        ensures nul { IsErrOf result PathFault.Nul ↔ ¬ HasNoZero text.now }
        ensures no_zero { IfOk result (λ _. HasNoZero text.now) }
    {
        if text.is_empty() {
            return Err(PathFault::Empty);
        }
        if !has_no_zero(text) {
            return Err(PathFault::Nul);
        }
        let text = normal_text(alloc, text)?;
        Ok(Path::of_normal(text))
    }

    /// The path that a text in normal form is.
    fn of_normal(text: Text) -> Path
        requires { IsNormal text }
        ensures { result ≡ text }
    {
        Path { text }
    }

    /// The path with exactly this text, which it takes over. Answers None exactly where the text is not in normal form. Reads
    /// the text once, and takes no memory.
    pub fn from_text(_alloc: Global, text: Text) -> Result<Option<Path>, OutOfMemory>
        ensures exact { IfOk result (λ found. IfSome found (λ path. path ≡ text)) }
        ensures normal { IfOk result (λ found. IsSome found ↔ IsNormal text) }
    {
        if is_normal(text.as_str()) {
            Ok(Some(Path::of_normal(text)))
        } else {
            Ok(None)
        }
    }

    /// The same path again, as the copy of its text is.
    pub fn copy(&self) -> Result<Path, OutOfMemory>
        ensures { IfOk result (λ made. made ≡ self.now) }
    {
        let text = self.text.copy()?;
        Ok(Path { text })
    }

    /// The path as text.
    pub fn as_text(&self) -> &Text
        ensures value { result.now ≡ self.now }
        ensures normal { IsNormal self.now }
    {
        &self.text
    }

    /// The path as a `str`.
    pub fn as_str(&self) -> &str
        ensures value { result.now ≡ self.now }
        ensures normal { IsNormal self.now }
        ensures no_zero { HasNoZero self.now }
    {
        self.text.as_str()
    }

    /// The file's name: what stands after the last slash. Takes no memory.
    pub fn file_name(&self) -> &str
        ensures name { result.now ≡ file_name self.now }
        ensures no_zero { HasNoZero result.now }
    {
        file_name(self.as_str())
    }

    /// Whether the path lies below a folder: both are absolute or both relative, and the folder's segments are a proper
    /// prefix of the path's. Below `.`, which has no segment, lies each relative path but `.` itself and those that begin
    /// with `..`. Only the texts are compared, and no disk is asked. Takes no memory.
    pub fn under(&self, dir: &Path) -> bool
        ensures exact { result ≡ is_below self.now dir.now }
        ensures under { IsTrue result ↔ IsUnder self.now dir.now }
    {
        is_below(self.as_str(), dir.as_str())
    }
}

impl PartialEq for Path {
    ghost use Rattle.std.specs.Str.{bytes_eq};
    ghost use Rattle.std.specs.Cmp.{partial_equiv_from_equiv};
    ghost use Rattle.std.specs.Cmp.Lexicographic.{nat_list_eq_equiv};

    ghost eq = { bytes_eq };

    ghost laws = { partial_equiv_from_equiv nat_list_eq_equiv };

    fn eq(&self, other: &Path) -> bool {
        self.as_str() == other.as_str()
    }
}

impl Eq for Path {
    ghost use Rattle.std.specs.Cmp.Lexicographic.{nat_list_eq_equiv};

    ghost laws = { nat_list_eq_equiv };
}

impl PartialOrd for Path {
    ghost use Rattle.std.specs.Prelude.{Some};
    ghost use Rattle.std.specs.Ordering.{nat_cmp};
    ghost use Rattle.std.specs.Cmp.Lexicographic.{slice_cmp, texts_po};

    ghost partial_cmp = { λ x y. Some (slice_cmp nat_cmp x y) };

    ghost laws = { texts_po };

    fn partial_cmp(&self, other: &Path) -> Option<Ordering> {
        Some(self.cmp(other))
    }
}

impl Ord for Path {
    ghost use Rattle.std.specs.Prelude.{refl};
    ghost use Rattle.std.specs.Ordering.{nat_cmp};
    ghost use Rattle.std.specs.Cmp.Lexicographic.{slice_cmp, nat_list_cmp_total, texts_ties};

    ghost cmp = { slice_cmp nat_cmp };

    ghost total = { nat_list_cmp_total };

    ghost matches_partial_cmp = { λ x y. refl };

    ghost matches_eq = { texts_ties };

    fn cmp(&self, other: &Path) -> Ordering {
        self.as_str().cmp(other.as_str())
    }
}
