//! Conditions on lists.
ghost use Rattle.std.specs.Prelude.{◌≡◌, ℕ, not, List, [], is_some, IfOk};
ghost use Rattle.std.specs.List.{list_all, list_any};
ghost use Rattle.std.specs.FinMap as map;
ghost use Rattle.std.specs.Str.{bytes_eq};
ghost use Rattle.jam_meaning.specs.Conds.{is_true, is_same, is_within};

use b2_base::fault::OutOfMemory;
use b2_base::text::Text;
use jam_journal::names::Names;
use std::alloc::Global;

fn is_filled(text: &Text) -> bool
    ensures { result ≡ not (bytes_eq text.now []) }
{
    text.as_str() != ""
}

/// Whether some text is not empty. Takes no memory.
pub fn is_true(texts: &[Text]) -> bool
    ensures { result ≡ is_true texts.now }
{
    texts.iter().any(|text| is_filled(text))
}

/// Whether two lists are equal. Takes no memory.
pub fn is_same(texts: &[Text], others: &[Text]) -> bool
    ensures { result ≡ is_same texts.now others.now }
{
    texts == others
}

fn is_equal(text: &Text, other: &Text) -> bool
    ensures { result ≡ bytes_eq text.now other.now }
{
    text == other
}

fn is_among(text: &Text, among: &[Text]) -> bool
    ensures { result ≡ list_any (bytes_eq text.now) among.now }
{
    among.iter().any(|other| is_equal(text, other))
}

/// How many texts are looked for one after another, rather than in a set of the others.
const FEW: usize = 4;

/// Whether each text is among others, which are looked through for each. Takes no memory.
fn are_among(texts: &[Text], among: &[Text]) -> bool
    ensures { result ≡ is_within texts.now among.now }
{
    texts.iter().all(|text| is_among(text, among))
}

fn set_of(alloc: Global, texts: &[Text]) -> Result<Names<()>, OutOfMemory>
    ensures { IfOk result (λ set. (name : List ℕ) → is_some (map.get set name) ≡ list_any (bytes_eq name) texts.now) }
{
    let mut set = Names::new(alloc);
    for text in texts {
        let _ = set.insert(alloc, text.as_str(), ())?;
    }
    Ok(set)
}

fn is_in(text: &Text, set: &Names<()>) -> bool
    ensures { result ≡ is_some (map.get set.now text.now) }
{
    set.get(text.as_str()).is_some()
}

/// Whether each text is in a set. Takes no memory.
fn are_in(texts: &[Text], set: &Names<()>) -> bool
    ensures { result ≡ list_all (λ text. is_some (map.get set.now text)) texts.now }
{
    texts.iter().all(|text| is_in(text, set))
}

/// Whether each text is among others. Takes time in proportion to the texts of both lists, times the logarithm of the number of
/// the others; where no memory is left for a set of them, the product of both numbers.
pub fn is_within(alloc: Global, texts: &[Text], among: &[Text]) -> bool
    ensures { result ≡ is_within texts.now among.now }
{
    if texts.len() <= FEW {
        return are_among(texts, among);
    }
    match set_of(alloc, among) {
        Ok(set) => are_in(texts, &set),
        Err(_) => are_among(texts, among),
    }
}
