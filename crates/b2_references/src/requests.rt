//! What a request asks for.
ghost use Rattle.std.specs.Prelude.{◌≡◌, ◌++◌, ◌∷◌, [], map, IfOk, OnOk};
ghost use Rattle.std.specs.List.{AllByRecursion, flat_map};
ghost use Rattle.b2_references.specs.declared.asked.AskedPiece.TheVariants as variants;
ghost use Rattle.b2_references.specs.Requests.{HasSet, root_word, word_of, asked_for, asked_by, asked_of, asked, named_by};

use crate::asked::{AskedList, AskedPiece};
use crate::default_sets::{distinct, sets_for};
use crate::index::Index;
use crate::meaning::Meaning;
use crate::name::TargetName;
use crate::projects::project_meaning;
use crate::references::{ROOT, word_meaning};
use crate::request_word::{RequestWord, WordList};
use b2_base::fault::OutOfMemory;
use b2_base::text::Text;
use b2_props::props::Props;
use b2_props::request::PropsList;
use std::alloc::Global;

fn root_word(alloc: Global, index: &Index) -> Result<RequestWord, OutOfMemory>
    ensures { IfOk result (λ made. made ≡ root_word index.now) }
{
    let meaning = project_meaning(alloc, index, ROOT)?;
    Ok(RequestWord {
        text: Text::new(alloc, "")?,
        meaning,
    })
}

fn word_of(alloc: Global, index: &Index, word: &Text) -> Result<RequestWord, OutOfMemory>
    ensures { IfOk result (λ made. made ≡ word_of index.now word.now) }
{
    let text = word.copy()?;
    let meaning = word_meaning(alloc, index, word)?;
    Ok(RequestWord { text, meaning })
}

fn words_of(alloc: Global, index: &Index, words: &[Text]) -> Result<WordList, OutOfMemory>
    ensures { IfOk result (λ made. made ≡ map (word_of index.now) words.now) }
{
    let mut made = WordList::new(alloc);
    for word in words {
        made.push(word_of(alloc, index, word)?)?;
    }
    Ok(made)
}

/// The words, each with what it names; without words the project of Jamroot.
fn named_by(alloc: Global, index: &Index, words: &[Text]) -> Result<WordList, OutOfMemory>
    ensures { IfOk result (λ made. made ≡ named_by index.now words.now) }
{
    if words.is_empty() {
        let mut made = WordList::new(alloc);
        made.push(root_word(alloc, index)?)?;
        return Ok(made);
    }
    words_of(alloc, index, words)
}

fn push_main(made: &mut AskedList, name: &TargetName, set: Props) -> Result<(), OutOfMemory>
    ensures { OnOk result (made.new ≡ made.old ++ variants.Main name.now set ∷ []) }
{
    let name = name.copy()?;
    made.push(AskedPiece::Main { name, set })
}

fn push_mains(made: &mut AskedList, name: &TargetName, sets: PropsList) -> Result<(), OutOfMemory>
    ensures { OnOk result (made.new ≡ made.old ++ map (variants.Main name.now) sets) }
{
    for set in sets.into_vec() {
        push_main(made, name, set)?;
    }
    Ok(())
}

fn push_target(
    alloc: Global,
    index: &Index,
    set: &Props,
    name: &TargetName,
    made: &mut AskedList,
) -> Result<(), OutOfMemory>
    ensures { OnOk result (made.new ≡ made.old ++ asked_for index.now set.now name.now) }
{
    let sets = sets_for(alloc, index, set, name)?;
    push_mains(made, name, sets)
}

fn push_targets(
    alloc: Global,
    index: &Index,
    set: &Props,
    names: &[TargetName],
    made: &mut AskedList,
) -> Result<(), OutOfMemory>
    ensures { OnOk result (made.new ≡ made.old ++ flat_map (asked_for index.now set.now) names.now) }
{
    for name in names {
        push_target(alloc, index, set, name, made)?;
    }
    Ok(())
}

fn push_unknown(made: &mut AskedList, word: &Text) -> Result<(), OutOfMemory>
    ensures { OnOk result (made.new ≡ made.old ++ variants.NoTarget word.now ∷ []) }
{
    let word = word.copy()?;
    made.push(AskedPiece::NoTarget { word })
}

fn push_word(
    alloc: Global,
    index: &Index,
    set: &Props,
    word: &RequestWord,
    made: &mut AskedList,
) -> Result<(), OutOfMemory>
    ensures { OnOk result (made.new ≡ made.old ++ asked_by index.now set.now word.now.text word.now.meaning) }
{
    match &word.meaning {
        Meaning::Targets { names } => push_targets(alloc, index, set, names.as_slice(), made),
        Meaning::File { .. } | Meaning::Nothing => push_unknown(made, &word.text),
    }
}

fn push_words(
    alloc: Global,
    index: &Index,
    set: &Props,
    words: &[RequestWord],
    made: &mut AskedList,
) -> Result<(), OutOfMemory>
    ensures { OnOk result (made.new ≡ made.old ++ asked_of index.now words.now set.now) }
{
    for word in words {
        push_word(alloc, index, set, word, made)?;
    }
    Ok(())
}

fn pieces_of(
    alloc: Global,
    index: &Index,
    sets: &[Props],
    words: &[RequestWord],
) -> Result<AskedList, OutOfMemory>
    ensures { IfOk result (λ made. made ≡ flat_map (asked_of index.now words.now) sets.now) }
{
    let mut made = AskedList::new(alloc);
    for set in sets {
        push_words(alloc, index, set, words, &mut made)?;
    }
    Ok(made)
}

fn pieces(
    alloc: Global,
    index: &Index,
    sets: &[Props],
    words: &[Text],
) -> Result<AskedList, OutOfMemory>
    ensures { IfOk result (λ made. made ≡ asked index.now sets.now words.now) }
{
    let named = named_by(alloc, index, words)?;
    pieces_of(alloc, index, sets, named.as_slice())
}

/// What a request asks for: by sets, within each by words, within each by the main targets that the word names, within each
/// by the sets that the set stands for. Without words, the project of Jamroot is asked for.
pub fn asked(
    alloc: Global,
    index: &Index,
    sets: &[Props],
    words: &[Text],
) -> Result<AskedList, OutOfMemory>
    ensures exact { IfOk result (λ made. made ≡ asked index.now sets.now words.now) }
    ensures sets { IfOk result (λ made. AllByRecursion (HasSet index.now.registry) made) }
{
    distinct(&index.declared().registry);
    pieces(alloc, index, sets, words)
}
