//! A list of texts.
ghost use Rattle.std.specs.Prelude.{◌≡◌, ◌++◌, All, drop, IfOk, OnOk};
ghost use Rattle.b2_base.specs.Bytes.{HasNoZero};
ghost use Rattle.b2_base.specs.Lists.{list_at, rest_of, first_of};
ghost use Rattle.b2_base.specs.Segments.{texts};

use crate::fault::OutOfMemory;
use crate::list::List;
use crate::text::Text;
use std::alloc::Global;

/// Texts in order, seen as the list of their bytes.
pub type TextList = List<Text>;

/// The list at a place of a call's lists, counted from 0; one that is not given is empty. Takes no memory.
pub fn list_at(lists: &[TextList], place: usize) -> &[Text]
    ensures { result.now ≡ list_at place lists.now }
{
    match lists.get(place) {
        None => &[],
        Some(list) => list.as_slice(),
    }
}

/// The lists after the first one; takes no memory.
pub fn rest_of(lists: &[TextList]) -> &[TextList]
    ensures { result.now ≡ rest_of lists.now }
{
    match lists {
        [] => lists,
        [_, more @ ..] => more,
    }
}

/// The texts after the first one; takes no memory.
pub fn rest_of_texts(texts: &[Text]) -> &[Text]
    ensures { result.now ≡ drop 1 texts.now }
{
    match texts {
        [] => texts,
        [_, more @ ..] => more,
    }
}

/// The first text, or the empty one. Takes no memory.
pub fn first_of(texts: &[Text]) -> &str
    ensures value { result.now ≡ first_of texts.now }
    ensures no_zero { HasNoZero result.now }
{
    match texts {
        [] => "",
        [first, ..] => first.as_str(),
    }
}

/// The same texts, in order.
pub fn copy_texts(alloc: Global, texts: &[Text]) -> Result<TextList, OutOfMemory>
    ensures { IfOk result (λ made. made ≡ texts.now) }
{
    let mut made = Vec::new(alloc);
    made.reserve_exact(texts.len())?;
    for text in texts {
        made.push(text.copy()?)?;
    }
    Ok(TextList::from_vec(made))
}

/// Some words as owned texts, in order.
pub fn owned_texts(alloc: Global, words: &[&str]) -> Result<TextList, OutOfMemory>
    requires { All HasNoZero (texts words.now) }
    ensures { IfOk result (λ made. made ≡ texts words.now) }
{
    let mut made = Vec::new(alloc);
    made.reserve_exact(words.len())?;
    for word in words {
        made.push(Text::new(alloc, word)?)?;
    }
    Ok(TextList::from_vec(made))
}

/// Adds copies of texts at the end.
pub fn push_copies(made: &mut TextList, texts: &[Text]) -> Result<(), OutOfMemory>
    ensures { OnOk result (made.new ≡ made.old ++ texts.now) }
{
    made.reserve(texts.len())?;
    for text in texts {
        made.push(text.copy()?)?;
    }
    Ok(())
}
