//! The words of a command as what they stand for. Words of another number or form are `WrongWords`.
//!
//! What a command only lends to the call that it makes is a `ManuallyDrop` and lives until the process ends, since each exit at which
//! a value is dropped is proved. The functions whose name begins with `own_`, and `named`, give what is handed over or kept.
use crate::case_fault::CaseFault;
use crate::command::Word;
use b2_base::path::{Path, PathFault};
use b2_base::path_list::PathList;
use b2_base::text::{Text, has_no_zero};
use b2_base::text_list::TextList;
use std::alloc::Global;
use std::mem::ManuallyDrop;

/// Refuses words where a command takes none.
pub fn no_words(words: &[Word]) -> Result<(), CaseFault> {
    if words.is_empty() {
        Ok(())
    } else {
        Err(CaseFault::WrongWords)
    }
}

/// The one word that a command takes.
pub fn only(words: &[Word]) -> Result<&str, CaseFault> {
    match words {
        [word] => word.as_str(),
        _ => Err(CaseFault::WrongWords),
    }
}

/// The two words that a command takes.
pub fn both(words: &[Word]) -> Result<(&str, &str), CaseFault> {
    match words {
        [one, other] => Ok((one.as_str()?, other.as_str()?)),
        _ => Err(CaseFault::WrongWords),
    }
}

/// The first word, and the others.
pub fn first(words: &[Word]) -> Result<(&str, &[Word]), CaseFault> {
    match words.split_first() {
        Some((word, others)) => Ok((word.as_str()?, others)),
        None => Err(CaseFault::WrongWords),
    }
}

/// What stands before the first word `:`, and what stands after it; without one all stands before.
pub fn halves(words: &[Word]) -> (&[Word], &[Word]) {
    for place in 0..words.len() {
        if words[place].bytes() == b":".as_slice() {
            return (&words[..place], &words[place + 1..]);
        }
    }
    (words, &[])
}

/// A number below 2^32; `WrongWords` for any other word.
pub fn number(word: &str) -> Result<u32, CaseFault> {
    match word.parse::<u32>() {
        Ok(number) => Ok(number),
        Err(_) => Err(CaseFault::WrongWords),
    }
}

/// `WrongWords` where the word has a zero byte.
pub fn own_text(alloc: Global, word: &str) -> Result<Text, CaseFault> {
    if has_no_zero(word) {
        Ok(Text::new(alloc, word)?)
    } else {
        Err(CaseFault::WrongWords)
    }
}

/// The feature and the value of a word `<feature>value`.
pub fn property(word: &str) -> Result<(&str, &str), CaseFault> {
    let Some(inner) = word.strip_prefix('<') else {
        return Err(CaseFault::WrongWords);
    };
    match inner.split_once('>') {
        Some(parts) => Ok(parts),
        None => Err(CaseFault::WrongWords),
    }
}

/// Words as texts.
pub fn own_texts(alloc: Global, words: &[Word]) -> Result<TextList, CaseFault> {
    let mut texts = TextList::new(alloc);
    for word in words {
        texts.push(word.as_text(alloc)?)?;
    }
    Ok(texts)
}

/// The first word, and the others as texts.
pub fn named(alloc: Global, words: &[Word]) -> Result<(&str, TextList), CaseFault> {
    let (name, others) = first(words)?;
    Ok((name, own_texts(alloc, others)?))
}

fn own_lists(alloc: Global, words: &[Word]) -> Result<Vec<TextList>, CaseFault> {
    let mut lists = Vec::new(alloc);
    if words.is_empty() {
        return Ok(lists);
    }
    let mut list = TextList::new(alloc);
    for word in words {
        if word.bytes() == b":".as_slice() {
            lists.push(list)?;
            list = TextList::new(alloc);
        } else {
            list.push(word.as_text(alloc)?)?;
        }
    }
    lists.push(list)?;
    Ok(lists)
}

/// The lists of words that `:` divides, to lend; no words are no list.
pub fn lists(alloc: Global, words: &[Word]) -> Result<ManuallyDrop<Vec<TextList>>, CaseFault> {
    Ok(ManuallyDrop::new(own_lists(alloc, words)?))
}

/// A word as a path, which is brought into normal form.
pub fn own_path(alloc: Global, word: &str) -> Result<Path, CaseFault> {
    match Path::normal(alloc, word) {
        Ok(path) => Ok(path),
        Err(PathFault::OutOfMemory) => Err(CaseFault::OutOfMemory),
        Err(_fault) => Err(CaseFault::WrongWords),
    }
}

/// Words as paths.
pub fn own_paths(alloc: Global, words: &[Word]) -> Result<PathList, CaseFault> {
    let mut paths = PathList::new(alloc);
    for word in words {
        paths.push(own_path(alloc, word.as_str()?)?)?;
    }
    Ok(paths)
}

/// Texts as paths.
pub fn own_paths_of(alloc: Global, texts: &[Text]) -> Result<PathList, CaseFault> {
    let mut paths = PathList::new(alloc);
    for text in texts {
        paths.push(own_path(alloc, text.as_str())?)?;
    }
    Ok(paths)
}

/// A word as a text, to lend.
pub fn text(alloc: Global, word: &str) -> Result<ManuallyDrop<Text>, CaseFault> {
    Ok(ManuallyDrop::new(own_text(alloc, word)?))
}

/// Words as texts, to lend.
pub fn texts(alloc: Global, words: &[Word]) -> Result<ManuallyDrop<TextList>, CaseFault> {
    Ok(ManuallyDrop::new(own_texts(alloc, words)?))
}

/// A word as a path in normal form, to lend.
pub fn path(alloc: Global, word: &str) -> Result<ManuallyDrop<Path>, CaseFault> {
    Ok(ManuallyDrop::new(own_path(alloc, word)?))
}

/// Words as paths, to lend.
pub fn paths(alloc: Global, words: &[Word]) -> Result<ManuallyDrop<PathList>, CaseFault> {
    Ok(ManuallyDrop::new(own_paths(alloc, words)?))
}

/// Texts as paths, to lend.
pub fn paths_of(alloc: Global, texts: &[Text]) -> Result<ManuallyDrop<PathList>, CaseFault> {
    Ok(ManuallyDrop::new(own_paths_of(alloc, texts)?))
}
