//! What words stand for in more than one part.
ghost use Rattle.std.specs.Prelude.{IfOk};
ghost use Rattle.b2_base.specs.Bytes.{HasNoZero};

use b2_base::path::Path;
use b2_base::text::has_no_zero;
use b2_props::pair_list::PairList;
use std::alloc::Global;
use transcript::case_fault::CaseFault;
use transcript::command::Word;
use transcript::words::{own_path, own_text, property};

/// A word that has no zero byte.
pub fn plain(word: &str) -> Result<&str, CaseFault>
    ensures { IfOk result (λ text. HasNoZero text.now) }
{
    if has_no_zero(word) {
        Ok(word)
    } else {
        Err(CaseFault::WrongWords)
    }
}

/// The project file of a directory.
pub fn file_in(alloc: Global, dir: &str) -> Result<Path, CaseFault> {
    own_path(alloc, format!(in alloc; "{dir}/Jamfile")?.as_str())
}

fn push_property(alloc: Global, made: &mut PairList, word: &str) -> Result<(), CaseFault> {
    let (feature, value) = property(word)?;
    let feature = own_text(alloc, feature)?;
    made.push(feature, own_text(alloc, value)?)?;
    Ok(())
}

/// Words `<feature>value` as pairs.
pub fn pairs(alloc: Global, words: &[Word]) -> Result<PairList, CaseFault> {
    let mut made = PairList::new(alloc);
    for word in words {
        push_property(alloc, &mut made, word.as_str()?)?;
    }
    Ok(made)
}
