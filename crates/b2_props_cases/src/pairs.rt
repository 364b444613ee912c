//! The properties that words stand for, and the sets that they make.
ghost use Rattle.std.specs.Prelude.{IfOk};
ghost use Rattle.b2_props.specs.Sets.{IsSet};

use b2_base::fault::OutOfMemory;
use b2_base::text::Text;
use b2_features::registry::Registry;
use b2_props::pair_list::PairList;
use b2_props::props::Props;
use b2_props::refinement::set_of;
use std::alloc::Global;
use std::mem::ManuallyDrop;
use transcript::case_fault::CaseFault;
use transcript::command::Word;
use transcript::words::{own_text, property};

/// A word `<feature>value` as a pair.
pub fn pair(alloc: Global, word: &str) -> Result<(Text, Text), CaseFault> {
    let (feature, value) = property(word)?;
    Ok((own_text(alloc, feature)?, own_text(alloc, value)?))
}

fn push_word(alloc: Global, made: &mut PairList, word: &Word) -> Result<(), CaseFault> {
    let (feature, value) = pair(alloc, word.as_str()?)?;
    made.push(feature, value)?;
    Ok(())
}

/// Words `<feature>value` as pairs.
pub fn pairs(alloc: Global, words: &[Word]) -> Result<PairList, CaseFault> {
    let mut made = PairList::new(alloc);
    for word in words {
        push_word(alloc, &mut made, word)?;
    }
    Ok(made)
}

/// A word `<feature>value` as a pair, to lend.
pub fn lent_pair(alloc: Global, word: &str) -> Result<ManuallyDrop<(Text, Text)>, CaseFault> {
    Ok(ManuallyDrop::new(pair(alloc, word)?))
}

/// Words `<feature>value` as pairs, to lend.
pub fn lent_pairs(alloc: Global, words: &[Word]) -> Result<ManuallyDrop<PairList>, CaseFault> {
    Ok(ManuallyDrop::new(pairs(alloc, words)?))
}

/// The set that pairs make.
pub fn made(
    alloc: Global,
    registry: &Registry,
    pairs: &[(Text, Text)],
) -> Result<Props, OutOfMemory>
    ensures { IfOk result (λ made. IsSet registry.now made) }
{
    set_of(alloc, registry, pairs)
}

/// The set that words `<feature>value` make.
pub fn given(alloc: Global, registry: &Registry, words: &[Word]) -> Result<Props, CaseFault>
    ensures { IfOk result (λ made. IsSet registry.now made) }
{
    let pairs = lent_pairs(alloc, words)?;
    Ok(made(alloc, registry, pairs.as_slice())?)
}
