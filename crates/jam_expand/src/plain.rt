//! Words that are read without being cut: those without a `$`, and those that are one bare name. Most words are such.
ghost use Rattle.std.specs.Prelude.{◌≡◌, ◌≢◌, ◌<◌, ◌++◌, ◌∷◌, [], All, IfSome, IsTrue, length};
ghost use Rattle.jam_expand.specs.Limits.{limit, within, IsGivenBy};
ghost use Rattle.jam_expand.specs.PlainNames.{IsPlainName};

use crate::cut::{after_sign, len_up_to};
use crate::product::sum_after;
use b2_base::expand_fault::ExpandFault;
use b2_base::text::Text;
use b2_base::text_list::{TextList, copy_texts};
use std::alloc::Global;

/// The signs that no bare name has.
const SIGNS: &[u8] = b"$():[";

/// A name of more bytes is read in the long way, which tells that it is too large.
const LONGEST: usize = 16_777_215;

/// Whether no `$` stands in the word.
pub fn is_plain(word: &str) -> bool
    ensures { IsTrue result → All (λ byte. byte ≢ 36) word.now }
{
    !word.as_bytes().contains(&b'$')
}

/// What stands before a `)` at the end of the text, if one does.
pub fn before_close(text: &str) -> Option<&str>
    ensures { IfSome result (λ before. text.now ≡ before.now ++ 41 ∷ []) }
{
    let len = text.len();
    if len == 0 || text.as_bytes()[len - 1] != b')' {
        return None;
    }
    let (before, _) = text.split_at(len - 1);
    Some(before)
}

/// Whether the text is a bare name that is not too large.
fn is_bare(name: &str) -> bool
    ensures plain { IsTrue result → IsPlainName name.now }
    ensures small { IsTrue result → length name.now < limit }
{
    let len = name.len();
    len < LONGEST && len_up_to(name.as_bytes(), SIGNS) == len
}

/// The name, where the word is one `$(` .. `)` with a bare name in it.
pub fn bare_name(word: &str) -> Option<&str>
    ensures word { IfSome result (λ name. word.now ≡ 36 ∷ 40 ∷ (name.now ++ 41 ∷ [])) }
    ensures plain { IfSome result (λ name. IsPlainName name.now) }
    ensures small { IfSome result (λ name. length name.now < limit) }
{
    let name = before_close(after_sign(after_sign(word, b'$')?, b'(')?)?;
    if is_bare(name) { Some(name) } else { None }
}

/// The same texts, unless they are too large.
pub fn copied(alloc: Global, texts: &[Text]) -> Result<TextList, ExpandFault>
    ensures { IsGivenBy result (within texts.now) }
{
    let _sum = sum_after(0, 0, texts)?;
    Ok(copy_texts(alloc, texts)?)
}
