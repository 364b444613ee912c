//! What the body of an action stands for.
ghost use Rattle.std.specs.Prelude.{◌≡◌, ◌≢◌, ◌-◌, true, false, [], ◌∷◌, ◌++◌, MatchOption, OnOk, All, Ok, IfOk, length, string_bytes};
ghost use Rattle.std.specs.List.{join_with_byte, position_or_len, prefix_len, suffix_len};
ghost use Rattle.b2_base.specs.Bytes.{HasNoZero, is_white};
ghost use Rattle.b2_base.specs.Results.{and_then};
ghost use Rattle.jam_expand.specs.Bodies.{words, spaces, interleaved, trimmed, body_texts, body_expansion};
ghost use Rattle.jam_expand.specs.BodyCuts.{IsCut};
ghost use Rattle.jam_expand.specs.Expansions.{expansion};
ghost use Rattle.jam_expand.specs.Limits.{within, IsGivenBy, IsLeftBy};

use crate::expand::expand;
use crate::limit::LimitedList;
pub use b2_base::expand_fault::ExpandFault;
use b2_base::fault::OutOfMemory;
use b2_base::look::Look;
use b2_base::text::Text;
use b2_base::text_list::TextList;
use b2_base::white::is_white;
use std::alloc::Global;

/// The first place of white space, or the length.
fn end_of_word(bytes: &[u8]) -> usize
    ensures { result ≡ position_or_len is_white bytes.now }
{
    for (place, byte) in bytes.iter().enumerate() {
        if is_white(*byte) {
            return place;
        }
    }
    bytes.len()
}

/// The first word, the white space after it, and what stands after that; None where there is no white space.
fn cut_word(text: &str) -> Option<(&str, u8, &str)>
    ensures { MatchOption result (All (λ byte. is_white byte ≡ false) text.now) (λ c. IsCut text.now c.0.now c.1 c.2.now) }
{
    let bytes = text.as_bytes();
    let end = end_of_word(bytes);
    if end < bytes.len() {
        Some((&text[..end], bytes[end], &text[end + 1..]))
    } else {
        None
    }
}

/// Writes a text at the end.
fn push_text(made: &mut String, text: &str) -> Result<(), OutOfMemory>
    requires made { HasNoZero (string_bytes made.old) }
    requires text { HasNoZero text.now }
    ensures value { OnOk result (string_bytes made.new ≡ string_bytes made.old ++ text.now) }
    ensures no_zero { OnOk result (HasNoZero (string_bytes made.new)) }
{
    made.push_str(text)?;
    Ok(())
}

/// Writes white space at the end.
fn push_white(made: &mut String, white: u8) -> Result<(), OutOfMemory>
    requires made { HasNoZero (string_bytes made.old) }
    requires white { is_white white ≡ true }
    ensures value { OnOk result (string_bytes made.new ≡ string_bytes made.old ++ white ∷ []) }
    ensures no_zero { OnOk result (HasNoZero (string_bytes made.new)) }
{
    made.push(white as char)?;
    Ok(())
}

/// The texts with one space between them.
fn joined(alloc: Global, texts: &[Text]) -> Result<String, OutOfMemory>
    ensures value { IfOk result (λ made. string_bytes made ≡ join_with_byte 32 texts.now) }
    ensures no_zero { IfOk result (λ made. HasNoZero (string_bytes made)) }
{
    let mut made = String::new(alloc);
    for (place, text) in texts.iter().enumerate() {
        if place > 0 {
            push_white(&mut made, b' ')?;
        }
        push_text(&mut made, text.as_str())?;
    }
    Ok(made)
}

/// Adds the text of a word: its elements with one space between them.
fn add_word<L: Look>(
    alloc: Global,
    gathered: &mut LimitedList,
    word: &str,
    look: &L,
) -> Result<(), ExpandFault>
    requires { HasNoZero word.now }
    ensures { IsLeftBy result gathered.new (and_then (λ elements. within (gathered.old ++ join_with_byte 32 elements ∷ [])) (expansion (L.answer look.now) word.now)) }
{
    let elements = expand(alloc, word, look)?;
    let text = joined(alloc, elements.as_slice())?;
    gathered.push(Text::from_string(text))
}

/// The texts of a body's words.
fn body_texts<L: Look>(alloc: Global, body: &str, look: &L) -> Result<TextList, ExpandFault>
    requires { HasNoZero body.now }
    ensures { IsGivenBy result (body_texts (L.answer look.now) [] (words body.now)) }
{
    let mut gathered = LimitedList::new(alloc);
    let mut rest = body;
    while let Some((word, _, more)) = cut_word(rest) {
        add_word(alloc, &mut gathered, word, look)?;
        rest = more;
    }
    add_word(alloc, &mut gathered, rest, look)?;
    Ok(gathered.into_list())
}

/// The texts with the white space of a body between them.
fn interleave(alloc: Global, texts: &[Text], body: &str) -> Result<String, OutOfMemory>
    ensures value { IfOk result (λ made. string_bytes made ≡ interleaved texts.now (spaces body.now)) }
    ensures no_zero { IfOk result (λ made. HasNoZero (string_bytes made)) }
{
    let mut made = String::new(alloc);
    let mut rest = body;
    for text in texts {
        push_text(&mut made, text.as_str())?;
        let Some((_, white, more)) = cut_word(rest) else {
            return Ok(made);
        };
        push_white(&mut made, white)?;
        rest = more;
    }
    Ok(made)
}

/// How many bytes of white space come first.
fn white_before(bytes: &[u8]) -> usize
    ensures { result ≡ prefix_len is_white bytes.now }
{
    for (place, byte) in bytes.iter().enumerate() {
        if !is_white(*byte) {
            return place;
        }
    }
    bytes.len()
}

/// How many bytes come before the white space at the end.
fn length_without_end(bytes: &[u8]) -> usize
    ensures { result ≡ length bytes.now - suffix_len is_white bytes.now }
{
    let mut end = bytes.len();
    while end > 0 && is_white(bytes[end - 1]) {
        end -= 1;
    }
    end
}

/// The text without the white space at its ends.
fn trim(text: &str) -> &str
    ensures { result.now ≡ trimmed text.now }
{
    let rest = &text[white_before(text.as_bytes())..];
    &rest[..length_without_end(rest.as_bytes())]
}

/// The text of an action body: its words expanded, with the white space between them as it is.
fn expanded<L: Look>(alloc: Global, body: &str, look: &L) -> Result<Text, ExpandFault>
    requires { HasNoZero body.now }
    ensures { IsGivenBy result (body_expansion (L.answer look.now) body.now) }
{
    let texts = body_texts(alloc, body, look)?;
    let made = interleave(alloc, texts.as_slice(), body)?;
    Ok(Text::new(alloc, trim(made.as_str()))?)
}

/// What the body of an action stands for, where `look` knows the names.
///
/// The body is cut into words at each byte of white space: 9 to 13 and 32. Each word stands for its elements with one
/// space between them, so a word without elements stands for the empty text. The white space between the words stays as
/// it is, and only what the result would have of it at both ends is dropped.
///
/// The words are expanded from left to right, and the first fault among them is the body's. The texts of the words are
/// `TooLarge` where their lengths plus one each, added in order, come above 16,777,216; `bytes` is the first such sum.
pub fn expand_body<L: Look>(alloc: Global, body: &str, look: &L) -> Result<Text, ExpandFault>
    requires { HasNoZero body.now }
    ensures exact { IsGivenBy result (body_expansion (L.answer look.now) body.now) }
    // A body without a `$` (36) is itself, but for white space at its ends.
    ensures itself { All (λ byte. byte ≢ 36) body.now → within (words body.now) ≡ Ok (words body.now) →
        IsGivenBy result (Ok (trimmed body.now)) }
{
    expanded(alloc, body, look)
}
