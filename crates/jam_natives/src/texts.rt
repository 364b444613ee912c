//! What some native rules make of texts.
ghost use Rattle.std.specs.Prelude.{◌≡◌, ◌++◌, ◌∷◌, [], drop, length, nat_eq, option_map, IfOk, IfSome, OnOk, if◌then◌else◌, Some, None, string_bytes};
ghost use Rattle.std.specs.List.{flat_map, starts_with};
ghost use Rattle.std.specs.List.Sorted.{IsSorted, IsPermutation};
ghost use Rattle.std.specs.Ordering.{nat_cmp};
ghost use Rattle.std.specs.Cmp.Lexicographic.{slice_cmp};
ghost use Rattle.b2_base.specs.Bytes.{HasNoZero};
ghost use Rattle.jam_natives.specs.SeenTexts.{HasSeen};
ghost use Rattle.jam_natives.specs.Texts.{line_of, after_start, sorted, add_new, without_repeats};

use b2_base::fault::OutOfMemory;
use b2_base::text::Text;
use b2_base::text_list::{TextList, copy_texts};
use b2_base::text_map::TextMap;
use std::alloc::Global;

/// Adds a space and a text.
fn push_word(line: &mut String, text: &Text) -> Result<(), OutOfMemory>
    requires { HasNoZero (string_bytes line.old) }
    ensures value { OnOk result (string_bytes line.new ≡ string_bytes line.old ++ (32 ∷ text.now)) }
    ensures no_zero { OnOk result (HasNoZero (string_bytes line.new)) }
{
    line.push(' ')?;
    line.push_str(text.as_str())?;
    Ok(())
}

/// The first text, and the others each after a space.
fn line_from(alloc: Global, first: &Text, others: &[Text]) -> Result<Text, OutOfMemory>
    ensures { IfOk result (λ line. line ≡ first.now ++ flat_map (λ other. 32 ∷ other) others.now) }
{
    let mut line = String::from_str(alloc, first.as_str())?;
    for other in others {
        push_word(&mut line, other)?;
    }
    Ok(Text::from_string(line))
}

/// The texts with one space between them.
pub fn line_of(alloc: Global, texts: &[Text]) -> Result<Text, OutOfMemory>
    ensures { IfOk result (λ line. line ≡ line_of texts.now) }
{
    match texts {
        [] => Text::new(alloc, ""),
        [first, others @ ..] => line_from(alloc, first, others),
    }
}

/// What follows a beginning in a text that has it.
fn after<'a>(text: &'a Text, start: &str) -> Option<&'a str>
    ensures value { option_map (λ rest. rest.now) result ≡ (if starts_with nat_eq text.now start.now then Some (drop (length start.now) text.now) else None) }
    ensures no_zero { IfSome result (λ rest. HasNoZero rest.now) }
{
    text.as_str().strip_prefix(start)
}

/// Adds what follows a beginning in a text that has it.
fn push_after(
    alloc: Global,
    made: &mut TextList,
    start: &str,
    text: &Text,
) -> Result<(), OutOfMemory>
    ensures { OnOk result (made.new ≡ made.old ++ after_start start.now (text.now ∷ [])) }
{
    match after(text, start) {
        None => Ok(()),
        Some(rest) => {
            made.push(Text::new(alloc, rest)?)?;
            Ok(())
        }
    }
}

/// What follows a beginning, in each text that has it, in order.
pub fn after_start(alloc: Global, start: &str, texts: &[Text]) -> Result<TextList, OutOfMemory>
    ensures { IfOk result (λ made. made ≡ after_start start.now texts.now) }
{
    let mut made = TextList::new(alloc);
    for text in texts {
        push_after(alloc, &mut made, start, text)?;
    }
    Ok(made)
}

/// The texts in byte order, with repeats.
pub fn sorted(alloc: Global, texts: &[Text]) -> Result<TextList, OutOfMemory>
    ensures exact { IfOk result (λ made. made ≡ sorted texts.now) }
    ensures rising { IfOk result (IsSorted (slice_cmp nat_cmp)) }
    ensures same { IfOk result (IsPermutation texts.now) }
{
    let copies = copy_texts(alloc, texts)?;
    let mut made = copies.into_vec();
    made.sort()?;
    Ok(TextList::from_vec(made))
}

/// Adds a text, unless it is there; `seen` has the texts that are.
fn add_new(made: &mut TextList, seen: &mut TextMap<bool>, text: &Text) -> Result<(), OutOfMemory>
    ensures made { HasSeen seen.old made.old → OnOk result (made.new ≡ add_new made.old text.now) }
    ensures seen { HasSeen seen.old made.old → OnOk result (HasSeen seen.new made.new) }
{
    if seen.get(text).is_some() {
        return Ok(());
    }
    let key = text.copy()?;
    let value = text.copy()?;
    let _before = seen.insert(key, true)?;
    made.push(value)?;
    Ok(())
}

/// Each text at its first place alone.
pub fn without_repeats(alloc: Global, texts: &[Text]) -> Result<TextList, OutOfMemory>
    ensures { IfOk result (λ made. made ≡ without_repeats texts.now) }
{
    let mut seen = TextMap::new(alloc);
    let mut made = TextList::new(alloc);
    for text in texts {
        add_new(&mut made, &mut seen, text)?;
    }
    Ok(made)
}
