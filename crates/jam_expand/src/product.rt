//! The product of lists of texts.
ghost use Rattle.std.specs.Prelude.{◌≡◌, ℕ, ◌≤◌, ◌==◌, ◌++◌, [], ◌∷◌, List, false, length, map, string_bytes, IfOk, OnOk};
ghost use Rattle.std.specs.List.{list_any};
ghost use Rattle.b2_base.specs.Bytes.{HasNoZero};
ghost use Rattle.jam_expand.specs.Heads.{heads, IsSumOf};
ghost use Rattle.b2_base.specs.Lists.{first_of};
ghost use Rattle.jam_expand.specs.Limits.{limit, within, IsWithin, IsGivenBy};
ghost use Rattle.jam_expand.specs.Merged.{merged_after};
ghost use Rattle.jam_expand.specs.Products.{cross, product};

use crate::limit::longer;
use b2_base::expand_fault::ExpandFault;
use b2_base::fault::OutOfMemory;
use b2_base::text::Text;
use b2_base::text_list::TextList;
use std::alloc::Global;
use std::mem;

/// One text after another.
fn joined(alloc: Global, first: &Text, second: &Text) -> Result<Text, OutOfMemory>
    ensures { IfOk result (λ made. made ≡ first.now ++ second.now) }
{
    let mut text = String::from_str(alloc, first.as_str())?;
    text.push_str(second.as_str())?;
    Ok(Text::from_string(text))
}

/// Adds each of the texts after one.
fn push_after(
    alloc: Global,
    made: &mut TextList,
    first: &Text,
    others: &[Text],
) -> Result<(), OutOfMemory>
    ensures { OnOk result (made.new ≡ made.old ++ map (λ other. first.now ++ other) others.now) }
{
    for other in others {
        made.push(joined(alloc, first, other)?)?;
    }
    Ok(())
}

/// Each text before each of the others, the first list varying slowest.
fn cross(alloc: Global, texts: &[Text], others: &[Text]) -> Result<TextList, OutOfMemory>
    ensures { IfOk result (λ made. made ≡ cross texts.now others.now) }
{
    let mut made = TextList::new(alloc);
    for text in texts {
        push_after(alloc, &mut made, text, others)?;
    }
    Ok(made)
}

/// The sum with the lengths of the texts after one of this length.
pub fn sum_after(sum: u64, len: usize, others: &[Text]) -> Result<u64, ExpandFault>
    requires { sum ≤ limit }
    ensures sum { (texts : List (List ℕ)) (first : List ℕ) → IsWithin texts sum → length first ≡ len → IsSumOf result (texts ++ map (λ other. first ++ other) others.now) }
    ensures small { IfOk result (λ sum. sum ≤ limit) }
{
    let mut sum = sum;
    for other in others {
        let Some(len) = len.checked_add(other.as_str().len()) else {
            return Err(ExpandFault::OutOfMemory);
        };
        sum = longer(sum, len)?;
    }
    Ok(sum)
}

/// The sum of the lengths of the products of two lists, each after a text of length `len`.
fn sum_of_cross(len: usize, texts: &[Text], others: &[Text]) -> Result<u64, ExpandFault>
    ensures { (first : List ℕ) → length first ≡ len → IsSumOf result (map (λ other. first ++ other) (cross texts.now others.now)) }
{
    let mut sum = 0;
    for text in texts {
        let Some(len) = len.checked_add(text.as_str().len()) else {
            return Err(ExpandFault::OutOfMemory);
        };
        sum = sum_after(sum, len, others)?;
    }
    Ok(sum)
}

/// The length of the first text of a list.
fn head_len(list: &TextList) -> usize
    ensures { result ≡ length (first_of list.now) }
{
    match list.as_slice().first() {
        None => 0,
        Some(text) => text.as_str().len(),
    }
}

/// The length of the first element of a product; one that no number holds is no text that memory holds.
fn heads_len(lists: &[TextList]) -> Result<usize, OutOfMemory>
    ensures { IfOk result (λ len. len ≡ length (heads lists.now)) }
{
    let mut len = 0usize;
    for list in lists {
        let Some(sum) = len.checked_add(head_len(list)) else {
            return Err(OutOfMemory);
        };
        len = sum;
    }
    Ok(len)
}

/// The list of one text.
pub fn single(alloc: Global, text: &str) -> Result<TextList, OutOfMemory>
    requires { HasNoZero text.now }
    ensures { IfOk result (λ list. list ≡ text.now ∷ []) }
{
    let mut list = TextList::new(alloc);
    list.push(Text::new(alloc, text)?)?;
    Ok(list)
}

/// Whether the product of the lists is empty, since one of them is.
fn any_empty(lists: &[TextList]) -> bool
    ensures { result ≡ list_any (λ list. length list == 0) lists.now }
{
    lists.iter().any(|list| list.as_slice().is_empty())
}

/// Adds a list of one text.
fn push_single(alloc: Global, lists: &mut Vec<TextList>, text: String) -> Result<(), OutOfMemory>
    requires { HasNoZero (string_bytes text) }
    ensures { OnOk result (lists.new.items ≡ lists.old.items ++ (string_bytes text ∷ []) ∷ []) }
{
    let mut list = TextList::new(alloc);
    list.push(Text::from_string(text))?;
    lists.push(list)?;
    Ok(())
}

/// Adds a list. The only text of a list is put after `run`; before another list `run` is added, and is empty then.
fn add_list(
    alloc: Global,
    lists: &mut Vec<TextList>,
    run: &mut String,
    list: TextList,
) -> Result<(), OutOfMemory>
    requires { HasNoZero (string_bytes run.old) }
    ensures merged { OnOk result ((rest : List (List (List ℕ))) → lists.new.items ++ merged_after (string_bytes run.new) rest ≡ lists.old.items ++ merged_after (string_bytes run.old) (list ∷ rest)) }
    ensures no_zero { OnOk result (HasNoZero (string_bytes run.new)) }
{
    if let [text] = list.as_slice() {
        run.push_str(text.as_str())?;
        return Ok(());
    }
    let before = mem::replace(run, String::new(alloc));
    push_single(alloc, lists, before)?;
    lists.push(list)?;
    Ok(())
}

/// The lists, of which those of one text that stand side by side are joined to one. None is empty, so every other list
/// has several texts then, and the product at least doubles there: what is made on the way is a few times the product.
fn merged(alloc: Global, lists: Vec<TextList>) -> Result<Vec<TextList>, OutOfMemory>
    ensures { IfOk result (λ made. made.items ≡ merged_after [] lists.items) }
{
    let mut made = Vec::new(alloc);
    let mut run = String::new(alloc);
    for list in lists {
        add_list(alloc, &mut made, &mut run, list)?;
    }
    push_single(alloc, &mut made, run)?;
    Ok(made)
}

/// The product of lists of which none is empty.
fn filled_product(alloc: Global, mut lists: Vec<TextList>) -> Result<TextList, ExpandFault>
    requires { list_any (λ list. length list == 0) lists.items ≡ false }
    ensures { IsGivenBy result (within (product lists.items)) }
{
    let mut before = heads_len(lists.as_slice())?;
    let mut made = single(alloc, "")?;
    'lists: while let Some(list) = lists.pop() {
        before -= head_len(&list);
        sum_of_cross(before, list.as_slice(), made.as_slice())?;
        made = cross(alloc, list.as_slice(), made.as_slice())?;
    }
    Ok(made)
}

/// A list that stands alone, unless it is too large.
fn lone(list: TextList) -> Result<TextList, ExpandFault>
    ensures { IsGivenBy result (within list) }
{
    let _sum = sum_after(0, 0, list.as_slice())?;
    Ok(list)
}

/// The product of lists of which none is empty. One list is its own product, and is not copied.
fn lone_or_product(alloc: Global, mut lists: Vec<TextList>) -> Result<TextList, ExpandFault>
    requires { list_any (λ list. length list == 0) lists.items ≡ false }
    ensures { IsGivenBy result (within (product lists.items)) }
{
    if lists.len() > 1 {
        return filled_product(alloc, lists);
    }
    match lists.pop() {
        None => filled_product(alloc, lists),
        Some(list) => lone(list),
    }
}

/// The product of the lists, the leftmost varying slowest. How large it is, is found before it is made.
pub fn product(alloc: Global, lists: Vec<TextList>) -> Result<TextList, ExpandFault>
    ensures { IsGivenBy result (within (product lists.items)) }
{
    if any_empty(lists.as_slice()) {
        return Ok(TextList::new(alloc));
    }
    if lists.len() == 1 {
        return lone_or_product(alloc, lists);
    }
    lone_or_product(alloc, merged(alloc, lists)?)
}
