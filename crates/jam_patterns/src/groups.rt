//! The groups of the first match.
ghost use Rattle.std.specs.Prelude.{◌≡◌, ◌⊎◌, Some, IfOk, IfErr};
ghost use Rattle.regex.specs.Strings.{captures_haystack, regex_pattern, regex_names};
ghost use Rattle.b2_base.specs.Bytes.{HasNoZero};
ghost use Rattle.jam_patterns.specs.Groups.{first_groups, groups_of};
ghost use Rattle.jam_patterns.specs.Captured.{captured};

use crate::refusal::PatternFault;
use b2_base::fault::OutOfMemory;
use b2_base::text::Text;
use b2_base::text_list::TextList;
use regex::{Captures, Regex};
use std::alloc::Global;

/// The texts of the groups, from group 1 on.
fn captured_texts(alloc: Global, captures: &Captures<'_, '_>) -> Result<TextList, OutOfMemory>
    requires { HasNoZero (captures_haystack captures.now) }
    ensures { IfOk result (λ texts. texts ≡ captured captures.now) }
{
    let mut texts = TextList::new(alloc);
    'groups: for n in 1..captures.len() {
        let text = match captures.get(n) {
            Some(group) => group.as_str(),
            None => "",
        };
        texts.push(Text::new(alloc, text)?)?;
    }
    Ok(texts)
}

/// The groups of the first match of a compiled pattern.
fn search(alloc: Global, regex: &Regex, text: &str) -> Result<Option<TextList>, OutOfMemory>
    requires { HasNoZero text.now }
    ensures { IfOk result (λ found. found ≡ first_groups (regex_pattern regex.now) (regex_names regex.now) text.now) }
{
    let mut matcher = regex.matcher(alloc)?;
    match matcher.captures(text) {
        Some(captures) => Ok(Some(captured_texts(alloc, &captures)?)),
        None => Ok(None),
    }
}

/// The groups of the first match of a pattern in a text, from group 1 on, and none where there is no match. The
/// first match is the leftmost one, and of those that start there the one that the pattern prefers. A group that takes
/// no part in it gives the empty text. Patterns are those of the crate `regex`, with its default options and nested at
/// most 250 deep. Their groups are those of the pattern as it is written, but for a last one that stands only under `{0}`.
///
/// A pattern is refused where it is none, and where it is too big when it is compiled.
pub fn groups(alloc: Global, pattern: &str, text: &str) -> Result<Option<TextList>, PatternFault>
    requires pattern_no_zero { HasNoZero pattern.now }
    requires text_no_zero { HasNoZero text.now }
    ensures answer { IfOk result (λ found. groups_of pattern.now text.now ≡ Some found) }
    ensures refused { IfErr result (λ fault.
        (fault ≡ PatternFault.OutOfMemory) ⊎ (fault ≡ PatternFault.Refused pattern.now)) }
{
    match Regex::new(alloc, pattern) {
        Ok(regex) => Ok(search(alloc, &regex, text)?),
        Err(error) => Err(PatternFault::of_error(alloc, pattern, error)),
    }
}
