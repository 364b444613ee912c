//! The rule MATCH.
ghost use Rattle.std.specs.Prelude.{◌≡◌, None, Ok, IfOk, IfErr, OnOk};
ghost use Rattle.jam_natives.specs.Matches.{with_match, with_matches, matches_of, IsRefusal};

use b2_base::text::Text;
use b2_base::text_list::TextList;
use jam_patterns::groups::groups;
use jam_patterns::refusal::PatternFault;
use std::alloc::Global;

/// Adds the groups of a pattern's first match in a text, if there is one.
fn add_match(
    alloc: Global,
    found: &mut TextList,
    pattern: &Text,
    text: &Text,
) -> Result<(), PatternFault>
    ensures value { OnOk result (with_match None text.now found.old pattern.now ≡ Ok found.new) }
    ensures refused { IfErr result (λ fault. IsRefusal fault (λ refused. with_match refused text.now found.old pattern.now)) }
{
    match groups(alloc, pattern.as_str(), text.as_str())? {
        None => Ok(()),
        Some(more) => {
            found.append(more)?;
            Ok(())
        }
    }
}

/// Adds the groups of each pattern's first match in a text.
fn add_matches(
    alloc: Global,
    found: &mut TextList,
    patterns: &[Text],
    text: &Text,
) -> Result<(), PatternFault>
    ensures value { OnOk result (with_matches None patterns.now found.old text.now ≡ Ok found.new) }
    ensures refused { IfErr result (λ fault. IsRefusal fault (λ refused. with_matches refused patterns.now found.old text.now)) }
{
    for pattern in patterns {
        add_match(alloc, found, pattern, text)?;
    }
    Ok(())
}

/// For each text, then each pattern, the groups of the first match, from group 1 on. A text that is no pattern is refused when
/// its turn comes, so none is without texts; a pattern may also be refused because it is too big when it is compiled.
pub fn match_all(alloc: Global, patterns: &[Text], texts: &[Text]) -> Result<TextList, PatternFault>
    ensures value { IfOk result (λ found. matches_of None patterns.now texts.now ≡ Ok found) }
    ensures refused { IfErr result (λ fault. IsRefusal fault (λ refused. matches_of refused patterns.now texts.now)) }
{
    let mut found = TextList::new(alloc);
    for text in texts {
        add_matches(alloc, &mut found, patterns, text)?;
    }
    Ok(found)
}
