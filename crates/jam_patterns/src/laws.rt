//! What the groups of a match mean, in words of the relation between a pattern and the parts of a text that match it.
ghost use Rattle.std.specs.Prelude.{◌≡◌, ℕ, List, None, Some, IsSomeAnd};
ghost use Rattle.regex.specs.Patterns.{Match};
ghost use Rattle.jam_patterns.specs.Pattern.{pattern_of};
ghost use Rattle.jam_patterns.specs.Groups.{groups_of, texts_of};
ghost use Rattle.jam_patterns.specs.Meaning.{HasNoMatch, IsLeftmost};

/// The answer none says that no part of the text matches.
pub fn none_has_no_match()
    ensures { (source text : List ℕ) → groups_of source text ≡ Some None →
        IsSomeAnd (pattern_of source) (λ pattern. HasNoMatch pattern.re text) }
{}

/// Groups are those of a leftmost match.
pub fn groups_have_leftmost()
    ensures { (source text : List ℕ) (found : List (List ℕ)) → groups_of source text ≡ Some (Some found) →
        IsSomeAnd (pattern_of source) (λ pattern. (m : Match)
        × IsLeftmost pattern.re text m.start m.trace.end × (found ≡ texts_of text pattern.names m)) }
{}
