//! The pieces of a pattern that take one character.
ghost use Rattle.std.specs.Prelude.{◌≡◌, ℕ, ◌<◌, [], ◌∷◌, length, drop, IfSome, MatchOption, Some, None};
ghost use Rattle.std.specs.Str.{chars, IsUtf8};
ghost use Rattle.jam_path.specs.Patterns.{is_member, is_taken};
ghost use Rattle.jam_path.specs.Steps.{IsUnclosed, IsStarless, Leads, after_one, after_exact, after_escape, after_bracket, after_dash};

/// The first character of a text, and the text after it.
pub fn first_char(text: &str) -> Option<(char, &str)>
    ensures exact { MatchOption result (chars text.now ≡ []) (λ found. chars text.now ≡ found.0 ∷ chars found.1.now) }
    ensures shorter { IfSome result (λ found. length found.1.now < length text.now) }
    ensures end { IfSome result (λ found. (k : ℕ) × (found.1.now ≡ drop k text.now)) }
    ensures utf8 { IfSome result (λ found. IsUtf8 found.1.now) }
{
    let mut characters = text.chars();
    match characters.next() {
        None => None,
        Some(first) => Some((first, characters.as_str())),
    }
}

/// The pattern after a `*` that stands first.
pub fn after_star(pattern: &str) -> Option<&str>
    ensures exact { MatchOption result (IsStarless (chars pattern.now)) (λ rest. chars pattern.now ≡ 42 ∷ chars rest.now) }
    ensures shorter { IfSome result (λ rest. length rest.now < length pattern.now) }
    ensures end { IfSome result (λ rest. (k : ℕ) × (rest.now ≡ drop k pattern.now)) }
    ensures utf8 { IfSome result (λ rest. IsUtf8 rest.now) }
{
    match first_char(pattern) {
        Some(('*', rest)) => Some(rest),
        _ => None,
    }
}

/// The upper end of a range, where a dash stands first.
fn after_dash(text: &str) -> Option<(char, &str)>
    ensures exact { MatchOption result (after_dash (chars text.now) ≡ None) (λ found. chars text.now ≡ 45 ∷ found.0 ∷ chars found.1.now) }
    ensures shorter { IfSome result (λ found. length found.1.now < length text.now) }
    ensures utf8 { IfSome result (λ found. IsUtf8 found.1.now) }
{
    let (dash, after) = first_char(text)?;
    if dash != '-' {
        return None;
    }
    first_char(after)
}

/// Whether one of the members is the character, where `a-c` stands for the characters from `a` to `c`.
fn is_member(members: &str, character: char) -> bool
    ensures { result ≡ is_member (chars members.now) character }
{
    let mut rest = members;
    while let Some((low, more)) = first_char(rest) {
        match after_dash(more) {
            None => {
                if low == character {
                    return true;
                }
                rest = more;
            }
            Some((high, after)) => {
                if low <= character && character <= high {
                    return true;
                }
                rest = after;
            }
        }
    }
    false
}

/// Whether a class takes the character: one of its members, or after a `^` any other.
fn is_taken(members: &str, character: char) -> bool
    ensures { result ≡ is_taken (chars members.now) character }
{
    match first_char(members) {
        None => false,
        Some(('^', others)) => !is_member(others, character),
        Some(_) => is_member(members, character),
    }
}

/// The pattern after a piece that takes one given character.
fn after_exact<'a>(exact: char, rest: &'a str, character: char) -> Option<&'a str>
    ensures { Leads result (after_exact exact (chars rest.now) character) rest.now }
{
    if exact == character { Some(rest) } else { None }
}

/// The pattern after a backslash and the character that it protects.
fn after_escape<'a>(rest: &'a str, character: char) -> Option<&'a str>
    ensures { Leads result (after_escape (chars rest.now) character) rest.now }
{
    match first_char(rest) {
        None => after_exact('\\', rest, character),
        Some((next, after)) => after_exact(next, after, character),
    }
}

/// The pattern after a `[`, and after its class where a `]` follows.
fn after_bracket<'a>(rest: &'a str, character: char, unclosed: usize) -> Option<&'a str>
    requires { IsUnclosed unclosed rest.now }
    ensures { Leads result (after_bracket (chars rest.now) character) rest.now }
{
    if rest.len() <= unclosed {
        return after_exact('[', rest, character);
    }
    match rest.split_once(']') {
        None => after_exact('[', rest, character),
        Some((members, after)) => {
            if is_taken(members, character) {
                Some(after)
            } else {
                None
            }
        }
    }
}

/// The pattern after its first piece, where that piece takes the character; nothing elsewhere, and at a `*`. The last
/// `unclosed` bytes of the pattern have no `]`, so that none is looked for there again and again.
pub fn after_one<'a>(pattern: &'a str, character: char, unclosed: usize) -> Option<&'a str>
    requires { IsUnclosed unclosed pattern.now }
    ensures { Leads result (after_one (chars pattern.now) character) pattern.now }
{
    match first_char(pattern)? {
        ('*', _) => None,
        ('?', rest) => Some(rest),
        ('\\', rest) => after_escape(rest, character),
        ('[', rest) => after_bracket(rest, character, unclosed),
        (exact, rest) => after_exact(exact, rest, character),
    }
}
