//! A text, cut in two at a sign.
ghost use Rattle.std.specs.Prelude.{◌≡◌, ◌<◌, ◌≤◌, ◌∷◌, nat_lt, length, false, IsTrue, MatchOption, IfSome};
ghost use Rattle.std.specs.List.{list_all};
ghost use Rattle.std.specs.Str.{IsUtf8};
ghost use Rattle.jam_path.specs.Names.{begins_with};
ghost use Rattle.jam_expand.specs.Cuts.{up_to, from_on, BeginsWithout};

/// How many bytes stand before the first of the signs, or all.
pub fn len_up_to(bytes: &[u8], signs: &[u8]) -> usize
    ensures exact { result ≡ length (up_to signs.now bytes.now) }
    ensures within { result ≤ length bytes.now }
{
    for (place, byte) in bytes.iter().enumerate() {
        if signs.contains(byte) {
            return place;
        }
    }
    bytes.len()
}

/// What stands before the first of the signs, which are ASCII, and the text from there on.
pub fn split_before<'a>(text: &'a str, signs: &[u8]) -> (&'a str, &'a str)
    requires { IsTrue (list_all (λ sign. nat_lt sign 128) signs.now) }
    ensures before { result.0.now ≡ up_to signs.now text.now }
    ensures after { result.1.now ≡ from_on signs.now text.now }
    ensures utf8 { IsUtf8 result.1.now }
{
    text.split_at(len_up_to(text.as_bytes(), signs))
}

/// The first character, where it is ASCII, and the text after it.
pub fn first_ascii(text: &str) -> Option<(u8, &str)>
    ensures exact { MatchOption result (BeginsWithout (λ byte. byte < 128) text.now) (λ found. text.now ≡ found.0 ∷ found.1.now) }
    ensures utf8 { IfSome result (λ found. IsUtf8 found.1.now) }
{
    let (first, _) = text.as_bytes().split_first()?;
    if *first >= 128 {
        return None;
    }
    let (_, after) = text.split_at(1);
    Some((*first, after))
}

/// The text after a sign that stands first; the sign is ASCII and not zero.
#[tactic(auto, using(crate::proofs::TextsAreCutAtSigns::begins_not))]
pub fn after_sign(text: &str, sign: u8) -> Option<&str>
    requires positive { 0 < sign }
    requires ascii { sign < 128 }
    ensures exact { MatchOption result (begins_with sign text.now ≡ false) (λ after. text.now ≡ sign ∷ after.now) }
    ensures utf8 { IfSome result (λ after. IsUtf8 after.now) }
{
    let (first, after) = first_ascii(text)?;
    if first == sign { Some(after) } else { None }
}
