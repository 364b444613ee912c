//! `-n` within a group of letters, where it may not stand.
//!
//! It is a word of its own. clap would read it in a group too, so such words are refused before clap reads any.
ghost use Rattle.std.specs.Prelude.{◌≡◌};
ghost use Rattle.b2_command_line.specs.Grouped.{has_n, is_grouped, any_grouped};

use b2_base::text::Text;

/// Whether an `n` stands before any `j`; after a `j` the value of `-j` begins.
fn has_n(letters: &[u8]) -> bool
    ensures { result ≡ has_n letters.now }
{
    for letter in letters {
        if *letter == b'n' {
            return true;
        }
        if *letter == b'j' {
            return false;
        }
    }
    false
}

#[tactic(auto, unfolding(crate::specs::Grouped::has_n))]
fn is_grouped(word: &[u8]) -> bool
    ensures { result ≡ is_grouped word.now }
{
    match word {
        [b'-', b'-', ..] => false,
        [b'-', letters @ ..] => letters.len() > 1 && has_n(letters),
        _ => false,
    }
}

/// Whether a word before the first `--` is a group of letters with an `n`.
pub fn any_grouped(words: &[Text]) -> bool
    ensures { result ≡ any_grouped words.now }
{
    for word in words {
        if word.as_str() == "--" {
            return false;
        }
        if is_grouped(word.as_str().as_bytes()) {
            return true;
        }
    }
    false
}
