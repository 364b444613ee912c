//! Numbers in words.
ghost use Rattle.std.specs.Prelude.{◌≡◌, ◌≢◌, ◌<◌, ◌^◌, ℕ, MatchOption};
ghost use Rattle.std.specs.Fmt.{decimal};
ghost use Rattle.b2_command_line.specs.Words.{number};

use b2_base::decimal::has_lead;

/// The number that a text is written for: decimal digits without a sign and without a leading zero.
fn written_number(text: &str) -> Option<u32>
    ensures { MatchOption result ((n : ℕ) → n < 2 ^ 32 → text.now ≢ decimal n) (λ n. (text.now ≡ decimal n) × (n < 2 ^ 32)) }
{
    if has_lead(text.as_bytes()) {
        return None;
    }
    text.parse::<u32>().ok()
}

/// The number from 1 to `most` that a text is written for.
pub fn number_of(text: &str, most: u32) -> Option<u32>
    ensures { result ≡ number most text.now }
{
    match written_number(text) {
        None => None,
        Some(n) => { if 0 < n && n <= most { Some(n) } else { None } }
    }
}
