//! Which bytes are text.
ghost use Rattle.std.specs.Prelude.{◌≡◌, ◌≢◌, ℕ, ◌<◌, ◌≤◌, length, take, slice_index, IfSome, IfNone};
ghost use Rattle.std.specs.Str.{IsUtf8, IsValidUpTo};
ghost use Rattle.b2_base.specs.Bytes.{HasNoZero};
ghost use Rattle.jam_lexer.specs.Tokens.{IsText};
ghost use Rattle.jam_lexer.specs.Answers.{IsFirstBad};

/// The length of the longest prefix that is UTF-8.
fn valid_len(bytes: &[u8]) -> usize
    ensures within { result ≤ length bytes.now }
    ensures valid { IsUtf8 (take result bytes.now) }
    ensures longest { result < length bytes.now → IsValidUpTo bytes.now result }
{
    match str::from_utf8(bytes) {
        Ok(_) => bytes.len(),
        Err(fault) => fault.valid_up_to(),
    }
}

/// The place of the first zero byte.
fn first_zero(bytes: &[u8]) -> Option<usize>
    ensures within { IfSome result (λ at. at < length bytes.now) }
    ensures zero { IfSome result (λ at. slice_index bytes.now at ≡ 0) }
    ensures first { IfSome result (λ at. (k : ℕ) → k < at → slice_index bytes.now k ≢ 0) }
    ensures none { IfNone result (HasNoZero bytes.now) }
{
    bytes.iter().position(|byte| *byte == 0)
}

/// The place of the first byte that is zero or at which no whole character begins.
pub fn first_bad(bytes: &[u8]) -> Option<usize>
    ensures found { IfSome result (IsFirstBad bytes.now) }
    ensures none { IfNone result (IsText bytes.now) }
{
    let valid = valid_len(bytes);
    match first_zero(&bytes[..valid]) {
        Some(zero) => Some(zero),
        None if valid < bytes.len() => Some(valid),
        None => None,
    }
}
