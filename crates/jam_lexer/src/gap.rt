//! White space and comments between tokens.
ghost use Rattle.std.specs.Prelude.{◌≡◌, ◌≢◌, ℕ, ◌<◌, ◌≤◌, length, slice_index, IfSome, IfNone};
ghost use Rattle.b2_base.specs.Bytes.{line_feed};
ghost use Rattle.jam_lexer.specs.Gap.{IsGap, BeginsWord};

use b2_base::white::is_white;

/// Where the comment that begins here ends: before the next line feed, or with the text.
fn comment_end(bytes: &[u8], hash: usize) -> usize
    requires { hash < length bytes.now }
    ensures order { hash ≤ result }
    ensures within { result ≤ length bytes.now }
    ensures one_line { (k : ℕ) → hash < k → k < result → slice_index bytes.now k ≢ line_feed }
    ensures ends { result < length bytes.now → slice_index bytes.now result ≡ line_feed }
    ensures past { hash < result }
{
    let mut end = hash + 1;
    while end < bytes.len() && bytes[end] != b'\n' {
        end += 1;
    }
    end
}

/// Where the next word begins, past white space and comments; nothing where only these are left.
pub fn next_word(bytes: &[u8], from: usize) -> Option<usize>
    requires { from ≤ length bytes.now }
    ensures found { IfSome result (BeginsWord bytes.now from) }
    ensures none { IfNone result (IsGap bytes.now from (length bytes.now)) }
{
    let mut at = from;
    while at < bytes.len() {
        let byte = bytes[at];
        if byte == b'#' {
            let end = comment_end(bytes, at);
            if end == bytes.len() {
                return None;
            }
            at = end + 1;
        } else if is_white(byte) {
            at += 1;
        } else {
            return Some(at);
        }
    }
    None
}
