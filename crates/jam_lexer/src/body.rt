//! The raw bodies of actions.
ghost use Rattle.std.specs.Prelude.{◌≤◌, length, IfSome, IfNone};
ghost use Rattle.jam_lexer.specs.Body.{IsMatched, IsBody};

/// Where the body that begins here ends, at its unmatched `}`; nothing where there is none.
pub fn body_end(bytes: &[u8], start: usize) -> Option<usize>
    requires { start ≤ length bytes.now }
    ensures found { IfSome result (IsBody bytes.now start) }
    ensures none { IfNone result (IsMatched bytes.now start (length bytes.now)) }
{
    let mut depth = 0usize;
    for at in start..bytes.len() {
        let byte = bytes[at];
        if byte == b'{' {
            depth += 1;
        } else if byte == b'}' {
            if depth == 0 {
                return Some(at);
            }
            depth -= 1;
        }
    }
    None
}
