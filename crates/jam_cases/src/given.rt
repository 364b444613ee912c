//! What a command is about.
ghost use Rattle.std.specs.Prelude.{◌≤◌, length, IfOk};

use transcript::case_fault::CaseFault;
use transcript::command::Command;

/// How long a text of the language may be.
pub const MAX_LEN: usize = 1_048_576;

/// The text of a command: its one word, or else the lines below it.
pub fn given(command: &Command) -> Result<&[u8], CaseFault>
    ensures { IfOk result (λ bytes. length bytes.now ≤ 1048576) }
{
    let bytes = match command.words() {
        [] => command.text().as_bytes(),
        [word] => word.bytes(),
        _ => return Err(CaseFault::WrongWords),
    };
    if bytes.len() > MAX_LEN {
        return Err(CaseFault::WrongWords);
    }
    Ok(bytes)
}
