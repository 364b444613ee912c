//! Which drill words ask for.
ghost use Rattle.std.specs.Prelude.{◌≡◌, ◌<◌, IfOk, IsErrOf, Some, None};
ghost use Rattle.b2_drill_call.specs.Asked.{steps_in, drill_of};

use b2_base::text::Text;
use b2_command_line::fault::WordsFault;
use b2_command_line::reader::read_words;
use b2_command_line::words::Command;
use std::alloc::Global;

/// How many targets the drill has, if the command is one.
fn steps_in(command: Command) -> Option<u32>
    ensures { result ≡ steps_in command }
{
    match command {
        Command::Drill { steps } => Some(steps),
        _ => None,
    }
}

/// How many targets the drill has that the words ask for.
pub(crate) fn drill_of(alloc: Global, words: &[Text]) -> Result<u32, WordsFault>
    ensures ok { IfOk result (λ n. drill_of words.now ≡ Some n) }
    ensures some { IfOk result (λ n. 0 < n) }
    ensures usage { IsErrOf result WordsFault.Usage → drill_of words.now ≡ None }
{
    match read_words(alloc, words) {
        Ok(read) => match steps_in(read.command) {
            Some(n) => Ok(n),
            None => Err(WordsFault::Usage),
        },
        Err(fault) => Err(fault),
    }
}
