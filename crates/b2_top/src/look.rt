//! What a look is asked for.
ghost use Rattle.std.specs.Prelude.{◌≡◌, IfOk, IsErrOf, Some, None};
ghost use Rattle.b2_top.specs.Looks.{view_of, look_of};

use b2_base::text::Text;
use b2_base::text_list::TextList;
use b2_command_line::fault::WordsFault;
use b2_command_line::reader::read_words;
use b2_command_line::words::{Command, View, Words};
use std::alloc::Global;

/// What a look is asked for.
#[derive(Drop)]
pub struct LookRequest {
    pub view: View,
    /// The words that are no options, in order.
    pub words: TextList,
}

/// What a command shows, if it is a look.
fn view_of(command: Command) -> Option<View>
    ensures { result ≡ view_of command }
{
    match command {
        Command::Look(view) => Some(view),
        _ => None,
    }
}

/// What the words ask for, where they are a look.
pub fn look_of(alloc: Global, words: &[Text]) -> Result<LookRequest, WordsFault>
    ensures ok { IfOk result (λ look. look_of words.now ≡ Some look) }
    ensures usage { IsErrOf result WordsFault.Usage → look_of words.now ≡ None }
{
    match read_words(alloc, words) {
        Ok(Words { command, words }) => match view_of(command) {
            Some(view) => Ok(LookRequest { view, words }),
            None => Err(WordsFault::Usage),
        },
        Err(fault) => Err(fault),
    }
}
