//! What an explanation is asked for, and what is to be cleaned.
ghost use Rattle.std.specs.Prelude.{◌≡◌, IfOk, IsErrOf, IsTrue, Some, None};
ghost use Rattle.b2_top.specs.Asked.{all_in, is_clean, explain_command, clean_words};

use b2_base::text::Text;
use b2_base::text_list::TextList;
use b2_command_line::fault::WordsFault;
use b2_command_line::reader::read_words;
use b2_command_line::words::{Command, Words};
use std::alloc::Global;

/// What an explanation is asked for.
#[derive(Drop)]
pub struct ExplainCommand {
    /// Whether all that is needed is to run.
    pub all: bool,
    /// The words that are no options, in order.
    pub words: TextList,
}

/// Whether all is to run, if a command is an explanation.
fn all_in(command: Command) -> Option<bool>
    ensures { result ≡ all_in command }
{
    match command {
        Command::Explain { all } => Some(all),
        _ => None,
    }
}

/// What the words ask for, where they ask for an explanation.
pub fn explain_command(alloc: Global, words: &[Text]) -> Result<ExplainCommand, WordsFault>
    ensures ok { IfOk result (λ command. explain_command words.now ≡ Some command) }
    ensures usage { IsErrOf result WordsFault.Usage → explain_command words.now ≡ None }
{
    match read_words(alloc, words) {
        Ok(Words { command, words }) => match all_in(command) {
            Some(all) => Ok(ExplainCommand { all, words }),
            None => Err(WordsFault::Usage),
        },
        Err(fault) => Err(fault),
    }
}

fn is_clean(command: Command) -> bool
    ensures { result ≡ is_clean command }
{
    matches!(command, Command::Clean)
}

/// The words that are no options, where the words ask for cleaning.
pub fn clean_words(alloc: Global, words: &[Text]) -> Result<TextList, WordsFault>
    ensures ok { IfOk result (λ free. clean_words words.now ≡ Some free) }
    ensures usage { IsErrOf result WordsFault.Usage → clean_words words.now ≡ None }
{
    match read_words(alloc, words) {
        Ok(Words { command, words }) => {
            if is_clean(command) {
                Ok(words)
            } else {
                Err(WordsFault::Usage)
            }
        }
        Err(fault) => Err(fault),
    }
}
