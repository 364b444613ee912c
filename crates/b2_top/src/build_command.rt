//! What a build is asked for.
ghost use Rattle.std.specs.Prelude.{◌≡◌, ◌≤◌, IfOk, IsErrOf, Some, None};
ghost use Rattle.b2_top.specs.Commands.{options_in, build_command};

use b2_base::text::Text;
use b2_base::text_list::TextList;
use b2_command_line::fault::WordsFault;
use b2_command_line::reader::read_words;
use b2_command_line::words::{BuildOptions, Command, Words};
use std::alloc::Global;

/// What a build is asked for.
#[derive(Drop)]
pub struct BuildCommand {
    pub options: BuildOptions,
    /// The words that are no options, in order.
    pub words: TextList,
}

/// How a command builds, if it is a build.
fn options_in(command: Command) -> Option<BuildOptions>
    ensures { result ≡ options_in command }
{
    match command {
        Command::Build(options) => Some(options),
        _ => None,
    }
}

/// What the words ask for, where they are a build.
pub fn build_command(alloc: Global, words: &[Text]) -> Result<BuildCommand, WordsFault>
    ensures ok { IfOk result (λ command. build_command words.now ≡ Some command) }
    ensures some_job { IfOk result (λ command. 1 ≤ command.options.jobs) }
    ensures few_jobs { IfOk result (λ command. command.options.jobs ≤ 64) }
    ensures usage { IsErrOf result WordsFault.Usage → build_command words.now ≡ None }
{
    match read_words(alloc, words) {
        Ok(Words { command, words }) => match options_in(command) {
            Some(options) => Ok(BuildCommand { options, words }),
            None => Err(WordsFault::Usage),
        },
        Err(fault) => Err(fault),
    }
}
