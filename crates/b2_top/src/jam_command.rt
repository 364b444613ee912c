//! What is asked for of a Jam file.
ghost use Rattle.std.specs.Prelude.{◌≡◌, ◌≤◌, None, IfOk, IsErrOf};
ghost use Rattle.b2_top.specs.Askings.{of_file, jam_of};

use crate::build_command::BuildCommand;
use b2_base::path::{Path, path_of};
use b2_base::text::Text;
use b2_command_line::fault::WordsFault;
use b2_command_line::jam::{JamWords, read_jam_words};
use std::alloc::Global;

/// What is asked for of a Jam file.
#[derive(Drop)]
pub struct JamCommand {
    pub file: Path,
    /// How its targets are built, and which.
    pub command: BuildCommand,
}

/// What the words ask for, where they are of plain Jam mode.
pub fn jam_command(alloc: Global, words: &[Text]) -> Result<JamCommand, WordsFault>
    ensures ok { IfOk result (λ read. jam_of words.now ≡ of_file read.file read.command) }
    ensures some_job { IfOk result (λ read. 1 ≤ read.command.options.jobs) }
    ensures usage { IsErrOf result WordsFault.Usage → (jam_of words.now).command ≡ None }
{
    match read_jam_words(alloc, words) {
        Ok(
            JamWords {
                file,
                options,
                targets,
            },
        ) => match path_of(alloc, file.as_str()) {
            Ok(file) => Ok(JamCommand {
                file,
                command: BuildCommand {
                    options,
                    words: targets,
                },
            }),
            Err(_error) => Err(WordsFault::OutOfMemory),
        },
        Err(fault) => Err(fault),
    }
}
