//! The words of plain Jam mode.
ghost use Rattle.std.specs.Prelude.{◌≡◌, Some, None, IfOk, IsErrOf};
ghost use Rattle.b2_command_line.specs.JamWords.{jam_words, jam_meant, reading_file, jam_reading};

use crate::fault::WordsFault;
use crate::reader::read_build;
use crate::words::{BuildOptions, Command, Words};
use b2_base::text::Text;
use b2_base::text_list::TextList;
use std::alloc::Global;

/// What a command line of plain Jam mode asks for.
#[derive(Drop)]
pub struct JamWords {
    /// The file whose rules declare the graph.
    pub file: Text,
    pub options: BuildOptions,
    /// The words that are no options and no values of options, in order.
    pub targets: TextList,
}

/// Targets of a file, where they are asked for by the command of a build.
fn jam_words(file: &Text, read: Words) -> Result<JamWords, WordsFault>
    ensures ok { IfOk result (λ words. jam_meant file.now read.words read.command ≡ Some words) }
    ensures usage { IsErrOf result WordsFault.Usage → jam_meant file.now read.words read.command ≡ None }
{
    let Words { command, words } = read;
    match command {
        Command::Build(options) => match file.copy() {
            Ok(file) => Ok(JamWords {
                file,
                options,
                targets: words,
            }),
            Err(_error) => Err(WordsFault::OutOfMemory),
        },
        _ => Err(WordsFault::Usage),
    }
}

/// Reads the words from FILE on.
fn read_file(alloc: Global, words: &[Text]) -> Result<JamWords, WordsFault>
    ensures ok { IfOk result (λ read. reading_file words.now ≡ Some read) }
    ensures usage { IsErrOf result WordsFault.Usage → reading_file words.now ≡ None }
{
    let [file, rest @ ..] = words else {
        return Err(WordsFault::Usage);
    };
    if file.as_str().is_empty() {
        return Err(WordsFault::Usage);
    }
    match read_build(alloc, rest) {
        Ok(read) => jam_words(file, read),
        Err(fault) => Err(fault),
    }
}

/// Reads the words of plain Jam mode, without the program's own name: `-f FILE [-jN] [-a] [-q] [--by=digest] [target ..]`. FILE is
/// the second word, whatever it begins with.
pub fn read_jam_words(alloc: Global, words: &[Text]) -> Result<JamWords, WordsFault>
    // What is read is what the grammar gives.
    ensures ok { IfOk result (λ read. jam_reading words.now ≡ Some read) }
    // Words that are of the grammar are not refused.
    ensures usage { IsErrOf result WordsFault.Usage → jam_reading words.now ≡ None }
{
    let [first, rest @ ..] = words else {
        return Err(WordsFault::Usage);
    };
    if first.as_str() == "-f" {
        read_file(alloc, rest)
    } else {
        Err(WordsFault::Usage)
    }
}
