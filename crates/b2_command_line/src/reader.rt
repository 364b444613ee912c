//! The words of the command line.
ghost use Rattle.std.specs.Prelude.{◌≡◌, false, Some, None, All, IsUtf8, IfOk, IsErrOf, map};
ghost use Rattle.clap.specs.Words.{first_value, found_of};
ghost use Rattle.b2_base.specs.Bytes.{HasNoZero};
ghost use Rattle.b2_command_line.specs.Words.{reading, build_reading, drill_reading};
ghost use Rattle.b2_command_line.specs.Grouped.{any_grouped};
ghost use Rattle.b2_command_line.specs.Parser.{is_true, words_found, asked_in, command_in};

use crate::fault::WordsFault;
use crate::grouped::any_grouped;
use crate::lead::after_lead;
use crate::number::number_of;
use crate::parser::build_command;
use crate::values::{command_of, options_of};
use crate::words::{Command, Words};
use b2_base::fault::OutOfMemory;
use b2_base::text::Text;
use b2_base::text_list::{TextList, owned_texts};
use clap::ArgMatches;
use clap::error::ErrorKind;
use std::alloc::{AllocError, Global};

/// How many steps a drill has at most.
const MOST_STEPS: u32 = 2000;

fn is_given(matches: &ArgMatches<'_>, id: &str) -> bool
    ensures { result ≡ is_true (first_value (found_of matches.now) id.now) }
{
    match matches.get_str(id) {
        Some(text) => text == "true",
        None => false,
    }
}

#[tactic(auto, unfolding(crate::specs::Parser::command_in))]
fn command_in(matches: &ArgMatches<'_>) -> Option<Command>
    ensures { result ≡ command_in (found_of matches.now) }
{
    let jobs = matches.get_str("jobs");
    let by = matches.get_str("by");
    let all = is_given(matches, "all");
    let quit = is_given(matches, "quit");
    let options = options_of(jobs, by, all, quit)?;
    let steps = is_given(matches, "steps");
    let table = is_given(matches, "show");
    let explain = is_given(matches, "explain");
    let clean = is_given(matches, "clean");
    command_of(options, steps, table, explain, clean)
}

fn words_in(alloc: Global, matches: &ArgMatches<'_>) -> Result<TextList, OutOfMemory>
    requires { All HasNoZero (words_found (found_of matches.now)) }
    ensures { IfOk result (λ texts. texts ≡ words_found (found_of matches.now)) }
{
    match matches.get_strs("word") {
        Some(words) => owned_texts(alloc, words),
        None => Ok(TextList::new(alloc)),
    }
}

/// What clap's matches say that the words ask for.
fn asked_in(alloc: Global, matches: &ArgMatches<'_>) -> Result<Words, WordsFault>
    requires { All HasNoZero (words_found (found_of matches.now)) }
    ensures ok { IfOk result (λ asked. asked_in (found_of matches.now) ≡ Some asked) }
    ensures usage { IsErrOf result WordsFault.Usage → asked_in (found_of matches.now) ≡ None }
{
    let Some(command) = command_in(matches) else {
        return Err(WordsFault::Usage);
    };
    match words_in(alloc, matches) {
        Ok(words) => Ok(Words { command, words }),
        Err(_error) => Err(WordsFault::OutOfMemory),
    }
}

/// Reads words of which none is a group with an `n`.
fn read_ungrouped<'a>(alloc: Global, words: &'a [&'a str]) -> Result<Words, WordsFault>
    requires utf8 { All IsUtf8 (map (λ s. s.now) words.now) }
    requires no_zero { All HasNoZero (map (λ s. s.now) words.now) }
    requires ungrouped { any_grouped (map (λ s. s.now) words.now) ≡ false }
    ensures ok { IfOk result (λ read. build_reading (map (λ s. s.now) words.entry.now) ≡ Some read) }
    ensures usage { IsErrOf result WordsFault.Usage → build_reading (map (λ s. s.now) words.entry.now) ≡ None }
{
    let Ok(command) = build_command(alloc) else {
        return Err(WordsFault::OutOfMemory);
    };
    match command.try_get_matches_from(words) {
        Ok(matches) => asked_in(alloc, &matches),
        Err(error) => match error.kind() {
            ErrorKind::OutOfMemory => Err(WordsFault::OutOfMemory),
            _ => Err(WordsFault::Usage),
        },
    }
}

fn strs_of<'a>(alloc: Global, words: &'a [Text]) -> Result<Vec<&'a str>, AllocError>
    ensures same { IfOk result (λ strs. map (λ s. s.now) strs.items ≡ words.now) }
    ensures utf8 { IfOk result (λ strs. All IsUtf8 (map (λ s. s.now) strs.items)) }
    ensures no_zero { IfOk result (λ strs. All HasNoZero (map (λ s. s.now) strs.items)) }
{
    let mut strs = Vec::new(alloc);
    for word in words {
        strs.push(word.as_str())?;
    }
    Ok(strs)
}

/// Reads the words of a build, a look, an explanation or of cleaning.
pub(crate) fn read_build(alloc: Global, words: &[Text]) -> Result<Words, WordsFault>
    ensures ok { IfOk result (λ read. build_reading words.now ≡ Some read) }
    ensures usage { IsErrOf result WordsFault.Usage → build_reading words.now ≡ None }
{
    if any_grouped(words) {
        return Err(WordsFault::Usage);
    }
    let Ok(strs) = strs_of(alloc, words) else {
        return Err(WordsFault::OutOfMemory);
    };
    read_ungrouped(alloc, strs.as_slice())
}

/// Reads the number of a drill, and the words after it.
fn read_drill(alloc: Global, count: &str, rest: &[Text]) -> Result<Words, WordsFault>
    ensures ok { IfOk result (λ read. drill_reading count.now rest.now ≡ Some read) }
    ensures usage { IsErrOf result WordsFault.Usage → drill_reading count.now rest.now ≡ None }
{
    match rest {
        [] => match number_of(count, MOST_STEPS) {
            Some(steps) => Ok(Words {
                command: Command::Drill { steps },
                words: TextList::new(alloc),
            }),
            None => Err(WordsFault::Usage),
        },
        [_, ..] => Err(WordsFault::Usage),
    }
}

/// Reads the words of the command line, without the program's own name.
///
/// A build: `[-jN] [-a] [-q] [--by=digest] [word ..]`, N from 1 to 64. A look: the same with `-n` or `--show`. An explanation: the
/// same with `--explain`, and without `--by`. Cleaning: the same with `--clean`. Of these four words at most one stands. A drill:
/// `--drill=N` alone, N from 1 to 2,000. Each option stands at most once, and `--` ends the options.
pub fn read_words(alloc: Global, words: &[Text]) -> Result<Words, WordsFault>
    // What is read is what the grammar gives.
    ensures ok { IfOk result (λ read. reading words.now ≡ Some read) }
    // Words that are of the grammar are not refused.
    ensures usage { IsErrOf result WordsFault.Usage → reading words.now ≡ None }
{
    match words {
        [] => read_build(alloc, words),
        [first, rest @ ..] => match after_lead(first.as_str(), "--drill=") {
            Some(count) => read_drill(alloc, count, rest),
            None => read_build(alloc, words),
        },
    }
}
