//! The words of the command line.
ghost use Rattle.std.specs.Prelude.{◌≡◌, IfOk, IsErrOf, map, drop, string_bytes};
ghost use Rattle.std.specs.IoError.{error_kind};
ghost use Rattle.std.specs.declared.io.ErrorKind.TheVariants.{OutOfMemory};
ghost use Rattle.b2_base.specs.Bytes.{HasNoZero};
ghost use Rattle.b2_program.specs.CommandLine.{status_of, AreTexts};

use b2_base::text::{Text, has_no_zero};
use b2_top::answer::Answer;
use std::alloc::Global;
use std::env::Env;
use std::{env, io};

/// Why the words cannot be handed on.
#[derive(Clone, Copy)]
pub enum CommandLineFault {
    /// A word is no text, or holds the zero byte.
    NoText,
    OutOfMemory,
}

impl CommandLineFault {
    /// The exit status of a program whose words cannot be handed on: that of words which are no command, or that of no
    /// memory left.
    pub fn status(self) -> u8
        ensures { result ≡ status_of self }
    {
        match self {
            CommandLineFault::NoText => Answer::Usage.status(),
            CommandLineFault::OutOfMemory => Answer::OutOfMemory.status(),
        }
    }
}

fn text_of(alloc: Global, word: &str) -> Result<Text, CommandLineFault>
    ensures text { IfOk result (λ text. text ≡ word.now) }
    ensures no_text { IsErrOf result CommandLineFault.NoText → HasNoZero word.now → ⊥ }
{
    if !has_no_zero(word) {
        return Err(CommandLineFault::NoText);
    }
    match Text::new(alloc, word) {
        Ok(text) => Ok(text),
        Err(_error) => Err(CommandLineFault::OutOfMemory),
    }
}

/// Words as texts, in order. They are none exactly where a word holds the zero byte, or no memory is left.
pub fn texts_of(alloc: Global, words: &[String]) -> Result<Vec<Text>, CommandLineFault>
    ensures texts { IfOk result (λ made. made.items ≡ map string_bytes words.now) }
    ensures no_text { IsErrOf result CommandLineFault.NoText → AreTexts words.now → ⊥ }
{
    let mut made = Vec::new(alloc);
    for word in words {
        let text = text_of(alloc, word.as_str())?;
        if made.push(text).is_err() {
            return Err(CommandLineFault::OutOfMemory);
        }
    }
    Ok(made)
}

/// Why the system gave no words: one of them is no text, or no memory was left.
fn fault_of(error: &io::Error) -> CommandLineFault
    ensures memory { error_kind error.now ≡ OutOfMemory → result ≡ CommandLineFault.OutOfMemory }
    ensures no_text { (error_kind error.now ≡ OutOfMemory → ⊥) → result ≡ CommandLineFault.NoText }
{
    match error.kind() {
        io::ErrorKind::OutOfMemory => CommandLineFault::OutOfMemory,
        _ => CommandLineFault::NoText,
    }
}

/// The texts of the words after the first one, which is the program's own name.
pub fn own_texts(alloc: Global, args: &[String]) -> Result<Vec<Text>, CommandLineFault>
    ensures texts { IfOk result (λ made. made.items ≡ map string_bytes (drop 1 args.now)) }
    ensures no_text { IsErrOf result CommandLineFault.NoText → AreTexts (drop 1 args.now) → ⊥ }
{
    match args {
        [] => Ok(Vec::new(alloc)),
        [_name, words @ ..] => texts_of(alloc, words),
    }
}

/// The words of the command line, as the system gives them: those after the program's own name, in order.
pub fn words_of<R: Env + AllocGlobal>(rt: &R) -> Result<Vec<Text>, CommandLineFault> {
    let args = match env::args(rt) {
        Ok(args) => args,
        Err(error) => return Err(fault_of(&error)),
    };
    let all: Result<Vec<String>, _> = args.collect(rt.alloc());
    match all {
        Ok(all) => own_texts(rt.alloc(), all.as_slice()),
        Err(_error) => Err(CommandLineFault::OutOfMemory),
    }
}
