//! The commands of a transcript.
use crate::case_fault::CaseFault;
use b2_base::text::{Text, has_no_zero};
use std::alloc::Global;

/// A word of a command, any bytes.
#[derive(Drop)]
pub struct Word {
    bytes: Vec<u8>,
}

impl Word {
    pub(crate) fn new(bytes: Vec<u8>) -> Word {
        Word { bytes }
    }

    pub fn bytes(&self) -> &[u8] {
        self.bytes.as_slice()
    }

    /// The word as text; `WrongWords` where it is no UTF-8.
    pub fn as_str(&self) -> Result<&str, CaseFault> {
        match str::from_utf8(self.bytes.as_slice()) {
            Ok(text) => Ok(text),
            Err(_error) => Err(CaseFault::WrongWords),
        }
    }

    /// A copy of the word as a text with no zero byte; `WrongWords` where it is no UTF-8 or has a zero byte.
    pub fn as_text(&self, alloc: Global) -> Result<Text, CaseFault> {
        let text = self.as_str()?;
        if has_no_zero(text) {
            Ok(Text::new(alloc, text)?)
        } else {
            Err(CaseFault::WrongWords)
        }
    }
}

/// A command line with its text lines.
#[derive(Drop)]
pub struct Command {
    /// The name of the command and its words.
    all: Vec<Word>,
    text: String,
}

impl Command {
    /// A command of a name and words, with no text.
    pub(crate) fn new(alloc: Global, all: Vec<Word>) -> Command {
        Command {
            all,
            text: String::new(alloc),
        }
    }

    /// Adds a line to the text.
    pub(crate) fn push_line(&mut self, line: &str) -> Result<(), CaseFault> {
        self.text.push_str(line)?;
        self.text.push('\n')?;
        Ok(())
    }

    /// The first word of the line; empty where it is no UTF-8.
    pub fn name(&self) -> &str {
        match self.all.first() {
            Some(word) => word.as_str().unwrap_or(""),
            None => "",
        }
    }

    /// The words after the name.
    pub fn words(&self) -> &[Word] {
        match self.all.split_first() {
            Some((_name, words)) => words,
            None => &[],
        }
    }

    /// The text lines below the command, each ended by a line feed; empty where there are none.
    pub fn text(&self) -> &str {
        self.text.as_str()
    }
}
