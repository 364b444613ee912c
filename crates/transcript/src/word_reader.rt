//! How a line is read as words.
use crate::case_fault::CaseFault;
use crate::command::Word;
use std::alloc::Global;
use std::mem;

/// Where in a line the next byte stands.
#[derive(Clone, Copy)]
enum Place {
    BetweenWords,
    InWord,
    InQuotes,
    /// After a backslash in quotes.
    Escape,
    /// After `\x`.
    FirstDigit,
    /// After `\x` and a digit of this value.
    SecondDigit(u8),
    /// After the quote that ends a word.
    AfterQuotes,
}

/// Reads a line byte by byte.
#[derive(Drop)]
struct WordReader {
    alloc: Global,
    words: Vec<Word>,
    /// The bytes of the word that is being read.
    bytes: Vec<u8>,
    place: Place,
}

fn is_blank(byte: u8) -> bool {
    byte == b' ' || byte == b'\t'
}

fn digit(byte: u8) -> Result<u8, CaseFault> {
    match byte {
        b'0'..=b'9' => Ok(byte - b'0'),
        b'a'..=b'f' => Ok(byte - b'a' + 10),
        b'A'..=b'F' => Ok(byte - b'A' + 10),
        _ => Err(CaseFault::WrongWords),
    }
}

impl WordReader {
    fn push(&mut self, byte: u8, place: Place) -> Result<(), CaseFault> {
        self.bytes.push(byte)?;
        self.place = place;
        Ok(())
    }

    fn end_word(&mut self, place: Place) -> Result<(), CaseFault> {
        let bytes = mem::replace(&mut self.bytes, Vec::new(self.alloc));
        self.words.push(Word::new(bytes))?;
        self.place = place;
        Ok(())
    }

    fn between_words(&mut self, byte: u8) -> Result<(), CaseFault> {
        match byte {
            b' ' | b'\t' => Ok(()),
            b'"' => {
                self.place = Place::InQuotes;
                Ok(())
            }
            _ => self.push(byte, Place::InWord),
        }
    }

    fn in_word(&mut self, byte: u8) -> Result<(), CaseFault> {
        if is_blank(byte) {
            self.end_word(Place::BetweenWords)
        } else {
            self.push(byte, Place::InWord)
        }
    }

    fn in_quotes(&mut self, byte: u8) -> Result<(), CaseFault> {
        match byte {
            b'"' => self.end_word(Place::AfterQuotes),
            b'\\' => {
                self.place = Place::Escape;
                Ok(())
            }
            _ => self.push(byte, Place::InQuotes),
        }
    }

    fn escape(&mut self, byte: u8) -> Result<(), CaseFault> {
        match byte {
            b'n' => self.push(b'\n', Place::InQuotes),
            b't' => self.push(b'\t', Place::InQuotes),
            b'\\' | b'"' => self.push(byte, Place::InQuotes),
            b'x' => {
                self.place = Place::FirstDigit;
                Ok(())
            }
            _ => Err(CaseFault::WrongWords),
        }
    }

    fn after_quotes(&mut self, byte: u8) -> Result<(), CaseFault> {
        if is_blank(byte) {
            self.place = Place::BetweenWords;
            Ok(())
        } else {
            Err(CaseFault::WrongWords)
        }
    }

    fn step(&mut self, byte: u8) -> Result<(), CaseFault> {
        match self.place {
            Place::BetweenWords => self.between_words(byte),
            Place::InWord => self.in_word(byte),
            Place::InQuotes => self.in_quotes(byte),
            Place::Escape => self.escape(byte),
            Place::FirstDigit => {
                self.place = Place::SecondDigit(digit(byte)?);
                Ok(())
            }
            Place::SecondDigit(high) => {
                self.push(high.wrapping_mul(16) | digit(byte)?, Place::InQuotes)
            }
            Place::AfterQuotes => self.after_quotes(byte),
        }
    }

    fn end(mut self) -> Result<Vec<Word>, CaseFault> {
        match self.place {
            Place::BetweenWords | Place::AfterQuotes => Ok(self.words),
            Place::InWord => {
                self.end_word(Place::BetweenWords)?;
                Ok(self.words)
            }
            _ => Err(CaseFault::WrongWords),
        }
    }
}

/// The words of a line; `WrongWords` where a quote is not closed, text follows a closing quote at once, or an escape in
/// quotes is none of the five.
pub fn words_of(alloc: Global, line: &str) -> Result<Vec<Word>, CaseFault> {
    let mut reader = WordReader {
        alloc,
        words: Vec::new(alloc),
        bytes: Vec::new(alloc),
        place: Place::BetweenWords,
    };
    for byte in line.as_bytes() {
        reader.step(*byte)?;
    }
    reader.end()
}
