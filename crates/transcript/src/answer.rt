//! The answer to a command.
use crate::case_fault::CaseFault;
use b2_base::fault::OutOfMemory;
use b2_base::path::Path;
use b2_base::text::Text;
use std::alloc::Global;
use std::io;

/// Text that grows. Where memory runs out for a piece, that piece is left out, and the text is cut from then on.
#[derive(Drop)]
struct Printed {
    text: String,
    is_cut: bool,
}

impl Printed {
    fn push(&mut self, mark: char) {
        match self.text.push(mark) {
            Ok(()) => {}
            Err(_error) => self.is_cut = true,
        }
    }

    fn push_str(&mut self, text: &str) {
        match self.text.push_str(text) {
            Ok(()) => {}
            Err(_error) => self.is_cut = true,
        }
    }

    fn push_number(&mut self, number: u64) {
        match write!(self.text, "{number}") {
            Ok(()) => {}
            Err(_error) => self.is_cut = true,
        }
    }

    fn push_hexadecimal(&mut self, byte: u8) {
        match write!(self.text, "\\x{byte:02x}") {
            Ok(()) => {}
            Err(_error) => self.is_cut = true,
        }
    }

    fn push_char(&mut self, mark: char) {
        match mark {
            '\n' => self.push_str("\\n"),
            '\t' => self.push_str("\\t"),
            '\0'..='\x1f' => self.push_hexadecimal(mark as u8),
            '\x7f' => self.push_hexadecimal(127),
            _ => self.push(mark),
        }
    }

    fn push_byte(&mut self, byte: u8) {
        if byte < 128 {
            self.push_char(char::from(byte));
        } else {
            self.push_hexadecimal(byte);
        }
    }
}

/// The lines that answer a command, in order; there may be none.
///
/// What adds to it takes memory and answers nothing, so that what is shown piece by piece has no exit at each piece. Where
/// memory runs out the answer is cut from then on, and the transcript ends in place of printing it.
#[derive(Drop)]
pub struct Answer {
    /// The lines as they are printed. Each is ended by a line feed, but for the one that is open.
    printed: Printed,
    /// Whether something stands on the current line.
    is_open: bool,
}

impl Answer {
    /// An answer of no lines, which takes no memory.
    pub fn new(alloc: Global) -> Answer {
        let printed = Printed {
            text: String::new(alloc),
            is_cut: false,
        };
        Answer {
            printed,
            is_open: false,
        }
    }

    /// An answer whose only line is this text, shown as `put` does.
    pub fn line(alloc: Global, line: &str) -> Result<Answer, CaseFault> {
        let mut answer = Answer::new(alloc);
        answer.push_line(line);
        Ok(answer)
    }

    /// An answer of one line of two words, with a space between them.
    pub fn words(alloc: Global, word: &str, other: &str) -> Result<Answer, CaseFault> {
        let mut answer = Answer::new(alloc);
        answer.push_words(word, other);
        Ok(answer)
    }

    /// An answer of no lines to a call that has nothing to tell.
    pub fn done(alloc: Global, called: Result<(), OutOfMemory>) -> Result<Answer, CaseFault> {
        match called {
            Ok(()) => Ok(Answer::new(alloc)),
            Err(_fault) => Err(CaseFault::OutOfMemory),
        }
    }

    /// The answer to a question.
    pub fn yes_or_no(alloc: Global, holds: bool) -> Result<Answer, CaseFault> {
        Answer::line(alloc, if holds { "yes" } else { "no" })
    }

    /// `true` or `false`.
    pub fn truth(alloc: Global, holds: bool) -> Result<Answer, CaseFault> {
        Answer::line(alloc, if holds { "true" } else { "false" })
    }

    /// Properties on one line.
    pub fn properties(alloc: Global, properties: &[(Text, Text)]) -> Result<Answer, CaseFault> {
        let mut answer = Answer::new(alloc);
        answer.put_properties(properties);
        answer.end_line();
        Ok(answer)
    }

    /// A number in decimal.
    pub fn number(alloc: Global, number: u64) -> Result<Answer, CaseFault> {
        let mut answer = Answer::new(alloc);
        answer.put_number(number);
        answer.end_line();
        Ok(answer)
    }

    /// Each text on a line.
    pub fn texts(alloc: Global, texts: &[Text]) -> Result<Answer, CaseFault> {
        let mut answer = Answer::new(alloc);
        for text in texts {
            answer.push_line(text.as_str());
        }
        Ok(answer)
    }

    /// Each path on a line.
    pub fn paths(alloc: Global, paths: &[Path]) -> Result<Answer, CaseFault> {
        let mut answer = Answer::new(alloc);
        for path in paths {
            answer.push_line(path.as_str());
        }
        Ok(answer)
    }

    fn open(&mut self) {
        if !self.is_open {
            self.printed.push_str("= ");
            self.is_open = true;
        }
    }

    /// Adds a text to the current line. Its control bytes are shown as `\n`, `\t` or `\xHH`; a backslash stays as it is.
    pub fn put(&mut self, text: &str) {
        if !text.is_empty() {
            self.open();
        }
        for mark in text.chars() {
            self.printed.push_char(mark);
        }
    }

    /// Adds a number in decimal to the current line.
    pub fn put_number(&mut self, number: u64) {
        self.open();
        self.printed.push_number(number);
    }

    /// Adds a space to the current line, but not at its start. Whatever is said to stand after a space stands after this one.
    pub fn put_space(&mut self) {
        if self.is_open {
            self.printed.push(' ');
        }
    }

    /// Adds two texts with a space between them.
    pub fn put_two(&mut self, text: &str, other: &str) {
        self.put(text);
        self.put(" ");
        self.put(other);
    }

    /// Adds a number between two texts.
    pub fn put_between(&mut self, before: &str, number: u64, after: &str) {
        self.put(before);
        self.put_number(number);
        self.put(after);
    }

    /// Adds a word after a space, an empty one as `""`.
    pub fn put_word(&mut self, word: &str) {
        self.put_space();
        self.put(if word.is_empty() { "\"\"" } else { word });
    }

    /// Adds each text as `put_word` does.
    pub fn put_words(&mut self, texts: &[Text]) {
        for text in texts {
            self.put_word(text.as_str());
        }
    }

    /// Adds each text after a space, an empty one as nothing.
    pub fn put_texts(&mut self, texts: &[Text]) {
        for text in texts {
            self.put_space();
            self.put(text.as_str());
        }
    }

    /// Adds each path after a space.
    pub fn put_paths(&mut self, paths: &[Path]) {
        for path in paths {
            self.put_space();
            self.put(path.as_str());
        }
    }

    /// Adds a property as `<feature>value`, after a space.
    pub fn put_property(&mut self, property: &(Text, Text)) {
        self.put_space();
        self.put("<");
        self.put(property.0.as_str());
        self.put(">");
        self.put(property.1.as_str());
    }

    /// Adds each property as `put_property` does.
    pub fn put_properties(&mut self, properties: &[(Text, Text)]) {
        for property in properties {
            self.put_property(property);
        }
    }

    fn put_each(&mut self, bytes: &[u8]) {
        if !bytes.is_empty() {
            self.open();
        }
        for byte in bytes {
            self.printed.push_byte(*byte);
        }
    }

    /// Adds bytes to the current line as `put` does; where they are no UTF-8, each byte above 127 is shown as `\xHH`.
    pub fn put_bytes(&mut self, bytes: &[u8]) {
        match str::from_utf8(bytes) {
            Ok(text) => self.put(text),
            Err(_error) => self.put_each(bytes),
        }
    }

    /// Ends the current line, which may be empty.
    pub fn end_line(&mut self) {
        if !self.is_open {
            self.printed.push('=');
        }
        self.printed.push('\n');
        self.is_open = false;
    }

    /// Adds a text and ends the line.
    pub fn push_line(&mut self, line: &str) {
        self.put(line);
        self.end_line();
    }

    /// Adds two words with a space between them, and ends the line.
    pub fn push_words(&mut self, word: &str, other: &str) {
        self.put_two(word, other);
        self.end_line();
    }

    /// Adds a line for each path: a word, a space and the path.
    pub fn push_paths(&mut self, word: &str, paths: &[Path]) {
        for path in paths {
            self.push_words(word, path.as_str());
        }
    }

    /// Adds each line of a text as a line of its own. Whether the last one ends with a line feed is not shown.
    pub fn push_text(&mut self, text: &str) {
        for line in text.lines() {
            self.push_line(line);
        }
    }

    /// Tells that memory ran out for what was to be shown.
    pub fn cut(&mut self) {
        self.printed.is_cut = true;
    }

    pub(crate) fn print(&self, rt: &impl Print) -> io::Result<()> {
        if self.printed.is_cut {
            return Err(io::Error::from(io::ErrorKind::OutOfMemory));
        }
        let printed = &self.printed.text;
        print!(rt; "{printed}")
    }
}
