//! Texts in quotes.
use transcript::answer::Answer;

/// Adds what a text is, and the text in quotes, and ends the line.
pub fn push_quoted(answer: &mut Answer, what: &str, text: &str) {
    answer.put(what);
    answer.put(" \"");
    answer.put(text);
    answer.push_line("\"");
}
