//! Bytes of a log as they are given and shown.
use crate::answers::bytes_answer;
use std::alloc::Global;
use std::mem::ManuallyDrop;
use transcript::answer::Answer;
use transcript::case_fault::CaseFault;
use transcript::command::Command;

/// The bytes that a command gives: its text, in which `␉` is a tab, and then its words.
pub fn given(alloc: Global, command: &Command) -> Result<ManuallyDrop<Vec<u8>>, CaseFault> {
    let mut text = String::new(alloc);
    for mark in command.text().chars() {
        text.push(if mark == '␉' { '\t' } else { mark })?;
    }
    let mut bytes = text.into_bytes();
    for word in command.words() {
        bytes.extend_from_slice(word.bytes())?;
    }
    Ok(ManuallyDrop::new(bytes))
}

/// Adds a piece of a line, with `␉` for a tab.
fn put_fields(answer: &mut Answer, piece: &str) {
    let mut fields = piece.split('\t');
    if let Some(field) = fields.next() {
        answer.put(field);
    }
    for field in fields {
        answer.put("␉");
        answer.put(field);
    }
}

/// Shows a line, with `␊` for the line feed that it may end with.
fn push_marked(answer: &mut Answer, line: &str) {
    match line.strip_suffix('\n') {
        Some(piece) => {
            put_fields(answer, piece);
            answer.push_line("␊");
        }
        None => {
            put_fields(answer, line);
            answer.end_line();
        }
    }
}

/// Lines of a log, each as a line of the answer, with `␉` for a tab and `␊` for a line feed.
pub fn lines_answer(alloc: Global, bytes: &[u8]) -> Result<Answer, CaseFault> {
    let Ok(text) = str::from_utf8(bytes) else {
        return bytes_answer(alloc, bytes);
    };
    let mut answer = Answer::new(alloc);
    for line in text.split_inclusive('\n') {
        push_marked(&mut answer, line);
    }
    Ok(answer)
}
