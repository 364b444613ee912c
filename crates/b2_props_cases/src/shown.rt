//! Answers that both parts give.
use b2_base::fault::OutOfMemory;
use b2_base::text::Text;
use b2_props::props::Props;
use std::alloc::Global;
use transcript::answer::Answer;
use transcript::case_fault::CaseFault;

pub fn ok(alloc: Global) -> Result<Answer, CaseFault> {
    Answer::line(alloc, "ok")
}

pub fn truth_word(holds: bool) -> &'static str {
    if holds { "true" } else { "false" }
}

pub fn truth(alloc: Global, holds: bool) -> Result<Answer, CaseFault> {
    Answer::line(alloc, truth_word(holds))
}

/// What a call told that may be out of memory.
pub fn told(alloc: Global, called: Result<bool, OutOfMemory>) -> Result<Answer, CaseFault> {
    match called {
        Ok(holds) => truth(alloc, holds),
        Err(_fault) => Err(CaseFault::OutOfMemory),
    }
}

pub fn text_or_none(alloc: Global, found: Option<&str>) -> Result<Answer, CaseFault> {
    match found {
        Some(text) => Answer::line(alloc, text),
        None => Answer::line(alloc, "none"),
    }
}

/// Adds a line of two lists of texts with the sign `:` between them, after a name: `NAME TEXTS : TEXTS`.
pub fn push_lists(answer: &mut Answer, name: &str, left: &[Text], right: &[Text]) {
    answer.put(name);
    answer.put_texts(left);
    answer.put(" :");
    answer.put_texts(right);
    answer.end_line();
}

pub fn set_line(alloc: Global, set: &Props) -> Result<Answer, CaseFault> {
    Answer::properties(alloc, set.pairs())
}
