//! What both parts show.
use b2_base::text::Text;
use transcript::answer::Answer;

/// Adds each text to the current line, with a space before it.
pub fn put_each(answer: &mut Answer, texts: &[Text]) {
    for text in texts {
        answer.put(" ");
        answer.put(text.as_str());
    }
}

/// Adds a line for each text.
pub fn push_texts(answer: &mut Answer, texts: &[Text]) {
    for text in texts {
        answer.push_line(text.as_str());
    }
}

/// Adds a line for each of the two, where a step is noted to be so.
pub fn push_signs(answer: &mut Answer, always: bool, notfile: bool) {
    if always {
        answer.push_line("always");
    }
    if notfile {
        answer.push_line("notfile");
    }
}
