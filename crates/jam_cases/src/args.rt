//! How arguments are shown: a word in quotes, and a bracket value as `[call HEAD LISTS]`, `[on TARGET call HEAD LISTS]` or
//! `[on TARGET return LIST]`. A list is shown as its arguments in parentheses, with blanks between all.
use crate::shown::put_quoted;
use jam_grammar::tree::{Arg, Inner};
use transcript::answer::Answer;

/// Puts an argument.
#[cycle(args)]
pub fn put_arg(answer: &mut Answer, arg: &Arg) {
    match arg {
        Arg::Word(word) => put_quoted(answer, word.text().as_str()),
        Arg::Bracket(inner) => {
            answer.put("[");
            put_inner(answer, inner);
            answer.put("]");
        }
    }
}

/// Puts what stands in brackets.
#[cycle(args)]
fn put_inner(answer: &mut Answer, inner: &Inner) {
    match inner {
        Inner::Call { head, lists } => {
            answer.put("call ");
            put_arg(answer, head);
            put_lists(answer, lists);
        }
        Inner::On { target, inner } => {
            answer.put("on ");
            put_arg(answer, target);
            answer.put(" ");
            put_inner(answer, inner);
        }
        Inner::OnReturn { target, value } => {
            answer.put("on ");
            put_arg(answer, target);
            answer.put(" return");
            put_args(answer, value);
        }
    }
}

/// Puts a blank and a list.
#[cycle(args)]
pub fn put_args(answer: &mut Answer, args: &[Arg]) {
    answer.put(" (");
    for arg in args {
        answer.put(" ");
        put_arg(answer, arg);
    }
    answer.put(" )");
}

/// Puts lists, each after a blank.
#[cycle(args)]
pub fn put_lists(answer: &mut Answer, lists: &[Vec<Arg>]) {
    for list in lists {
        put_args(answer, list);
    }
}
