//! How conditions are shown: an argument as itself, and every other one in parentheses after a name, as `(or A B)`,
//! `(and A B)`, `(not A)`, `(group A)`, `(equal A B)`, `(differ A B)` and `(within A LIST)`.
use crate::args::{put_arg, put_args};
use jam_grammar::tree::{Arg, Expr};
use transcript::answer::Answer;

/// Puts two arguments after a name.
fn put_pair(answer: &mut Answer, name: &str, left: &Arg, right: &Arg) {
    answer.put(name);
    put_arg(answer, left);
    answer.put(" ");
    put_arg(answer, right);
    answer.put(")");
}

/// Puts an argument and a list.
fn put_within(answer: &mut Answer, item: &Arg, list: &[Arg]) {
    answer.put("(within ");
    put_arg(answer, item);
    put_args(answer, list);
    answer.put(")");
}

/// Puts a condition.
#[cycle(exprs)]
pub fn put_expr(answer: &mut Answer, expr: &Expr) {
    match expr {
        Expr::Or(members) => put_members(answer, "(or", members),
        Expr::And(members) => put_members(answer, "(and", members),
        Expr::Not(inner) => put_one(answer, "(not ", inner),
        Expr::Group(inner) => put_one(answer, "(group ", inner),
        Expr::Bare(arg) => put_arg(answer, arg),
        Expr::Equal(left, right) => put_pair(answer, "(equal ", left, right),
        Expr::Differ(left, right) => put_pair(answer, "(differ ", left, right),
        Expr::Within(item, list) => put_within(answer, item, list),
    }
}

/// Puts one condition after a name.
#[cycle(exprs)]
fn put_one(answer: &mut Answer, name: &str, inner: &Expr) {
    answer.put(name);
    put_expr(answer, inner);
    answer.put(")");
}

/// Puts conditions after a name.
#[cycle(exprs)]
fn put_members(answer: &mut Answer, name: &str, members: &[Expr]) {
    answer.put(name);
    for member in members {
        answer.put(" ");
        put_expr(answer, member);
    }
    answer.put(")");
}
