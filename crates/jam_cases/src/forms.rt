//! How the first line of a statement is shown: its name, and what it has before its blocks.
use crate::args::{put_arg, put_args, put_lists};
use crate::exprs::put_expr;
use crate::shown::{put_char, put_quoted};
use b2_base::text::Text;
use jam_grammar::tree::{Arg, Form, Param, Sign};
use transcript::answer::Answer;

fn sign_name(sign: Sign) -> &'static str {
    match sign {
        Sign::Set => " set",
        Sign::Add => " add",
        Sign::Fill => " fill",
    }
}

fn put_named(answer: &mut Answer, name: &str, list: &[Arg]) {
    answer.put(name);
    put_args(answer, list);
}

fn put_text(answer: &mut Answer, name: &str, text: &Text) {
    answer.put(name);
    put_quoted(answer, text.as_str());
}

fn put_local(answer: &mut Answer, names: &[Arg], value: Option<&Vec<Arg>>) {
    put_named(answer, "local", names);
    if let Some(value) = value {
        put_named(answer, " =", value);
    }
}

/// Puts a sign and a value.
fn put_set(answer: &mut Answer, sign: Sign, value: &[Arg]) {
    put_named(answer, sign_name(sign), value);
}

fn put_target(answer: &mut Answer, name: &str, target: &Arg) {
    answer.put(name);
    put_arg(answer, target);
}

fn put_for(answer: &mut Answer, local: bool, name: &Text, items: &[Arg]) {
    put_text(answer, if local { "for local " } else { "for " }, name);
    put_named(answer, " in", items);
}

/// Puts a parameter: its name, and its mark.
fn put_param(answer: &mut Answer, param: &Param) {
    put_text(answer, " ", &param.name);
    if let Some(mark) = param.mark {
        put_char(answer, mark);
    }
}

/// Puts a list of parameters.
fn put_params(answer: &mut Answer, params: &[Param]) {
    answer.put(" (");
    for param in params {
        put_param(answer, param);
    }
    answer.put(" )");
}

fn put_rule(answer: &mut Answer, name: &Text, params: &[Vec<Param>]) {
    put_text(answer, "rule ", name);
    for list in params {
        put_params(answer, list);
    }
}

/// Puts a form that sets or calls something.
fn put_act(answer: &mut Answer, form: &Form) {
    match form {
        Form::Assign {
            target,
            sign,
            value,
        } => {
            put_target(answer, "assign ", target);
            put_set(answer, *sign, value);
        }
        Form::AssignOn {
            target,
            on,
            sign,
            value,
        } => {
            put_target(answer, "assign ", target);
            put_named(answer, " on", on);
            put_set(answer, *sign, value);
        }
        Form::Call { head, lists } => {
            put_target(answer, "call ", head);
            put_lists(answer, lists);
        }
        _ => {}
    }
}

/// Puts a modifier of actions, if it stands.
fn put_modifier(answer: &mut Answer, stands: bool, modifier: &str) {
    if stands {
        answer.put(modifier);
    }
}

/// Puts a form that has no block of its own.
fn put_simple(answer: &mut Answer, form: &Form) {
    match form {
        Form::Local { names, value } => put_local(answer, names, value.as_ref()),
        Form::Include(names) => put_named(answer, "include", names),
        Form::Return(value) => put_named(answer, "return", value),
        Form::Actions {
            name,
            together,
            existing,
            quietly,
            body,
        } => {
            answer.put("actions ");
            put_modifier(answer, *together, "together ");
            put_modifier(answer, *existing, "existing ");
            put_modifier(answer, *quietly, "quietly ");
            put_text(answer, "", name);
            put_text(answer, " ", body);
        }
        Form::On { target, .. } => put_target(answer, "on ", target),
        _ => put_act(answer, form),
    }
}

/// Puts what a form has before its blocks.
pub fn put_form(answer: &mut Answer, form: &Form) {
    match form {
        Form::Braces(_) => answer.put("braces"),
        Form::If { test, .. } => {
            answer.put("if ");
            put_expr(answer, test);
        }
        Form::While { test, .. } => {
            answer.put("while ");
            put_expr(answer, test);
        }
        Form::For {
            local,
            name,
            items,
            ..
        } => put_for(answer, *local, name, items),
        Form::Switch { value, .. } => put_named(answer, "switch", value),
        Form::Module { name, .. } => put_named(answer, "module", name),
        Form::Rule { name, params, .. } => put_rule(answer, name, params),
        _ => put_simple(answer, form),
    }
}
