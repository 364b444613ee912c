//! The commands of the part `language` of a transcript: tokens, trees, names and patterns of build files, and what words in them
//! stand for. The text of a command is its one word, or else the lines below it. The variables that are set stay until the program
//! ends.
//!
//! - `lex`: the tokens, each on a line as LINE START-END KIND "TEXT", or the fault.
//! - `parse`: the tree, a statement a line as `stmts.rt` shows it, or the first fault.
//! - `fault`: the first fault, or that there is none.
//! - `print`: the tree printed as a text again, line by line, or the first fault.
//! - `spelled KIND TEXT ..`: the text in which these words, keys and bodies are written.
//! - `mark_of KIND TEXT ..`: what the grammar sees of tokens of one kind.
//! - `parts`, `join`, `glob_match`: parts of file names, and patterns on names (`names.rt`).
//! - `set`, `expand`, `expand_body`: variables, and what words and bodies of actions stand for (`expansion.rt`).
//! - `groups`: the groups of the first match of a regular expression (`patterns.rt`).
#![tactic(auto)]

mod args;
mod expansion;
mod exprs;
pub mod faults;
mod forms;
mod given;
mod lexemes;
mod marks;
mod names;
mod patterns;
pub mod session;
mod shown;
mod stmts;
mod tokens;
mod trees;
