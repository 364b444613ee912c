//! Writes the tree of a file as a text in the language of build files.
#![tactic(auto)]

ghost use Rattle.std.specs.Prelude.{◌≡◌, IfOk};
ghost use Rattle.jam_spelling.specs.Spelling.{bytes_of};
ghost use Rattle.jam_printer.specs.Lexemes.{lexemes_of};
ghost use Rattle.jam_printer.specs.ReadsBack.{IsReadBack};

mod args;
mod exprs;
mod lexemes;
mod params;
mod simple;
mod stmts;

use crate::stmts::push_stmts;
use b2_base::fault::OutOfMemory;
use jam_grammar::tree::Tree;
use jam_spelling::spelled;
use std::alloc::Global;

/// The tree as a text: its words, signs and bodies one after the other, as [`spelled`] writes them. So one space stands
/// between two of them, a line feed after each `;`, `{` and `}`, a body of actions directly between its braces, and a
/// word in quotes where it is empty, is the text of a key, begins with `#`, or holds white space, a quote or a backslash.
///
/// The text of a tree that some source reads as reads as this tree again, but for the numbers of its lines, and as no
/// other. Other trees are written too. There a part that no source has at its place is left out: an `||` or `&&` within
/// `&&`, an `||` within `||`, and either after `!`, where no parentheses stand around it; a statement other than an `if`
/// after `else`; and a mark of a parameter that is none of the three.
pub fn print(alloc: Global, tree: &Tree) -> Result<Vec<u8>, OutOfMemory>
    ensures exact { IfOk result (λ printed. printed.items ≡ bytes_of (lexemes_of tree.now)) }
    ensures reads_back { IsReadBack tree.now result }
{
    let mut lexemes = Vec::new(alloc);
    push_stmts(&mut lexemes, &tree.block)?;
    spelled(alloc, lexemes.as_slice())
}
