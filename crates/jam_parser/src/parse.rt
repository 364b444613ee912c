//! Reading a whole file.
ghost use Rattle.std.specs.Prelude.{◌≡◌, IfErr, IfOk, MatchResult};
ghost use Rattle.jam_grammar.specs.Readings.{Reads, last_line};
ghost use Rattle.jam_parser.specs.Faults.{IsFault, IsFaultHere, IsToldAt};

use crate::fault::SyntaxFault;
use crate::reading::{ReadingFault, next_of};
use crate::stmts::stmts;
use b2_base::text::Text;
use b2_base::token::Token;
use jam_grammar::tree::{Block, Tree};
use std::alloc::Global;

/// The tree of the tokens. The fault At comes exactly where they have none.
pub fn parse(alloc: Global, tokens: &[Token]) -> Result<Tree, SyntaxFault>
    ensures tree { IfOk result (λ tree. Reads tokens.now tree) }
    ensures fault { IfErr result (λ fault. IsFault tokens.now fault) }
{
    match whole(alloc, tokens) {
        Ok(tree) => Ok(tree),
        Err(ReadingFault::Memory) => Err(SyntaxFault::OutOfMemory),
        Err(ReadingFault::At(rest)) => Err(told(alloc, tokens, rest)),
    }
}

/// Reads all tokens as statements.
fn whole<'a>(alloc: Global, tokens: &'a [Token]) -> Result<Tree, ReadingFault<'a>>
    ensures { MatchResult result (λ tree. Reads tokens.now tree) (λ fault. IsFaultHere tokens.now fault) }
{
    let (stmts, left) = stmts(alloc, tokens, 0)?;
    match next_of(left) {
        None => Ok(Tree {
            block: Block { stmts },
        }),
        Some(_) => Err(ReadingFault::At(left)),
    }
}

/// What is told of a fault at the first of the tokens that are left.
fn told(alloc: Global, tokens: &[Token], rest: &[Token]) -> SyntaxFault
    ensures { IsToldAt tokens.now rest.now result }
{
    let (line, found) = match next_of(rest) {
        Some((_, first, _)) => (first.line, first.text.copy()),
        None => (last_line(tokens), Text::new(alloc, "")),
    };
    match found {
        Ok(found) => SyntaxFault::At { line, found },
        Err(_) => SyntaxFault::OutOfMemory,
    }
}

/// The line of the last token; 1 where there is none.
fn last_line(tokens: &[Token]) -> u32
    ensures { result ≡ last_line tokens.now }
{
    let mut line = 1;
    for token in tokens {
        line = token.line;
    }
    line
}
