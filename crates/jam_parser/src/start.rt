//! What a statement begins with.
ghost use Rattle.std.specs.Prelude.{◌≡◌};
ghost use Rattle.jam_parser.specs.Starts.{starts_stmt, line_first};
ghost use Rattle.jam_parser.specs.Begins.{IsStart};

use crate::reading::next_of;
use b2_base::token::Token;
use jam_grammar::mark::TokenMark;

/// What a statement begins with, and what stands after the key.
#[derive(Drop)]
pub enum Start<'a> {
    Argument,
    Brace,
    Local(&'a [Token]),
    Include(&'a [Token]),
    Return(&'a [Token]),
    If(&'a [Token]),
    For(&'a [Token]),
    While(&'a [Token]),
    Switch(&'a [Token]),
    Module(&'a [Token]),
    Rule(&'a [Token]),
    Actions(&'a [Token]),
    On(&'a [Token]),
    Nothing,
}

/// What a statement begins with here.
pub fn start_of(rest: &[Token]) -> Start<'_>
    ensures { IsStart rest.now result }
{
    match next_of(rest) {
        None => Start::Nothing,
        Some((mark, _, after)) => match mark {
            TokenMark::Plain
            | TokenMark::Query
            | TokenMark::Star
            | TokenMark::Plus
            | TokenMark::Together
            | TokenMark::Existing
            | TokenMark::Quietly
            | TokenMark::SquareOpen => Start::Argument,
            TokenMark::BraceOpen => Start::Brace,
            TokenMark::Local => Start::Local(after),
            TokenMark::Include => Start::Include(after),
            TokenMark::Return => Start::Return(after),
            TokenMark::If => Start::If(after),
            TokenMark::For => Start::For(after),
            TokenMark::While => Start::While(after),
            TokenMark::Switch => Start::Switch(after),
            TokenMark::Module => Start::Module(after),
            TokenMark::Rule => Start::Rule(after),
            TokenMark::Actions => Start::Actions(after),
            TokenMark::On => Start::On(after),
            TokenMark::Body
            | TokenMark::Semicolon
            | TokenMark::Colon
            | TokenMark::BraceClose
            | TokenMark::SquareClose
            | TokenMark::ParenOpen
            | TokenMark::ParenClose
            | TokenMark::Equals
            | TokenMark::PlusEquals
            | TokenMark::QueryEquals
            | TokenMark::NotEquals
            | TokenMark::Not
            | TokenMark::And
            | TokenMark::Or
            | TokenMark::Case
            | TokenMark::Else
            | TokenMark::In
            | TokenMark::Unknown => Start::Nothing,
        },
    }
}

/// Whether a statement begins here.
pub fn at_stmt(rest: &[Token]) -> bool
    ensures { result ≡ starts_stmt rest.now }
{
    !matches!(start_of(rest), Start::Nothing)
}

/// The line of the first token; zero where there is none.
pub fn line_of(rest: &[Token]) -> u32
    ensures { result ≡ line_first rest.now }
{
    match next_of(rest) {
        Some((_, first, _)) => first.line,
        None => 0,
    }
}
