//! What the grammar sees of a token.
ghost use Rattle.std.specs.Prelude.{◌≡◌, map};
ghost use Rattle.jam_grammar.specs.Marks.{mark_of_word, mark_in, mark_of_key, mark_of_token};

use b2_base::token::{Token, TokenKind};

/// What the grammar sees of a token: which key it is, or that it is a word or a body.
#[derive(Clone, Copy, PartialEq, Eq)]
pub enum TokenMark {
    /// A word other than the three that mark parameters and the three modifiers of actions.
    Plain,
    /// The word `?`.
    Query,
    /// The word `*`.
    Star,
    /// The word `+`.
    Plus,
    /// The word `together`.
    Together,
    /// The word `existing`.
    Existing,
    /// The word `quietly`.
    Quietly,
    /// The body of an action.
    Body,
    /// `;`
    Semicolon,
    /// `:`
    Colon,
    /// `{`
    BraceOpen,
    /// `}`
    BraceClose,
    /// `[`
    SquareOpen,
    /// `]`
    SquareClose,
    /// `(`
    ParenOpen,
    /// `)`
    ParenClose,
    /// `=`
    Equals,
    /// `+=`
    PlusEquals,
    /// `?=`
    QueryEquals,
    /// `!=`
    NotEquals,
    /// `!`
    Not,
    /// `&&`
    And,
    /// `||`
    Or,
    /// `actions`
    Actions,
    /// `case`
    Case,
    /// `else`
    Else,
    /// `for`
    For,
    /// `if`
    If,
    /// `in`
    In,
    /// `include`
    Include,
    /// `local`
    Local,
    /// `module`
    Module,
    /// `on`
    On,
    /// `return`
    Return,
    /// `rule`
    Rule,
    /// `switch`
    Switch,
    /// `while`
    While,
    /// A key of any other text, which the grammar has no place for.
    Unknown,
}

/// What the grammar sees of the token. A word is the same with quotes and without; the texts `?`, `*`, `+`, `together`,
/// `existing` and `quietly` have marks of their own among the words.
#[tactic(auto, unfolding(crate::specs::Marks::mark_of_token))]
pub fn mark_of(token: &Token) -> TokenMark
    ensures { result ≡ mark_of_token token.now }
{
    match token.kind {
        TokenKind::Word => mark_of_word(token.text.as_str()),
        TokenKind::Key => mark_of_key(token.text.as_str()),
        TokenKind::Body => TokenMark::Body,
    }
}

/// The words that the grammar knows with their marks: those that mark parameters, then the modifiers of actions.
static WORDS: [(&str, TokenMark); 6] = [
    ("?", TokenMark::Query),
    ("*", TokenMark::Star),
    ("+", TokenMark::Plus),
    ("together", TokenMark::Together),
    ("existing", TokenMark::Existing),
    ("quietly", TokenMark::Quietly),
];

/// The keys of the language with their marks: signs, then reserved words in byte order.
static KEYS: [(&str, TokenMark); 29] = [
    (";", TokenMark::Semicolon),
    (":", TokenMark::Colon),
    ("{", TokenMark::BraceOpen),
    ("}", TokenMark::BraceClose),
    ("[", TokenMark::SquareOpen),
    ("]", TokenMark::SquareClose),
    ("(", TokenMark::ParenOpen),
    (")", TokenMark::ParenClose),
    ("=", TokenMark::Equals),
    ("+=", TokenMark::PlusEquals),
    ("?=", TokenMark::QueryEquals),
    ("!=", TokenMark::NotEquals),
    ("!", TokenMark::Not),
    ("&&", TokenMark::And),
    ("||", TokenMark::Or),
    ("actions", TokenMark::Actions),
    ("case", TokenMark::Case),
    ("else", TokenMark::Else),
    ("for", TokenMark::For),
    ("if", TokenMark::If),
    ("in", TokenMark::In),
    ("include", TokenMark::Include),
    ("local", TokenMark::Local),
    ("module", TokenMark::Module),
    ("on", TokenMark::On),
    ("return", TokenMark::Return),
    ("rule", TokenMark::Rule),
    ("switch", TokenMark::Switch),
    ("while", TokenMark::While),
];

/// The mark of the first row with this text, or another where there is none.
fn mark_in(rows: &[(&str, TokenMark)], other: TokenMark, text: &str) -> TokenMark
    ensures { result ≡ mark_in (map (λ row. (row.0.now, row.1)) rows.now) other text.now }
{
    match rows {
        [] => other,
        [first, more @ ..] => {
            if text == first.0 {
                first.1
            } else {
                mark_in(more, other, text)
            }
        }
    }
}

/// A text that is not among the words that the grammar knows is `Plain`.
#[tactic(auto, unfolding(crate::specs::Marks::mark_of_word))]
fn mark_of_word(text: &str) -> TokenMark
    ensures { result ≡ mark_of_word text.now }
{
    mark_in(&WORDS, TokenMark::Plain, text)
}

/// A text that is not among the keys is `Unknown`.
#[tactic(auto, unfolding(crate::specs::Marks::mark_of_key))]
fn mark_of_key(text: &str) -> TokenMark
    ensures { result ≡ mark_of_key text.now }
{
    mark_in(&KEYS, TokenMark::Unknown, text)
}
