//! Single lexemes.
ghost use Rattle.std.specs.Prelude.{◌≡◌, ◌∷◌, [], IfOk};
ghost use Rattle.b2_base.specs.Bytes.{HasNoZero};
ghost use Rattle.jam_grammar.specs.Spelling.{Key, Says, Raw};
ghost use Rattle.jam_grammar.specs.Alike.{mark_said};
ghost use Rattle.jam_printer.specs.Lexemes.{Appends};

use b2_base::fault::OutOfMemory;
use b2_base::text::Text;
use b2_base::token::TokenKind;
use jam_grammar::mark::TokenMark;
use jam_spelling::lexeme::Lexeme;

/// Empty for marks that are no keys.
fn key_text(mark: TokenMark) -> &'static str
    ensures text { result.now ≡ (mark_said mark).text }
    ensures no_zero { HasNoZero result.now }
{
    match mark {
        TokenMark::Plain | TokenMark::Body | TokenMark::Unknown => "",
        TokenMark::Query => "?",
        TokenMark::Star => "*",
        TokenMark::Plus => "+",
        TokenMark::Together => "together",
        TokenMark::Existing => "existing",
        TokenMark::Quietly => "quietly",
        TokenMark::Semicolon => ";",
        TokenMark::Colon => ":",
        TokenMark::BraceOpen => "{",
        TokenMark::BraceClose => "}",
        TokenMark::SquareOpen => "[",
        TokenMark::SquareClose => "]",
        TokenMark::ParenOpen => "(",
        TokenMark::ParenClose => ")",
        TokenMark::Equals => "=",
        TokenMark::PlusEquals => "+=",
        TokenMark::QueryEquals => "?=",
        TokenMark::NotEquals => "!=",
        TokenMark::Not => "!",
        TokenMark::And => "&&",
        TokenMark::Or => "||",
        TokenMark::Actions => "actions",
        TokenMark::Case => "case",
        TokenMark::Else => "else",
        TokenMark::For => "for",
        TokenMark::If => "if",
        TokenMark::In => "in",
        TokenMark::Include => "include",
        TokenMark::Local => "local",
        TokenMark::Module => "module",
        TokenMark::On => "on",
        TokenMark::Return => "return",
        TokenMark::Rule => "rule",
        TokenMark::Switch => "switch",
        TokenMark::While => "while",
    }
}

/// The kind of what a mark stands for.
fn key_kind(mark: TokenMark) -> TokenKind
    ensures { result ≡ (mark_said mark).kind }
{
    match mark {
        TokenMark::Query
        | TokenMark::Star
        | TokenMark::Plus
        | TokenMark::Together
        | TokenMark::Existing
        | TokenMark::Quietly => TokenKind::Word,
        _ => TokenKind::Key,
    }
}

/// Appends what a mark stands for.
pub fn push_key(lexemes: &mut Vec<Lexeme>, mark: TokenMark) -> Result<(), OutOfMemory>
    ensures { IfOk result (λ _. Appends (Key mark ∷ []) lexemes.old lexemes.new) }
{
    let text = Text::new(*lexemes.allocator(), key_text(mark))?;
    lexemes.push(Lexeme {
        kind: key_kind(mark),
        text,
    })?;
    Ok(())
}

/// Appends a word.
pub fn push_word(lexemes: &mut Vec<Lexeme>, text: &Text) -> Result<(), OutOfMemory>
    ensures { IfOk result (λ _. Appends (Says text.now ∷ []) lexemes.old lexemes.new) }
{
    let text = text.copy()?;
    lexemes.push(Lexeme {
        kind: TokenKind::Word,
        text,
    })?;
    Ok(())
}

/// Appends a body.
pub fn push_body(lexemes: &mut Vec<Lexeme>, text: &Text) -> Result<(), OutOfMemory>
    ensures { IfOk result (λ _. Appends (Raw text.now ∷ []) lexemes.old lexemes.new) }
{
    let text = text.copy()?;
    lexemes.push(Lexeme {
        kind: TokenKind::Body,
        text,
    })?;
    Ok(())
}
