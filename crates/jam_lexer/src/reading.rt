//! Reads the tokens of a text, one after the other.
ghost use Rattle.std.specs.Prelude.{◌≡◌, ◌<◌, ◌≤◌, ◌+◌, ◌==◌, not, ◌&&◌, ◌||◌, [], length, codes, count_by, slice_range, IfOk, IfErr};
ghost use Rattle.std.specs.Str.{IsCharBoundary};
ghost use Rattle.b2_base.specs.declared.token.TokenKind.TheVariants as kinds;
ghost use Rattle.jam_lexer.specs.Signs.{line_of};
ghost use Rattle.b2_base.specs.Bytes.{line_feed};
ghost use Rattle.jam_lexer.specs.Gap.{BeginsWord};
ghost use Rattle.jam_lexer.specs.Word.{IsWord, text_of, kind_of};
ghost use Rattle.jam_lexer.specs.Body.{IsBody};
ghost use Rattle.jam_lexer.specs.Tokens.{NextWord, is_the_key, Stand, IsEnd, IsText};
ghost use Rattle.jam_lexer.specs.Progress.{HasRead, HasOpened, IsMet};

use crate::body::body_end;
use crate::fault::LexFault;
use crate::gap::next_word;
use crate::word::{text_from, word_end, word_kind, word_text};
use b2_base::fault::OutOfMemory;
use b2_base::text::Text;
use b2_base::token::{Token, TokenKind};
use std::alloc::Global;

/// A place after a token.
#[derive(Clone, Copy)]
pub struct LexPlace {
    pub at: usize,
    /// The line of the place, from 1.
    pub line: u32,
    /// The Key `actions` has been read, and no Key `{` since.
    pub awaits: bool,
}

/// How many line feeds are among the bytes.
fn line_feeds(bytes: &[u8]) -> usize
    ensures count { result ≡ count_by (λ byte. byte == line_feed) bytes.now }
    ensures bound { result ≤ length bytes.now }
{
    bytes.iter().filter(|byte| **byte == b'\n').count()
}

/// The line of a place, counted on from an earlier one.
#[tactic(auto, using(crate::proofs::LinesGrowByLineFeeds::lines_more))]
fn line_after(bytes: &[u8], from: usize, line: u32, to: usize) -> u32
    requires small { length bytes.now ≤ 1048576 }
    requires line_is { line ≡ line_of bytes.now from }
    requires order { from ≤ to }
    requires within { to ≤ length bytes.now }
    ensures { result ≡ line_of bytes.now to }
{
    line + line_feeds(&bytes[from..to]) as u32
}

/// Whether the token is the Key of this text.
fn is_the_key(token: &Token, text: &str) -> bool
    ensures { result ≡ is_the_key text.now token.now }
{
    token.kind == TokenKind::Key && token.text.as_str() == text
}

/// Whether a body stands after the token, where `awaits` says so of the tokens before it.
fn opens_body(token: &Token, awaits: bool) -> bool
    ensures { result ≡ (is_the_key (codes "{") token.now && awaits) }
{
    is_the_key(token, "{") && awaits
}

/// Whether a Key `{` after the token opens a body, where `awaits` says so of the tokens before it.
fn awaits_after(token: &Token, awaits: bool) -> bool
    ensures { result ≡ (is_the_key (codes "actions") token.now || (not (is_the_key (codes "{") token.now) && awaits)) }
{
    is_the_key(token, "actions") || (!is_the_key(token, "{") && awaits)
}

/// A word or a key, from where it starts to where it ends, without its quotes and backslashes.
fn word_token(
    alloc: Global,
    bytes: &[u8],
    start: usize,
    end: usize,
    line: u32,
) -> Result<Token, OutOfMemory>
    requires small { length bytes.now ≤ 1048576 }
    requires text { IsText bytes.now }
    requires boundary { IsCharBoundary bytes.now start }
    requires word { IsWord bytes.now start end }
    ensures { IfOk result (λ token. let word = slice_range bytes.now start end in
        token ≡ record { kind = kind_of word; text = text_of word; line = line; start = start; end = end }) }
{
    let word = &bytes[start..end];
    let text = word_text(alloc, word)?;
    let kind = word_kind(word, text.as_str());
    Ok(Token {
        kind,
        text,
        line,
        start: start as u32,
        end: end as u32,
    })
}

/// What stands between the braces of actions, as it stands there.
fn body_token(
    alloc: Global,
    bytes: &[u8],
    start: usize,
    end: usize,
    line: u32,
) -> Result<Token, OutOfMemory>
    requires small { length bytes.now ≤ 1048576 }
    requires text { IsText bytes.now }
    requires boundary { IsCharBoundary bytes.now start }
    requires body { IsBody bytes.now start end }
    ensures { IfOk result (λ token.
        token ≡ record { kind = kinds.Body; text = slice_range bytes.now start end; line = line; start = start; end = end }) }
{
    let text = text_from(alloc, &bytes[start..end])?;
    Ok(Token {
        kind: TokenKind::Body,
        text,
        line,
        start: start as u32,
        end: end as u32,
    })
}

/// The token of the `}` after a body.
fn brace_token(alloc: Global, at: usize, line: u32) -> Result<Token, OutOfMemory>
    requires { at < 1048576 }
    ensures { IfOk result (λ token.
        token ≡ record { kind = kinds.Key; text = codes "}"; line = line; start = at; end = at + 1 }) }
{
    let text = Text::new(alloc, "}")?;
    let start = at as u32;
    Ok(Token {
        kind: TokenKind::Key,
        text,
        line,
        start,
        end: start + 1,
    })
}

/// Reads the body that begins here and the brace after it. The `{` before it is on line `brace`.
fn read_body(
    alloc: Global,
    bytes: &[u8],
    tokens: &mut Vec<Token>,
    place: LexPlace,
    brace: u32,
) -> Result<LexPlace, LexFault>
    requires small { length bytes.now ≤ 1048576 }
    requires text { IsText bytes.now }
    requires opened { HasOpened bytes.now tokens.old.items place brace }
    ensures ok { IfOk result (HasRead bytes.now NextWord tokens.new.items) }
    ensures goes { IfOk result (λ after. place.at < after.at) }
    ensures err { IfErr result (IsMet bytes.now) }
{
    let Some(end) = body_end(bytes, place.at) else {
        return Err(LexFault::OpenActions { line: brace });
    };
    let body = body_token(alloc, bytes, place.at, end, place.line)?;
    let line = line_after(bytes, place.at, place.line, end);
    let close = brace_token(alloc, end, line)?;
    tokens.push(body)?;
    tokens.push(close)?;
    Ok(LexPlace {
        at: end + 1,
        line,
        awaits: place.awaits,
    })
}

/// Reads the word that begins at `start`, and the body that it opens.
fn read_word(
    alloc: Global,
    bytes: &[u8],
    tokens: &mut Vec<Token>,
    place: LexPlace,
    start: usize,
) -> Result<LexPlace, LexFault>
    requires small { length bytes.now ≤ 1048576 }
    requires text { IsText bytes.now }
    requires read { HasRead bytes.now NextWord tokens.old.items place }
    requires begins { BeginsWord bytes.now place.at start }
    ensures ok { IfOk result (HasRead bytes.now NextWord tokens.new.items) }
    ensures goes { IfOk result (λ after. place.at < after.at) }
    ensures err { IfErr result (IsMet bytes.now) }
{
    let line = line_after(bytes, place.at, place.line, start);
    let Some(end) = word_end(bytes, start) else {
        return Err(LexFault::OpenQuote { line });
    };
    let token = word_token(alloc, bytes, start, end, line)?;
    let opens = opens_body(&token, place.awaits);
    let awaits = awaits_after(&token, place.awaits);
    tokens.push(token)?;
    let after = LexPlace {
        at: end,
        line: line_after(bytes, start, line, end),
        awaits,
    };
    if opens {
        read_body(alloc, bytes, tokens, after, line)
    } else {
        Ok(after)
    }
}

/// The tokens of a text, in order, without white space and comments.
pub fn read_text(alloc: Global, bytes: &[u8]) -> Result<Vec<Token>, LexFault>
    requires small { length bytes.now ≤ 1048576 }
    requires text { IsText bytes.now }
    ensures ok { IfOk result (λ tokens. Stand bytes.now (IsEnd bytes.now) [] tokens.items) }
    ensures err { IfErr result (IsMet bytes.now) }
{
    let mut tokens = Vec::new(alloc);
    let mut place = LexPlace {
        at: 0,
        line: 1,
        awaits: false,
    };
    while let Some(start) = next_word(bytes, place.at) {
        place = read_word(alloc, bytes, &mut tokens, place, start)?;
    }
    Ok(tokens)
}
