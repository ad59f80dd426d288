//! The pieces of a text, one after another.

ghost use Rattle.std.specs.Prelude.{◌≡◌, ◌≢◌, ◌+◌, ◌<◌, ◌≤◌, ◌^◌, [], ◌++◌, length, MatchResult, OnOk, IfErr, slice_index};
ghost use Rattle.std.specs.Option.{option_to_list};
ghost use Rattle.perm_lex.specs.Tokens.{largest};
ghost use Rattle.perm_lex.specs.Lexes.{IsRefused, Lexes};
ghost use Rattle.perm_lex.specs.Reading.{ReadsPiece, IsLexeme, BeginsNoGap, IsCause};

use crate::gaps::{COMMENT_START, LINE_COMMENT, block_comment, is_blank, line_comment};
use crate::lexeme::{Lexeme, is_letter, number, sign, word};
use perm_tree::ast::Span;
use perm_tree::errors::LexError;
use perm_tree::tokens::Token;
use std::alloc::Global;

/// What stands at a place of a text: how many bytes it has, and its token unless it is a blank or a comment.
#[derive(Clone, Copy)]
struct Found {
    len: usize,
    token: Option<Token>,
}

/// So many bytes from a place on.
fn span_at(at: u32, len: usize) -> Span
    requires { at + len < 2 ^ 32 }
    ensures start { result.start ≡ at }
    ensures end { result.end ≡ at + len }
{
    Span {
        start: at,
        end: at + len as u32,
    }
}

/// The token at the front, where no blank and no comment is.
fn lexeme(rest: &[u8], at: u32) -> Result<Lexeme, LexError>
    requires some { 0 < length rest.now }
    requires no_gap { BeginsNoGap rest.now }
    requires fits { at + length rest.now < 2 ^ 32 }
    ensures { MatchResult result (λ found. IsLexeme rest.now found × (found.value ≤ largest)) (IsRefused at rest.now) }
{
    let first = rest[0];
    if is_letter(first) {
        return Ok(word(rest));
    }
    if first.is_ascii_digit() {
        return match number(rest) {
            Ok(found) => Ok(found),
            Err(len) => Err(LexError::NumberTooLarge {
                span: span_at(at, len),
            }),
        };
    }
    match sign(rest) {
        Some(found) => Ok(found),
        None => Err(LexError::BadByte { at }),
    }
}

/// The piece at the front, which begins at this place of the text.
fn piece(rest: &[u8], at: u32) -> Result<Found, LexError>
    requires some { 0 < length rest.now }
    requires fits { at + length rest.now < 2 ^ 32 }
    ensures { MatchResult result (λ found. ReadsPiece at rest.now found.len (option_to_list found.token)) (IsRefused at rest.now) }
{
    if is_blank(rest[0]) {
        return Ok(Found {
            len: 1,
            token: None,
        });
    }
    if rest.starts_with(LINE_COMMENT) {
        let len = line_comment(rest);
        return Ok(Found { len, token: None });
    }
    if rest.starts_with(COMMENT_START) {
        return match block_comment(rest) {
            Some(len) => Ok(Found { len, token: None }),
            None => Err(LexError::UnclosedComment { at }),
        };
    }
    let Lexeme { kind, len, value } = lexeme(rest, at)?;
    let span = span_at(at, len);
    let token = Some(Token { kind, span, value });
    Ok(Found { len, token })
}

/// Adds a token, if there is one.
fn append(tokens: &mut Vec<Token>, token: Option<Token>) -> Result<(), LexError>
    ensures ok { OnOk result (tokens.new.items ≡ tokens.old.items ++ option_to_list token) }
    ensures err { IfErr result (λ e. e ≡ LexError.NoMemory) }
{
    if let Some(token) = token {
        tokens.push(token)?;
    }
    Ok(())
}

/// Reads a text to its end, or up to the first piece that is refused.
pub fn read(alloc: Global, text: &[u8]) -> Result<Vec<Token>, LexError>
    requires { length text.now < 2 ^ 32 }
    ensures { MatchResult result (λ tokens. Lexes text.now tokens.items) (IsCause text.now) }
{
    let mut tokens = Vec::new(alloc);
    let mut at = 0;
    while at < text.len() {
        let found = piece(&text[at..], at as u32)?;
        append(&mut tokens, found.token)?;
        at += found.len;
    }
    Ok(tokens)
}
