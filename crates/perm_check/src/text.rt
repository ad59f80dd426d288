//! The check of a text.

ghost use Rattle.std.specs.Prelude.{◌≡◌, ◌≢◌, ℕ, ◌<◌, ◌≤◌, List, length, slice_get, IfErr, IfOk, Some};
ghost use Rattle.perm_tree.specs.Names.{names_refusal};
ghost use Rattle.perm_tree.specs.Places.{Listing};
ghost use Rattle.perm_lex.specs.Lexes.{Lexes, Refuses};
ghost use Rattle.perm_parse.specs.Parses.{IsRefused};
ghost use Rattle.perm_check.specs.Checks.{byte_at, token_span, HasOneCheck, IsAcceptedOf, IsFaultOf, IsProgramOf, IsUnitOf};

use crate::units::check_unit;
use perm_lex::lex;
use perm_parse::parse;
use perm_rules::Checked;
use perm_table::resolve;
use perm_tree::ast::Span;
use perm_tree::errors::{CheckFault, LexError, ParseError, Refusal, TableError};
use perm_tree::tokens::Token;
use perm_tree::unit::Unit;
use std::alloc::Global;

/// Checks a text of at most 1,048,576 bytes. It is lexed whole, then parsed, then resolved, then typed: the first refusal of the first stage that has one is answered.
pub fn check_text(alloc: Global, text: &[u8]) -> Result<Checked, CheckFault>
    requires { length text.now ≤ 1048576 }
    ensures accepted { IfOk result (IsAcceptedOf text.now) }
    ensures refused { IfErr result (IsFaultOf text.now) }
{
    let unit = unit_of(alloc, text)?;
    match check_unit(unit) {
        Ok(checked) => Ok(checked),
        Err(error) => Err(CheckFault::Refused(Refusal::Typing(error))),
    }
}

/// What a text comes to is one thing.
pub fn one_check()
    ensures { (text : List ℕ) → HasOneCheck text }
{}

/// The unit of a text. Its tokens are dropped.
fn unit_of(alloc: Global, text: &[u8]) -> Result<Unit, CheckFault>
    requires { length text.now ≤ 1048576 }
    ensures unit { IfOk result (IsUnitOf text.now) }
    ensures refused { IfErr result (IsFaultOf text.now) }
{
    let tokens = match lex(alloc, text) {
        Ok(tokens) => tokens,
        Err(error) => return Err(lexical_fault(text, error)),
    };
    let program = match parse(alloc, text, tokens.as_slice()) {
        Ok(program) => program,
        Err(error) => return Err(syntactic_fault(text, tokens.as_slice(), error)),
    };
    match resolve(alloc, program) {
        Ok(unit) => Ok(unit),
        Err(error) => Err(table_fault(text, error)),
    }
}

/// A lexical refusal, with its byte or number.
fn lexical_fault(text: &[u8], error: LexError) -> CheckFault
    requires short { length text.now ≤ 1048576 }
    requires refused { error ≢ LexError.NoMemory → Refuses text.now error }
    ensures { IsFaultOf text.now result }
{
    match error {
        LexError::BadByte { at } => lexical(error, byte_at(text, at)),
        LexError::NumberTooLarge { span } => lexical(error, span),
        LexError::UnclosedComment { at } => lexical(error, byte_at(text, at)),
        LexError::NoMemory => CheckFault::NoMemory,
    }
}

fn lexical(error: LexError, span: Span) -> CheckFault
    ensures { result ≡ CheckFault.Refused (Refusal.Lex error span) }
{
    CheckFault::Refused(Refusal::Lex(error, span))
}

/// The span of one byte of a text.
fn byte_at(text: &[u8], at: u32) -> Span
    requires short { length text.now ≤ 1048576 }
    requires within { at < length text.now }
    ensures { result ≡ byte_at at }
{
    let _text = text;
    Span {
        start: at,
        end: at + 1,
    }
}

/// A syntactic refusal, with its token.
fn syntactic_fault(text: &[u8], tokens: &[Token], error: ParseError) -> CheckFault
    requires short { length text.now ≤ 1048576 }
    requires lexes { Lexes text.now tokens.now }
    requires refused { error ≢ ParseError.NoMemory → IsRefused tokens.now error }
    ensures { IsFaultOf text.now result }
{
    match error {
        ParseError::Unexpected { token } => syntactic(error, token_span(text, tokens, token)),
        ParseError::TooDeep { token } => syntactic(error, token_span(text, tokens, token)),
        ParseError::NoMemory => CheckFault::NoMemory,
    }
}

fn syntactic(error: ParseError, span: Span) -> CheckFault
    ensures { result ≡ CheckFault.Refused (Refusal.Parse error span) }
{
    CheckFault::Refused(Refusal::Parse(error, span))
}

/// The span of a token, or the end of the text behind the last one.
fn token_span(text: &[u8], tokens: &[Token], at: u32) -> Span
    requires short { length text.now ≤ 1048576 }
    ensures { result ≡ token_span (length text.now) (slice_get tokens.now at) }
{
    match tokens.get(at as usize) {
        Some(token) => token.span,
        None => {
            let end = text.len() as u32;
            Span { start: end, end }
        }
    }
}

/// A refusal of names, with its name.
fn table_fault(text: &[u8], error: TableError) -> CheckFault
    requires refused { error ≢ TableError.NoMemory → (program : Listing) × IsProgramOf text.now program × (names_refusal program ≡ Some error) }
    ensures { IsFaultOf text.now result }
{
    let _text = text;
    match error {
        TableError::DuplicateName { span } => of_names(error, span),
        TableError::UnknownClass { span } => of_names(error, span),
        TableError::NoMain => of_names(error, Span { start: 0, end: 0 }),
        TableError::BadMain { span } => of_names(error, span),
        TableError::TooMany { span, .. } => of_names(error, span),
        TableError::NoMemory => CheckFault::NoMemory,
    }
}

fn of_names(error: TableError, span: Span) -> CheckFault
    ensures { result ≡ CheckFault.Refused (Refusal.Table error span) }
{
    CheckFault::Refused(Refusal::Table(error, span))
}
