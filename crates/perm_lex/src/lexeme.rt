//! Words, numbers and signs.

ghost use Rattle.std.specs.Prelude.{◌≡◌, ◌<◌, ◌≤◌, false, length, take_while, MatchOption, MatchResult, IsTrue, slice_index};
ghost use Rattle.std.specs.Char.{is_ascii_digit};
ghost use Rattle.std.specs.List.{list_all};
ghost use Rattle.std.specs.Str.Parse.{digits_value};
ghost use Rattle.perm_lex.specs.Tokens.{is_letter, is_word_byte, largest};
ghost use Rattle.perm_lex.specs.Reading.{IsLexeme, IsTooLarge, NoSign};

use crate::table::{keyword, sign_kind, spelling};
use perm_tree::tokens::TokenKind;

/// The largest value of a number.
const LARGEST: u64 = i64::MAX as u64;

/// The base that numbers are written in.
const BASE: u64 = 10;

/// A token without its place.
#[derive(Clone, Copy)]
pub struct Lexeme {
    pub kind: TokenKind,
    pub len: usize,
    pub value: u64,
}

pub fn is_letter(byte: u8) -> bool
    ensures { result ≡ is_letter byte }
{
    byte.is_ascii_alphabetic() || byte == b'_'
}

fn is_word_byte(byte: u8) -> bool
    ensures { result ≡ is_word_byte byte }
{
    is_letter(byte) || byte.is_ascii_digit()
}

/// How many letters and digits stand at the front.
fn word_len(rest: &[u8]) -> usize
    ensures { result ≡ length (take_while is_word_byte rest.now) }
{
    rest.iter().take_while(|byte| is_word_byte(**byte)).count()
}

/// The keyword or the name at the front.
pub fn word(rest: &[u8]) -> Lexeme
    requires { IsTrue (is_letter (slice_index rest.now 0)) }
    ensures lexeme { IsLexeme rest.now result }
    ensures value { result.value ≡ 0 }
{
    let len = word_len(rest);
    let kind = keyword(&rest[..len]).unwrap_or(TokenKind::Name);
    Lexeme {
        kind,
        len,
        value: 0,
    }
}

/// How many digits stand at the front.
fn digits_len(rest: &[u8]) -> usize
    ensures { result ≡ length (take_while is_ascii_digit rest.now) }
{
    rest.iter().take_while(|byte| byte.is_ascii_digit()).count()
}

/// The number at the front, or the length of one that is too large.
pub fn number(rest: &[u8]) -> Result<Lexeme, usize>
    requires { IsTrue (is_ascii_digit (slice_index rest.now 0)) }
    ensures { MatchResult result (λ found. IsLexeme rest.now found × (found.value ≤ largest)) (λ len. IsTooLarge rest.now len) }
{
    let len = digits_len(rest);
    match value(&rest[..len]) {
        Some(value) => Ok(Lexeme {
            kind: TokenKind::Number,
            len,
            value,
        }),
        None => Err(len),
    }
}

/// The value of digits, unless it is too large.
fn value(digits: &[u8]) -> Option<u64>
    requires { IsTrue (list_all is_ascii_digit digits.now) }
    ensures { MatchOption result (largest < digits_value 10 digits.now) (λ n. (n ≡ digits_value 10 digits.now) × (n ≤ largest)) }
{
    let mut value = 0u64;
    for byte in digits {
        let digit = u64::from(*byte - b'0');
        if value > (LARGEST - digit) / BASE {
            return None;
        }
        value = value * BASE + digit;
    }
    Some(value)
}

/// The sign at the front.
pub fn sign(rest: &[u8]) -> Option<Lexeme>
    requires { is_word_byte (slice_index rest.now 0) ≡ false }
    ensures { MatchOption result (NoSign rest.now) (λ found. IsLexeme rest.now found × (found.value ≡ 0)) }
{
    let kind = sign_kind(rest)?;
    Some(Lexeme {
        kind,
        len: spelling(kind).len(),
        value: 0,
    })
}
