//! The tokens of a text.

use crate::ast::Span;

/// What a token is: a name, a number, a keyword or a sign.
#[derive(Clone, Copy, Debug, PartialEq, Eq)]
pub enum TokenKind {
    Name,
    Number,
    Class,
    Long,
    Bool,
    Isolated,
    Immutable,
    Readable,
    Writable,
    This,
    Null,
    True,
    False,
    New,
    Consume,
    Recover,
    Give,
    Par,
    Parfor,
    If,
    Else,
    While,
    Print,
    Return,
    Language,
    OpenBrace,
    CloseBrace,
    OpenParen,
    CloseParen,
    OpenBracket,
    CloseBracket,
    Semicolon,
    Comma,
    Dot,
    Assign,
    Equal,
    Differs,
    Less,
    AtMost,
    Greater,
    AtLeast,
    Plus,
    Minus,
    Star,
    Slash,
    Percent,
    Bang,
    And,
    Or,
}

/// A token where it stands. `value` is the value of a number, and 0 for any other token.
#[derive(Clone, Copy, Debug, PartialEq, Eq)]
pub struct Token {
    pub kind: TokenKind,
    pub span: Span,
    pub value: u64,
}
