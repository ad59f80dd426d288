//! Keywords and signs.

ghost use Rattle.std.specs.Prelude.{◌≡◌, [], unwrap_or, find, bytes_eq, nat_eq};
ghost use Rattle.std.specs.List.{starts_with};
ghost use Rattle.perm_lex.specs.Tokens.{spelling};

use perm_tree::tokens::TokenKind;

/// The keywords.
const KEYWORDS: [TokenKind; 23] = [
    TokenKind::Class,
    TokenKind::Long,
    TokenKind::Bool,
    TokenKind::Isolated,
    TokenKind::Immutable,
    TokenKind::Readable,
    TokenKind::Writable,
    TokenKind::This,
    TokenKind::Null,
    TokenKind::True,
    TokenKind::False,
    TokenKind::New,
    TokenKind::Consume,
    TokenKind::Recover,
    TokenKind::Give,
    TokenKind::Par,
    TokenKind::Parfor,
    TokenKind::If,
    TokenKind::Else,
    TokenKind::While,
    TokenKind::Print,
    TokenKind::Return,
    TokenKind::Language,
];

/// The signs, those of two bytes first.
const SIGNS: [TokenKind; 24] = [
    TokenKind::Equal,
    TokenKind::Differs,
    TokenKind::AtMost,
    TokenKind::AtLeast,
    TokenKind::And,
    TokenKind::Or,
    TokenKind::OpenBrace,
    TokenKind::CloseBrace,
    TokenKind::OpenParen,
    TokenKind::CloseParen,
    TokenKind::OpenBracket,
    TokenKind::CloseBracket,
    TokenKind::Semicolon,
    TokenKind::Comma,
    TokenKind::Dot,
    TokenKind::Assign,
    TokenKind::Less,
    TokenKind::Greater,
    TokenKind::Plus,
    TokenKind::Minus,
    TokenKind::Star,
    TokenKind::Slash,
    TokenKind::Percent,
    TokenKind::Bang,
];

/// How a keyword or a sign is spelled. Names and numbers have no one spelling.
pub fn spelling(kind: TokenKind) -> &'static [u8]
    ensures { result.now ≡ unwrap_or (spelling kind) [] }
{
    match kind {
        TokenKind::Class => b"class",
        TokenKind::Long => b"long",
        TokenKind::Bool => b"bool",
        TokenKind::Isolated => b"isolated",
        TokenKind::Immutable => b"immutable",
        TokenKind::Readable => b"readable",
        TokenKind::Writable => b"writable",
        TokenKind::This => b"this",
        TokenKind::Null => b"null",
        TokenKind::True => b"true",
        TokenKind::False => b"false",
        TokenKind::New => b"new",
        TokenKind::Consume => b"consume",
        TokenKind::Recover => b"recover",
        TokenKind::Give => b"give",
        TokenKind::Par => b"par",
        TokenKind::Parfor => b"parfor",
        TokenKind::If => b"if",
        TokenKind::Else => b"else",
        TokenKind::While => b"while",
        TokenKind::Print => b"print",
        TokenKind::Return => b"return",
        TokenKind::Language => b"language",
        TokenKind::OpenBrace => b"{",
        TokenKind::CloseBrace => b"}",
        TokenKind::OpenParen => b"(",
        TokenKind::CloseParen => b")",
        TokenKind::OpenBracket => b"[",
        TokenKind::CloseBracket => b"]",
        TokenKind::Semicolon => b";",
        TokenKind::Comma => b",",
        TokenKind::Dot => b".",
        TokenKind::Assign => b"=",
        TokenKind::Equal => b"==",
        TokenKind::Differs => b"!=",
        TokenKind::Less => b"<",
        TokenKind::AtMost => b"<=",
        TokenKind::Greater => b">",
        TokenKind::AtLeast => b">=",
        TokenKind::Plus => b"+",
        TokenKind::Minus => b"-",
        TokenKind::Star => b"*",
        TokenKind::Slash => b"/",
        TokenKind::Percent => b"%",
        TokenKind::Bang => b"!",
        TokenKind::And => b"&&",
        TokenKind::Or => b"||",
        TokenKind::Name | TokenKind::Number => b"",
    }
}

/// The keyword that a word is.
pub fn keyword(word: &[u8]) -> Option<TokenKind>
    ensures { result ≡ find (λ k. bytes_eq (unwrap_or (spelling k) []) word.now) KEYWORDS }
{
    KEYWORDS
        .iter()
        .copied()
        .find(|kind| spelling(*kind) == word)
}

/// The longest sign at the front.
pub fn sign_kind(rest: &[u8]) -> Option<TokenKind>
    ensures { result ≡ find (λ k. starts_with nat_eq rest.now (unwrap_or (spelling k) [])) SIGNS }
{
    SIGNS
        .iter()
        .copied()
        .find(|kind| rest.starts_with(spelling(*kind)))
}
