//! What `lex` gives.

use crate::short;
use perm_lex::lex;
use perm_tree::ast::Span;
use perm_tree::errors::LexError;
use perm_tree::tokens::TokenKind::*;
use perm_tree::tokens::{Token, TokenKind};
use std::alloc::Global;

#[test]
fn the_first_fault_is_told(rt: HostRuntime) {
    let too_large = LexError::NumberTooLarge {
        span: Span { start: 0, end: 19 },
    };
    assert_eq!(rt;
        lex(rt.alloc(), b"9223372036854775808").err(),
        Some(too_large)
    );
    let cases: [(&[u8], LexError); 8] = [
        (b"class Main { @", LexError::BadByte { at: 13 }),
        (b"a & b", LexError::BadByte { at: 2 }),
        (b"a\n|", LexError::BadByte { at: 2 }),
        (b"\t\x0b", LexError::BadByte { at: 1 }),
        (b"x /*/ y", LexError::UnclosedComment { at: 2 }),
        (b"/* * /", LexError::UnclosedComment { at: 0 }),
        (b"/* @ */ // @\n@", LexError::BadByte { at: 13 }),
        (b"@ /*", LexError::BadByte { at: 0 }),
    ];
    for (text, error) in cases {
        assert_eq!(rt; lex(rt.alloc(), short(text)).err(), Some(error), "{text:?}");
    }
}

#[test]
fn tokens_are_the_longest(rt: HostRuntime) -> Result<(), LexError> {
    let cases: [(&[u8], &[TokenKind]); 12] = [
        (b"", &[]),
        (b" \t\r\n", &[]),
        (
            b"<= < = == ===",
            &[AtMost, Less, Assign, Equal, Equal, Assign],
        ),
        (
            b"!= ! !== && ||",
            &[Differs, Bang, Differs, Assign, And, Or],
        ),
        (
            b">=> + - * / %",
            &[AtLeast, Greater, Plus, Minus, Star, Slash, Percent],
        ),
        (
            b"{}()[];,.",
            &[
                OpenBrace,
                CloseBrace,
                OpenParen,
                CloseParen,
                OpenBracket,
                CloseBracket,
                Semicolon,
                Comma,
                Dot,
            ],
        ),
        (
            b"class long bool isolated immutable readable writable this null true false new",
            &[
                Class, Long, Bool, Isolated, Immutable, Readable, Writable, This, Null, True,
                False, New,
            ],
        ),
        (
            b"consume recover give par parfor if else while print return language",
            &[
                Consume, Recover, Give, Par, Parfor, If, Else, While, Print, Return, Language,
            ],
        ),
        (
            b"classes par2 _par Par 12x",
            &[Name, Name, Name, Name, Number, Name],
        ),
        (b"/ // at the end", &[Slash]),
        (b"/**/a/* */b/* * / **/c", &[Name, Name, Name]),
        (b"a//*\nb*/", &[Name, Name, Star, Slash]),
    ];
    for (text, kinds) in cases {
        let tokens = lex(rt.alloc(), short(text))?;
        assert_eq!(rt; tokens.len(), kinds.len(), "{text:?}");
        for (token, kind) in tokens.iter().zip(kinds) {
            assert_eq!(rt; token.kind, *kind, "{text:?}");
        }
    }
    Ok(())
}

#[test]
fn numbers_have_their_values(rt: HostRuntime) -> Result<(), LexError> {
    let tokens = lex(rt.alloc(), b"007 a9223372036854775807 9223372036854775807")?;
    let wanted = [
        (Number, 0, 3, 7),
        (Name, 4, 24, 0),
        (Number, 25, 44, 9_223_372_036_854_775_807),
    ];
    assert_eq!(rt; tokens.len(), wanted.len());
    for (token, (kind, start, end, value)) in tokens.iter().zip(wanted) {
        let span = Span { start, end };
        assert_eq!(rt; *token, Token { kind, span, value });
    }
    Ok(())
}

#[test]
fn any_bytes_have_an_answer(rt: HostRuntime) {
    let alphabet = b"a_90 \n/**/=!<&|;@\xff";
    let mut state = 1u32;
    for _ in 0..500 {
        let mut text = [0u8; 9];
        for byte in text.iter_mut() {
            state = state.wrapping_mul(1_664_525).wrapping_add(1_013_904_223);
            *byte = alphabet[(state >> 24) as usize % alphabet.len()];
        }
        let answer = lex(rt.alloc(), &text);
        assert_ne!(rt; answer.err(), Some(LexError::NoMemory), "{text:?}");
    }
}
