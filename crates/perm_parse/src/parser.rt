//! What a parser has in hand.

ghost use Rattle.std.specs.Prelude.{◌≡◌, ℕ, ◌^◌, ◌<◌, ◌≤◌, length, slice_get};
ghost use Rattle.perm_parse.specs.Tokens.{IsOver, spellings};

use indexmap::IndexSet;
use perm_tree::ast::{Block, Ident, Rhs, Ty};
use perm_tree::program::ProgramBuilder;
use perm_tree::tokens::Token;
use std::alloc::Global;

/// The tokens of a text, of which those before `at` are read, and the program so far. `names` finds the number of a name.
#[derive(Drop)]
pub struct Parser<'a> {
    pub text: &'a [u8],
    pub tokens: &'a [Token],
    pub at: usize,
    pub program: ProgramBuilder,
    pub names: IndexSet<&'a [u8]>,
    pub alloc: Global,
    ghost few: { length tokens.now < 2 ^ 32 },
    ghost within: { at ≤ length tokens.now },
    ghost over: { IsOver text.now tokens.now },
    ghost indexed: { spellings names.keys ≡ program.names },
}

/// The type and the name where a local variable is declared, with the first token of the type.
#[derive(Drop)]
pub struct LocalHead {
    pub ty: Ty,
    pub name: Ident,
    pub first: Token,
}

/// A right side, with the last token of the head of its assignment, and its semicolon.
#[derive(Drop)]
pub struct Value {
    pub rhs: Rhs,
    pub head: Token,
    pub end: Token,
}

/// A block, with its closing brace.
#[derive(Drop)]
pub struct Braced {
    pub block: Block,
    pub closing: Token,
}

/// The condition of an `if` or a `while`, with its closing parenthesis.
#[derive(Drop)]
pub struct Test {
    pub value: u32,
    pub closing: Token,
}
