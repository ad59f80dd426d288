//! What a program means: what a run comes to.
#![tactic(auto)]

mod eval;
pub mod laws;

pub use eval::plain::{Plain, eval_plain};
use perm_tree::ast::Span;
use perm_tree::errors::TrapKind;
use perm_tree::list::{Numbers, Words};

/// How a run ends. `Done` has the result of `Run`, and a trap the span of the part that it is in.
#[derive(Clone, Copy, Debug, PartialEq, Eq)]
pub enum End {
    Done(i64),
    Trap(TrapKind, Span),
    OutOfTurns,
    HeapFull,
}

/// What a run comes to. `need` is the number of words of all objects made, and `root` the reference to the object of `Main` in `words`. After `HeapFull` both lists are empty and the numbers are 0.
#[derive(Debug, Drop)]
pub struct Outcome {
    pub end: End,
    pub printed: Numbers,
    pub spent: u64,
    pub need: u64,
    pub words: Words,
    pub root: u64,
}
