//! What waits for the end of a block, a method or a side.

ghost use Rattle.std.specs.Prelude.{◌≡◌, [], ◌∷◌, reverse, IfOk, None, Some};
ghost use Rattle.perm_meaning.specs.Evaluator.Popped.{IsPopped};

use super::own::Own;
use super::parts::Part;
use super::values::Value;
use perm_tree::ast::Span;
use perm_tree::errors::{NoMemory, TrapKind};
use perm_tree::list::{List, Numbers};
use std::alloc::Global;
use std::marker::Model;

/// A place in a method: one of its blocks, and which statement of it comes next.
#[derive(Clone, Copy, Debug)]
pub struct Spot {
    pub part: Part,
    pub at: usize,
}

/// Why a branch has failed. What finds no room on the heap ends the whole run.
#[derive(Clone, Copy, Debug)]
pub enum Failure {
    Trapped(TrapKind, Span),
    NoTurns,
}

/// How a side has ended: it went well or it failed, with the turns left and the printed numbers.
#[derive(Debug, Drop)]
pub enum Final {
    Fine(List<Option<Value>>, u64, Numbers),
    Failed(Failure, u64, Numbers),
}

/// What waits for a call: the variables and the method of the caller, which variable takes the result, and where the caller goes on.
#[derive(Debug, Drop)]
pub struct Caller {
    pub vars: List<Option<Value>>,
    pub method: usize,
    pub into: Option<usize>,
    pub rest: Spot,
}

/// What waits for the sides of a par: what the branch has, the turns left where the sides begin, the statement, and where the branch goes on.
#[derive(Debug, Drop)]
pub struct Parent {
    pub own: Own,
    pub turns: u64,
    pub stmt: u32,
    pub rest: Spot,
}

/// What waits: the code behind a block, behind a recover block, behind a call, and behind a par whose left side runs, or whose right side runs after the left one has ended so.
#[derive(Debug, Drop)]
pub enum Frame {
    Block(Part, Spot),
    Recover(Part, Spot),
    Call(Caller),
    Left(Parent),
    Right(Parent, Final),
}

/// All that waits, the innermost first.
#[derive(Debug, Drop)]
pub struct Frames {
    items: Vec<Frame>,
}

impl Model for Frames {
    ghost use Rattle.std.specs.Prelude.{List, reverse};
    ghost use Rattle.perm_meaning.specs.declared.eval.frames.Frame as frames;

    ghost Value = { List frames.Frame };

    ghost view = { λ f. reverse f.items.items };
}

impl Frames {
    /// Nothing waits.
    pub fn new(alloc: Global) -> Frames
        ensures { result ≡ [] }
    {
        Frames {
            items: Vec::new(alloc),
        }
    }

    /// Something more waits.
    pub fn push(&mut self, frame: Frame) -> Result<(), NoMemory>
        ensures { IfOk result (λ r. self.new ≡ frame ∷ self.old) }
    {
        self.items.push(frame)?;
        Ok(())
    }

    /// What waited innermost waits no more.
    pub fn pop(&mut self) -> Option<Frame>
        ensures { IsPopped result self.old self.new }
    {
        self.items.pop()
    }
}
