//! What a branch has while it runs.

ghost use Rattle.std.specs.Prelude.{◌≡◌, ℕ, ◌+◌, ◌<◌, ◌≤◌, drop, length, slice_get, slice_set, IfOk, IfErr, IsTrue, OnOk, Some};
ghost use Rattle.perm_tree.specs.BodyTerms.{IsArgumentIn, IsExpressionIn};
ghost use Rattle.perm_meaning.specs.Words.{reference_word};
ghost use Rattle.perm_step.specs.Evaluation.{HasRoomFor};
ghost use Rattle.perm_step.specs.Given.{ArgumentGives, ArgumentTraps, ExpressionGives, ExpressionTraps, VariableGives};
ghost use Rattle.perm_step.specs.Opens.{IsEntered};
ghost use Rattle.perm_step.specs.Rooms.{HasRoomForArgument};
ghost use Rattle.perm_step.specs.StepMoves.{with_variable};
ghost use Rattle.perm_step.specs.Working.{locals};

use crate::values::{Value, evaluate, word_of};
use perm_tree::ast::Span;
use perm_tree::bodies::{Argument, Bodies, Expression, Operation, Step};
use perm_tree::errors::{NoMemory, TrapKind};
use std::alloc::Global;
use std::marker::Model;

/// An open call: the place of its statement, and where its caller's variables begin.
#[derive(Clone, Copy, Debug)]
pub struct Called {
    pub place: u32,
    pub base: u32,
}

/// Why a branch has failed: a trap with the span of its step, a step that was due with no turn left, or an allocation that was refused.
#[derive(Clone, Copy, Debug, PartialEq, Eq)]
pub enum Failure {
    Trap(TrapKind, Span),
    NoTurns,
    NoRoom,
}

/// How a branch has ended, where its next step doesn't show it: `Run` has returned a word, or the branch has failed.
#[derive(Clone, Copy, Debug, PartialEq, Eq)]
pub enum Ending {
    Returned(u64),
    Failed(Failure),
}

/// Why a step leads to no other: it traps, or it returns a word and no call is open.
#[derive(Clone, Copy, Debug, PartialEq, Eq)]
pub enum Stop {
    Trap(TrapKind),
    Returned(u64),
}

impl From<TrapKind> for Stop {
    ghost use Rattle.std.specs.Prelude.{◌≡◌};
    ghost use Rattle.perm_step.specs.declared.control.Stop.TheVariants.{Trap};

    ghost from_gives = { λ k e. e ≡ Trap k };

    fn from(kind: TrapKind) -> Stop {
        Stop::Trap(kind)
    }
}

/// The low 32 bits of a reference hold the base of its object and 1, the high 32 bits the length of an array.
pub const BASES: u64 = 0x1_0000_0000;

/// The place of a branch, its open calls, its variables and what it has printed. The values are those of the last expression, and mean nothing between turns.
#[derive(Debug, Drop)]
pub struct Control {
    pub(crate) at: u32,
    pub(crate) base: u32,
    pub(crate) calls: Vec<Called>,
    pub(crate) vars: Vec<u64>,
    pub(crate) printed: Vec<i64>,
    pub(crate) depth: u64,
    pub(crate) turns: u64,
    pub(crate) values: Vec<Value>,
}

impl Model for Control {
    ghost use Rattle.std.specs.Prelude.{length, vec_capacity};
    ghost use Rattle.perm_step.specs.Working.{Working};

    ghost Value = { Working };

    ghost view = { λ c. record { at = c.at; base = c.base; calls = c.calls.items; vars = c.vars.items; printed = c.printed.items; depth = c.depth; turns = c.turns; room = record { calls = vec_capacity c.calls; vars = vec_capacity c.vars; printed = vec_capacity c.printed; values = length c.values.items } } };
}

/// A branch that runs or has ended.
#[derive(Debug, Drop)]
pub struct Leaf {
    pub(crate) control: Control,
    pub(crate) ending: Option<Ending>,
}

impl Control {
    /// Enters `Run` on the object of `Main` and the input, by their words.
    pub fn enter(
        alloc: Global,
        bodies: &Bodies,
        root: u64,
        input: u64,
        turns: u64,
    ) -> Result<Control, NoMemory>
        requires there { bodies.now.run < length bodies.now.entries }
        ensures { IfOk result (IsEntered bodies.now root input turns) }
    {
        let entry = bodies.entries.as_slice()[bodies.run as usize];
        let mut vars = vec![in alloc; 0; entry.variables as usize]?;
        set_word(&mut vars, 0, root);
        set_word(&mut vars, 1, input);
        Ok(Control {
            at: entry.first,
            base: 0,
            calls: Vec::new(alloc),
            vars,
            printed: Vec::new(alloc),
            depth: 1,
            turns,
            values: Vec::new(alloc),
        })
    }

    /// The step that comes next.
    #[inline(always)]
    pub fn step<'a>(&self, bodies: &'a Bodies) -> &'a Step
        requires { self.now.at < length bodies.now.steps }
        ensures { slice_get bodies.now.steps self.now.at ≡ Some result.now }
    {
        &bodies.steps.as_slice()[self.at as usize]
    }

    /// The printed numbers, and the turns that are left.
    pub fn into_printed(self) -> (Vec<i64>, u64)
        ensures { (result.0.items ≡ self.printed) × (result.1 ≡ self.turns) }
    {
        let Control {
            at: _,
            base: _,
            calls: _,
            vars: _,
            printed,
            depth: _,
            turns,
            values: _,
        } = self;
        (printed, turns)
    }

    /// The word of an argument.
    #[inline(always)]
    pub fn argument(&mut self, operations: &[Operation], a: &Argument) -> Result<u64, TrapKind>
        requires there { IsArgumentIn operations.now a.now }
        requires room { HasRoomForArgument self.old.room.values a.now }
        ensures given { IfOk result (ArgumentGives operations.now (locals self.old) a.now) }
        ensures halted { IfErr result (ArgumentTraps operations.now (locals self.old) a.now) }
        ensures same { self.new ≡ self.old }
    {
        match a {
            Argument::Expression(e) => self.value(operations, e),
            Argument::Consume(y) => Ok(self.variable(*y)),
        }
    }

    /// The word of an expression.
    #[inline(always)]
    pub fn value(&mut self, operations: &[Operation], e: &Expression) -> Result<u64, TrapKind>
        requires there { IsExpressionIn operations.now e.now }
        requires room { HasRoomFor self.old.room.values e.now }
        ensures given { IfOk result (ExpressionGives operations.now (locals self.old) e.now) }
        ensures halted { IfErr result (ExpressionTraps operations.now (locals self.old) e.now) }
        ensures same { self.new ≡ self.old }
    {
        let vars = self.vars.as_slice();
        evaluate(operations, e, vars, self.base, self.values.as_mut_slice()).word()
    }

    /// The word of a variable.
    #[inline(always)]
    pub fn variable(&self, y: u32) -> u64
        ensures { VariableGives (locals self.now) y result }
    {
        word_of(self.vars.as_slice(), self.base as usize + y as usize)
    }

    /// Sets a variable, where there is one.
    #[inline(always)]
    pub fn set(&mut self, x: u32, word: u64)
        ensures { self.new ≡ with_variable self.old x word }
    {
        let at = self.base as usize + x as usize;
        set_word(&mut self.vars, at, word);
    }
}

/// The reference to the object at a base, with the length that it holds.
#[inline(always)]
pub fn reference_to(base: u64, length: usize) -> u64
    requires base { base ≤ 4194304 }
    requires length { length ≤ 4194304 }
    ensures { result ≡ reference_word base length }
{
    base + 1 + length as u64 * BASES
}

/// Sets the word at a place, where there is one.
#[inline(always)]
pub fn set_word(words: &mut [u64], at: usize, word: u64)
    ensures { words.new ≡ slice_set words.old at word }
{
    if at < words.len() {
        words[at] = word;
    }
}
