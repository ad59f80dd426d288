//! The bodies of a unit's methods as steps that lead on to each other. Every name in them is a number.

use crate::ast::{BinaryOp, Span, UnaryOp};
use crate::list::List;
use crate::var_set::VarSet;

/// What an operation works on: a constant, the variable with this number in its method, or the value of an earlier operation of the same expression, by its place there.
#[derive(Clone, Copy, Debug)]
pub enum Operand {
    Number(i64),
    Bool(bool),
    Null,
    Local(u32),
    Earlier(u32),
}

/// One operator with its operands.
#[derive(Clone, Copy, Debug)]
pub enum Operation {
    Unary(UnaryOp, Operand),
    Binary(BinaryOp, Operand, Operand),
}

/// An expression: one operand, one operation, or some operations of the unit's list, from a first one on, of which the last gives the value.
#[derive(Clone, Copy, Debug)]
pub enum Expression {
    Operand(Operand),
    Operation(Operation),
    Operations(u32, u32),
}

/// A value that is handed over: an expression's, or that of a variable which is consumed.
#[derive(Clone, Copy, Debug)]
pub enum Argument {
    Expression(Expression),
    Consume(u32),
}

/// A call: where its result goes, its receiver, the number of the method in the unit, and its arguments, as a stretch of the unit's list.
#[derive(Clone, Copy, Debug)]
pub struct Invocation {
    pub into: Option<u32>,
    pub consumed: bool,
    pub receiver: u32,
    pub routine: u32,
    pub first: u32,
    pub count: u32,
}

/// What a step does. Variables, fields, classes and methods are their numbers; the assigned variable comes first.
#[derive(Clone, Copy, Debug)]
pub enum Action {
    Declare(u32),
    Assign(u32, Argument),
    LoadField(u32, u32, u32),
    LoadLength(u32, u32),
    LoadItem(u32, u32, Expression),
    TakeField(u32, u32, u32),
    /// The class, and how many fields it has.
    NewObject(u32, u32, u32),
    NewArray(u32, Expression),
    StoreField(u32, u32, Argument),
    StoreItem(u32, Expression, Expression),
    Invoke(Invocation),
    Print(Expression),
    /// The next step is the first of the block, and this one the first behind `else`.
    If(Expression, u32),
    /// The first step of the body. The next step is what comes after the loop.
    While(Expression, u32),
    /// The first steps of both blocks, and the place of what they write. The next step is what comes after the join.
    Par(u32, u32, u32),
    Recover,
    /// The given variable, and the one that takes it.
    Give(u32, u32),
    Return(Argument),
    /// The end of a side of a par.
    End,
}

/// A step of a method, with the stretch of the text that a trap names and the place of the step that comes next. `Return` and `End` have none that comes next.
#[derive(Clone, Copy, Debug)]
pub struct Step {
    pub span: Span,
    pub next: u32,
    pub action: Action,
}

/// The variables that the two blocks of a par assign or consume.
#[derive(Clone, Copy, Debug)]
pub struct Sides {
    pub left: VarSet,
    pub right: VarSet,
}

/// Where a method begins, where its `return` stands, and how many variables it has.
#[derive(Clone, Copy, Debug)]
pub struct Entry {
    pub first: u32,
    pub last: u32,
    pub variables: u32,
}

/// The bodies of all methods of a unit, which are numbered in text order.
#[derive(Debug, Drop)]
pub struct Bodies {
    pub operations: List<Operation>,
    pub arguments: List<Argument>,
    pub sides: List<Sides>,
    pub steps: List<Step>,
    /// For each statement of the program the place of its step; for one with a recover block that of the `give`.
    pub places: List<u32>,
    pub entries: List<Entry>,
    /// The number of the method `Run` of the class `Main`.
    pub run: u32,
    /// How many fields the class `Main` has.
    pub fields: u32,
}
