//! Values of expressions, without recursion: an operation stands behind those that it works on.

ghost use Rattle.std.specs.Prelude.{◌≡◌, ◌<◌, ◌≤◌, ℤ, List, drop, get_or, length, slice_index, FitsSigned, IfOk, IfErr, SomeIff};
ghost use Rattle.std.specs.Int.{CanDivide};
ghost use mir.Syntax.{w64};
ghost use Rattle.perm_tree.specs.BodyTerms.{expression_term, operand_term, operation_term, operation_terms, AreOrdered, IsExpressionIn, IsOperandBelow, IsOperationBelow};
ghost use Rattle.perm_tree.specs.Code.{Term, NullLit};
ghost use Rattle.perm_meaning.specs.Expressions.{eval, look_up, then_unary};
ghost use Rattle.perm_meaning.specs.Values as values;
ghost use Rattle.perm_meaning.specs.Values.{Gives};
ghost use Rattle.perm_meaning.specs.Words.{number_word, truth_word, value_word, words};
ghost use Rattle.perm_step.specs.Evaluation.{as_eval, last_term, AreValues, HasRoomFor, IsAnswer, IsLast};

use perm_tree::ast::{BinaryOp, UnaryOp};
use perm_tree::bodies::{Expression, Operand, Operation};
use perm_tree::errors::TrapKind;

/// What an expression comes to. A `bool` is 0 or 1, and null is 0.
#[derive(Clone, Copy, Debug, PartialEq, Eq)]
pub enum Value {
    Word(u64),
    Trap(TrapKind),
}

impl Value {
    #[inline(always)]
    pub fn word(self) -> Result<u64, TrapKind>
        ensures word { IfOk result (λ w. self ≡ Value.Word w) }
        ensures trap { IfErr result (λ k. self ≡ Value.Trap k) }
    {
        match self {
            Value::Word(word) => Ok(word),
            Value::Trap(kind) => Err(kind),
        }
    }
}

/// The value of an expression in a method whose variables begin at a base. Those of its operations are kept from the first place on.
#[inline(always)]
pub fn evaluate(
    operations: &[Operation],
    expression: &Expression,
    vars: &[u64],
    base: u32,
    values: &mut [Value],
) -> Value
    requires there { IsExpressionIn operations.now expression.now }
    requires room { HasRoomFor (length values.old) expression.now }
    ensures { IsAnswer (eval words (expression_term operations.now expression.now) (drop base vars.now)) result }
{
    match expression {
        Expression::Operand(a) => operand(a, vars, base, values, 0, Value::Word(0)),
        Expression::Operation(o) => operation(o, vars, base, values, 0, Value::Word(0)),
        Expression::Operations(first, count) => {
            let run = &operations[*first as usize..*first as usize + *count as usize];
            last_of(run, vars, base, values)
        }
    }
}

/// The value of the last of some operations, each of which may work on the values of those before it.
#[inline(always)]
fn last_of(run: &[Operation], vars: &[u64], base: u32, values: &mut [Value]) -> Value
    requires some { 1 ≤ length run.now }
    requires ordered { AreOrdered run.now }
    requires room { length run.now ≤ length values.old }
    ensures { IsAnswer (eval words (last_term run.now) (drop base vars.now)) result }
{
    let mut last = Value::Word(0);
    for at in 0..run.len() {
        last = operation(&run[at], vars, base, values, at, last);
        values[at] = last;
    }
    last
}

/// The value of an operation, by so many values of the operations before it, of which this is the last. The right operand counts only where the left neither traps nor decides.
#[inline(always)]
fn operation(
    operation: &Operation,
    vars: &[u64],
    base: u32,
    values: &[Value],
    count: usize,
    last: Value,
) -> Value
    requires { IsOperationBelow (length values.now) operation.now }
    ensures { (terms : List Term) → IsOperationBelow count operation.now → AreValues (drop base vars.now) terms count values.now → IsLast count last values.now → IsAnswer (eval words (operation_term terms operation.now) (drop base vars.now)) result }
{
    match operation {
        Operation::Unary(op, a) => unary(*op, operand(a, vars, base, values, count, last)),
        Operation::Binary(op, a, b) => {
            let left = match operand(a, vars, base, values, count, last) {
                Value::Word(left) => left,
                Value::Trap(kind) => return Value::Trap(kind),
            };
            if decides(*op, left) {
                return Value::Word(left);
            }
            match operand(b, vars, base, values, count, last) {
                Value::Word(right) => operate(*op, left, right),
                Value::Trap(kind) => Value::Trap(kind),
            }
        }
    }
}

#[inline(always)]
fn operand(
    operand: &Operand,
    vars: &[u64],
    base: u32,
    values: &[Value],
    count: usize,
    last: Value,
) -> Value
    requires { IsOperandBelow (length values.now) operand.now }
    ensures { (terms : List Term) → IsOperandBelow count operand.now → AreValues (drop base vars.now) terms count values.now → IsLast count last values.now → IsAnswer (eval words (operand_term terms operand.now) (drop base vars.now)) result }
{
    match operand {
        Operand::Number(n) => constant(n),
        Operand::Bool(b) => truth(*b),
        Operand::Null => Value::Word(0),
        Operand::Local(x) => local(vars, base, *x),
        Operand::Earlier(i) => earlier(*i as usize, values, count, last),
    }
}

/// The value of an earlier operation. Mostly it is the last one, which is at hand.
#[inline(always)]
fn earlier(i: usize, values: &[Value], count: usize, last: Value) -> Value
    requires { i < length values.now }
    ensures { IsLast count last values.now → result ≡ get_or values.now i (Value.Word 0) }
{
    if i + 1 == count { last } else { values[i] }
}

#[inline(always)]
fn constant(n: &i64) -> Value
    ensures { as_eval result ≡ Gives (number_word n.now) }
{
    number(*n)
}

/// The value of a variable.
#[inline(always)]
fn local(vars: &[u64], base: u32, x: u32) -> Value
    ensures { IsAnswer (look_up words (drop base vars.now) x) result }
{
    Value::Word(word_of(vars, base as usize + x as usize))
}

#[inline(always)]
fn number(n: i64) -> Value
    ensures { as_eval result ≡ Gives (number_word n) }
{
    Value::Word(n.cast_unsigned())
}

#[inline(always)]
fn truth(b: bool) -> Value
    ensures { as_eval result ≡ Gives (truth_word b) }
{
    Value::Word(u64::from(b))
}

/// The word at a place, or 0 where there is none.
#[inline(always)]
pub fn word_of(words: &[u64], at: usize) -> u64
    ensures { result ≡ slice_index words.now at }
{
    words.get(at).copied().unwrap_or(0)
}

#[inline(always)]
fn unary(op: UnaryOp, value: Value) -> Value
    ensures { as_eval result ≡ then_unary words op (as_eval value) }
{
    match value {
        Value::Word(a) => apply(op, a),
        Value::Trap(kind) => Value::Trap(kind),
    }
}

/// A unary operator on a word.
#[inline(always)]
fn apply(op: UnaryOp, a: u64) -> Value
    ensures { as_eval result ≡ words.unary op a }
{
    match op {
        UnaryOp::Minus => number(0i64.wrapping_sub(a.cast_signed())),
        UnaryOp::Not => truth(a == 0),
    }
}

/// The left word decides.
#[inline(always)]
fn decides(op: BinaryOp, a: u64) -> bool
    ensures { words.decided op a ≡ Some result }
{
    match op {
        BinaryOp::And => a == 0,
        BinaryOp::Or => a != 0,
        _ => false,
    }
}

/// An operator on two words.
#[inline(always)]
fn operate(op: BinaryOp, a: u64, b: u64) -> Value
    ensures { as_eval result ≡ words.binary op a b }
{
    let (m, n) = (a.cast_signed(), b.cast_signed());
    match op {
        BinaryOp::Mul => number(m.wrapping_mul(n)),
        BinaryOp::Div => divided(n, m.checked_div(n)),
        BinaryOp::Rem => divided(n, m.checked_rem(n)),
        BinaryOp::Plus => number(m.wrapping_add(n)),
        BinaryOp::Minus => number(m.wrapping_sub(n)),
        BinaryOp::Less => truth(m < n),
        BinaryOp::AtMost => truth(m <= n),
        BinaryOp::Greater => truth(m > n),
        BinaryOp::AtLeast => truth(m >= n),
        BinaryOp::Equal => truth(a == b),
        BinaryOp::Differs => truth(a != b),
        BinaryOp::And | BinaryOp::Or => Value::Word(b),
    }
}

/// A quotient or a remainder by b, or why there is none.
fn divided(b: i64, found: Option<i64>) -> Value
    ensures { (a q : ℤ) → FitsSigned w64 a → SomeIff found (CanDivide w64 a b) q → as_eval result ≡ value_word (values.divided a b (values.Number q)) }
{
    match found {
        Some(number) => Value::Word(number.cast_unsigned()),
        None if b == 0 => Value::Trap(TrapKind::DivideByZero),
        None => Value::Trap(TrapKind::Overflow),
    }
}
