//! Values, and what operators make of them.

ghost use Rattle.std.specs.Prelude.{◌≡◌, pos, cond, int_div, int_rem};
ghost use Rattle.perm_meaning.specs.Expressions.{left_then_right, slot_binary, slot_unary, tagged, then_unary};
ghost use Rattle.perm_meaning.specs.Names.{Name};
ghost use Rattle.perm_meaning.specs.Evaluator.NumberedValues.{given_by, value_by, Names};
ghost use Rattle.perm_meaning.specs.Values as values;
ghost use Rattle.perm_meaning.specs.Values.{int_eq};
ghost use Rattle.perm_meaning.specs.Expressions.{filled};

use perm_tree::ast::{BinaryOp, UnaryOp};
use perm_tree::errors::TrapKind;

/// A number, a truth value, null, or a reference: the number of an object, and the length of an array, which is 0 for an object of a class.
#[derive(Clone, Copy, Debug)]
pub enum Value {
    Number(i64),
    Truth(bool),
    Null,
    Reference(usize, u32),
}

/// What an expression gives: a value, a trap, or nothing where an operand isn't of the kind that is needed.
#[derive(Clone, Copy, Debug)]
pub enum Given {
    Value(Value),
    Trap(TrapKind),
    Nothing,
}

/// A unary operator on what its operand gives.
pub fn unary(op: UnaryOp, a: &Given) -> Given
    ensures { (names : Names) → given_by names result ≡ then_unary tagged op (given_by names a.now) }
{
    match a {
        Given::Value(a) => apply(op, a),
        Given::Trap(kind) => Given::Trap(*kind),
        Given::Nothing => Given::Nothing,
    }
}

/// A unary operator on a value.
fn apply(op: UnaryOp, a: &Value) -> Given
    ensures { (names : Names) → given_by names result ≡ filled (values.unary op (value_by names a.now)) }
{
    match op {
        UnaryOp::Minus => match a {
            Value::Number(a) => number(0i64.wrapping_sub(*a)),
            _ => Given::Nothing,
        },
        UnaryOp::Not => match a {
            Value::Truth(a) => truth(!*a),
            _ => Given::Nothing,
        },
    }
}

/// A binary operator on what its operands give. The right one counts only where the left one doesn't decide.
pub fn binary(op: BinaryOp, a: &Given, b: &Given) -> Given
    ensures { (names : Names) → given_by names result ≡ left_then_right tagged op (given_by names a.now) (given_by names b.now) }
{
    match a {
        Given::Value(left) => match decided(op, left) {
            None => Given::Nothing,
            Some(true) => Given::Value(*left),
            Some(false) => match b {
                Given::Value(right) => operate(op, left, right),
                Given::Trap(kind) => Given::Trap(*kind),
                Given::Nothing => Given::Nothing,
            },
        },
        Given::Trap(kind) => Given::Trap(*kind),
        Given::Nothing => Given::Nothing,
    }
}

/// Whether the left value decides. Nothing where `&&` or `||` has no truth value on the left.
fn decided(op: BinaryOp, a: &Value) -> Option<bool>
    ensures { (names : Names) → result ≡ values.decided op (value_by names a.now) }
{
    match op {
        BinaryOp::And => match a {
            Value::Truth(a) => Some(!*a),
            _ => None,
        },
        BinaryOp::Or => match a {
            Value::Truth(a) => Some(*a),
            _ => None,
        },
        _ => Some(false),
    }
}

/// A binary operator on two values.
fn operate(op: BinaryOp, a: &Value, b: &Value) -> Given
    ensures { (names : Names) → given_by names result ≡ filled (values.binary op (value_by names a.now) (value_by names b.now)) }
{
    match a {
        Value::Number(a) => match b {
            Value::Number(b) => on_numbers(op, a, b),
            _ => Given::Nothing,
        },
        Value::Truth(a) => match b {
            Value::Truth(b) => on_truths(op, *a, *b),
            _ => Given::Nothing,
        },
        Value::Null => match b {
            Value::Null => on_null_test(op, true),
            Value::Reference(_, _) => on_null_test(op, false),
            _ => Given::Nothing,
        },
        Value::Reference(_, _) => match b {
            Value::Null => on_null_test(op, false),
            _ => Given::Nothing,
        },
    }
}

/// An operator on two numbers.
fn on_numbers(op: BinaryOp, a: &i64, b: &i64) -> Given
    ensures { (names : Names) → given_by names result ≡ filled (values.on_numbers op a.now b.now) }
{
    let (m, n) = (*a, *b);
    match op {
        BinaryOp::Mul => number(m.wrapping_mul(n)),
        BinaryOp::Div => quotient(m, n),
        BinaryOp::Rem => remainder(m, n),
        BinaryOp::Plus => number(m.wrapping_add(n)),
        BinaryOp::Minus => number(m.wrapping_sub(n)),
        BinaryOp::Less => truth(m < n),
        BinaryOp::AtMost => truth(m <= n),
        BinaryOp::Greater => truth(m > n),
        BinaryOp::AtLeast => truth(m >= n),
        BinaryOp::Equal => truth(m == n),
        BinaryOp::Differs => truth(m != n),
        BinaryOp::And | BinaryOp::Or => Given::Nothing,
    }
}

/// An operator on two truth values.
fn on_truths(op: BinaryOp, a: bool, b: bool) -> Given
    ensures { (names : Names) → given_by names result ≡ filled (values.on_truths op a b) }
{
    match op {
        BinaryOp::Equal => truth(a == b),
        BinaryOp::Differs => truth(a != b),
        BinaryOp::And | BinaryOp::Or => truth(b),
        _ => Given::Nothing,
    }
}

/// A test against null.
fn on_null_test(op: BinaryOp, is_null: bool) -> Given
    ensures { (names : Names) → given_by names result ≡ filled (values.on_null_test op is_null) }
{
    match op {
        BinaryOp::Equal => truth(is_null),
        BinaryOp::Differs => truth(!is_null),
        _ => Given::Nothing,
    }
}

fn number(n: i64) -> Given
    ensures { result ≡ Given.Value (Value.Number n) }
{
    Given::Value(Value::Number(n))
}

fn truth(b: bool) -> Given
    ensures { result ≡ Given.Value (Value.Truth b) }
{
    Given::Value(Value::Truth(b))
}

/// The quotient of a by b, or why there is none.
fn quotient(a: i64, b: i64) -> Given
    ensures { (names : Names) → given_by names result ≡ filled (values.divided a b (values.Number (int_div a b))) }
{
    match a.checked_div(b) {
        Some(number) => Given::Value(Value::Number(number)),
        None => no_quotient(b),
    }
}

/// The remainder of a by b, or why there is none.
fn remainder(a: i64, b: i64) -> Given
    ensures { (names : Names) → given_by names result ≡ filled (values.divided a b (values.Number (int_rem a b))) }
{
    match a.checked_rem(b) {
        Some(number) => Given::Value(Value::Number(number)),
        None => no_quotient(b),
    }
}

/// Why there is no quotient.
fn no_quotient(b: i64) -> Given
    ensures { result ≡ cond (int_eq b (pos 0)) (Given.Trap TrapKind.DivideByZero) (Given.Trap TrapKind.Overflow) }
{
    if b == 0 {
        return Given::Trap(TrapKind::DivideByZero);
    }
    Given::Trap(TrapKind::Overflow)
}
