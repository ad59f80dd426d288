//! What expressions give.

ghost use Rattle.std.specs.Prelude.{◌≡◌, ◌-◌, ◌≤◌, ℕ, List, get_or, Option, IfOk};
ghost use Rattle.perm_tree.specs.Code.{Term, NullLit};
ghost use Rattle.perm_tree.specs.CodeNames.{term_of, terms_of};
ghost use Rattle.perm_meaning.specs.Expressions.{eval, look_up, tagged};
ghost use Rattle.perm_meaning.specs.Evaluator.Operands.{OperandsAre};
ghost use Rattle.perm_meaning.specs.Evaluator.NumberedValues.{all_by, given_by, Names};

use super::names;
use super::values::{Given, Value, binary, unary};
use perm_tree::ast::Expr;
use perm_tree::errors::NoMemory;
use perm_tree::program::Program;
use perm_tree::unit::VarInfo;
use std::alloc::Global;

/// What the expression at a place gives in a method with these variables, which hold these values. Its operands come first, each once.
pub fn evaluate(
    alloc: Global,
    program: &Program,
    infos: &[VarInfo],
    e: u32,
    vars: &[Option<Value>],
) -> Result<Given, NoMemory>
    ensures { IfOk result (λ g. (names : Names) → given_by names g ≡ eval tagged (get_or (terms_of infos.now program.now.exprs) e NullLit) (all_by names vars.now)) }
{
    let exprs = program.exprs();
    let Some(last) = exprs.get(e as usize) else {
        return Ok(Given::Value(Value::Null));
    };
    let low = program.low(e) as usize;
    let mut values = Vec::new(alloc);
    'operands: for at in low..e as usize {
        let value = given(infos, &exprs[at], vars, values.as_slice(), low);
        values.push(value)?;
    }
    Ok(given(infos, last, vars, values.as_slice(), low))
}

/// What an expression gives, by what the expressions from the low on give that stand before it.
fn given(
    infos: &[VarInfo],
    expr: &Expr,
    vars: &[Option<Value>],
    values: &[Given],
    low: usize,
) -> Given
    ensures { (names : Names) → (terms : List Term) → OperandsAre (all_by names vars.now) names terms low values.now expr.now → given_by names result ≡ eval tagged (term_of infos.now terms expr.now) (all_by names vars.now) }
{
    match expr {
        Expr::Number(n) => Given::Value(Value::Number(*n)),
        Expr::Bool(b) => Given::Value(Value::Truth(*b)),
        Expr::Null => Given::Value(Value::Null),
        Expr::Var(x) => held(vars, names::variable(infos, *x)),
        Expr::Unary(op, a) => unary(*op, &earlier(values, low, *a)),
        Expr::Binary(op, a, b) => binary(*op, &earlier(values, low, *a), &earlier(values, low, *b)),
    }
}

/// What a variable gives.
pub fn held(vars: &[Option<Value>], x: usize) -> Given
    ensures { (names : Names) → given_by names result ≡ look_up tagged (all_by names vars.now) x }
{
    match vars.get(x) {
        Some(Some(value)) => Given::Value(*value),
        Some(None) => Given::Nothing,
        None => Given::Nothing,
    }
}

/// What an earlier expression gives.
fn earlier(values: &[Given], low: usize, a: u32) -> Given
    ensures { low ≤ a → result ≡ get_or values.now (a - low) Given.Nothing }
{
    match (a as usize).checked_sub(low) {
        Some(place) => values.get(place).copied().unwrap_or(Given::Nothing),
        None => Given::Nothing,
    }
}
