//! Calls.

ghost use Rattle.std.specs.Prelude.{◌≡◌, ◌-◌, ◌+◌, ◌++◌, ◌∷◌, ℕ, length, replicate, IfOk, None, Some};
ghost use Rattle.perm_tree.specs.Code.{Tie};
ghost use Rattle.perm_tree.specs.CodeOf.{code_of};
ghost use Rattle.perm_tree.specs.InBody.{vars_at};
ghost use Rattle.perm_meaning.specs.Evaluator.BegunCalls.{begun, begun_on, IsCallOf};
ghost use Rattle.perm_meaning.specs.NamedHeap as heaps;
ghost use Rattle.perm_meaning.specs.Evaluator.NumberedValues.{all_by, given_by, value_by, Names};

use super::own::infos;
use super::parts::method;
use super::values::{Given, Value};
use perm_tree::errors::{NoMemory, TrapKind};
use perm_tree::list::List;
use perm_tree::unit::Unit;

/// How deep open calls and open pars of one path may nest.
pub const MOST_DEPTH: u64 = 100_000;

/// A call that begins: its method with the values of its variables, its depth, and where the result goes.
#[derive(Debug, Drop)]
pub struct Call {
    pub method: usize,
    pub vars: List<Option<Value>>,
    pub depth: u64,
    pub into: Option<usize>,
}

/// A call begins, or it traps, or nothing is meant of it.
#[derive(Debug, Drop)]
pub enum Callee {
    Begins(Call),
    Halts(TrapKind),
    Sticks,
}

/// Begins a call on an object, with these arguments, in a branch of this depth.
pub fn begin(
    unit: &Unit,
    number: usize,
    into: Option<usize>,
    this: Value,
    found: List<Option<Value>>,
    depth: u64,
) -> Result<Callee, NoMemory>
    ensures { IfOk result (λ c. (names : Names) (l : heaps.Own) (tie : Tie) (y : ℕ) → l.depth ≡ depth → IsCallOf names (code_of unit.now) l c (begun (code_of unit.now) tie y number into (Some (value_by names this)) (all_by names found) l)) }
{
    unit.resolved();
    let Some(called) = method(unit, number) else {
        return Ok(Callee::Sticks);
    };
    if found.len() != called.params.len() {
        return Ok(Callee::Sticks);
    }
    if depth >= MOST_DEPTH {
        return Ok(Callee::Halts(TrapKind::StackOverflow));
    }
    let vars = first_vars(this, found, infos(unit, number).len())?;
    Ok(Callee::Begins(Call {
        method: number,
        vars,
        depth: depth + 1,
        into,
    }))
}

/// The variables at the start of a method that has so many: `this`, the arguments, and the locals.
pub fn first_vars(
    this: Value,
    found: List<Option<Value>>,
    count: usize,
) -> Result<List<Option<Value>>, NoMemory>
    ensures { IfOk result (λ vs. vs ≡ Some this ∷ (found ++ replicate (count - (1 + length found)) None)) }
{
    let mut vars = found.into_vec();
    let missing = count.saturating_sub(1).saturating_sub(vars.len());
    vars.insert(0, Some(this))?;
    for _ in 0..missing {
        vars.push(None)?;
    }
    Ok(List::from_vec(vars))
}

/// Begins a call on what its receiver gives, with these arguments, in a branch of this depth.
pub fn begin_on(
    unit: &Unit,
    number: usize,
    into: Option<usize>,
    this: Given,
    found: List<Option<Value>>,
    depth: u64,
) -> Result<Callee, NoMemory>
    ensures { IfOk result (λ c. (names : Names) (l : heaps.Own) (tie : Tie) (y : ℕ) → l.depth ≡ depth → IsCallOf names (code_of unit.now) l c (begun_on (code_of unit.now) tie y number into (given_by names this) (all_by names found) l)) }
{
    match this {
        Given::Value(value) => begin_at(unit, number, into, value, found, depth),
        Given::Trap(kind) => Ok(Callee::Halts(kind)),
        Given::Nothing => Ok(Callee::Sticks),
    }
}

fn begin_at(
    unit: &Unit,
    number: usize,
    into: Option<usize>,
    this: Value,
    found: List<Option<Value>>,
    depth: u64,
) -> Result<Callee, NoMemory>
    ensures { IfOk result (λ c. (names : Names) (l : heaps.Own) (tie : Tie) (y : ℕ) → l.depth ≡ depth → IsCallOf names (code_of unit.now) l c (begun_on (code_of unit.now) tie y number into (given_by names (Given.Value this)) (all_by names found) l)) }
{
    match this {
        Value::Reference(_, _) => begin(unit, number, into, this, found, depth),
        Value::Null => Ok(Callee::Halts(TrapKind::NullReference)),
        _ => Ok(Callee::Sticks),
    }
}
