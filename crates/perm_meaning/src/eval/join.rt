//! How the two sides of a par go together.

ghost use Rattle.std.specs.Prelude.{◌≡◌, ◌+◌, ◌++◌, ◌<◌, ◌^◌, ℤ, List, cond, IfOk};
ghost use Rattle.perm_meaning.specs.Custody.{from_either, merged, writes_l, writes_r};
ghost use Rattle.perm_meaning.specs.Evaluator.Frames.{final_by, turns_left};
ghost use Rattle.perm_meaning.specs.Evaluator.Joins.{end_of_par, IsJoined};
ghost use Rattle.perm_meaning.specs.Machine.{Fine};
ghost use Rattle.perm_meaning.specs.Evaluator.NumberedValues.{all_by, Names};
ghost use Rattle.perm_meaning.specs.Evaluator.Writes.{par_at, part_writes};

use super::frames::Final;
use super::own::Own;
use super::parts::Part;
use super::values::Value;
use super::writes::part_writes;
use perm_tree::errors::NoMemory;
use perm_tree::list::{List, Numbers};
use perm_tree::unit::Unit;
use std::alloc::Global;
use std::mem;

/// How the par at a place ends, by what its parent has and by how its sides end. What the parent has printed is taken out.
pub fn joined(
    alloc: Global,
    unit: &Unit,
    at: u32,
    parent: &mut Own,
    left: Final,
    right: Final,
) -> Result<Final, NoMemory>
    requires { turns_left left + turns_left right < 2 ^ 64 }
    ensures ends { IfOk result (IsJoined unit.now at parent.old left right) }
    ensures same { parent.new ≡ record parent.old { printed = parent.new.printed } }
{
    let printed = mem::replace(&mut parent.printed, List::new(alloc));
    match left {
        Final::Failed(failure, turns, own) => {
            let printed = appended(printed, own)?;
            Ok(Final::Failed(failure, turns + turns_left(&right), printed))
        }
        Final::Fine(left, turns, own) => {
            let printed = appended(printed, own)?;
            after_left(alloc, unit, at, parent, printed, left, turns, right)
        }
    }
}

/// The same where the left side went well, and the printed numbers have those of that side.
fn after_left(
    alloc: Global,
    unit: &Unit,
    at: u32,
    parent: &Own,
    printed: Numbers,
    left: List<Option<Value>>,
    turns: u64,
    right: Final,
) -> Result<Final, NoMemory>
    requires { turns + turns_left right < 2 ^ 64 }
    ensures { IfOk result (λ f. (names : Names) (out p : List ℤ) → printed ≡ out ++ p → final_by names f ≡ end_of_par (par_at unit.now parent.now.«method» at) (all_by names parent.now.vars) out (Fine (all_by names left) turns p) (final_by names right)) }
{
    match right {
        Final::Failed(failure, more, own) => {
            let printed = appended(printed, own)?;
            Ok(Final::Failed(failure, turns + more, printed))
        }
        Final::Fine(right, more, own) => {
            let vars = merged(alloc, unit, at, parent, left.as_slice(), right.as_slice())?;
            let all = appended(printed, own)?;
            Ok(Final::Fine(vars, turns + more, all))
        }
    }
}

/// The turns that a side leaves.
fn turns_left(side: &Final) -> u64
    ensures { result ≡ turns_left side.now }
{
    match side {
        Final::Fine(_, turns, _) => *turns,
        Final::Failed(_, turns, _) => *turns,
    }
}

/// The numbers, and behind them more.
fn appended(numbers: Numbers, more: Numbers) -> Result<Numbers, NoMemory>
    ensures { IfOk result (λ all. all ≡ numbers ++ more) }
{
    let mut all = numbers.into_vec();
    all.extend_from_slice(more.as_slice())?;
    Ok(List::from_vec(all))
}

/// The parent's variables, but from each side those that it writes.
fn merged(
    alloc: Global,
    unit: &Unit,
    at: u32,
    parent: &Own,
    left: &[Option<Value>],
    right: &[Option<Value>],
) -> Result<List<Option<Value>>, NoMemory>
    ensures { IfOk result (λ vs. (names : Names) → all_by names vs ≡ merged (writes_l (par_at unit.now parent.now.«method» at)) (writes_r (par_at unit.now parent.now.«method» at)) (all_by names parent.now.vars) (all_by names left.now) (all_by names right.now)) }
{
    let vars = from_either(
        alloc,
        unit,
        parent.method,
        Part::First(at),
        left,
        parent.vars.as_slice(),
    )?;
    from_either(
        alloc,
        unit,
        parent.method,
        Part::Second(at),
        right,
        vars.as_slice(),
    )
}

/// The variables that a part writes from the one list, and all others from the other.
fn from_either(
    alloc: Global,
    unit: &Unit,
    method: usize,
    part: Part,
    first: &[Option<Value>],
    other: &[Option<Value>],
) -> Result<List<Option<Value>>, NoMemory>
    ensures { IfOk result (λ vs. vs ≡ from_either (part_writes unit.now method part) first.now other.now) }
{
    let mut all = List::new(alloc);
    let count = first.len().min(other.len());
    'vars: for x in 0..count {
        let written = part_writes(unit, method, part, x);
        all.push(chosen(written, first[x], other[x]))?;
    }
    Ok(all)
}

/// The first of two values, where a test holds.
fn chosen(test: bool, first: Option<Value>, other: Option<Value>) -> Option<Value>
    ensures { result ≡ cond test first other }
{
    if test { first } else { other }
}
