//! How a run begins.

ghost use Rattle.std.specs.Prelude.{◌≡◌, ◌≤◌, length, IfOk};
ghost use Rattle.perm_tree.specs.Lookup.{main_place, run_place};
ghost use Rattle.perm_meaning.specs.Evaluator.Opening.{opening_control, opening_part, MayBegin, MayHaveBoth};

use super::answers::values_of;
use super::calls::first_vars;
use super::control::Control;
use super::frames::{Frames, Spot};
use super::heap::{Heap, numbers};
use super::own::{Own, infos};
use super::parts::Part;
use super::state::State;
use super::values::Value;
use perm_tree::errors::NoMemory;
use perm_tree::list::{List, is_word};
use perm_tree::program::Program;
use perm_tree::unit::Unit;
use std::alloc::Global;

/// The state with which a run begins, or nothing where the heap has no room for the input array and the object of `Main`.
pub fn start(
    alloc: Global,
    unit: &Unit,
    input: &[i64],
    turns: u64,
    limit: u64,
) -> Result<Option<State>, NoMemory>
    requires { length input.now ≤ 524288 }
    ensures { IfOk result (MayBegin unit.now input.now turns limit) }
{
    match first_heap(alloc, unit, input, limit)? {
        Some(heap) => Ok(Some(State {
            own: first_own(alloc, unit, input.len() as u32)?,
            turns,
            heap,
            control: first_control(alloc),
        })),
        None => Ok(None),
    }
}

/// The heap with both objects, if it has room for them.
fn first_heap(
    alloc: Global,
    unit: &Unit,
    input: &[i64],
    limit: u64,
) -> Result<Option<Heap>, NoMemory>
    ensures { IfOk result (MayHaveBoth unit.now input.now limit) }
{
    let array = numbers(alloc, input)?;
    let main = values_of(alloc, unit, main_place(unit.program()))?;
    let mut heap = Heap::new(alloc, limit);
    if !heap.has_room(array.len()) {
        return Ok(None);
    }
    heap.add(array)?;
    if !heap.has_room(main.len()) {
        return Ok(None);
    }
    heap.add(main)?;
    Ok(Some(heap))
}

/// The place of the class `Main`.
fn main_place(program: &Program) -> usize
    ensures { result ≡ main_place program.now }
{
    let names = program.names();
    let classes = program.classes();
    classes
        .iter()
        .position(|class| is_word(names, b"Main", class.name.name))
        .unwrap_or(classes.len())
}

/// The number of the method `Run` of the class `Main`.
fn run_place(unit: &Unit) -> usize
    ensures { result ≡ run_place unit.now }
{
    unit.bodies().run as usize
}

/// What the first branch has, on an input of so many numbers.
fn first_own(alloc: Global, unit: &Unit, input: u32) -> Result<Own, NoMemory>
    ensures { IfOk result (λ o. o ≡ opening_part unit.now input) }
{
    let run = run_place(unit);
    let mut found = List::new(alloc);
    found.push(Some(Value::Reference(0, input)))?;
    let vars = first_vars(Value::Reference(1, 0), found, infos(unit, run).len())?;
    Ok(Own {
        vars,
        method: run,
        depth: 1,
        printed: List::new(alloc),
    })
}

/// The body of `Run` begins, and nothing waits.
fn first_control(alloc: Global) -> Control
    ensures { result ≡ opening_control }
{
    Control {
        spot: Spot {
            part: Part::Body,
            at: 0,
        },
        frames: Frames::new(alloc),
    }
}
