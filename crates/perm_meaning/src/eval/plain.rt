//! The plain evaluator: what a unit means, run left then right on numbered objects.

ghost use Rattle.std.specs.Prelude.{◌≡◌, ◌-◌, ◌^◌, ◌≤◌, [], length, IfOk};
ghost use Rattle.perm_tree.specs.UnitTables.{Tables};
ghost use Rattle.perm_meaning.specs.Meaning.{Result};
ghost use Rattle.perm_meaning.specs.Outcome.{reported_result};
ghost use Rattle.perm_meaning.specs.Plain.{IsPlain, Tells, TellsFull};
ghost use Rattle.perm_meaning.specs.Evaluator.Runs.{HasEnded, Means};

use super::frames::Failure;
use super::parts::method;
use super::start::start;
use super::state::{Fate, State};
use super::values::Value;
use crate::{End, Outcome};
use perm_tree::errors::NoMemory;
use perm_tree::list::List;
use perm_tree::unit::Unit;
use std::alloc::Global;
use std::mem;

/// What a run comes to, without the words of its heap: `words` is empty and `root` 0. Or nothing is meant of it, as no accepted unit does.
#[derive(Debug, Drop)]
pub enum Plain {
    Ran(Outcome),
    Stuck,
}

/// Runs `Run` on an object of `Main` and the input, on a heap of so many words, as the language says. It is slow and plain.
pub fn eval_plain(
    alloc: Global,
    unit: &Unit,
    input: &[i64],
    turns: u64,
    heap: u64,
) -> Result<Plain, NoMemory>
    requires input { length input.now ≤ 524288 }
    requires turns { turns ≤ 2 ^ 40 }
    requires heap { heap ≤ 4194304 }
    ensures { IfOk result (IsPlain unit.now input.now turns heap) }
{
    unit.resolved();
    let Some(mut state) = start(alloc, unit, input, turns, heap)? else {
        return Ok(Plain::Ran(full(alloc)));
    };
    match method(unit, state.own.method) {
        Some(_run) => {
            let fate = state.run(alloc, unit)?;
            Ok(state.told(alloc, turns, fate))
        }
        None => Ok(Plain::Stuck),
    }
}

impl State {
    /// What is told of a run with so many turns that has ended.
    fn told(&mut self, alloc: Global, turns: u64, fate: Fate) -> Plain
        requires { HasEnded self.old fate }
        ensures { (u : Tables) (r : Result) → Means u self.old fate r → Tells result (reported_result turns r) }
    {
        match fate {
            Fate::Returns(value) => self.returned(alloc, turns, value),
            Fate::Fails(failure) => self.failed(alloc, turns, failure),
            Fate::Full => Plain::Ran(full(alloc)),
            Fate::Goes | Fate::Closes | Fate::Gives(_, _) | Fate::Sticks => Plain::Stuck,
        }
    }

    /// The same where `Run` gives back a value.
    fn returned(&mut self, alloc: Global, turns: u64, value: Value) -> Plain
        requires { HasEnded self.old (Fate.Returns value) }
        ensures { (u : Tables) (r : Result) → Means u self.old (Fate.Returns value) r → Tells result (reported_result turns r) }
    {
        match value {
            Value::Number(number) => Plain::Ran(self.report(alloc, turns, End::Done(number))),
            _ => Plain::Stuck,
        }
    }

    /// The same where it has failed.
    fn failed(&mut self, alloc: Global, turns: u64, failure: Failure) -> Plain
        requires { HasEnded self.old (Fate.Fails failure) }
        ensures { (u : Tables) (r : Result) → Means u self.old (Fate.Fails failure) r → Tells result (reported_result turns r) }
    {
        match failure {
            Failure::Trapped(kind, at) => {
                Plain::Ran(self.report(alloc, turns, End::Trap(kind, at)))
            }
            Failure::NoTurns => Plain::Ran(self.report(alloc, turns, End::OutOfTurns)),
        }
    }

    /// What is told of a run that has ended so. What it has printed is taken out.
    fn report(&mut self, alloc: Global, turns: u64, end: End) -> Outcome
        ensures { result ≡ record { end = end; printed = self.old.own.printed; spent = turns - self.old.turns; need = self.old.heap.given; words = []; root = 0 } }
    {
        Outcome {
            end,
            printed: mem::replace(&mut self.own.printed, List::new(alloc)),
            spent: turns.saturating_sub(self.turns),
            need: self.heap.given(),
            words: List::new(alloc),
            root: 0,
        }
    }
}

/// What is told of a run that has filled the heap.
fn full(alloc: Global) -> Outcome
    ensures { TellsFull result }
{
    Outcome {
        end: End::HeapFull,
        printed: List::new(alloc),
        spent: 0,
        need: 0,
        words: List::new(alloc),
        root: 0,
    }
}
