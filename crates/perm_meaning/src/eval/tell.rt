//! What is done by what the heap answers, and the values of arguments.

ghost use Rattle.std.specs.Prelude.{◌≡◌, [], List, map, IfOk};
ghost use Rattle.perm_tree.specs.CodeNames.{argument};
ghost use Rattle.perm_tree.specs.InBody.{setting_at};
ghost use Rattle.perm_meaning.specs.Evaluator.Asks.{told_by, Way};
ghost use Rattle.perm_meaning.specs.Effects.{on_arguments};
ghost use Rattle.perm_meaning.specs.Expressions.{tagged};
ghost use Rattle.perm_meaning.specs.NamedHeap.{Held};
ghost use Rattle.perm_meaning.specs.Names.{Mark};
ghost use Rattle.perm_meaning.specs.Evaluator.NumberedValues.{all_by, held_by, Names};
ghost use Rattle.perm_meaning.specs.Evaluator.SimpleStatements.{own_by};
ghost use Rattle.perm_meaning.specs.Evaluator.ToldAnswers.{act_by, mark_after, passed_by, IsLeft};

use super::asks::Told;
use super::own::Own;
use super::values::{Given, Value};
use perm_tree::ast::Arg;
use perm_tree::errors::{NoMemory, TrapKind};
use perm_tree::list::List;
use perm_tree::unit::Unit;
use std::alloc::Global;

/// The values of arguments, or why one of them has none.
#[derive(Debug, Drop)]
pub enum Passed {
    All(List<Option<Value>>),
    Halts(TrapKind),
    Sticks,
}

impl Own {
    /// Does what is told by what is found, or answers why the branch traps.
    pub fn tell(&mut self, told: Told, found: Option<Value>) -> Result<Option<TrapKind>, NoMemory>
        ensures left { IfOk result (λ k. IsLeft self.old self.new k) }
        ensures acts { IfOk result (λ k. (names : Names) (mark : Mark) → told_by names (own_by names mark self.old) told (held_by names found) ≡ act_by names (mark_after told mark) self.new k) }
    {
        match told {
            Told::Goes => {}
            Told::Into(x) => self.set(x, found),
            Told::Sets(x, value) => self.set(x, value),
            Told::Made(x) => self.set(x, found),
            Told::Prints(n) => self.printed.push(n)?,
            Told::Halts(kind) => return Ok(Some(kind)),
        }
        Ok(None)
    }

    /// The values of arguments from left to right. A variable that is consumed loses its value.
    pub fn arguments(
        &mut self,
        alloc: Global,
        unit: &Unit,
        args: &[Arg],
    ) -> Result<Passed, NoMemory>
        ensures passed { IfOk result (λ p. (names : Names) (go : List Held → List Held → Way) → on_arguments tagged (map (argument (setting_at unit.now self.old.«method»)) args.now) [] (all_by names self.old.vars) go ≡ passed_by names self.new.vars p go) }
        ensures same { self.new ≡ record self.old { vars = self.new.vars } }
    {
        let mut found = List::new(alloc);
        'args: for arg in args {
            match self.argument(alloc, unit, arg)? {
                Given::Value(value) => found.push(Some(value))?,
                Given::Trap(kind) => return Ok(Passed::Halts(kind)),
                Given::Nothing => return Ok(Passed::Sticks),
            }
        }
        Ok(Passed::All(found))
    }
}
