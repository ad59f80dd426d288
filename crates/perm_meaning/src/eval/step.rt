//! One simple statement that is no call.

ghost use Rattle.std.specs.Prelude.{◌≡◌, ◌≤◌, IfOk};
ghost use Rattle.perm_tree.specs.Code.{Instruction};
ghost use Rattle.perm_tree.specs.CodeOf.{code_of};
ghost use Rattle.perm_tree.specs.InBody.{setting_at};
ghost use Rattle.perm_meaning.specs.declared.eval.own.Own as own;
ghost use Rattle.perm_meaning.specs.Evaluator.SimpleStatements.{simple_of, Asks};
ghost use Rattle.perm_meaning.specs.Evaluator.SimpleSteps.{IsStep, MayStep};

use super::answers::Answer;
use super::asks::Asked;
use super::heap::Heap;
use super::own::Own;
use perm_tree::ast::StmtKind;
use perm_tree::errors::{NoMemory, TrapKind};
use perm_tree::unit::Unit;
use std::alloc::Global;

/// What comes of a simple statement: its branch goes on, or traps; the heap is full; or nothing is meant of it.
#[derive(Clone, Copy, Debug)]
pub enum Step {
    Goes,
    Traps(TrapKind),
    Full,
    Sticks,
}

impl Own {
    /// Does a simple statement that is no call. Other statements are left to others.
    pub fn step(
        &mut self,
        heap: &mut Heap,
        alloc: Global,
        unit: &Unit,
        kind: &StmtKind,
    ) -> Result<Option<Step>, NoMemory>
        requires { heap.old.limit ≤ 4194304 }
        ensures steps { IfOk result (λ r. MayStep (code_of unit.now) (simple_of (setting_at unit.now self.old.«method») kind.now) self.old heap.old self.new heap.new r) }
        ensures limit { IfOk result (λ r. heap.new.limit ≡ heap.old.limit) }
        ensures place { IfOk result (λ r. (self.new.«method» ≡ self.old.«method») × (self.new.depth ≡ self.old.depth)) }
    {
        match self.simple(alloc, unit, kind)? {
            Some(asked) => Ok(Some(self.perform(heap, alloc, unit, asked)?)),
            None => Ok(None),
        }
    }

    /// Asks the heap, and does what is told.
    fn perform(
        &mut self,
        heap: &mut Heap,
        alloc: Global,
        unit: &Unit,
        asked: Asked,
    ) -> Result<Step, NoMemory>
        requires { heap.old.limit ≤ 4194304 }
        ensures steps { IfOk result (λ r. (i : Instruction) (old : own.Own) → self.old ≡ record old { vars = self.old.vars } → Asks (code_of unit.now) i old self.old asked → IsStep (code_of unit.now) i old heap.old self.new heap.new r) }
        ensures limit { IfOk result (λ r. heap.new.limit ≡ heap.old.limit) }
        ensures place { IfOk result (λ r. (self.new.«method» ≡ self.old.«method») × (self.new.depth ≡ self.old.depth)) }
    {
        match asked {
            Asked::Does(ask, told) => match heap.answer(alloc, unit, ask)? {
                Answer::Found(found) => Ok(match self.tell(told, found)? {
                    None => Step::Goes,
                    Some(kind) => Step::Traps(kind),
                }),
                Answer::Refused => Ok(Step::Full),
                Answer::Missing => Ok(Step::Sticks),
            },
            Asked::Sticks => Ok(Step::Sticks),
        }
    }
}
