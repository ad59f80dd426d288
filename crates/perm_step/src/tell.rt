//! What a step makes of a branch, given the word that the heap answers.

ghost use Rattle.std.specs.Prelude.{◌≡◌, ℕ, suc, ◌++◌, ◌∷◌, [], length, slice_get, IfOk, IfErr, Some};
ghost use Rattle.perm_tree.specs.Code.{UnitCode};
ghost use Rattle.perm_tree.specs.BodyTerms.{IsActionIn, IsArgumentIn, IsExpressionIn};
ghost use Rattle.perm_meaning.specs.Words.{number_in, reference_in};
ghost use Rattle.perm_step.specs.Evaluation.{HasRoomFor};
ghost use Rattle.perm_step.specs.Given.{ArgumentGives, ArgumentTraps, ExpressionGives, ExpressionTraps, IsLengthBy, IsNullBy, VariableGives};
ghost use Rattle.perm_step.specs.HeapAsks.{IsNull};
ghost use Rattle.perm_step.specs.Rooms.{HasRoomForArgument, HasRoomForStep};
ghost use Rattle.perm_step.specs.Standing.{AreOpenCalls};
ghost use Rattle.perm_step.specs.StepMoves.{way as way_of, with_variable, IsCallable, Leads, Moves, Stops};
ghost use Rattle.perm_step.specs.Working.{locals};

use crate::control::{BASES, Control, Stop};
use perm_tree::bodies::{Action, Argument, Bodies, Expression, Operation, Step};
use perm_tree::errors::TrapKind;

impl Control {
    /// Does the step, whose turn is spent already. A step that doesn't lead on leaves the branch as it was.
    #[inline(always)]
    pub fn tell(&mut self, bodies: &Bodies, step: &Step, word: u64) -> Result<(), Stop>
        requires there { (u : UnitCode) × IsActionIn bodies.now u step.now.action }
        requires room { HasRoomForStep bodies.now step.now.action self.old }
        requires leads { Leads step.now.action }
        requires callable { IsCallable bodies.now step.now.action self.old }
        requires calls { AreOpenCalls bodies.now self.old.calls }
        ensures moves { IfOk result (λ _. Moves bodies.now step.now.next self.old step.now.action word self.new) }
        ensures stops { IfErr result (λ e. Stops bodies.now step.now.next self.old step.now.action e × (self.new ≡ self.old)) }
    {
        let operations = bodies.operations.as_slice();
        match &step.action {
            Action::Assign(x, a) => {
                let value = self.argument(operations, a)?;
                self.set(*x, value);
            }
            Action::LoadField(x, _, _)
            | Action::LoadItem(x, _, _)
            | Action::TakeField(x, _, _)
            | Action::NewObject(x, _, _)
            | Action::NewArray(x, _) => self.set(*x, word),
            Action::LoadLength(x, y) => {
                let length = length_of(self.variable(*y))?;
                self.set(*x, length);
            }
            Action::Declare(_)
            | Action::StoreField(_, _, _)
            | Action::StoreItem(_, _, _)
            | Action::Recover => {}
            Action::Give(y, x) => {
                let given = self.variable(*y);
                self.set(*x, given);
            }
            Action::Print(e) => {
                let printed = self.value(operations, e)?;
                self.printed.push_reserved(printed.cast_signed());
            }
            Action::If(e, other) => {
                let test = self.value(operations, e)?;
                self.at = way(test, step.next, *other);
                return Ok(());
            }
            Action::While(e, first) => {
                let test = self.value(operations, e)?;
                self.at = way(test, *first, step.next);
                return Ok(());
            }
            Action::Invoke(call) => return Ok(self.invoke(bodies, call)?),
            Action::Return(a) => return self.give_back(bodies, a),
            Action::Par(_, _, _) | Action::End => unreachable!(),
        }
        self.at = step.next;
        Ok(())
    }
}

/// The length of the array that a reference refers to.
#[inline(always)]
fn length_of(reference: u64) -> Result<u64, TrapKind>
    ensures there { IfOk result (IsLengthBy (reference_in reference)) }
    ensures null { IfErr result (IsNullBy (reference_in reference)) }
{
    if reference % BASES == 0 {
        return Err(TrapKind::NullReference);
    }
    Ok(reference / BASES)
}

/// Where a test leads.
#[inline(always)]
fn way(word: u64, holds: u32, other: u32) -> u32
    ensures { result ≡ way_of word holds other }
{
    if word == 0 { other } else { holds }
}
