//! A branch that runs or has ended, and its turns.

ghost use Rattle.std.specs.Prelude.{◌≡◌, ℕ, ◌-◌, ◌<◌, length, None, Some};
ghost use Rattle.perm_tree.specs.Code.{UnitCode};
ghost use Rattle.perm_tree.specs.BodyTerms.{IsActionIn};
ghost use Rattle.perm_step.specs.LeafMoves.{ending_of, spent, Proceeds};
ghost use Rattle.perm_step.specs.Rooms.{HasRoomForStep};
ghost use Rattle.perm_step.specs.Standing.{AreOpenCalls};
ghost use Rattle.perm_step.specs.StepMoves.{IsCallable, Leads};
ghost use Rattle.perm_step.specs.declared.control.Ending.TheVariants as endings;
ghost use Rattle.perm_step.specs.declared.control.Failure.TheVariants as failures;

use crate::control::{Control, Ending, Failure, Leaf, Stop};
use perm_tree::ast::Span;
use perm_tree::bodies::{Bodies, Step};
use perm_tree::errors::TrapKind;

impl Leaf {
    /// A branch that runs.
    pub fn running(control: Control) -> Leaf
        ensures { result ≡ record { control = control; ending = None } }
    {
        Leaf {
            control,
            ending: None,
        }
    }

    /// Ends the branch by a trap of its next step.
    pub fn trap(&mut self, kind: TrapKind, span: Span)
        requires due { 0 < self.old.control.turns }
        ensures { self.new ≡ record { control = spent self.old.control; ending = Some (endings.Failed (failures.Trap kind span)) } }
    {
        self.control.turns -= 1;
        self.ending = Some(Ending::Failed(Failure::Trap(kind, span)));
    }

    /// Ends the branch by the refusal of what its next step asks.
    pub fn refuse(&mut self)
        requires due { 0 < self.old.control.turns }
        ensures { self.new ≡ record { control = spent self.old.control; ending = Some (endings.Failed failures.NoRoom) } }
    {
        self.control.turns -= 1;
        self.ending = Some(Ending::Failed(Failure::NoRoom));
    }

    /// Takes the turn of the next step, given the word that the heap answers.
    #[inline(always)]
    pub fn proceed(&mut self, bodies: &Bodies, step: &Step, word: u64)
        requires due { 0 < self.old.control.turns }
        requires runs { self.old.ending ≡ None }
        requires there { (u : UnitCode) × IsActionIn bodies.now u step.now.action }
        requires room { HasRoomForStep bodies.now step.now.action self.old.control }
        requires leads { Leads step.now.action }
        requires callable { IsCallable bodies.now step.now.action self.old.control }
        requires calls { AreOpenCalls bodies.now self.old.control.calls }
        ensures { Proceeds bodies.now step.now word self.old self.new }
    {
        self.control.turns -= 1;
        if let Err(stop) = self.control.tell(bodies, step, word) {
            self.ending = Some(ending_at(stop, step.span));
        }
    }
}

/// How a branch ends that has come to a step with this span, where the step doesn't lead on.
fn ending_at(stop: Stop, span: Span) -> Ending
    ensures { result ≡ ending_of stop span }
{
    match stop {
        Stop::Trap(kind) => Ending::Failed(Failure::Trap(kind, span)),
        Stop::Returned(word) => Ending::Returned(word),
    }
}
