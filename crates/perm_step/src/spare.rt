//! Room for the next step of a branch, so that the step takes no memory.

ghost use Rattle.std.specs.Prelude.{◌≡◌, ℕ, ◌+◌, ◌<◌, ◌≤◌, length, IfOk, OnErr};
ghost use Rattle.perm_tree.specs.Code.{UnitCode};
ghost use Rattle.perm_tree.specs.BodyTerms.{IsActionIn};
ghost use Rattle.perm_step.specs.Evaluation.{HasRoomFor};
ghost use Rattle.perm_step.specs.Rooms.{HasRoomForArgument, HasRoomForArguments, HasRoomForCall, HasRoomForStep};

use crate::control::Control;
use crate::values::Value;
use perm_tree::bodies::{Action, Argument, Bodies, Expression, Invocation};
use perm_tree::errors::NoMemory;

impl Control {
    /// Makes room for a step. Nothing else changes.
    #[inline(always)]
    pub fn make_room(&mut self, bodies: &Bodies, action: &Action) -> Result<(), NoMemory>
        requires there { (u : UnitCode) × IsActionIn bodies.now u action.now }
        ensures room { IfOk result (λ _. HasRoomForStep bodies.now action.now self.new) }
        ensures same { self.new ≡ record self.old { room = self.new.room } }
    {
        match action {
            Action::Assign(_, a) | Action::StoreField(_, _, a) | Action::Return(a) => {
                self.make_room_for(a)
            }
            Action::LoadItem(_, _, e)
            | Action::NewArray(_, e)
            | Action::If(e, _)
            | Action::While(e, _) => self.make_room_in(e),
            Action::StoreItem(_, i, e) => {
                self.make_room_in(i)?;
                self.make_room_in(e)
            }
            Action::Print(e) => {
                self.printed.reserve(1)?;
                self.make_room_in(e)
            }
            Action::Invoke(call) => self.make_room_to_call(bodies, call),
            _ => Ok(()),
        }
    }

    #[inline(always)]
    fn make_room_for(&mut self, a: &Argument) -> Result<(), NoMemory>
        ensures room { IfOk result (λ _. HasRoomForArgument self.new.room.values a.now) }
        ensures more { self.old.room.values ≤ self.new.room.values }
        ensures same { self.new ≡ record self.old { room = record self.old.room { values = self.new.room.values } } }
    {
        match a {
            Argument::Expression(e) => self.make_room_in(e),
            Argument::Consume(_) => Ok(()),
        }
    }

    /// Makes room for the values of the operations of an expression.
    #[inline(always)]
    fn make_room_in(&mut self, e: &Expression) -> Result<(), NoMemory>
        ensures room { IfOk result (λ _. HasRoomFor self.new.room.values e.now) }
        ensures more { self.old.room.values ≤ self.new.room.values }
        ensures same { self.new ≡ record self.old { room = record self.old.room { values = self.new.room.values } } }
    {
        match e {
            Expression::Operations(_, count) => self.make_values(*count as usize),
            Expression::Operand(_) | Expression::Operation(_) => Ok(()),
        }
    }

    fn make_values(&mut self, count: usize) -> Result<(), NoMemory>
        ensures room { IfOk result (λ _. count ≤ self.new.room.values) }
        ensures more { self.old.room.values ≤ self.new.room.values }
        ensures same { self.new ≡ record self.old { room = record self.old.room { values = self.new.room.values } } }
    {
        if self.values.len() < count {
            self.values.resize(count, Value::Word(0))?;
        }
        Ok(())
    }

    /// Makes room for a call: for its arguments, for one open call more, and for the variables of its method.
    fn make_room_to_call(&mut self, bodies: &Bodies, call: &Invocation) -> Result<(), NoMemory>
        requires inside { call.now.first + call.now.count ≤ length bodies.now.arguments }
        ensures room { IfOk result (λ _. HasRoomForCall bodies.now call.now self.new) }
        ensures same { self.new ≡ record self.old { room = self.new.room } }
    {
        let first = call.first as usize;
        let arguments = &bodies.arguments.as_slice()[first..first + call.count as usize];
        self.make_room_for_each(arguments)?;
        if u32::try_from(self.vars.len()).is_err() {
            return Err(NoMemory);
        }
        let variables = match bodies.entries.as_slice().get(call.routine as usize) {
            Some(entry) => entry.variables as usize,
            None => 0,
        };
        self.vars.reserve(1 + call.count as usize + variables)?;
        self.calls.reserve(1)?;
        Ok(())
    }
    /// Makes room for each of some arguments.
    fn make_room_for_each(&mut self, arguments: &[Argument]) -> Result<(), NoMemory>
        ensures room { IfOk result (λ _. HasRoomForArguments self.new.room.values arguments.now) }
        ensures same { self.new ≡ record self.old { room = record self.old.room { values = self.new.room.values } } }
    {
        for a in arguments {
            self.make_room_for(a)?;
        }
        Ok(())
    }
}
