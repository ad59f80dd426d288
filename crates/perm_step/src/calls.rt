//! Calls and returns.

ghost use Rattle.std.specs.Prelude.{◌≡◌, ℕ, ◌+◌, ◌<◌, ◌≤◌, [], ◌∷◌, ◌++◌, length, replicate, slice_get, IfOk, IfErr};
ghost use Rattle.perm_tree.specs.BodyTerms.{stretch, AreArgumentsIn, IsArgumentIn};
ghost use Rattle.perm_step.specs.CallParts.{locals_before, AddsArguments, AddsOnly, ComesBack, Opens};
ghost use Rattle.perm_step.specs.Given.{ArgumentGives, ArgumentTraps, ArgumentsTrap, VariableGives};
ghost use Rattle.perm_step.specs.Rooms.{HasRoomForArgument, HasRoomForArguments, HasRoomForCall};
ghost use Rattle.perm_step.specs.Standing.{AreOpenCalls, IsOpenCall};
ghost use Rattle.perm_step.specs.StepMoves.{with_into, CallTraps, Enters, HasMethod, ReturnStops, Returns};
ghost use Rattle.perm_step.specs.Working.{locals};

use crate::ask::MOST_DEPTH;
use crate::control::{BASES, Called, Control, Stop};
use crate::values::{Value, evaluate, word_of};
use perm_tree::bodies::{Action, Argument, Bodies, Entry, Invocation, Operation};
use perm_tree::errors::TrapKind;

impl Control {
    /// Enters a method. Its variables come behind those that are there.
    pub fn invoke(&mut self, bodies: &Bodies, call: &Invocation) -> Result<(), TrapKind>
        requires inside { call.now.first + call.now.count ≤ length bodies.now.arguments }
        requires there { AreArgumentsIn bodies.now.operations (stretch bodies.now.arguments call.now.first call.now.count) }
        requires room { HasRoomForCall bodies.now call.now self.old }
        requires callable { HasMethod bodies.now call.now self.old }
        ensures enters { IfOk result (λ _. Enters bodies.now call.now self.old self.new) }
        ensures traps { IfErr result (λ k. CallTraps bodies.now call.now self.old k × (self.new ≡ self.old)) }
    {
        let end = self.vars.len();
        let this = self.variable(call.receiver);
        if let Err(kind) = self.open(bodies, call, this) {
            self.vars.truncate(end);
            return Err(kind);
        }
        let entry = bodies.entries.as_slice()[call.routine as usize];
        let called = Called {
            place: self.at,
            base: self.base,
        };
        self.calls.push_reserved(called);
        let count = self.vars.len();
        self.push_zeros((end + entry.variables as usize).saturating_sub(count));
        self.base = end as u32;
        self.at = entry.first;
        self.depth += 1;
        Ok(())
    }

    /// Puts the receiver and the arguments of a call behind the variables, if it is no call through null and not too deep.
    fn open(&mut self, bodies: &Bodies, call: &Invocation, this: u64) -> Result<(), TrapKind>
        requires inside { call.now.first + call.now.count ≤ length bodies.now.arguments }
        requires there { AreArgumentsIn bodies.now.operations (stretch bodies.now.arguments call.now.first call.now.count) }
        requires room { HasRoomForCall bodies.now call.now self.old }
        requires receiver { VariableGives (locals self.old) call.now.receiver this }
        ensures opens { IfOk result (λ _. Opens bodies.now call.now this self.old self.new) }
        ensures traps { IfErr result (CallTraps bodies.now call.now self.old) }
        ensures adds { AddsOnly self.old self.new }
    {
        let end = self.vars.len();
        self.push_word(this);
        let first = call.first as usize;
        let arguments = &bodies.arguments.as_slice()[first..first + call.count as usize];
        self.push_arguments(bodies.operations.as_slice(), arguments, end)?;
        if this % BASES == 0 {
            return Err(TrapKind::NullReference);
        }
        if self.depth >= MOST_DEPTH {
            return Err(TrapKind::StackOverflow);
        }
        Ok(())
    }

    /// Puts the words of arguments behind the variables, of which those before the end are the caller's.
    fn push_arguments(
        &mut self,
        operations: &[Operation],
        arguments: &[Argument],
        end: usize,
    ) -> Result<(), TrapKind>
        requires there { AreArgumentsIn operations.now arguments.now }
        requires room { HasRoomForArguments self.old.room.values arguments.now }
        requires fits { length self.old.vars + length arguments.now ≤ self.old.room.vars }
        requires end { end ≤ length self.old.vars }
        ensures given { IfOk result (λ _. AddsArguments operations.now (locals_before end self.old) arguments.now self.old self.new) }
        ensures traps { IfErr result (ArgumentsTrap operations.now (locals_before end self.old) arguments.now) }
        ensures adds { AddsOnly self.old self.new }
    {
        for a in arguments {
            let word = self.argument_below(operations, a, end)?;
            self.push_word(word);
        }
        Ok(())
    }

    /// The word of an argument, where the variables are those before the end.
    #[inline(always)]
    fn argument_below(
        &mut self,
        operations: &[Operation],
        a: &Argument,
        end: usize,
    ) -> Result<u64, TrapKind>
        requires there { IsArgumentIn operations.now a.now }
        requires room { HasRoomForArgument self.old.room.values a.now }
        requires end { end ≤ length self.old.vars }
        ensures given { IfOk result (ArgumentGives operations.now (locals_before end self.old) a.now) }
        ensures halted { IfErr result (ArgumentTraps operations.now (locals_before end self.old) a.now) }
        ensures same { self.new ≡ self.old }
    {
        let vars = &self.vars.as_slice()[..end];
        match a {
            Argument::Expression(e) => {
                evaluate(operations, e, vars, self.base, self.values.as_mut_slice()).word()
            }
            Argument::Consume(y) => Ok(word_of(vars, self.base as usize + *y as usize)),
        }
    }

    /// Puts so many words 0 behind the variables.
    fn push_zeros(&mut self, count: usize)
        requires fits { length self.old.vars + count ≤ self.old.room.vars }
        ensures { self.new ≡ record self.old { vars = self.old.vars ++ replicate count 0 } }
    {
        for _ in 0..count {
            self.push_word(0);
        }
    }

    /// Puts a word behind the variables.
    #[inline(always)]
    fn push_word(&mut self, word: u64)
        requires fits { length self.old.vars < self.old.room.vars }
        ensures { self.new ≡ record self.old { vars = self.old.vars ++ word ∷ [] } }
    {
        self.vars.push_reserved(word);
    }

    /// Returns a word to the last open call, if there is one.
    pub fn give_back(&mut self, bodies: &Bodies, a: &Argument) -> Result<(), Stop>
        requires there { IsArgumentIn bodies.now.operations a.now }
        requires room { HasRoomForArgument self.old.room.values a.now }
        requires calls { AreOpenCalls bodies.now self.old.calls }
        ensures returns { IfOk result (λ _. Returns bodies.now a.now self.old self.new) }
        ensures stops { IfErr result (λ e. ReturnStops bodies.now a.now self.old e × (self.new ≡ self.old)) }
    {
        let word = self.argument(bodies.operations.as_slice(), a)?;
        let Some(called) = self.calls.pop() else {
            return Err(Stop::Returned(word));
        };
        self.leave(bodies, called, word);
        Ok(())
    }

    /// Goes back to the caller of an open call: its variables are there again, and the word comes into the one that the call names.
    fn leave(&mut self, bodies: &Bodies, called: Called, word: u64)
        requires { IsOpenCall bodies.now called }
        ensures { ComesBack bodies.now called word self.old self.new }
    {
        let back = &bodies.steps.as_slice()[called.place as usize];
        let Action::Invoke(call) = &back.action else {
            unreachable!();
        };
        self.vars.truncate(self.base as usize);
        self.base = called.base;
        self.take_result(call.into, word);
        self.at = back.next;
        self.depth = self.depth.saturating_sub(1);
    }

    /// Sets a variable, if one is named.
    fn take_result(&mut self, into: Option<u32>, word: u64)
        ensures { self.new ≡ with_into self.old into word }
    {
        if let Some(x) = into {
            self.set(x, word);
        }
    }
}
