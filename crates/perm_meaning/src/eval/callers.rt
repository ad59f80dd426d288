//! Going into a method, and coming back to its caller.

ghost use Rattle.std.specs.Prelude.{◌≡◌, ◌-◌};
ghost use Rattle.perm_meaning.specs.Evaluator.States.{Takes};

use super::calls::Call;
use super::frames::{Caller, Spot};
use super::own::Own;
use super::values::Value;
use std::mem;

impl Own {
    /// Goes into the method of a call, and answers what waits of the caller, which goes on at a place.
    pub fn enter(&mut self, call: Call, rest: Spot) -> Caller
        ensures inside { self.new ≡ record self.old { vars = call.vars; method = call.«method»; depth = call.depth } }
        ensures waits { result ≡ record { vars = self.old.vars; method = self.old.«method»; into = call.into; rest = rest } }
    {
        let into = call.into;
        self.depth = call.depth;
        let method = mem::replace(&mut self.method, call.method);
        let vars = mem::replace(&mut self.vars, call.vars);
        Caller {
            vars,
            method,
            into,
            rest,
        }
    }

    /// Comes back to a caller, one level up, which takes the value.
    pub fn come_back(&mut self, caller: Caller, value: Value)
        ensures vars { Takes caller value self.new.vars }
        ensures same { self.new ≡ record self.old { vars = self.new.vars; method = caller.«method»; depth = self.old.depth - 1 } }
    {
        self.vars = caller.vars;
        self.method = caller.method;
        self.depth = self.depth.saturating_sub(1);
        if let Some(x) = caller.into {
            self.set(x, Some(value));
        }
    }
}
