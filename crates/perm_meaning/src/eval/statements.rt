//! Statements without blocks, in a run.

ghost use Rattle.std.specs.Prelude.{◌≡◌, ◌<◌, ◌^◌, IfOk};
ghost use Rattle.perm_tree.specs.InBody.{setting_at};
ghost use Rattle.perm_meaning.specs.Evaluator.Fates.{callee_fate, callee_state, step_fate, step_state, trapped_state};
ghost use Rattle.perm_meaning.specs.Evaluator.CallStatements.{call_in};
ghost use Rattle.perm_meaning.specs.Evaluator.Runs.{unspent, ComesNext, IsSmall, MayTurn};
ghost use Rattle.perm_meaning.specs.Evaluator.SimpleStatements.{simple_of};

use super::calls::Callee;
use super::control::behind;
use super::frames::{Failure, Frame};
use super::parts::Part;
use super::state::{Fate, State};
use super::step::Step;
use perm_tree::ast::{Span, Stmt};
use perm_tree::errors::{NoMemory, TrapKind};
use perm_tree::list::List;
use perm_tree::unit::Unit;
use std::alloc::Global;

impl State {
    /// Does the statement that comes next, if it is simple and no call.
    pub fn simple(
        &mut self,
        alloc: Global,
        unit: &Unit,
        at: u32,
        stmt: &Stmt,
    ) -> Result<Option<Fate>, NoMemory>
        requires next { ComesNext unit.now self.old at stmt.now }
        requires small { IsSmall (unspent self.old) }
        ensures { IfOk result (λ y. MayTurn unit.now (simple_of (setting_at unit.now self.old.own.«method») stmt.now.kind) self.old self.new y) }
    {
        unit.resolved();
        match self.own.step(&mut self.heap, alloc, unit, &stmt.kind)? {
            Some(step) => Ok(Some(self.go_behind(alloc, step, stmt.span))),
            None => Ok(None),
        }
    }

    /// Goes behind the simple statement at a span, if it went well.
    fn go_behind(&mut self, alloc: Global, step: Step, span: Span) -> Fate
        requires { self.old.control.spot.at < 2 ^ 63 }
        ensures state { self.new ≡ step_state step self.old }
        ensures fate { result ≡ step_fate span step }
    {
        match step {
            Step::Goes => {
                self.control.pass();
                Fate::Goes
            }
            Step::Traps(kind) => self.trap(alloc, kind, span),
            Step::Full => Fate::Full,
            Step::Sticks => Fate::Sticks,
        }
    }

    /// Goes into the method that the statement calls that comes next, if it is a call.
    pub fn call(
        &mut self,
        alloc: Global,
        unit: &Unit,
        at: u32,
        stmt: &Stmt,
    ) -> Result<Option<Fate>, NoMemory>
        requires next { ComesNext unit.now self.old at stmt.now }
        requires small { IsSmall (unspent self.old) }
        ensures { IfOk result (λ y. MayTurn unit.now (call_in (setting_at unit.now self.old.own.«method») stmt.now.kind) self.old self.new y) }
    {
        unit.resolved();
        match self.own.invocation(alloc, unit, &stmt.kind)? {
            Some(callee) => Ok(Some(self.go_into(alloc, callee, stmt.span)?)),
            None => Ok(None),
        }
    }

    /// Goes into the method of the call at a span, if it begins.
    fn go_into(&mut self, alloc: Global, callee: Callee, span: Span) -> Result<Fate, NoMemory>
        requires { self.old.control.spot.at < 2 ^ 63 }
        ensures state { IfOk result (λ y. self.new ≡ callee_state callee self.old) }
        ensures fate { IfOk result (λ y. y ≡ callee_fate span callee) }
    {
        match callee {
            Callee::Begins(call) => {
                let rest = behind(self.control.spot);
                let caller = self.own.enter(call, rest);
                self.control.enter(Part::Body, Frame::Call(caller))?;
                Ok(Fate::Goes)
            }
            Callee::Halts(kind) => Ok(self.trap(alloc, kind, span)),
            Callee::Sticks => Ok(Fate::Sticks),
        }
    }

    /// The branch traps at a span. Its variables are dropped: nothing reads them any more.
    fn trap(&mut self, alloc: Global, kind: TrapKind, span: Span) -> Fate
        ensures state { self.new ≡ trapped_state self.old }
        ensures fate { result ≡ Fate.Fails (Failure.Trapped kind span) }
    {
        self.own.vars = List::new(alloc);
        Fate::Fails(Failure::Trapped(kind, span))
    }
}
