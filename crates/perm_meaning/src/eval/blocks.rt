//! Statements with blocks, and the ends of parts, in a run.

ghost use Rattle.std.specs.Prelude.{◌≡◌, ◌-◌, slice_get, IfOk, None, Option};
ghost use Rattle.perm_tree.specs.declared.ast.Block.{Block};
ghost use Rattle.perm_tree.specs.declared.ast.Ident.{Ident};
ghost use Rattle.perm_tree.specs.declared.ast.Ty.{Ty};
ghost use Rattle.perm_tree.specs.InBody.{setting_at};
ghost use Rattle.perm_meaning.specs.Evaluator.PartEnds.{give_fate, return_fate};
ghost use Rattle.perm_meaning.specs.Evaluator.CallStatements.{call_in};
ghost use Rattle.perm_meaning.specs.Evaluator.Parts.{stmts_in};
ghost use Rattle.perm_meaning.specs.Evaluator.Runs.{unspent, ComesNext, IsNext, IsSmall};
ghost use Rattle.perm_meaning.specs.Evaluator.SimpleStatements.{simple_of};
ghost use Rattle.perm_meaning.specs.Evaluator.States.{test_fate};

use super::calls::MOST_DEPTH;
use super::control::{Tested, test_of};
use super::ends::Ended;
use super::frames::Failure;
use super::state::{Fate, State};
use super::values::Given;
use perm_tree::ast::{Rhs, Span, Stmt, StmtKind};
use perm_tree::errors::{NoMemory, TrapKind};
use perm_tree::unit::Unit;
use std::alloc::Global;

/// Where a condition leads that comes to this.
fn test_fate(at: Span, tested: Tested) -> Fate
    ensures { result ≡ test_fate at tested }
{
    match tested {
        Tested::Decides(_) => Fate::Goes,
        Tested::Halts(kind) => Fate::Fails(Failure::Trapped(kind, at)),
        Tested::Sticks => Fate::Sticks,
    }
}

impl State {
    /// Goes where the statement leads that comes next, which is neither simple nor a call.
    pub fn block(
        &mut self,
        alloc: Global,
        unit: &Unit,
        at: u32,
        stmt: &Stmt,
    ) -> Result<Fate, NoMemory>
        requires next { ComesNext unit.now self.old at stmt.now }
        requires small { IsSmall (unspent self.old) }
        requires simple { simple_of (setting_at unit.now self.old.own.«method») stmt.now.kind ≡ None }
        requires call { call_in (setting_at unit.now self.old.own.«method») stmt.now.kind ≡ None }
        ensures { IfOk result (λ y. IsNext unit.now (unspent self.old) Fate.Goes self.new y) }
    {
        match &stmt.kind {
            StmtKind::If(e, _, _) => self.on_if(alloc, unit, at, stmt, *e),
            StmtKind::While(e, _) => self.on_while(alloc, unit, at, stmt, *e),
            StmtKind::Par(_, _) => self.on_par(alloc, unit, at, stmt),
            StmtKind::Assign(_, _, r) => self.on_assignment(unit, at, stmt, r),
            StmtKind::Declare(_, _) => Ok(Fate::Sticks),
            StmtKind::SetField(_, _, _) => Ok(Fate::Sticks),
            StmtKind::SetItem(_, _, _) => Ok(Fate::Sticks),
            StmtKind::Call(_) => Ok(Fate::Sticks),
            StmtKind::Print(_) => Ok(Fate::Sticks),
        }
    }

    /// `if (e) .. else ..`
    fn on_if(
        &mut self,
        alloc: Global,
        unit: &Unit,
        at: u32,
        stmt: &Stmt,
        e: u32,
    ) -> Result<Fate, NoMemory>
        requires { ComesNext unit.now self.old at stmt.now }
        ensures { (a : Block) (b : Option Block) → stmt.now.kind ≡ StmtKind.If e a b → IfOk result (λ y. IsNext unit.now (unspent self.old) Fate.Goes self.new y) }
    {
        unit.resolved();
        let given = self.own.given(alloc, unit, e)?;
        let tested = test_of(&given);
        self.control.on_if(at, tested)?;
        Ok(test_fate(stmt.head, tested))
    }

    /// `while (e) ..`
    fn on_while(
        &mut self,
        alloc: Global,
        unit: &Unit,
        at: u32,
        stmt: &Stmt,
        e: u32,
    ) -> Result<Fate, NoMemory>
        requires { ComesNext unit.now self.old at stmt.now }
        ensures { (a : Block) → stmt.now.kind ≡ StmtKind.While e a → IfOk result (λ y. IsNext unit.now (unspent self.old) Fate.Goes self.new y) }
    {
        unit.resolved();
        let given = self.own.given(alloc, unit, e)?;
        let tested = test_of(&given);
        self.control.on_while(at, tested)?;
        Ok(test_fate(stmt.head, tested))
    }

    /// `par .. and ..`
    fn on_par(&mut self, alloc: Global, unit: &Unit, at: u32, stmt: &Stmt) -> Result<Fate, NoMemory>
        requires { ComesNext unit.now self.old at stmt.now }
        ensures { (a b : Block) → stmt.now.kind ≡ StmtKind.Par a b → IfOk result (λ y. IsNext unit.now (unspent self.old) Fate.Goes self.new y) }
    {
        unit.resolved();
        if self.own.depth >= MOST_DEPTH {
            return Ok(Fate::Fails(Failure::Trapped(TrapKind::StackOverflow, stmt.head)));
        }
        self.split(alloc, at)?;
        Ok(Fate::Goes)
    }

    /// `x = recover ..`, which alone of the assignments has a block.
    fn on_assignment(
        &mut self,
        unit: &Unit,
        at: u32,
        stmt: &Stmt,
        r: &Rhs,
    ) -> Result<Fate, NoMemory>
        requires next { ComesNext unit.now self.old at stmt.now }
        requires simple { simple_of (setting_at unit.now self.old.own.«method») stmt.now.kind ≡ None }
        requires call { call_in (setting_at unit.now self.old.own.«method») stmt.now.kind ≡ None }
        ensures { (t : Option Ty) (x : Ident) → stmt.now.kind ≡ StmtKind.Assign t x r.now → IfOk result (λ y. IsNext unit.now (unspent self.old) Fate.Goes self.new y) }
    {
        match r {
            Rhs::Recover(_, _, _) => {
                unit.resolved();
                self.control.on_recover(at)?;
                Ok(Fate::Goes)
            }
            _ => Ok(Fate::Sticks),
        }
    }

    /// Ends a part of a method that has no statement left.
    pub fn end_part(&mut self, alloc: Global, unit: &Unit) -> Result<Fate, NoMemory>
        requires ends { slice_get (stmts_in unit.now self.old.own.«method» self.old.control.spot.part) self.old.control.spot.at ≡ None }
        requires small { IsSmall self.old }
        ensures { IfOk result (λ y. IsNext unit.now self.old Fate.Goes self.new y) }
    {
        match self.own.end(alloc, unit, self.control.spot.part)? {
            Ended::Closes => Ok(Fate::Closes),
            Ended::Gives(given, x, at) => Ok(self.on_give(given, x, at)),
            Ended::Returns(given, at) => Ok(self.on_return(given, at)),
        }
    }

    /// `give w;`, where w gives this.
    fn on_give(&mut self, given: Given, x: usize, at: Span) -> Fate
        ensures fate { result ≡ give_fate self.old.turns given x at }
        ensures state { self.new ≡ record self.old { turns = self.old.turns - 1 } }
    {
        if self.turns == 0 {
            return Fate::Fails(Failure::NoTurns);
        }
        self.turns -= 1;
        match given {
            Given::Value(value) => Fate::Gives(value, x),
            Given::Trap(kind) => Fate::Fails(Failure::Trapped(kind, at)),
            Given::Nothing => Fate::Sticks,
        }
    }

    /// `return A;`, where A gives this.
    fn on_return(&mut self, given: Given, at: Span) -> Fate
        ensures fate { result ≡ return_fate self.old.turns given at }
        ensures state { self.new ≡ record self.old { turns = self.old.turns - 1 } }
    {
        if self.turns == 0 {
            return Fate::Fails(Failure::NoTurns);
        }
        self.turns -= 1;
        match given {
            Given::Value(value) => Fate::Returns(value),
            Given::Trap(kind) => Fate::Fails(Failure::Trapped(kind, at)),
            Given::Nothing => Fate::Sticks,
        }
    }
}
