//! A run, from one statement to the next, to its end.

ghost use Rattle.std.specs.Prelude.{◌≡◌, ◌<◌, ◌^◌, Some, slice_get, IfOk};
ghost use Rattle.perm_meaning.specs.Evaluator.Parts.{stmts_in};
ghost use Rattle.perm_meaning.specs.Evaluator.Runs.{ComesNext, IsLast, IsNext, IsSmall, MayGoOn};

use super::frames::Failure;
use super::state::{Fate, State};
use perm_tree::ast::Stmt;
use perm_tree::errors::NoMemory;
use perm_tree::unit::Unit;
use std::alloc::Global;

impl State {
    /// Runs to the end.
    pub fn run(&mut self, alloc: Global, unit: &Unit) -> Result<Fate, NoMemory>
        requires { IsSmall self.old }
        ensures { IfOk result (λ y. IsLast unit.now self.old self.new y) }
    {
        let mut fate = Fate::Goes;
        loop {
            match self.go_on(alloc, unit, fate)? {
                Some(next) => fate = next,
                None => return Ok(fate),
            }
        }
    }

    /// Goes on with the code, or with what waits innermost for it to end. Answers nothing where the run has ended.
    fn go_on(&mut self, alloc: Global, unit: &Unit, fate: Fate) -> Result<Option<Fate>, NoMemory>
        requires { IsSmall self.old }
        ensures { IfOk result (λ y. MayGoOn unit.now self.old fate self.new y) }
    {
        match fate {
            Fate::Goes => Ok(Some(self.turn(alloc, unit)?)),
            Fate::Full => Ok(None),
            Fate::Sticks => Ok(None),
            Fate::Closes | Fate::Gives(_, _) | Fate::Returns(_) | Fate::Fails(_) => {
                match self.control.frames.pop() {
                    Some(frame) => Ok(Some(self.follow(alloc, unit, frame, fate)?)),
                    None => Ok(None),
                }
            }
        }
    }

    /// Takes the turn of the statement that comes next, or ends the part that has none left.
    fn turn(&mut self, alloc: Global, unit: &Unit) -> Result<Fate, NoMemory>
        requires { IsSmall self.old }
        ensures { IfOk result (λ y. IsNext unit.now self.old Fate.Goes self.new y) }
    {
        match self.control.next(unit, self.own.method) {
            Some(at) => self.turn_at(alloc, unit, at),
            None => self.end_part(alloc, unit),
        }
    }

    /// Takes the turn of the statement at a place.
    fn turn_at(&mut self, alloc: Global, unit: &Unit, at: u32) -> Result<Fate, NoMemory>
        requires small { IsSmall self.old }
        requires next { slice_get (stmts_in unit.now self.old.own.«method» self.old.control.spot.part) self.old.control.spot.at ≡ Some at }
        requires fits { self.old.control.spot.at < 2 ^ 63 }
        ensures { IfOk result (λ y. IsNext unit.now self.old Fate.Goes self.new y) }
    {
        unit.resolved();
        match unit.program().stmts().get(at as usize) {
            Some(stmt) => self.statement(alloc, unit, at, stmt),
            None => Ok(Fate::Sticks),
        }
    }

    /// Takes the turn of a statement, if a turn is left.
    fn statement(
        &mut self,
        alloc: Global,
        unit: &Unit,
        at: u32,
        stmt: &Stmt,
    ) -> Result<Fate, NoMemory>
        requires small { IsSmall self.old }
        requires next { ComesNext unit.now self.old at stmt.now }
        ensures { IfOk result (λ y. IsNext unit.now self.old Fate.Goes self.new y) }
    {
        unit.resolved();
        if self.turns == 0 {
            return Ok(Fate::Fails(Failure::NoTurns));
        }
        self.turns -= 1;
        if let Some(fate) = self.simple(alloc, unit, at, stmt)? {
            return Ok(fate);
        }
        if let Some(fate) = self.call(alloc, unit, at, stmt)? {
            return Ok(fate);
        }
        self.block(alloc, unit, at, stmt)
    }
}
