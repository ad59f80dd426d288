//! How blocks and methods end.

ghost use Rattle.std.specs.Prelude.{◌≡◌, map, option_to_list, IfOk, Some};
ghost use Rattle.perm_tree.specs.declared.ast.FieldDecl.{FieldDecl};
ghost use Rattle.perm_tree.specs.Code.{Give};
ghost use Rattle.perm_tree.specs.CodeNames.{argument, var_at};
ghost use Rattle.perm_tree.specs.CodeOf.{code_of};
ghost use Rattle.perm_tree.specs.InBody.{method_at, setting_at};
ghost use Rattle.perm_tree.specs.Scopes.{declared_at, declared_by};
ghost use Rattle.perm_meaning.specs.Evaluator.PartEnds.{EndsAs, LosesGiven};
ghost use Rattle.perm_meaning.specs.Expressions.{assign, clear_all, tagged, value_of};
ghost use Rattle.perm_meaning.specs.Evaluator.NumberedValues.{all_by, given_by, held_by, Names};
ghost use Rattle.perm_meaning.specs.Evaluator.Parts.{end_in, first_end, first_end_if, give_of, own_in, return_if};

use super::own::Own;
use super::parts::{Part, method, stmts_of};
use super::values::{Given, Value};
use perm_tree::ast::{Arg, Ident, Rhs, Span, StmtKind, Ty};
use perm_tree::errors::NoMemory;
use perm_tree::unit::Unit;
use std::alloc::Global;

/// How a part of a method ends: it is done; a recover block gives what comes into a variable; or a method gives something back. The last two are turns, which a trap names by their spans.
#[derive(Clone, Copy, Debug)]
pub enum Ended {
    Closes,
    Gives(Given, usize, Span),
    Returns(Given, Span),
}

/// The variable that a statement declares in the block in which it stands.
fn declared_by(kind: &StmtKind) -> Option<Ident>
    ensures { option_to_list result ≡ map (λ (d : FieldDecl). d.name) (declared_by kind.now) }
{
    match kind {
        StmtKind::Declare(_, x) => Some(*x),
        StmtKind::Assign(ty, x, _) => if_typed(*ty, *x),
        _ => None,
    }
}

fn if_typed(ty: Option<Ty>, x: Ident) -> Option<Ident>
    ensures { (r : Rhs) → option_to_list result ≡ map (λ (d : FieldDecl). d.name) (declared_by (StmtKind.Assign ty x r)) }
{
    match ty {
        Some(_) => Some(x),
        None => None,
    }
}

/// The same of the statement at a place.
fn declared_at(unit: &Unit, at: u32) -> Option<Ident>
    ensures { option_to_list result ≡ map (λ (d : FieldDecl). d.name) (declared_at unit.now.program.stmts at) }
{
    match unit.program().stmts().get(at as usize) {
        Some(stmt) => declared_by(&stmt.kind),
        None => None,
    }
}

impl Own {
    /// The variable that a statement declares loses its value.
    fn undeclare(&mut self, unit: &Unit, at: u32)
        ensures vars { (names : Names) → all_by names self.new.vars ≡ clear_all tagged (all_by names self.old.vars) (map (λ (d : FieldDecl). var_at (setting_at unit.now self.old.«method») d.name) (declared_at unit.now.program.stmts at)) }
        ensures same { self.new ≡ record self.old { vars = self.new.vars } }
    {
        match declared_at(unit, at) {
            Some(x) => {
                let x = self.variable(unit, x);
                self.lose(x);
            }
            None => {}
        }
    }

    /// At the end of a part its own variables lose their values.
    pub fn close(&mut self, unit: &Unit, part: Part)
        ensures vars { (names : Names) → all_by names self.new.vars ≡ clear_all tagged (all_by names self.old.vars) (own_in unit.now self.old.«method» part) }
        ensures same { self.new ≡ record self.old { vars = self.new.vars } }
    {
        let stmts = stmts_of(unit, self.method, part);
        'stmts: for at in stmts {
            self.undeclare(unit, *at);
        }
    }

    /// At the end of a recover block its own variables lose their values, and x takes the one that the block gives.
    pub fn recover(&mut self, unit: &Unit, part: Part, x: usize, value: Value)
        ensures vars { (names : Names) → all_by names self.new.vars ≡ assign (clear_all tagged (all_by names self.old.vars) (own_in unit.now self.old.«method» part)) x (held_by names (Some value)) }
        ensures same { self.new ≡ record self.old { vars = self.new.vars } }
    {
        self.close(unit, part);
        self.set(x, Some(value));
    }

    /// How a part ends. A variable that a recover block gives loses its value.
    pub fn end(&mut self, alloc: Global, unit: &Unit, part: Part) -> Result<Ended, NoMemory>
        ensures ends { IfOk result (λ e. EndsAs (code_of unit.now) (end_in unit.now self.old.«method» part) self.old self.new e) }
        ensures vars { IfOk result (λ e. LosesGiven self.old self.new e) }
        ensures same { self.new ≡ record self.old { vars = self.new.vars } }
    {
        match part {
            Part::Body => self.return_back(alloc, unit),
            Part::First(at) => Ok(self.end_first(unit, at)),
            Part::Second(_) => Ok(Ended::Closes),
        }
    }

    /// `return A;`
    fn return_back(&self, alloc: Global, unit: &Unit) -> Result<Ended, NoMemory>
        ensures ends { IfOk result (λ e. EndsAs (code_of unit.now) (return_if (setting_at unit.now self.now.«method») (method_at unit.now self.now.«method»)) self.now self.now e) }
        ensures vars { IfOk result (λ e. LosesGiven self.now self.now e) }
    {
        match method(unit, self.method) {
            Some(method) => {
                let given = self.value(alloc, unit, &method.back)?;
                Ok(Ended::Returns(given, method.span))
            }
            None => Ok(Ended::Closes),
        }
    }

    /// The value of an argument that nothing comes after.
    fn value(&self, alloc: Global, unit: &Unit, a: &Arg) -> Result<Given, NoMemory>
        ensures { IfOk result (λ g. (names : Names) → given_by names g ≡ value_of tagged (argument (setting_at unit.now self.now.«method») a.now) (all_by names self.now.vars)) }
    {
        match a {
            Arg::Expr(e) => self.given(alloc, unit, *e),
            Arg::Consume(y) => Ok(self.held(unit, *y)),
        }
    }

    fn end_first(&mut self, unit: &Unit, at: u32) -> Ended
        ensures ends { EndsAs (code_of unit.now) (end_in unit.now self.old.«method» (Part.First at)) self.old self.new result }
        ensures vars { LosesGiven self.old self.new result }
        ensures same { self.new ≡ record self.old { vars = self.new.vars } }
    {
        match unit.program().stmts().get(at as usize) {
            Some(stmt) => self.end_of(unit, &stmt.kind),
            None => Ended::Closes,
        }
    }

    fn end_of(&mut self, unit: &Unit, kind: &StmtKind) -> Ended
        ensures ends { EndsAs (code_of unit.now) (first_end (setting_at unit.now self.old.«method») kind.now) self.old self.new result }
        ensures vars { LosesGiven self.old self.new result }
        ensures same { self.new ≡ record self.old { vars = self.new.vars } }
    {
        match kind {
            StmtKind::Assign(_, x, r) => {
                let x = self.variable(unit, *x);
                self.end_into(unit, x, r)
            }
            _ => Ended::Closes,
        }
    }

    fn end_into(&mut self, unit: &Unit, x: usize, r: &Rhs) -> Ended
        ensures ends { EndsAs (code_of unit.now) (give_of (setting_at unit.now self.old.«method») x r.now) self.old self.new result }
        ensures vars { LosesGiven self.old self.new result }
        ensures same { self.new ≡ record self.old { vars = self.new.vars } }
    {
        match r {
            Rhs::Recover(_, w, give) => self.give(unit, x, *w, *give),
            _ => Ended::Closes,
        }
    }

    /// `give w;`
    fn give(&mut self, unit: &Unit, x: usize, w: Ident, at: Span) -> Ended
        ensures ends { EndsAs (code_of unit.now) (Give at (var_at (setting_at unit.now self.old.«method») w) x) self.old self.new result }
        ensures vars { LosesGiven self.old self.new result }
        ensures same { self.new ≡ record self.old { vars = self.new.vars } }
    {
        let given = self.held(unit, w);
        let w = self.variable(unit, w);
        self.lose(w);
        Ended::Gives(given, x, at)
    }
}
