//! What a branch has: its variables, its method, its depth and what it has printed.

ghost use Rattle.std.specs.Prelude.{◌≡◌, slice_set, IfOk, None};
ghost use Rattle.perm_tree.specs.CodeNames.{argument, term_at, var_at};
ghost use Rattle.perm_tree.specs.InBody.{setting_at, vars_at};
ghost use Rattle.perm_meaning.specs.Expressions.{clear, eval, look_up, tagged, value_of};
ghost use Rattle.perm_meaning.specs.Evaluator.NumberedValues.{all_by, given_by, Names};
ghost use Rattle.perm_meaning.specs.Evaluator.SimpleStatements.{after_argument};

use super::expressions::{evaluate, held};
use super::names;
use super::values::{Given, Value};
use perm_tree::ast::{Arg, Ident};
use perm_tree::errors::NoMemory;
use perm_tree::list::{List, Numbers};
use perm_tree::unit::{Unit, VarInfo};
use std::alloc::Global;

/// What turns may change of a branch, but for how many objects it has made and how many pars it has begun.
#[derive(Debug, Drop)]
pub struct Own {
    pub vars: List<Option<Value>>,
    pub method: usize,
    pub depth: u64,
    pub printed: Numbers,
}

/// The variables of a method.
pub fn infos(unit: &Unit, method: usize) -> &[VarInfo]
    ensures { result.now ≡ vars_at unit.now method }
{
    match unit.tables().get(method) {
        Some(table) => table.vars.as_slice(),
        None => &[],
    }
}

impl Own {
    /// A variable that is there takes a value, or loses it.
    pub fn set(&mut self, x: usize, value: Option<Value>)
        ensures { self.new ≡ record self.old { vars = slice_set self.old.vars x value } }
    {
        if x < self.vars.len() {
            self.vars.set(x, value);
        }
    }

    /// A variable loses its value.
    pub fn lose(&mut self, x: usize)
        ensures vars { (names : Names) → all_by names self.new.vars ≡ clear tagged (all_by names self.old.vars) x }
        ensures same { self.new ≡ record self.old { vars = self.new.vars } }
    {
        self.set(x, None);
    }

    /// The number of a variable.
    pub fn variable(&self, unit: &Unit, x: Ident) -> usize
        ensures { result ≡ var_at (setting_at unit.now self.now.«method») x }
    {
        names::variable(infos(unit, self.method), x)
    }

    /// What a variable gives.
    pub fn held(&self, unit: &Unit, y: Ident) -> Given
        ensures { (names : Names) → given_by names result ≡ look_up tagged (all_by names self.now.vars) (var_at (setting_at unit.now self.now.«method») y) }
    {
        held(self.vars.as_slice(), self.variable(unit, y))
    }

    /// What an expression gives.
    pub fn given(&self, alloc: Global, unit: &Unit, e: u32) -> Result<Given, NoMemory>
        ensures { IfOk result (λ g. (names : Names) → given_by names g ≡ eval tagged (term_at (setting_at unit.now self.now.«method») e) (all_by names self.now.vars)) }
    {
        let infos = infos(unit, self.method);
        evaluate(alloc, unit.program(), infos, e, self.vars.as_slice())
    }

    /// What an argument gives. A variable that is consumed loses its value.
    pub fn argument(&mut self, alloc: Global, unit: &Unit, a: &Arg) -> Result<Given, NoMemory>
        ensures value { IfOk result (λ g. (names : Names) → given_by names g ≡ value_of tagged (argument (setting_at unit.now self.old.«method») a.now) (all_by names self.old.vars)) }
        ensures vars { (names : Names) → all_by names self.new.vars ≡ after_argument (argument (setting_at unit.now self.old.«method») a.now) (all_by names self.old.vars) }
        ensures same { self.new ≡ record self.old { vars = self.new.vars } }
    {
        match a {
            Arg::Expr(e) => self.given(alloc, unit, *e),
            Arg::Consume(y) => {
                let given = self.held(unit, *y);
                let y = self.variable(unit, *y);
                self.lose(y);
                Ok(given)
            }
        }
    }
}
