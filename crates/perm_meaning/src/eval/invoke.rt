//! Call statements.

ghost use Rattle.std.specs.Prelude.{◌≡◌, false, map, true, ℕ, IfOk};
ghost use Rattle.perm_tree.specs.Code.{Invoke, Tie};
ghost use Rattle.perm_tree.specs.CodeNames.{argument, call, ty_at, var_at};
ghost use Rattle.perm_tree.specs.CodeOf.{code_of};
ghost use Rattle.perm_tree.specs.InBody.{setting_at};
ghost use Rattle.perm_tree.specs.Lookup.{method_place};
ghost use Rattle.perm_meaning.specs.Evaluator.BegunCalls.{begun_if, IsCallOf};
ghost use Rattle.perm_meaning.specs.Evaluator.CallStatements.{call_in, Invokes, MayInvoke};
ghost use Rattle.perm_meaning.specs.NamedHeap as heaps;
ghost use Rattle.perm_meaning.specs.Evaluator.NumberedValues.{given_by, Names};

use super::calls::{Callee, begin_on};
use super::names;
use super::own::{Own, infos};
use super::tell::Passed;
use super::values::Given;
use perm_tree::ast::{Call, Ident, Rhs, StmtKind};
use perm_tree::errors::NoMemory;
use perm_tree::unit::Unit;
use std::alloc::Global;

impl Own {
    /// What a statement comes to that is a call.
    pub fn invocation(
        &mut self,
        alloc: Global,
        unit: &Unit,
        kind: &StmtKind,
    ) -> Result<Option<Callee>, NoMemory>
        ensures callee { IfOk result (λ c. MayInvoke (code_of unit.now) (call_in (setting_at unit.now self.old.«method») kind.now) self.old self.new c) }
        ensures same { self.new ≡ record self.old { vars = self.new.vars } }
    {
        match kind {
            StmtKind::Call(called) => Ok(Some(self.call(alloc, unit, None, called)?)),
            StmtKind::Assign(_, x, r) => match r {
                Rhs::Call(called) => {
                    let x = self.variable(unit, *x);
                    Ok(Some(self.call(alloc, unit, Some(x), called)?))
                }
                _ => Ok(None),
            },
            _ => Ok(None),
        }
    }

    /// What a call comes to whose result goes into a variable or nowhere.
    pub fn call(
        &mut self,
        alloc: Global,
        unit: &Unit,
        into: Option<usize>,
        called: &Call,
    ) -> Result<Callee, NoMemory>
        ensures callee { IfOk result (λ c. Invokes (code_of unit.now) (call (setting_at unit.now self.old.«method») into called.now) self.old self.new c) }
        ensures same { self.new ≡ record self.old { vars = self.new.vars } }
    {
        let number = self.callee(unit, called.on, called.method);
        if called.consumed {
            self.call_on_consumed(alloc, unit, number, into, called)
        } else {
            self.call_on_kept(alloc, unit, number, into, called)
        }
    }

    /// The number of a method of what y refers to.
    fn callee(&self, unit: &Unit, y: Ident, method: Ident) -> usize
        ensures { result ≡ method_place unit.now (ty_at (setting_at unit.now self.now.«method») y) «method».name }
    {
        let ty = names::ty(infos(unit, self.method), y);
        names::method(unit.program(), unit.tables(), ty, method.name)
    }

    /// A call whose receiver is consumed: the receiver comes first.
    fn call_on_consumed(
        &mut self,
        alloc: Global,
        unit: &Unit,
        number: usize,
        into: Option<usize>,
        called: &Call,
    ) -> Result<Callee, NoMemory>
        ensures callee { IfOk result (λ c. (tie : Tie) → Invokes (code_of unit.now) (Invoke into tie true (var_at (setting_at unit.now self.old.«method») called.now.on) number (map (argument (setting_at unit.now self.old.«method»)) called.now.args)) self.old self.new c) }
        ensures same { self.new ≡ record self.old { vars = self.new.vars } }
    {
        let this = self.held(unit, called.on);
        match this {
            Given::Value(_) => {
                let y = self.variable(unit, called.on);
                self.lose(y);
                let passed = self.arguments(alloc, unit, called.args.as_slice())?;
                begin_if(unit, number, into, this, passed, self.depth)
            }
            Given::Trap(kind) => Ok(Callee::Halts(kind)),
            Given::Nothing => Ok(Callee::Sticks),
        }
    }

    /// A call whose receiver isn't consumed: the receiver comes last.
    fn call_on_kept(
        &mut self,
        alloc: Global,
        unit: &Unit,
        number: usize,
        into: Option<usize>,
        called: &Call,
    ) -> Result<Callee, NoMemory>
        ensures callee { IfOk result (λ c. (tie : Tie) → Invokes (code_of unit.now) (Invoke into tie false (var_at (setting_at unit.now self.old.«method») called.now.on) number (map (argument (setting_at unit.now self.old.«method»)) called.now.args)) self.old self.new c) }
        ensures same { self.new ≡ record self.old { vars = self.new.vars } }
    {
        let passed = self.arguments(alloc, unit, called.args.as_slice())?;
        let this = self.held(unit, called.on);
        begin_if(unit, number, into, this, passed, self.depth)
    }
}

/// Begins a call on what its receiver gives, if each argument has a value.
fn begin_if(
    unit: &Unit,
    number: usize,
    into: Option<usize>,
    this: Given,
    passed: Passed,
    depth: u64,
) -> Result<Callee, NoMemory>
    ensures { IfOk result (λ c. (names : Names) (l : heaps.Own) (tie : Tie) (y : ℕ) → l.depth ≡ depth → IsCallOf names (code_of unit.now) l c (begun_if (code_of unit.now) names tie y number into (given_by names this) passed l)) }
{
    match passed {
        Passed::All(found) => begin_on(unit, number, into, this, found, depth),
        Passed::Halts(kind) => Ok(Callee::Halts(kind)),
        Passed::Sticks => Ok(Callee::Sticks),
    }
}
