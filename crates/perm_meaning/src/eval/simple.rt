//! Simple statements, but for calls.

ghost use Rattle.std.specs.Prelude.{◌≡◌, ◌&&◌, slice_get, IfOk};
ghost use Rattle.perm_tree.specs.Code.{Assign, Declare, LoadField, LoadItem, LoadLength, NewArray, NewObject, Print, StoreField, StoreItem, TakeField};
ghost use Rattle.perm_tree.specs.CodeNames.{argument, field_at, read, term_at, ty_at, var_at};
ghost use Rattle.perm_tree.specs.CodeOf.{code_of};
ghost use Rattle.perm_tree.specs.InBody.{setting_at};
ghost use Rattle.perm_tree.specs.Lookup.{class_place, is_array};
ghost use Rattle.perm_tree.specs.Spelling.{is_word, length_word};
ghost use Rattle.perm_meaning.specs.declared.eval.own.Own as own;
ghost use Rattle.perm_meaning.specs.Evaluator.Asks.{count_of};
ghost use Rattle.perm_meaning.specs.Evaluator.SimpleStatements.{assignment_to, simple_of, Asks, MayAsk};

use super::asks::{Ask, Asked, Told};
use super::own::{Own, infos};
use super::{asks, names};
use perm_tree::ast::{Arg, Ident, Rhs, StmtKind};
use perm_tree::errors::NoMemory;
use perm_tree::unit::Unit;
use std::alloc::Global;

impl Own {
    /// `T x;`
    fn declare(&self, unit: &Unit, x: usize) -> Asked
        ensures { Asks (code_of unit.now) (Declare x) self.now self.now result }
    {
        let _ = unit;
        Asked::Does(Ask::Tick, Told::Sets(x, None))
    }

    /// `x = A;`
    fn assign(&mut self, alloc: Global, unit: &Unit, x: usize, a: &Arg) -> Result<Asked, NoMemory>
        ensures asks { IfOk result (λ q. Asks (code_of unit.now) (Assign x (argument (setting_at unit.now self.old.«method») a.now)) self.old self.new q) }
        ensures same { self.new ≡ record self.old { vars = self.new.vars } }
    {
        let value = self.argument(alloc, unit, a)?;
        Ok(asks::assign(&value, x))
    }

    /// `x = y.f;`
    fn load_field(&self, unit: &Unit, x: usize, y: Ident, f: usize) -> Asked
        ensures { Asks (code_of unit.now) (LoadField x (var_at (setting_at unit.now self.now.«method») y) f) self.now self.now result }
    {
        asks::load(&self.held(unit, y), x, f)
    }

    /// `x = y.Length;`
    fn load_length(&self, unit: &Unit, x: usize, y: Ident) -> Asked
        ensures { Asks (code_of unit.now) (LoadLength x (var_at (setting_at unit.now self.now.«method») y)) self.now self.now result }
    {
        asks::measure(&self.held(unit, y), x)
    }

    /// `x = consume y.f;`
    fn take_field(&self, unit: &Unit, x: usize, y: Ident, f: usize) -> Asked
        ensures { Asks (code_of unit.now) (TakeField x (var_at (setting_at unit.now self.now.«method») y) f) self.now self.now result }
    {
        asks::take(&self.held(unit, y), x, f)
    }

    /// `x = y[E];`
    fn load_item(
        &self,
        alloc: Global,
        unit: &Unit,
        x: usize,
        y: Ident,
        e: u32,
    ) -> Result<Asked, NoMemory>
        ensures { IfOk result (λ q. Asks (code_of unit.now) (LoadItem x (var_at (setting_at unit.now self.now.«method») y) (term_at (setting_at unit.now self.now.«method») e)) self.now self.now q) }
    {
        let i = self.given(alloc, unit, e)?;
        Ok(asks::load_item(&i, &self.held(unit, y), x))
    }

    /// `x = new long[E];`
    fn new_array(&self, alloc: Global, unit: &Unit, x: usize, e: u32) -> Result<Asked, NoMemory>
        ensures { IfOk result (λ q. Asks (code_of unit.now) (NewArray x (term_at (setting_at unit.now self.now.«method») e)) self.now self.now q) }
    {
        let n = self.given(alloc, unit, e)?;
        Ok(asks::new_array(&n, x))
    }

    /// `y.f = A;`
    fn store_field(
        &mut self,
        alloc: Global,
        unit: &Unit,
        y: Ident,
        f: usize,
        a: &Arg,
    ) -> Result<Asked, NoMemory>
        ensures asks { IfOk result (λ q. Asks (code_of unit.now) (StoreField (var_at (setting_at unit.now self.old.«method») y) f (argument (setting_at unit.now self.old.«method») a.now)) self.old self.new q) }
        ensures same { self.new ≡ record self.old { vars = self.new.vars } }
    {
        let value = self.argument(alloc, unit, a)?;
        Ok(asks::store(&value, &self.held(unit, y), f))
    }

    /// `y[E] = E;`
    fn store_item(
        &self,
        alloc: Global,
        unit: &Unit,
        y: Ident,
        i: u32,
        e: u32,
    ) -> Result<Asked, NoMemory>
        ensures { IfOk result (λ q. Asks (code_of unit.now) (StoreItem (var_at (setting_at unit.now self.now.«method») y) (term_at (setting_at unit.now self.now.«method») i) (term_at (setting_at unit.now self.now.«method») e)) self.now self.now q) }
    {
        let index = self.given(alloc, unit, i)?;
        let value = self.given(alloc, unit, e)?;
        Ok(asks::store_item(&index, &value, &self.held(unit, y)))
    }

    /// `print E;`
    fn print(&self, alloc: Global, unit: &Unit, e: u32) -> Result<Asked, NoMemory>
        ensures { IfOk result (λ q. Asks (code_of unit.now) (Print (term_at (setting_at unit.now self.now.«method») e)) self.now self.now q) }
    {
        let n = self.given(alloc, unit, e)?;
        Ok(asks::print(&n))
    }
}

impl Own {
    /// What a simple statement asks that is no call.
    pub fn simple(
        &mut self,
        alloc: Global,
        unit: &Unit,
        kind: &StmtKind,
    ) -> Result<Option<Asked>, NoMemory>
        ensures asks { IfOk result (λ q. MayAsk (code_of unit.now) (simple_of (setting_at unit.now self.old.«method») kind.now) self.old self.new q) }
        ensures same { self.new ≡ record self.old { vars = self.new.vars } }
    {
        match kind {
            StmtKind::Declare(_, x) => {
                let x = self.variable(unit, *x);
                Ok(Some(self.declare(unit, x)))
            }
            StmtKind::Assign(_, x, r) => {
                let x = self.variable(unit, *x);
                self.assignment(alloc, unit, x, r)
            }
            StmtKind::SetField(y, f, a) => {
                let f = self.field(unit, *y, *f);
                Ok(Some(self.store_field(alloc, unit, *y, f, a)?))
            }
            StmtKind::SetItem(y, i, e) => Ok(Some(self.store_item(alloc, unit, *y, *i, *e)?)),
            StmtKind::Print(e) => Ok(Some(self.print(alloc, unit, *e)?)),
            StmtKind::Call(_) => Ok(None),
            StmtKind::If(_, _, _) => Ok(None),
            StmtKind::While(_, _) => Ok(None),
            StmtKind::Par(_, _) => Ok(None),
        }
    }

    /// What an assignment to x asks that is simple and no call.
    fn assignment(
        &mut self,
        alloc: Global,
        unit: &Unit,
        x: usize,
        r: &Rhs,
    ) -> Result<Option<Asked>, NoMemory>
        ensures asks { IfOk result (λ q. MayAsk (code_of unit.now) (assignment_to (setting_at unit.now self.old.«method») x r.now) self.old self.new q) }
        ensures same { self.new ≡ record self.old { vars = self.new.vars } }
    {
        match r {
            Rhs::Value(a) => Ok(Some(self.assign(alloc, unit, x, a)?)),
            Rhs::Field(y, f) => Ok(Some(self.read(unit, x, *y, *f))),
            Rhs::TakeField(y, f) => {
                let f = self.field(unit, *y, *f);
                Ok(Some(self.take_field(unit, x, *y, f)))
            }
            Rhs::Item(y, e) => Ok(Some(self.load_item(alloc, unit, x, *y, *e)?)),
            Rhs::New(class) => Ok(Some(new_object(unit, x, class.name))),
            Rhs::NewArray(e) => Ok(Some(self.new_array(alloc, unit, x, *e)?)),
            Rhs::Call(_) => Ok(None),
            Rhs::Recover(_, _, _) => Ok(None),
        }
    }

    /// A member of y comes into x.
    fn read(&self, unit: &Unit, x: usize, y: Ident, f: Ident) -> Asked
        ensures { Asks (code_of unit.now) (read (setting_at unit.now self.now.«method») x y f) self.now self.now result }
    {
        if self.is_length(unit, y, f) {
            self.load_length(unit, x, y)
        } else {
            let f = self.field(unit, y, f);
            self.load_field(unit, x, y, f)
        }
    }

    /// Whether a member of y is the length of an array.
    fn is_length(&self, unit: &Unit, y: Ident, f: Ident) -> bool
        ensures { result ≡ (is_array (ty_at (setting_at unit.now self.now.«method») y) && is_word unit.now.program.names length_word f.name) }
    {
        let ty = names::ty(infos(unit, self.method), y);
        names::is_length(unit.program(), ty, f)
    }

    /// The number of a field of y.
    fn field(&self, unit: &Unit, y: Ident, f: Ident) -> usize
        ensures { result ≡ field_at (setting_at unit.now self.now.«method») y f }
    {
        let ty = names::ty(infos(unit, self.method), y);
        names::field(unit.program(), ty, f.name)
    }
}

/// `x = new C();`
fn new_object(unit: &Unit, x: usize, name: u32) -> Asked
    ensures { (own : own.Own) → Asks (code_of unit.now) (NewObject x (class_place unit.now.program name)) own own result }
{
    let class = unit.class_place(name);
    asks::new_object(class, fields(unit, class), x)
}

/// How many fields a class has that is there.
fn fields(unit: &Unit, class: usize) -> Option<usize>
    ensures { result ≡ count_of (slice_get (code_of unit.now).classes class) }
{
    match unit.program().classes().get(class) {
        Some(declared) => Some(declared.fields.len()),
        None => None,
    }
}
