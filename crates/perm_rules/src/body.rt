//! The body of a method as the typing rules read it: its statements, what their steps say, and the types of what they name.

ghost use Rattle.std.specs.Prelude.{◌≡◌, ◌<◌, length, map, slice_get, IsNone, None, Some};
ghost use Rattle.std.specs.Option.{IfSome};
ghost use Rattle.perm_tree.specs.declared.ast.Stmt as stmts;
ghost use Rattle.perm_tree.specs.CodeOf.{code_of};
ghost use Rattle.perm_tree.specs.Lookup.{method_of};
ghost use Rattle.perm_tree.specs.InBody.{method_at, vars_at, IsStmtOf};
ghost use Rattle.perm_tree.specs.StatementSteps.{Says};
ghost use Rattle.perm_rules.specs.MethodBodies.{context_of, setting_of, IsBody, IsMethodTable, IsRoutineOf, ReturnsBack};
ghost use Rattle.perm_rules.specs.Parts.{field_among, field_type, type_of};

use perm_tree::ast::{FieldDecl, Method, Shape, Stmt, Ty};
use perm_tree::bodies::{Action, Argument, Bodies, Operation};
use perm_tree::program::Program;
use perm_tree::unit::{MethodTable, Unit, VarInfo};
use std::marker::Model;

/// A method of a unit, with what its statements are read by.
#[derive(Drop)]
pub struct MethodBody<'a> {
    program: &'a Program,
    tables: &'a [MethodTable],
    bodies: &'a Bodies,
    number: usize,
}

impl<'a> Model for MethodBody<'a> {
    ghost use Rattle.perm_rules.specs.MethodBodies.{Body, IsBody};

    ghost Value = { Body };

    ghost view = { λ b. record { unit = record { program = b.program.now; tables = b.tables.now }; bodies = b.bodies.now; number = b.number } };

    ghost invariant = { λ b. IsBody (record { unit = record { program = b.program.now; tables = b.tables.now }; bodies = b.bodies.now; number = b.number }) };
}

impl<'a> MethodBody<'a> {
    pub fn new(unit: &'a Unit, method: u32) -> MethodBody<'a>
        requires { method < length unit.now.tables }
        ensures unit { result.unit ≡ unit.entry.now }
        ensures number { result.number ≡ method }
    {
        unit.resolved();
        MethodBody {
            program: unit.program(),
            tables: unit.tables(),
            bodies: unit.bodies(),
            number: method as usize,
        }
    }

    /// What every body keeps.
    pub fn kept(&self)
        ensures { IsBody self.now }
    {
        let _ = &self.number;
    }

    /// The variables of the method.
    pub fn vars(&self) -> &[VarInfo]
        ensures { result.now ≡ vars_at self.now.unit self.now.number }
    {
        self.tables[self.number].vars.as_slice()
    }

    pub fn method(&self) -> &Method
        ensures { method_at self.now.unit self.now.number ≡ Some result.now }
    {
        method_of(self.program, &self.tables[self.number])
    }

    pub fn stmt(&self, at: u32) -> &Stmt
        requires { IsStmtOf self.now.unit self.now.number at }
        ensures { slice_get self.now.unit.program.stmts at ≡ Some result.now }
    {
        &self.program.stmts()[at as usize]
    }

    /// What the step of the statement at a place does.
    pub fn action(&self, at: u32) -> Action
        requires { IsStmtOf self.now.unit self.now.number at }
        ensures { (s : stmts.Stmt) → slice_get self.now.unit.program.stmts at ≡ Some s → Says (setting_of self.now) self.now.bodies s s.kind result }
    {
        let place = self.bodies.places.as_slice()[at as usize];
        self.bodies.steps.as_slice()[place as usize].action
    }

    /// What the method returns. Its last step is its `return`.
    pub fn back(&self) -> Argument
        ensures { ReturnsBack self.now result }
    {
        let entry = self.bodies.entries.as_slice()[self.number];
        match self.bodies.steps.as_slice()[entry.last as usize].action {
            Action::Return(value) => value,
            _ => Argument::Consume(0),
        }
    }

    /// The operations of which expressions are stretches.
    pub fn operations(&self) -> &[Operation]
        ensures { result.now ≡ self.now.bodies.operations }
    {
        self.bodies.operations.as_slice()
    }

    /// The arguments of which those of a call are a stretch.
    pub fn arguments(&self) -> &[Argument]
        ensures { result.now ≡ self.now.bodies.arguments }
    {
        self.bodies.arguments.as_slice()
    }

    /// The declared type of a variable, if it is known.
    pub fn ty(&self, x: u32) -> Option<Ty>
        ensures { result ≡ type_of (context_of self.now) x }
    {
        self.kept();
        type_among(self.vars(), x)
    }

    /// The declared type of a field of a variable, if both are known.
    pub fn field(&self, y: u32, f: u32) -> Option<Ty>
        ensures { result ≡ field_type (context_of self.now) y f }
    {
        match self.ty(y) {
            Some(Ty::Ref(_, Shape::Class(class))) => field_in(self.program, class, f),
            _ => None,
        }
    }

    /// The method with a number in the unit, if it is there.
    pub fn routine(&self, n: u32) -> Option<&Method>
        ensures some { IfSome result (λ d. IsRoutineOf self.now.unit n d.now) }
        ensures none { IsNone result → slice_get (code_of self.now.unit).routines n ≡ None }
    {
        match self.tables.get(n as usize) {
            Some(table) => Some(method_of(self.program, table)),
            None => None,
        }
    }
}

fn type_among(vars: &[VarInfo], x: u32) -> Option<Ty>
    ensures { result ≡ slice_get (map (λ v. v.ty) vars.now) x }
{
    match vars.get(x as usize) {
        Some(var) => Some(var.ty),
        None => None,
    }
}

fn field_among(fields: &[FieldDecl], f: u32) -> Option<Ty>
    ensures { result ≡ slice_get (map (λ d. d.ty) fields.now) f }
{
    match fields.get(f as usize) {
        Some(field) => Some(field.ty),
        None => None,
    }
}

/// The type of a field of the class with a number.
fn field_in(program: &Program, class: u32, f: u32) -> Option<Ty>
    ensures { result ≡ field_among (slice_get (map (λ c. map (λ d. d.ty) c.fields) program.now.classes) class) f }
{
    match program.classes().get(class as usize) {
        Some(class) => field_among(class.fields.as_slice(), f),
        None => None,
    }
}

/// The method of a table.
fn method_of<'a>(program: &'a Program, table: &MethodTable) -> &'a Method
    requires { IsMethodTable program.now table.now }
    ensures { method_of program.now table.now ≡ Some result.now }
{
    let class = &program.classes()[table.class as usize];
    &class.methods.as_slice()[table.method as usize]
}
