//! What names mean within a method.

ghost use Rattle.std.specs.Prelude.{◌≡◌, ◌&&◌, length, nat_eq, slice_get, slice_index, IfOk};
ghost use Rattle.std.specs.List.{position, position_or_len};
ghost use Rattle.perm_tree.specs.BodyTerms.{HasFields};
ghost use Rattle.perm_tree.specs.CodeNames.{field_at, ty_at, var_at};
ghost use Rattle.perm_tree.specs.CodeOf.{code_of};
ghost use Rattle.perm_tree.specs.Lookup.{class_place, field_place, is_array, is_known_as, method_place, var_place, var_ty};
ghost use Rattle.perm_tree.specs.Scopes.{tables_of};
ghost use Rattle.perm_tree.specs.Spelling.{is_word, length_word};
ghost use Rattle.perm_table.specs.Numbering.{AreNumbersOf, class_in, field_count, firsts_from, method_number, setting_of};

use crate::numbers::{ClassNumbers, number};
use perm_tree::ast::{ClassDecl, FieldDecl, Ident, Method, Shape, Ty};
use perm_tree::errors::NoMemory;
use perm_tree::list::is_word;
use perm_tree::program::Program;
use perm_tree::unit::{MethodTable, VarInfo};
use std::alloc::Global;
use std::marker::Model;

/// The numbers of the classes of a program, and those of their first methods.
#[derive(Drop)]
pub struct UnitNumbers {
    classes: ClassNumbers,
    firsts: Vec<u32>,
}

impl UnitNumbers {
    pub fn new(alloc: Global, program: &Program) -> Result<UnitNumbers, NoMemory>
        ensures { IfOk result (AreNumbersOf program.now) }
    {
        let classes = ClassNumbers::new(alloc, program.classes())?;
        let firsts = first_methods(alloc, program.classes())?;
        Ok(UnitNumbers { classes, firsts })
    }
}

/// The number of the first method of each class.
fn first_methods(alloc: Global, classes: &[ClassDecl]) -> Result<Vec<u32>, NoMemory>
    ensures { IfOk result (λ firsts. firsts.items ≡ firsts_from 0 classes.now) }
{
    let mut firsts = Vec::new(alloc);
    let mut before = 0;
    'classes: for class in classes {
        firsts.push(before)?;
        before = number(before as usize + class.methods.len())?;
    }
    Ok(firsts)
}

/// What names mean within a method: the program and its tables, and the variables of the method.
#[derive(Drop)]
pub struct Names<'a> {
    program: &'a Program,
    tables: &'a [MethodTable],
    numbers: &'a UnitNumbers,
    vars: &'a [VarInfo],
}

impl<'a> Model for Names<'a> {
    ghost use Rattle.std.specs.Prelude.{◌≡◌};
    ghost use Rattle.perm_tree.specs.Scopes.{tables_of};
    ghost use Rattle.perm_table.specs.Numbering.{AreNumbersOf, Naming};

    ghost Value = { Naming };

    ghost view = { λ n. record { tables = record { program = n.program.now; tables = n.tables.now }; vars = n.vars.now } };

    ghost invariant = { λ n. (n.tables.now ≡ tables_of n.program.now) × AreNumbersOf n.program.now n.numbers.now };
}

impl<'a> Names<'a> {
    pub fn new(
        program: &'a Program,
        tables: &'a [MethodTable],
        numbers: &'a UnitNumbers,
        vars: &'a [VarInfo],
    ) -> Names<'a>
        requires tables { tables.now ≡ tables_of program.now }
        requires numbers { AreNumbersOf program.now numbers.now }
        ensures { result ≡ record { tables = record { program = program.entry.now; tables = tables.entry.now }; vars = vars.entry.now } }
    {
        Names {
            program,
            tables,
            numbers,
            vars,
        }
    }

    pub fn program(&self) -> &Program
        ensures { result.now ≡ self.now.tables.program }
    {
        self.program
    }

    /// The number of the variable of a name where it stands.
    pub fn variable(&self, x: Ident) -> Result<u32, NoMemory>
        ensures { IfOk result (λ n. n ≡ var_at (setting_of self.now) x) }
    {
        number(variable_among(self.vars, x))
    }

    /// The number of a field of a variable.
    pub fn field(&self, y: Ident, f: Ident) -> Result<u32, NoMemory>
        ensures { IfOk result (λ n. n ≡ field_at (setting_of self.now) y f) }
    {
        number(field_of(self.program, ty_among(self.vars, y), f.name))
    }

    /// Whether a member of a variable is the length of an array.
    pub fn is_length(&self, y: Ident, f: Ident) -> bool
        ensures { result ≡ (is_array (ty_at (setting_of self.now) y) && is_word self.now.tables.program.names length_word f.name) }
    {
        is_array(ty_among(self.vars, y)) && is_word(self.program.names(), b"Length", f.name)
    }

    /// The number of the class of a name.
    pub fn class(&self, name: Ident) -> u32
        ensures { result ≡ class_place self.now.tables.program name.name }
    {
        self.numbers.classes.number(name.name)
    }

    /// How many fields a class has.
    pub fn fields(&self, class: u32) -> Result<u32, NoMemory>
        ensures { IfOk result (HasFields (code_of self.now.tables) class) }
    {
        number(fields_of(self.program, class))
    }

    /// The number of a method of a variable.
    pub fn routine(&self, y: Ident, method: Ident) -> Result<u32, NoMemory>
        ensures { IfOk result (λ n. n ≡ method_place self.now.tables (ty_at (setting_of self.now) y) method.name) }
    {
        let count = self.tables.len();
        match class_of(ty_among(self.vars, y)) {
            Some(class) => number(method_of(
                self.program,
                self.numbers.firsts.as_slice(),
                count,
                class,
                method.name,
            )),
            None => number(count),
        }
    }
}

/// The place of the variable of a name where it stands.
fn variable_among(vars: &[VarInfo], x: Ident) -> usize
    ensures { result ≡ var_place vars.now x }
{
    vars.iter()
        .position(|var| is_known_as(x, var))
        .unwrap_or(vars.len())
}

/// The variable has this name, and the name stands in its scope.
fn is_known_as(x: Ident, var: &VarInfo) -> bool
    ensures { result ≡ is_known_as x var.now }
{
    var.name == x.name && var.scope.start <= x.span.start && x.span.start < var.scope.end
}

/// The type of the variable of a name where it stands.
fn ty_among(vars: &[VarInfo], x: Ident) -> Option<Ty>
    ensures { result ≡ var_ty vars.now (var_place vars.now x) }
{
    match vars.get(variable_among(vars, x)) {
        Some(var) => Some(var.ty),
        None => None,
    }
}

/// The class of a type.
fn class_of(ty: Option<Ty>) -> Option<u32>
    ensures { result ≡ class_in ty }
{
    match ty {
        Some(Ty::Ref(_, Shape::Class(class))) => Some(class),
        _ => None,
    }
}

fn is_array(ty: Option<Ty>) -> bool
    ensures { result ≡ is_array ty }
{
    match ty {
        Some(Ty::Ref(_, Shape::Array)) => true,
        _ => false,
    }
}

/// The place of a field in the class of a type.
fn field_of(program: &Program, ty: Option<Ty>, name: u32) -> usize
    ensures { result ≡ field_place program.now ty name }
{
    let Some(at) = class_of(ty) else {
        return 0;
    };
    match program.classes().get(at as usize) {
        Some(class) => field_among(class.fields.as_slice(), name),
        None => 0,
    }
}

/// The place of the field of a name.
fn field_among(fields: &[FieldDecl], name: u32) -> usize
    ensures { result ≡ position_or_len (λ f. nat_eq f.name.name name) fields.now }
{
    fields
        .iter()
        .position(|field| field.name.name == name)
        .unwrap_or(fields.len())
}

/// How many fields the class at a place has.
fn fields_of(program: &Program, at: u32) -> usize
    ensures { result ≡ field_count (slice_get program.now.classes at) }
{
    match program.classes().get(at as usize) {
        Some(class) => class.fields.len(),
        None => 0,
    }
}

/// The number of a method of the class at a place.
fn method_of(program: &Program, firsts: &[u32], count: usize, at: u32, name: u32) -> usize
    requires { firsts.now ≡ firsts_from 0 program.now.classes }
    ensures { result ≡ method_number (slice_index (firsts_from 0 program.now.classes) at) count (slice_get program.now.classes at) name }
{
    let Some(class) = program.classes().get(at as usize) else {
        return count;
    };
    match method_among(class.methods.as_slice(), name) {
        Some(place) => firsts[at as usize] as usize + place,
        None => count,
    }
}

/// The place of the method of a name.
fn method_among(methods: &[Method], name: u32) -> Option<usize>
    ensures { result ≡ position (λ d. nat_eq d.name.name name) methods.now }
{
    methods.iter().position(|method| method.name.name == name)
}
