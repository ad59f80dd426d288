//! What names mean within a method. What isn't there has the number past the last.

ghost use Rattle.std.specs.Prelude.{◌≡◌, ◌&&◌, length, nat_eq, option_copied};
ghost use Rattle.std.specs.List.{position_or_len};
ghost use Rattle.perm_tree.specs.Lookup.{field_place, is_array, is_known_as, is_method_if, is_method_of, method_of, method_place, var_place, var_ty};
ghost use Rattle.perm_tree.specs.Spelling.{is_word, length_word};

use perm_tree::ast::{FieldDecl, Ident, Method, Shape, Ty};
use perm_tree::list::is_word;
use perm_tree::program::Program;
use perm_tree::unit::{MethodTable, VarInfo};

/// The number of the variable of a name where it stands.
pub fn variable(vars: &[VarInfo], x: Ident) -> usize
    ensures { result ≡ var_place vars.now x }
{
    vars.iter()
        .position(|var| is_known_as(x, var))
        .unwrap_or(vars.len())
}

/// The variable has this name, and the name stands in its scope.
fn is_known_as(x: Ident, var: &VarInfo) -> bool
    ensures { result ≡ is_known_as x var.now }
{
    var.name == x.name && var.scope.start <= x.span.start && x.span.start < var.scope.end
}

/// The type of the variable of a name where it stands.
pub fn ty(vars: &[VarInfo], x: Ident) -> Option<Ty>
    ensures { result ≡ var_ty vars.now (var_place vars.now x) }
{
    match vars.get(variable(vars, x)) {
        Some(var) => Some(var.ty),
        None => None,
    }
}

/// Whether a member of a variable of this type is the length of an array.
pub fn is_length(program: &Program, ty: Option<Ty>, f: Ident) -> bool
    ensures { result ≡ (is_array ty && is_word program.now.names length_word f.name) }
{
    is_array(ty) && is_word(program.names(), b"Length", f.name)
}

fn is_array(ty: Option<Ty>) -> bool
    ensures { result ≡ is_array ty }
{
    match ty {
        Some(Ty::Ref(_, Shape::Array)) => true,
        _ => false,
    }
}

/// The number of a field in the class of a type.
pub fn field(program: &Program, ty: Option<Ty>, name: u32) -> usize
    ensures { result ≡ field_place program.now ty name }
{
    let Some(Ty::Ref(_, Shape::Class(class))) = ty else {
        return 0;
    };
    match program.classes().get(class as usize) {
        Some(class) => field_among(class.fields.as_slice(), name),
        None => 0,
    }
}

fn field_among(fields: &[FieldDecl], name: u32) -> usize
    ensures { result ≡ position_or_len (λ f. nat_eq f.name.name name) fields.now }
{
    fields
        .iter()
        .position(|field| field.name.name == name)
        .unwrap_or(fields.len())
}

/// The number in the unit of a method in the class of a type.
pub fn method(program: &Program, tables: &[MethodTable], ty: Option<Ty>, name: u32) -> usize
    ensures { result ≡ method_place (record { program = program.now; tables = tables.now }) ty name }
{
    let Some(Ty::Ref(_, Shape::Class(class))) = ty else {
        return tables.len();
    };
    method_among(program, class, tables, name)
}

fn method_among(program: &Program, class: u32, tables: &[MethodTable], name: u32) -> usize
    ensures { result ≡ position_or_len (is_method_of program.now class (λ n. nat_eq n name)) tables.now }
{
    tables
        .iter()
        .position(|table| is_method_of(program, class, name, table))
        .unwrap_or(tables.len())
}

/// The table is that of a method of this name in a class.
fn is_method_of(program: &Program, class: u32, name: u32, table: &MethodTable) -> bool
    ensures { result ≡ is_method_of program.now class (λ n. nat_eq n name) table.now }
{
    table.class == class && has_name(method_of(program, table), name)
}

fn has_name(method: Option<&Method>, name: u32) -> bool
    ensures { result ≡ is_method_if (λ n. nat_eq n name) (option_copied method.entry) }
{
    match method {
        Some(method) => method.name.name == name,
        None => false,
    }
}

/// The method of a table.
pub fn method_of<'a>(program: &'a Program, table: &MethodTable) -> Option<&'a Method>
    ensures { option_copied result ≡ method_of program.now table.now }
{
    match program.classes().get(table.class as usize) {
        Some(class) => class.methods.as_slice().get(table.method as usize),
        None => None,
    }
}
