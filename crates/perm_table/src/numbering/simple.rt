//! Simple statements.

ghost use Rattle.std.specs.Prelude.{◌<◌, length, None, Some, IfOk};
ghost use Rattle.perm_tree.specs.declared.bodies.Bodies.{Bodies};
ghost use Rattle.perm_tree.specs.Code as code;
ghost use Rattle.perm_tree.specs.CodeNames.{argument, call as call_of, field_at, read, term_at, var_at};
ghost use Rattle.perm_tree.specs.CodeOf.{code_of};
ghost use Rattle.perm_tree.specs.Lookup.{class_place};
ghost use Rattle.perm_tree.specs.Places.{ArgPlaced, ArgsPlaced};
ghost use Rattle.perm_table.specs.Numbered.{assigns, does, states, IsSimpleKind, IsSimpleRhs, TellsCode};
ghost use Rattle.perm_table.specs.Numbering.{setting_of};

use crate::numbering::expressions::{number_argument, number_arguments, number_expression};
use crate::numbering::names::Names;
use crate::numbers::number;
use perm_tree::ast::{Arg, Call, Ident, Rhs, StmtKind};
use perm_tree::bodies::{Action, Bodies, Invocation};
use perm_tree::errors::NoMemory;
use std::alloc::Global;

/// Numbers a statement without blocks.
pub fn number_simple(
    alloc: Global,
    bodies: &mut Bodies,
    names: &Names<'_>,
    kind: &StmtKind,
) -> Result<Action, NoMemory>
    requires { IsSimpleKind (length names.now.tables.program.exprs) kind.now }
    ensures { IfOk result (TellsCode bodies.old bodies.new (code_of names.now.tables) (states (setting_of names.now) kind.now)) }
{
    match kind {
        StmtKind::Declare(_, x) => declare(names, *x),
        StmtKind::Assign(_, x, rhs) => {
            let x = names.variable(*x)?;
            number_assignment(alloc, bodies, names, x, rhs)
        }
        StmtKind::SetField(y, f, arg) => store_field(alloc, bodies, names, *y, *f, *arg),
        StmtKind::SetItem(y, index, root) => store_item(alloc, bodies, names, *y, *index, *root),
        StmtKind::Call(call) => number_call(alloc, bodies, names, None, call),
        StmtKind::Print(root) => print(alloc, bodies, names, *root),
        StmtKind::If(_, _, _) => unreachable!(),
        StmtKind::While(_, _) => unreachable!(),
        StmtKind::Par(_, _) => unreachable!(),
    }
}

/// Numbers an assignment to a variable, but for that of a recover block.
fn number_assignment(
    alloc: Global,
    bodies: &mut Bodies,
    names: &Names<'_>,
    x: u32,
    rhs: &Rhs,
) -> Result<Action, NoMemory>
    requires { IsSimpleRhs (length names.now.tables.program.exprs) rhs.now }
    ensures { IfOk result (TellsCode bodies.old bodies.new (code_of names.now.tables) (assigns (setting_of names.now) x rhs.now)) }
{
    match rhs {
        Rhs::Value(arg) => assign(alloc, bodies, names, x, *arg),
        Rhs::Field(y, f) => load(names, x, *y, *f),
        Rhs::TakeField(y, f) => take_field(names, x, *y, *f),
        Rhs::Item(y, root) => load_item(alloc, bodies, names, x, *y, *root),
        Rhs::New(class) => new_object(names, x, *class),
        Rhs::NewArray(root) => new_array(alloc, bodies, names, x, *root),
        Rhs::Call(call) => number_call(alloc, bodies, names, Some(x), call),
        Rhs::Recover(_, _, _) => unreachable!(),
    }
}

fn declare(names: &Names<'_>, x: Ident) -> Result<Action, NoMemory>
    ensures { (b : Bodies) → IfOk result (TellsCode b b (code_of names.now.tables) (does (code.Declare (var_at (setting_of names.now) x)))) }
{
    Ok(Action::Declare(names.variable(x)?))
}

fn assign(
    alloc: Global,
    bodies: &mut Bodies,
    names: &Names<'_>,
    x: u32,
    arg: Arg,
) -> Result<Action, NoMemory>
    requires { ArgPlaced (length names.now.tables.program.exprs) arg }
    ensures { IfOk result (TellsCode bodies.old bodies.new (code_of names.now.tables) (does (code.Assign x (argument (setting_of names.now) arg)))) }
{
    let argument = number_argument(alloc, bodies, names, arg)?;
    Ok(Action::Assign(x, argument))
}

/// A load of a field, or of the length of an array.
fn load(names: &Names<'_>, x: u32, y: Ident, f: Ident) -> Result<Action, NoMemory>
    ensures { (b : Bodies) → IfOk result (TellsCode b b (code_of names.now.tables) (does (read (setting_of names.now) x y f))) }
{
    let from = names.variable(y)?;
    if names.is_length(y, f) {
        return Ok(Action::LoadLength(x, from));
    }
    Ok(Action::LoadField(x, from, names.field(y, f)?))
}

fn take_field(names: &Names<'_>, x: u32, y: Ident, f: Ident) -> Result<Action, NoMemory>
    ensures { (b : Bodies) → IfOk result (TellsCode b b (code_of names.now.tables) (does (code.TakeField x (var_at (setting_of names.now) y) (field_at (setting_of names.now) y f)))) }
{
    let from = names.variable(y)?;
    let field = names.field(y, f)?;
    Ok(Action::TakeField(x, from, field))
}

fn load_item(
    alloc: Global,
    bodies: &mut Bodies,
    names: &Names<'_>,
    x: u32,
    y: Ident,
    root: u32,
) -> Result<Action, NoMemory>
    requires { root < length names.now.tables.program.exprs }
    ensures { IfOk result (TellsCode bodies.old bodies.new (code_of names.now.tables) (does (code.LoadItem x (var_at (setting_of names.now) y) (term_at (setting_of names.now) root)))) }
{
    let from = names.variable(y)?;
    let index = number_expression(alloc, bodies, names, root)?;
    Ok(Action::LoadItem(x, from, index))
}

fn new_object(names: &Names<'_>, x: u32, name: Ident) -> Result<Action, NoMemory>
    ensures { (b : Bodies) → IfOk result (TellsCode b b (code_of names.now.tables) (does (code.NewObject x (class_place names.now.tables.program name.name)))) }
{
    let class = names.class(name);
    let fields = names.fields(class)?;
    Ok(Action::NewObject(x, class, fields))
}

fn new_array(
    alloc: Global,
    bodies: &mut Bodies,
    names: &Names<'_>,
    x: u32,
    root: u32,
) -> Result<Action, NoMemory>
    requires { root < length names.now.tables.program.exprs }
    ensures { IfOk result (TellsCode bodies.old bodies.new (code_of names.now.tables) (does (code.NewArray x (term_at (setting_of names.now) root)))) }
{
    let count = number_expression(alloc, bodies, names, root)?;
    Ok(Action::NewArray(x, count))
}

fn store_field(
    alloc: Global,
    bodies: &mut Bodies,
    names: &Names<'_>,
    y: Ident,
    f: Ident,
    arg: Arg,
) -> Result<Action, NoMemory>
    requires { ArgPlaced (length names.now.tables.program.exprs) arg }
    ensures { IfOk result (TellsCode bodies.old bodies.new (code_of names.now.tables) (does (code.StoreField (var_at (setting_of names.now) y) (field_at (setting_of names.now) y f) (argument (setting_of names.now) arg)))) }
{
    let into = names.variable(y)?;
    let field = names.field(y, f)?;
    let argument = number_argument(alloc, bodies, names, arg)?;
    Ok(Action::StoreField(into, field, argument))
}

fn store_item(
    alloc: Global,
    bodies: &mut Bodies,
    names: &Names<'_>,
    y: Ident,
    index: u32,
    root: u32,
) -> Result<Action, NoMemory>
    requires index { index < length names.now.tables.program.exprs }
    requires root { root < length names.now.tables.program.exprs }
    ensures { IfOk result (TellsCode bodies.old bodies.new (code_of names.now.tables) (does (code.StoreItem (var_at (setting_of names.now) y) (term_at (setting_of names.now) index) (term_at (setting_of names.now) root)))) }
{
    let into = names.variable(y)?;
    let place = number_expression(alloc, bodies, names, index)?;
    let value = number_expression(alloc, bodies, names, root)?;
    Ok(Action::StoreItem(into, place, value))
}

fn number_call(
    alloc: Global,
    bodies: &mut Bodies,
    names: &Names<'_>,
    into: Option<u32>,
    call: &Call,
) -> Result<Action, NoMemory>
    requires { ArgsPlaced (length names.now.tables.program.exprs) call.now.args }
    ensures { IfOk result (TellsCode bodies.old bodies.new (code_of names.now.tables) (does (call_of (setting_of names.now) into call.now))) }
{
    let receiver = names.variable(call.on)?;
    let routine = names.routine(call.on, call.method)?;
    let first = number(bodies.arguments.len())?;
    let count = number(call.args.len())?;
    number_arguments(alloc, bodies, names, call.args.as_slice())?;
    Ok(Action::Invoke(Invocation {
        into,
        consumed: call.consumed,
        receiver,
        routine,
        first,
        count,
    }))
}

fn print(
    alloc: Global,
    bodies: &mut Bodies,
    names: &Names<'_>,
    root: u32,
) -> Result<Action, NoMemory>
    requires { root < length names.now.tables.program.exprs }
    ensures { IfOk result (TellsCode bodies.old bodies.new (code_of names.now.tables) (does (code.Print (term_at (setting_of names.now) root)))) }
{
    let expression = number_expression(alloc, bodies, names, root)?;
    Ok(Action::Print(expression))
}
