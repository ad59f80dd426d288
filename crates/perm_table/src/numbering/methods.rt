//! Numbers the methods of a program, in text order.

ghost use Rattle.std.specs.Prelude.{◌≡◌, [], ◌∷◌, ◌++◌, length, replicate, IfOk, Some};
ghost use Rattle.perm_tree.specs.Lookup.{method_of};
ghost use Rattle.perm_tree.specs.Places.{MethodPlaced};
ghost use Rattle.perm_tree.specs.Resolves.{IsResolved};
ghost use Rattle.perm_table.specs.Emission.{AreEmitted, HasMethod, IsMethodEmitted};
ghost use Rattle.perm_table.specs.Numbering.{setting_of};
ghost use Rattle.perm_table.specs.StepPlaces.{HasPlaces};

use crate::numbering::blocks::number_block;
use crate::numbering::emit::emit;
use crate::numbering::expressions::number_argument;
use crate::numbering::names::{Names, UnitNumbers};
use crate::numbers::number;
use perm_tree::ast::Method;
use perm_tree::bodies::{Action, Bodies, Entry};
use perm_tree::errors::NoMemory;
use perm_tree::list::List;
use perm_tree::program::Program;
use perm_tree::unit::MethodTable;
use std::alloc::Global;

/// No method yet, and a place for the step of each statement.
fn empty(alloc: Global, stmts: usize) -> Result<Bodies, NoMemory>
    ensures { IfOk result (λ b. b ≡ record { operations = []; arguments = []; sides = []; steps = []; places = replicate stmts 0; entries = []; run = 0; fields = 0 }) }
{
    Ok(Bodies {
        operations: List::new(alloc),
        arguments: List::new(alloc),
        sides: List::new(alloc),
        steps: List::new(alloc),
        places: List::from_vec(vec![in alloc; 0; stmts]?),
        entries: List::new(alloc),
        run: 0,
        fields: 0,
    })
}

/// The method of a table.
fn method_of<'a>(program: &'a Program, table: &MethodTable) -> &'a Method
    requires { HasMethod program.now table.now }
    ensures found { method_of program.now table.now ≡ Some result.now }
    ensures placed { MethodPlaced (length program.now.exprs) (length program.now.stmts) result.now }
{
    let class = &program.classes()[table.class as usize];
    &class.methods.as_slice()[table.method as usize]
}

/// The `return` of a method comes first, and then its body, which leads to it.
fn number_method(
    alloc: Global,
    bodies: &mut Bodies,
    names: &Names<'_>,
    variables: u32,
    method: &Method,
) -> Result<(), NoMemory>
    requires variables { variables ≡ length names.now.vars }
    requires placed { MethodPlaced (length names.now.tables.program.exprs) (length names.now.tables.program.stmts) method.now }
    requires places { HasPlaces names.now bodies.old }
    ensures { IfOk result (λ _. IsMethodEmitted (setting_of names.now) bodies.old bodies.new method.now) }
{
    let back = number_argument(alloc, bodies, names, method.back)?;
    let end = emit(bodies, method.span, 0, Action::Return(back))?;
    let below = names.program().stmts().len();
    let body = number_block(
        alloc,
        bodies,
        names,
        below,
        method.body.stmts.as_slice(),
        end,
    )?;
    add_entry(bodies, body.first, end, variables)
}

fn add_entry(bodies: &mut Bodies, first: u32, last: u32, variables: u32) -> Result<(), NoMemory>
    ensures { IfOk result (λ _. bodies.new ≡ record bodies.old { entries = bodies.old.entries ++ record { first = first; last = last; variables = variables } ∷ [] }) }
{
    bodies.entries.push(Entry {
        first,
        last,
        variables,
    })
}

/// The bodies of all methods of a resolved program, but for where a run starts.
pub fn number_methods(
    alloc: Global,
    program: &Program,
    tables: &[MethodTable],
) -> Result<Bodies, NoMemory>
    requires { IsResolved (record { program = program.now; tables = tables.now }) }
    ensures { IfOk result (AreEmitted (record { program = program.now; tables = tables.now }) (length tables.now)) }
{
    let numbers = UnitNumbers::new(alloc, program)?;
    let mut bodies = empty(alloc, program.stmts().len())?;
    'tables: for table in tables {
        let vars = table.vars.as_slice();
        let names = Names::new(program, tables, &numbers, vars);
        let variables = number(vars.len())?;
        let method = method_of(program, table);
        number_method(alloc, &mut bodies, &names, variables, method)?;
    }
    Ok(bodies)
}
