//! The bodies of a unit's methods are numbered: each name becomes the number of what it means, and each statement a step that leads on to others.

ghost use Rattle.std.specs.Prelude.{IfOk};
ghost use Rattle.perm_tree.specs.Links.{AreBodies};
ghost use Rattle.perm_tree.specs.Resolves.{IsResolved};

mod blocks;
mod emit;
mod expressions;
mod methods;
mod names;
mod run;
mod simple;
mod writes;

use crate::numbering::methods::number_methods;
use crate::numbering::run::{main_fields, run_place};
use crate::numbers::number;
use perm_tree::bodies::Bodies;
use perm_tree::errors::NoMemory;
use perm_tree::program::Program;
use perm_tree::unit::MethodTable;
use std::alloc::Global;

/// The bodies of all methods of a resolved program.
pub fn bodies_of(
    alloc: Global,
    program: &Program,
    tables: &[MethodTable],
) -> Result<Bodies, NoMemory>
    requires { IsResolved (record { program = program.now; tables = tables.now }) }
    ensures { IfOk result (AreBodies (record { program = program.now; tables = tables.now })) }
{
    let mut bodies = number_methods(alloc, program, tables)?;
    bodies.run = number(run_place(program, tables))?;
    bodies.fields = number(main_fields(program))?;
    Ok(bodies)
}
