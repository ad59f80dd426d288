//! The names of a program: the first refusal of them, and the unit in which they are numbers.
#![tactic(auto)]

ghost use Rattle.std.specs.Prelude.{◌≡◌, ◌≢◌, ℕ, IfErr, IfOk};
ghost use Rattle.perm_tree.specs.Lookup.{class_place};
ghost use Rattle.perm_tree.specs.Names.{main_run, names_refusal, refusal_from, run_refusal};
ghost use Rattle.perm_tree.specs.Resolves.{resolved, IsResolved, Resolves};
ghost use Rattle.perm_tree.specs.Scopes.{tables_of};
ghost use Rattle.perm_tree.specs.WellFormed.{IsWellFormed};
ghost use Rattle.perm_table.specs.Findings.{findings, first_before, told_if};
ghost use Rattle.perm_table.specs.Numbers.{number_in};

mod classes;
mod numbering;
mod numbers;
mod refusals;
mod run;
mod tables;

use crate::classes::class_map;
use crate::numbering::bodies_of;
use crate::numbers::ClassNumbers;
use crate::refusals::{Finding, first_finding, first_unknown};
use crate::run::run_refusal;
use crate::tables::tables_of;
use perm_tree::errors::{NoMemory, TableError};
use perm_tree::list::List;
use perm_tree::program::Program;
use perm_tree::unit::{MethodTable, Unit};
use std::alloc::Global;

/// Resolves the names of a program. The program is dropped with a refusal.
pub fn resolve(alloc: Global, program: Program) -> Result<Unit, TableError>
    ensures resolved { IfOk result (λ unit. Resolves program unit) }
    ensures refused { IfErr result (λ e. e ≢ TableError.NoMemory → names_refusal program ≡ Some e) }
{
    let Named {
        program,
        tables,
        refusal,
    } = look_up(alloc, program)?;
    match refusal {
        Some(error) => Err(error),
        None => Ok(unit_of(alloc, program, tables)?),
    }
}

/// A program with numbers for class names, the tables of its methods, and the first refusal of its names.
#[derive(Drop)]
struct Named {
    program: Program,
    tables: List<MethodTable>,
    refusal: Option<TableError>,
}

/// Looks up the names of a program.
fn look_up(alloc: Global, program: Program) -> Result<Named, NoMemory>
    ensures formed { IfOk result (λ _. IsWellFormed program) }
    ensures program { IfOk result (λ named. named.program ≡ resolved program) }
    ensures tables { IfOk result (λ named. named.tables ≡ tables_of named.program) }
    ensures refusal { IfOk result (λ named. named.refusal ≡ names_refusal program) }
{
    let numbers = ClassNumbers::new(alloc, program.classes())?;
    let unknown = first_unknown(&program, &numbers);
    let numbered = number_classes(alloc, program, &numbers)?;
    let tables = tables_of(alloc, &numbered)?;
    let refusal = first_refusal(alloc, &numbered, tables.as_slice(), unknown)?;
    Ok(Named {
        program: numbered,
        tables,
        refusal,
    })
}

/// The unit of a program with numbers for class names, of whose names nothing is refused.
fn unit_of(alloc: Global, program: Program, tables: List<MethodTable>) -> Result<Unit, NoMemory>
    requires { IsResolved (record { program = program; tables = tables }) }
    ensures { IfOk result (λ unit. unit ≡ record { program = program; tables = tables }) }
{
    let classes = class_map(alloc, &program)?;
    let bodies = bodies_of(alloc, &program, tables.as_slice())?;
    Ok(Unit::new(program, classes, tables, bodies))
}

/// The program in which types and mentions have the numbers of classes for their names.
fn number_classes(
    alloc: Global,
    program: Program,
    numbers: &ClassNumbers,
) -> Result<Program, NoMemory>
    requires { (name : ℕ) → number_in numbers.now name ≡ class_place program name }
    ensures formed { IfOk result (λ _. IsWellFormed program) }
    ensures program { IfOk result (λ numbered. numbered ≡ resolved program) }
{
    let (rest, parts) = program.into_parts(alloc);
    let parts = numbers.parts(alloc, parts)?;
    Ok(rest.with(parts).finish())
}

/// The first refusal at a name, where that of a class name is given; else that of `Main` and its `Run`.
fn first_refusal(
    alloc: Global,
    program: &Program,
    tables: &[MethodTable],
    unknown: Option<Finding>,
) -> Result<Option<TableError>, NoMemory>
    ensures { IfOk result (λ r. r ≡ refusal_from (first_before (findings program.now tables.now) (told_if unknown)) (run_refusal (main_run program.now))) }
{
    match first_finding(alloc, program, tables, unknown)? {
        Some(found) => Ok(Some(found.what)),
        None => Ok(run_refusal(program)),
    }
}
