//! The first refusal at a name. Names are met from the last to the first, and what is found of one comes before what was found behind it.

ghost use Rattle.std.specs.Prelude.{◌≡◌, [], ◌∷◌, None, IfOk, map, flat_map, option_to_list};
ghost use Rattle.perm_tree.specs.Names.{class_mentions, double_at, doubles, earlier, field_names, in_class, in_method, is_before, later, made_class, method_names, most, passing, var_names};
ghost use Rattle.perm_table.specs.Numbers.{knows_in};
ghost use Rattle.perm_table.specs.Findings.{double_with, findings, first_before, made_by, sooner, told, told_if, unknowns_by};

use crate::numbers::ClassNumbers;
use indexmap::IndexMap;
use perm_tree::ast::{ClassDecl, Ident, Rhs, Span, Stmt, StmtKind};
use perm_tree::errors::{Limit, NoMemory, TableError};
use perm_tree::program::Program;
use perm_tree::unit::MethodTable;
use std::alloc::Global;

/// A refusal at a name. Of those at one name the one with the lowest rank comes first.
#[derive(Clone, Copy)]
pub struct Finding {
    pub at: Span,
    pub rank: u8,
    pub what: TableError,
}

fn is_before(a: Finding, b: Finding) -> bool
    ensures { result ≡ is_before (told a) (told b) }
{
    (a.at.start < b.at.start) | ((a.at.start == b.at.start) & (a.rank <= b.rank))
}

/// The first of a finding and of those behind it.
fn earlier(a: Finding, rest: Option<Finding>) -> Finding
    ensures { told result ≡ earlier (told a) (told_if rest) }
{
    match rest {
        None => a,
        Some(b) => { if is_before(a, b) { a } else { b } }
    }
}

/// Of two names the one that comes later in the text.
fn later(i: Ident, j: Ident) -> Ident
    ensures { result ≡ later i j }
{
    if i.span.start < j.span.start { j } else { i }
}

fn double_at(i: Ident) -> Finding
    ensures { told result ≡ double_at i }
{
    Finding {
        at: i.span,
        rank: 1,
        what: TableError::DuplicateName { span: i.span },
    }
}

/// Of a name and another one the one that comes first in the text.
fn sooner(i: Ident, other: Option<Ident>) -> Ident
    ensures { result ≡ sooner i other }
{
    match other {
        None => i,
        Some(j) => { if i.span.start <= j.span.start { i } else { j } }
    }
}

/// Refuses the later one of a name and another one that equals it.
fn double_with(i: Ident, other: Option<Ident>, rest: Option<Finding>) -> Option<Finding>
    ensures { told_if result ≡ first_before (double_with i other) (told_if rest) }
{
    match other {
        None => rest,
        Some(j) => Some(earlier(double_at(later(i, j)), rest)),
    }
}

/// Looks for equal names in a group. A map has of the names met so far that are equal the one that comes first in the text.
fn doubles(
    alloc: Global,
    names: &[Ident],
    rest: Option<Finding>,
) -> Result<Option<Finding>, NoMemory>
    ensures { IfOk result (λ f. told_if f ≡ first_before (doubles names.now) (told_if rest)) }
{
    let mut first = rest;
    let mut firsts = IndexMap::new(alloc);
    'names: for name in names.iter().rev() {
        let equal = firsts.get(&name.name).copied();
        first = double_with(*name, equal, first);
        firsts.insert(name.name, sooner(*name, equal))?;
    }
    Ok(first)
}

fn most(limit: Limit) -> usize
    ensures { result ≡ most limit }
{
    match limit {
        Limit::Classes => 1000,
        Limit::Fields => 256,
        Limit::Methods => 256,
        Limit::Variables => 256,
    }
}

/// Looks for the name that passes a limit.
fn passing(limit: Limit, names: &[Ident], rest: Option<Finding>) -> Option<Finding>
    ensures { told_if result ≡ first_before (passing limit names.now) (told_if rest) }
{
    match names.get(most(limit)).copied() {
        None => rest,
        Some(name) => {
            let found = Finding {
                at: name.span,
                rank: 5,
                what: TableError::TooMany {
                    span: name.span,
                    limit,
                },
            };
            Some(earlier(found, rest))
        }
    }
}

fn field_names(alloc: Global, class: &ClassDecl) -> Result<Vec<Ident>, NoMemory>
    ensures { IfOk result (λ v. v.items ≡ field_names class.now) }
{
    Ok(class.fields.iter().map(|field| field.name).collect(alloc)?)
}

fn method_names(alloc: Global, class: &ClassDecl) -> Result<Vec<Ident>, NoMemory>
    ensures { IfOk result (λ v. v.items ≡ method_names class.now) }
{
    Ok(
        class
            .methods
            .iter()
            .map(|method| method.name)
            .collect(alloc)?,
    )
}

fn var_names(alloc: Global, table: &MethodTable) -> Result<Vec<Ident>, NoMemory>
    ensures { IfOk result (λ v. v.items ≡ var_names table.now) }
{
    Ok(
        table
            .vars
            .iter()
            .map(|var| Ident {
                name: var.name,
                span: var.declared,
            })
            .collect(alloc)?,
    )
}

fn class_names(alloc: Global, classes: &[ClassDecl]) -> Result<Vec<Ident>, NoMemory>
    ensures { IfOk result (λ v. v.items ≡ map (λ c. c.name) classes.now) }
{
    let mut names = Vec::new(alloc);
    'classes: for class in classes {
        names.push(class.name)?;
    }
    Ok(names)
}

/// The members of a class.
fn in_class(
    alloc: Global,
    class: &ClassDecl,
    rest: Option<Finding>,
) -> Result<Option<Finding>, NoMemory>
    ensures { IfOk result (λ f. told_if f ≡ first_before (in_class class.now) (told_if rest)) }
{
    let mut members = field_names(alloc, class)?;
    let methods = method_names(alloc, class)?;
    let past_methods = passing(Limit::Methods, methods.as_slice(), rest);
    let past_fields = passing(Limit::Fields, members.as_slice(), past_methods);
    members.extend_from_slice(methods.as_slice())?;
    doubles(alloc, members.as_slice(), past_fields)
}

/// The variables of a method.
fn in_method(
    alloc: Global,
    table: &MethodTable,
    rest: Option<Finding>,
) -> Result<Option<Finding>, NoMemory>
    ensures { IfOk result (λ f. told_if f ≡ first_before (in_method table.now) (told_if rest)) }
{
    let names = var_names(alloc, table)?;
    let past = passing(Limit::Variables, names.as_slice(), rest);
    doubles(alloc, names.as_slice(), past)
}

fn in_classes(
    alloc: Global,
    classes: &[ClassDecl],
    rest: Option<Finding>,
) -> Result<Option<Finding>, NoMemory>
    ensures { IfOk result (λ f. told_if f ≡ first_before (flat_map in_class classes.now) (told_if rest)) }
{
    let mut first = rest;
    'classes: for class in classes.iter().rev() {
        first = in_class(alloc, class, first)?;
    }
    Ok(first)
}

fn in_methods(
    alloc: Global,
    tables: &[MethodTable],
    rest: Option<Finding>,
) -> Result<Option<Finding>, NoMemory>
    ensures { IfOk result (λ f. told_if f ≡ first_before (flat_map in_method tables.now) (told_if rest)) }
{
    let mut first = rest;
    'tables: for table in tables.iter().rev() {
        first = in_method(alloc, table, first)?;
    }
    Ok(first)
}

/// A name that has to be that of a class.
fn mentioned(numbers: &ClassNumbers, name: Ident, rest: Option<Finding>) -> Option<Finding>
    ensures { told_if result ≡ first_before (unknowns_by (knows_in numbers.now) (name ∷ [])) (told_if rest) }
{
    if numbers.knows(name.name) {
        return rest;
    }
    let found = Finding {
        at: name.span,
        rank: 2,
        what: TableError::UnknownClass { span: name.span },
    };
    Some(earlier(found, rest))
}

fn in_mentions(numbers: &ClassNumbers, names: &[Ident], rest: Option<Finding>) -> Option<Finding>
    ensures { told_if result ≡ first_before (unknowns_by (knows_in numbers.now) names.now) (told_if rest) }
{
    let mut first = rest;
    'names: for name in names.iter().rev() {
        first = mentioned(numbers, *name, first);
    }
    first
}

/// The name behind `new` on a right side.
fn made_by(rhs: &Rhs) -> Option<Ident>
    ensures { option_to_list result ≡ made_by rhs.now }
{
    match rhs {
        Rhs::New(name) => Some(*name),
        _ => None,
    }
}

fn made_class(kind: &StmtKind) -> Option<Ident>
    ensures { option_to_list result ≡ made_class kind.now }
{
    match kind {
        StmtKind::Assign(_, _, rhs) => made_by(rhs),
        _ => None,
    }
}

fn in_stmt(numbers: &ClassNumbers, stmt: &Stmt, rest: Option<Finding>) -> Option<Finding>
    ensures { told_if result ≡ first_before (unknowns_by (knows_in numbers.now) (made_class stmt.now.kind)) (told_if rest) }
{
    match made_class(&stmt.kind) {
        Some(name) => mentioned(numbers, name, rest),
        None => rest,
    }
}

fn in_stmts(numbers: &ClassNumbers, stmts: &[Stmt], rest: Option<Finding>) -> Option<Finding>
    ensures { told_if result ≡ first_before (unknowns_by (knows_in numbers.now) (flat_map (λ s. made_class s.kind) stmts.now)) (told_if rest) }
{
    let mut first = rest;
    'stmts: for stmt in stmts.iter().rev() {
        first = in_stmt(numbers, stmt, first);
    }
    first
}

/// The first class name that no class has.
pub fn first_unknown(program: &Program, numbers: &ClassNumbers) -> Option<Finding>
    ensures { told_if result ≡ first_before (unknowns_by (knows_in numbers.now) (class_mentions program.now)) None }
{
    let made = in_stmts(numbers, program.stmts(), None);
    in_mentions(numbers, program.mentions(), made)
}

/// The first refusal at a name, where that of a class name is given.
pub fn first_finding(
    alloc: Global,
    program: &Program,
    tables: &[MethodTable],
    unknown: Option<Finding>,
) -> Result<Option<Finding>, NoMemory>
    ensures { IfOk result (λ f. told_if f ≡ first_before (findings program.now tables.now) (told_if unknown)) }
{
    let variables = in_methods(alloc, tables, unknown)?;
    let members = in_classes(alloc, program.classes(), variables)?;
    let names = class_names(alloc, program.classes())?;
    let past = passing(Limit::Classes, names.as_slice(), members);
    doubles(alloc, names.as_slice(), past)
}
