//! The blocks of a method.

ghost use Rattle.std.specs.Prelude.{◌≡◌, option_copied};
ghost use Rattle.perm_tree.specs.InBody.{method_at};
ghost use Rattle.perm_tree.specs.Scopes.{else_stmts};
ghost use Rattle.perm_meaning.specs.Evaluator.Parts.{first_stmts, recover_stmts, second_stmts, stmts_in};

use super::names::method_of;
use perm_tree::ast::{Block, Method, Rhs, StmtKind};
use perm_tree::unit::Unit;

/// A block: the body of the method, or the first or the second block of the statement at a place.
#[derive(Clone, Copy, Debug)]
pub enum Part {
    Body,
    First(u32),
    Second(u32),
}

/// The method with this number.
pub fn method(unit: &Unit, method: usize) -> Option<&Method>
    ensures { option_copied result ≡ method_at unit.now method }
{
    match unit.tables().get(method) {
        Some(table) => method_of(unit.program(), table),
        None => None,
    }
}

/// The places of the statements of a block.
pub fn stmts_of(unit: &Unit, number: usize, part: Part) -> &[u32]
    ensures { result.now ≡ stmts_in unit.now number part }
{
    match part {
        Part::Body => match method(unit, number) {
            Some(method) => method.body.stmts.as_slice(),
            None => &[],
        },
        Part::First(at) => match unit.program().stmts().get(at as usize) {
            Some(stmt) => first_of(&stmt.kind),
            None => &[],
        },
        Part::Second(at) => match unit.program().stmts().get(at as usize) {
            Some(stmt) => second_of(&stmt.kind),
            None => &[],
        },
    }
}

/// The places of the statements of a statement's first block.
pub fn first_of(kind: &StmtKind) -> &[u32]
    ensures { result.now ≡ first_stmts kind.now }
{
    match kind {
        StmtKind::If(_, a, _) => a.stmts.as_slice(),
        StmtKind::While(_, a) => a.stmts.as_slice(),
        StmtKind::Par(a, _) => a.stmts.as_slice(),
        StmtKind::Assign(_, _, r) => recover_of(r),
        _ => &[],
    }
}

fn recover_of(r: &Rhs) -> &[u32]
    ensures { result.now ≡ recover_stmts r.now }
{
    match r {
        Rhs::Recover(block, _, _) => block.stmts.as_slice(),
        _ => &[],
    }
}

/// The same of its second block.
pub fn second_of(kind: &StmtKind) -> &[u32]
    ensures { result.now ≡ second_stmts kind.now }
{
    match kind {
        StmtKind::If(_, _, b) => else_of(b),
        StmtKind::Par(_, b) => b.stmts.as_slice(),
        _ => &[],
    }
}

fn else_of(block: &Option<Block>) -> &[u32]
    ensures { result.now ≡ else_stmts block.now }
{
    match block {
        Some(block) => block.stmts.as_slice(),
        None => &[],
    }
}
