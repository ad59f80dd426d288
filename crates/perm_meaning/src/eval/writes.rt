//! Which variables blocks assign or consume, run or not.

ghost use Rattle.std.specs.Prelude.{◌≡◌, ◌||◌, map};
ghost use Rattle.perm_tree.specs.declared.ast.Rhs.{Rhs};
ghost use Rattle.perm_tree.specs.declared.ast.StmtKind.TheVariants.{Assign};
ghost use Rattle.perm_tree.specs.Code.{Code};
ghost use Rattle.perm_tree.specs.CodeNames.{argument, own_vars, var_at};
ghost use Rattle.perm_tree.specs.CodeOf.{block_code, stmt_code};
ghost use Rattle.perm_tree.specs.InBody.{setting_at};
ghost use Rattle.perm_tree.specs.Mentions.{argument_consumes, arguments_consume, written};
ghost use Rattle.perm_tree.specs.Scopes.{declared_at, declared_by};
ghost use Rattle.perm_tree.specs.Vars.{just, those};
ghost use Rattle.perm_meaning.specs.Evaluator.Writes.{call_consumes, from_block, kind_gives, kind_writes, part_writes, rhs_consumes, rhs_gives, stmt_writes};

use super::names;
use super::own::infos;
use super::parts::{Part, first_of, second_of, stmts_of};
use perm_tree::ast::{Arg, Call, Ident, Rhs, StmtKind, Ty};
use perm_tree::unit::Unit;

/// Whether a part of a method writes a variable that it doesn't declare itself.
pub fn part_writes(unit: &Unit, method: usize, part: Part, x: usize) -> bool
    ensures { result ≡ part_writes unit.now method part x }
{
    let stmts = stmts_of(unit, method, part);
    let inner = some_writes(unit, method, stmts, x);
    from_block(unit, method, stmts, inner, x)
}

/// Whether one of the statements at these places writes a variable.
#[cycle(writes)]
fn some_writes(unit: &Unit, method: usize, stmts: &[u32], x: usize) -> bool
    ensures { (end : Code) → written (block_code (setting_at unit.now method) stmts.now end) x ≡ (result || written end x) }
{
    'stmts: for at in stmts {
        if writes_at(unit, method, *at, x) {
            return true;
        }
    }
    false
}

/// Whether the statement at a place writes a variable.
#[cycle(writes)]
fn writes_at(unit: &Unit, method: usize, at: u32, x: usize) -> bool
    ensures { (rest : Code) → written (stmt_code (setting_at unit.now method) at rest) x ≡ (result || written rest x) }
{
    let Some(stmt) = unit.program().stmts().get(at as usize) else {
        return false;
    };
    let first = some_writes(unit, method, first_of(&stmt.kind), x);
    let second = some_writes(unit, method, second_of(&stmt.kind), x);
    stmt_writes(unit, method, &stmt.kind, first, second, x)
}

/// Whether a statement writes a variable, by whether the statements of its blocks do.
fn stmt_writes(
    unit: &Unit,
    method: usize,
    kind: &StmtKind,
    first: bool,
    second: bool,
    x: usize,
) -> bool
    ensures { result ≡ stmt_writes (setting_at unit.now method) kind.now first second x }
{
    let own = kind_writes(unit, method, kind, x);
    let given = first | kind_gives(unit, method, kind, x);
    let first = from_block(unit, method, first_of(kind), given, x);
    let second = from_block(unit, method, second_of(kind), second, x);
    own | (first | second)
}

/// Whether a block writes an outer variable, by whether its code writes it.
fn from_block(unit: &Unit, method: usize, stmts: &[u32], inner: bool, x: usize) -> bool
    ensures { result ≡ from_block (setting_at unit.now method) stmts.now inner x }
{
    inner && !some_declares(unit, method, stmts, x)
}

/// Whether one of the statements at these places declares a variable in its block.
fn some_declares(unit: &Unit, method: usize, stmts: &[u32], x: usize) -> bool
    ensures { result ≡ those (own_vars (setting_at unit.now method) stmts.now) x }
{
    'stmts: for at in stmts {
        if declares_at(unit, method, *at, x) {
            return true;
        }
    }
    false
}

/// Whether the statement at a place does.
fn declares_at(unit: &Unit, method: usize, at: u32, x: usize) -> bool
    ensures { result ≡ those (map (λ d. var_at (setting_at unit.now method) d.name) (declared_at unit.now.program.stmts at)) x }
{
    match unit.program().stmts().get(at as usize) {
        Some(stmt) => declares(unit, method, &stmt.kind, x),
        None => false,
    }
}

/// Whether a statement does.
fn declares(unit: &Unit, method: usize, kind: &StmtKind, x: usize) -> bool
    ensures { result ≡ those (map (λ d. var_at (setting_at unit.now method) d.name) (declared_by kind.now)) x }
{
    match kind {
        StmtKind::Declare(_, y) => is_named(unit, method, *y, x),
        StmtKind::Assign(ty, y, _) => declares_typed(unit, method, ty, *y, x),
        _ => false,
    }
}

/// Whether an assignment does, which has a type or none.
fn declares_typed(unit: &Unit, method: usize, ty: &Option<Ty>, y: Ident, x: usize) -> bool
    ensures { (r : Rhs) → result ≡ those (map (λ d. var_at (setting_at unit.now method) d.name) (declared_by (Assign ty.now y r))) x }
{
    match ty {
        Some(_) => is_named(unit, method, y, x),
        None => false,
    }
}

/// A variable has this name where it stands.
fn is_named(unit: &Unit, method: usize, y: Ident, x: usize) -> bool
    ensures { result ≡ just (var_at (setting_at unit.now method) y) x }
{
    names::variable(infos(unit, method), y) == x
}

/// Whether a statement writes a variable, but for its blocks.
fn kind_writes(unit: &Unit, method: usize, kind: &StmtKind, x: usize) -> bool
    ensures { result ≡ kind_writes (setting_at unit.now method) kind.now x }
{
    match kind {
        StmtKind::Assign(_, y, r) => {
            rhs_consumes(unit, method, r, x) | is_named(unit, method, *y, x)
        }
        StmtKind::SetField(_, _, a) => argument_consumes(unit, method, a, x),
        StmtKind::Call(c) => call_consumes(unit, method, c, x),
        _ => false,
    }
}

/// Whether a right side consumes a variable, but for its block.
fn rhs_consumes(unit: &Unit, method: usize, r: &Rhs, x: usize) -> bool
    ensures { result ≡ rhs_consumes (setting_at unit.now method) r.now x }
{
    match r {
        Rhs::Value(a) => argument_consumes(unit, method, a, x),
        Rhs::Call(c) => call_consumes(unit, method, c, x),
        _ => false,
    }
}

/// Whether a call consumes a variable.
fn call_consumes(unit: &Unit, method: usize, c: &Call, x: usize) -> bool
    ensures { result ≡ call_consumes (setting_at unit.now method) c.now x }
{
    let on = c.consumed & is_named(unit, method, c.on, x);
    on | arguments_consume(unit, method, c.args.as_slice(), x)
}

/// Whether one of some arguments consumes a variable.
fn arguments_consume(unit: &Unit, method: usize, args: &[Arg], x: usize) -> bool
    ensures { result ≡ arguments_consume (map (argument (setting_at unit.now method)) args.now) x }
{
    'args: for a in args {
        if argument_consumes(unit, method, a, x) {
            return true;
        }
    }
    false
}

/// Whether an argument consumes a variable.
fn argument_consumes(unit: &Unit, method: usize, a: &Arg, x: usize) -> bool
    ensures { result ≡ argument_consumes (argument (setting_at unit.now method) a.now) x }
{
    match a {
        Arg::Expr(_) => false,
        Arg::Consume(y) => is_named(unit, method, *y, x),
    }
}

/// Whether a variable stands in the `give` at the end of a statement's first block.
fn kind_gives(unit: &Unit, method: usize, kind: &StmtKind, x: usize) -> bool
    ensures { result ≡ kind_gives (setting_at unit.now method) kind.now x }
{
    match kind {
        StmtKind::Assign(_, y, r) => rhs_gives(unit, method, *y, r, x),
        _ => false,
    }
}

/// Whether a variable stands in the `give` of a recover block that gives y a value.
fn rhs_gives(unit: &Unit, method: usize, y: Ident, r: &Rhs, x: usize) -> bool
    ensures { result ≡ rhs_gives (setting_at unit.now method) (var_at (setting_at unit.now method) y) r.now x }
{
    match r {
        Rhs::Recover(_, w, _) => is_named(unit, method, *w, x) | is_named(unit, method, y, x),
        _ => false,
    }
}
