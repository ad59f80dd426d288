//! Numbers the statements of a method, the last one first, so that each leads on to steps that are there.

ghost use Rattle.std.specs.Prelude.{◌≡◌, ◌<◌, ◌≤◌, ◌++◌, length, slice_get, slice_index, IfOk, Some};
ghost use Rattle.perm_tree.specs.CodeOf.{block_code, codes_of, kind_code, stmt_code};
ghost use Rattle.perm_tree.specs.Places.{AllBelow, ElseBelow, IsPlaced, KindPlaced, RhsPlaced};
ghost use Rattle.perm_tree.specs.Scopes.{else_stmts};
ghost use Rattle.perm_tree.specs.declared.bodies.Action.TheVariants.{Give};
ghost use Rattle.perm_tree.specs.InBody.{inner_places};
ghost use Rattle.perm_tree.specs.StatementSteps.{Says, SaysTest};
ghost use Rattle.perm_table.specs.Emission.{if_code, par_code, recover_code, while_code, HasPar, IsAssignment, IsBlockEmitted, IsEmitted, IsStmtEmitted};
ghost use Rattle.perm_table.specs.Numbered.{IsSimpleKind};
ghost use Rattle.perm_table.specs.Numbering.{setting_of};
ghost use Rattle.perm_table.specs.StepPlaces.{block_holds, stmt_holds, within_stmt, HasPlaces, SaysAt};

use crate::numbering::emit::{Emitted, Fragment, add_sides, emit, name_step, settle};
use crate::numbering::expressions::number_expression;
use crate::numbering::names::Names;
use crate::numbering::simple::number_simple;
use crate::numbering::writes::{outer, with, written_by};
use perm_tree::ast::{Block, Ident, Rhs, Span, Stmt, StmtKind};
use perm_tree::bodies::{Action, Bodies, Sides};
use perm_tree::errors::NoMemory;
use perm_tree::var_set::VarSet;
use std::alloc::Global;

/// Where a statement is numbered: its place, its head, and the step that comes next.
#[derive(Clone, Copy)]
struct Site {
    at: usize,
    head: Span,
    next: u32,
}

/// The statements of a block before a step that comes next.
#[cycle(numbering)]
pub fn number_block(
    alloc: Global,
    bodies: &mut Bodies,
    names: &Names<'_>,
    below: usize,
    stmts: &[u32],
    next: u32,
) -> Result<Fragment, NoMemory>
    requires inside { AllBelow below stmts.now }
    requires below { below ≤ length names.now.tables.program.stmts }
    requires next { next < length bodies.old.steps }
    requires places { HasPlaces names.now bodies.old }
    ensures { IfOk result (IsEmitted (setting_of names.now) bodies.old next bodies.new (block_code (setting_of names.now) stmts.now) (block_holds (setting_of names.now) stmts.now)) }
{
    let mut first = next;
    let mut written = VarSet::new();
    for at in (0..stmts.len()).rev() {
        let stmt = number_stmt(alloc, bodies, names, place(below, stmts, at), first)?;
        first = stmt.first;
        written = written.union(stmt.written);
    }
    Ok(Fragment { first, written })
}

/// A place of a block.
fn place(below: usize, stmts: &[u32], at: usize) -> usize
    requires inside { AllBelow below stmts.now }
    requires at { at < length stmts.now }
    ensures place { result ≡ slice_index stmts.now at }
    ensures below { result < below }
{
    let _below = below;
    stmts[at] as usize
}

fn stmt_at<'a>(names: &'a Names<'_>, at: usize) -> &'a Stmt
    requires { at < length names.now.tables.program.stmts }
    ensures found { slice_get names.now.tables.program.stmts at ≡ Some result.now }
    ensures placed { KindPlaced (length names.now.tables.program.exprs) at result.now.kind }
    ensures program { IsPlaced names.now.tables.program }
{
    &names.program().stmts()[at]
}

/// The statement at a place, which is named once it is emitted.
#[cycle(numbering)]
fn number_stmt(
    alloc: Global,
    bodies: &mut Bodies,
    names: &Names<'_>,
    at: usize,
    next: u32,
) -> Result<Fragment, NoMemory>
    requires at { at < length names.now.tables.program.stmts }
    requires next { next < length bodies.old.steps }
    requires places { HasPlaces names.now bodies.old }
    ensures { IfOk result (IsEmitted (setting_of names.now) bodies.old next bodies.new (stmt_code (setting_of names.now) at) (stmt_holds (setting_of names.now) at)) }
{
    let Emitted { fragment, step } = number_kind(alloc, bodies, names, at, next)?;
    name_step(bodies, at, step);
    Ok(fragment)
}

/// The statement at a place, by its kind.
#[cycle(numbering)]
fn number_kind(
    alloc: Global,
    bodies: &mut Bodies,
    names: &Names<'_>,
    at: usize,
    next: u32,
) -> Result<Emitted, NoMemory>
    requires at { at < length names.now.tables.program.stmts }
    requires next { next < length bodies.old.steps }
    requires places { HasPlaces names.now bodies.old }
    ensures { IfOk result (IsStmtEmitted (setting_of names.now) bodies.old next bodies.new (stmt_code (setting_of names.now) at) (within_stmt (setting_of names.now) at) (SaysAt (setting_of names.now) bodies.new at)) }
{
    let stmt = stmt_at(names, at);
    let site = Site {
        at,
        head: stmt.head,
        next,
    };
    match &stmt.kind {
        StmtKind::If(e, yes, no) => number_if(alloc, bodies, names, site, *e, yes, no),
        StmtKind::While(e, body) => number_while(alloc, bodies, names, site, *e, body),
        StmtKind::Par(left, right) => number_par(alloc, bodies, names, site, left, right),
        StmtKind::Assign(_, x, rhs) => number_assignment(
            alloc, bodies, names, at, stmt, *x, rhs, next,
        ),
        _ => number_plain(alloc, bodies, names, stmt, next),
    }
}

/// An assignment, which may be a recover.
#[cycle(numbering)]
fn number_assignment(
    alloc: Global,
    bodies: &mut Bodies,
    names: &Names<'_>,
    at: usize,
    stmt: &Stmt,
    x: Ident,
    rhs: &Rhs,
    next: u32,
) -> Result<Emitted, NoMemory>
    requires is { IsAssignment stmt.now.kind x rhs.now }
    requires placed { KindPlaced (length names.now.tables.program.exprs) at stmt.now.kind }
    requires at { at < length names.now.tables.program.stmts }
    requires next { next < length bodies.old.steps }
    requires places { HasPlaces names.now bodies.old }
    ensures { IfOk result (IsStmtEmitted (setting_of names.now) bodies.old next bodies.new (kind_code (setting_of names.now) (codes_of (setting_of names.now)) stmt.now stmt.now.kind) (block_holds (setting_of names.now) (inner_places stmt.now)) (Says (setting_of names.now) bodies.new stmt.now stmt.now.kind)) }
{
    match rhs {
        Rhs::Recover(block, w, give) => {
            let w = names.variable(*w)?;
            let x = names.variable(x)?;
            let site = Site {
                at,
                head: stmt.head,
                next,
            };
            number_recover(alloc, bodies, names, site, x, block, w, *give)
        }
        _ => number_plain(alloc, bodies, names, stmt, next),
    }
}

/// A statement without blocks.
fn number_plain(
    alloc: Global,
    bodies: &mut Bodies,
    names: &Names<'_>,
    stmt: &Stmt,
    next: u32,
) -> Result<Emitted, NoMemory>
    requires simple { IsSimpleKind (length names.now.tables.program.exprs) stmt.now.kind }
    requires next { next < length bodies.old.steps }
    ensures { IfOk result (IsStmtEmitted (setting_of names.now) bodies.old next bodies.new (kind_code (setting_of names.now) (codes_of (setting_of names.now)) stmt.now stmt.now.kind) (block_holds (setting_of names.now) (inner_places stmt.now)) (Says (setting_of names.now) bodies.new stmt.now stmt.now.kind)) }
{
    let action = number_simple(alloc, bodies, names, &stmt.kind)?;
    let written = written_by(bodies, action);
    let first = emit(bodies, stmt.span, next, action)?;
    Ok(Emitted {
        fragment: Fragment { first, written },
        step: first,
    })
}

/// A block that stands alone, and what it writes of the outer variables.
#[cycle(numbering)]
fn number_braced(
    alloc: Global,
    bodies: &mut Bodies,
    names: &Names<'_>,
    below: usize,
    block: &Block,
    next: u32,
) -> Result<Fragment, NoMemory>
    requires inside { AllBelow below block.now.stmts }
    requires below { below ≤ length names.now.tables.program.stmts }
    requires next { next < length bodies.old.steps }
    requires places { HasPlaces names.now bodies.old }
    ensures { IfOk result (IsBlockEmitted (setting_of names.now) bodies.old next bodies.new block.now.stmts) }
{
    let stmts = block.stmts.as_slice();
    let Fragment { first, written } = number_block(alloc, bodies, names, below, stmts, next)?;
    Ok(Fragment {
        first,
        written: outer(written, names, below, stmts)?,
    })
}

/// The block behind `else`.
#[cycle(numbering)]
fn number_else(
    alloc: Global,
    bodies: &mut Bodies,
    names: &Names<'_>,
    below: usize,
    block: &Option<Block>,
    next: u32,
) -> Result<Fragment, NoMemory>
    requires inside { ElseBelow below block.now }
    requires below { below ≤ length names.now.tables.program.stmts }
    requires next { next < length bodies.old.steps }
    requires places { HasPlaces names.now bodies.old }
    ensures { IfOk result (IsBlockEmitted (setting_of names.now) bodies.old next bodies.new (else_stmts block.now)) }
{
    match block {
        Some(block) => number_braced(alloc, bodies, names, below, block, next),
        None => Ok(Fragment {
            first: next,
            written: VarSet::new(),
        }),
    }
}

#[cycle(numbering)]
fn number_if(
    alloc: Global,
    bodies: &mut Bodies,
    names: &Names<'_>,
    site: Site,
    condition: u32,
    yes: &Block,
    no: &Option<Block>,
) -> Result<Emitted, NoMemory>
    requires condition { condition < length names.now.tables.program.exprs }
    requires yes { AllBelow site.at yes.now.stmts }
    requires no { ElseBelow site.at no.now }
    requires at { site.at < length names.now.tables.program.stmts }
    requires next { site.next < length bodies.old.steps }
    requires places { HasPlaces names.now bodies.old }
    ensures { IfOk result (IsStmtEmitted (setting_of names.now) bodies.old site.next bodies.new (if_code (setting_of names.now) site.head condition yes.now.stmts (else_stmts no.now)) (block_holds (setting_of names.now) yes.now.stmts ++ block_holds (setting_of names.now) (else_stmts no.now)) (SaysTest (setting_of names.now) bodies.new condition)) }
{
    let no = number_else(alloc, bodies, names, site.at, no, site.next)?;
    let yes = number_braced(alloc, bodies, names, site.at, yes, site.next)?;
    let condition = number_expression(alloc, bodies, names, condition)?;
    let action = Action::If(condition, no.first);
    let first = emit(bodies, site.head, yes.first, action)?;
    let written = yes.written.union(no.written);
    Ok(Emitted {
        fragment: Fragment { first, written },
        step: first,
    })
}

/// The loop's own step takes its place before the body, which leads back to it.
#[cycle(numbering)]
fn number_while(
    alloc: Global,
    bodies: &mut Bodies,
    names: &Names<'_>,
    site: Site,
    condition: u32,
    body: &Block,
) -> Result<Emitted, NoMemory>
    requires condition { condition < length names.now.tables.program.exprs }
    requires body { AllBelow site.at body.now.stmts }
    requires at { site.at < length names.now.tables.program.stmts }
    requires next { site.next < length bodies.old.steps }
    requires places { HasPlaces names.now bodies.old }
    ensures { IfOk result (IsStmtEmitted (setting_of names.now) bodies.old site.next bodies.new (while_code (setting_of names.now) site.head condition body.now.stmts) (block_holds (setting_of names.now) body.now.stmts) (SaysTest (setting_of names.now) bodies.new condition)) }
{
    let condition = number_expression(alloc, bodies, names, condition)?;
    let first = emit(bodies, site.head, site.next, Action::End)?;
    let body = number_braced(alloc, bodies, names, site.at, body, first)?;
    settle(
        bodies,
        first,
        site.head,
        site.next,
        Action::While(condition, body.first),
    );
    let written = body.written;
    Ok(Emitted {
        fragment: Fragment { first, written },
        step: first,
    })
}

/// Both sides lead to one end.
#[cycle(numbering)]
fn number_par(
    alloc: Global,
    bodies: &mut Bodies,
    names: &Names<'_>,
    site: Site,
    left: &Block,
    right: &Block,
) -> Result<Emitted, NoMemory>
    requires left { AllBelow site.at left.now.stmts }
    requires right { AllBelow site.at right.now.stmts }
    requires at { site.at < length names.now.tables.program.stmts }
    requires next { site.next < length bodies.old.steps }
    requires places { HasPlaces names.now bodies.old }
    ensures { IfOk result (IsStmtEmitted (setting_of names.now) bodies.old site.next bodies.new (par_code (setting_of names.now) site.head left.now.stmts right.now.stmts) (block_holds (setting_of names.now) left.now.stmts ++ block_holds (setting_of names.now) right.now.stmts) (λ action. Unit {0})) }
{
    let end = emit(bodies, site.head, site.next, Action::End)?;
    let left = number_braced(alloc, bodies, names, site.at, left, end)?;
    let right = number_braced(alloc, bodies, names, site.at, right, end)?;
    let first = emit_par(bodies, site.head, site.next, left, right)?;
    let written = left.written.union(right.written);
    Ok(Emitted {
        fragment: Fragment { first, written },
        step: first,
    })
}

/// The step of a par whose sides are there.
fn emit_par(
    bodies: &mut Bodies,
    head: Span,
    next: u32,
    left: Fragment,
    right: Fragment,
) -> Result<u32, NoMemory>
    ensures place { IfOk result (λ at. at ≡ length bodies.old.steps) }
    ensures bodies { IfOk result (λ _. HasPar head next left right bodies.old bodies.new) }
{
    let sides = Sides {
        left: left.written,
        right: right.written,
    };
    let place = add_sides(bodies, sides)?;
    emit(
        bodies,
        head,
        next,
        Action::Par(left.first, right.first, place),
    )
}

/// The recover block leads to its `give`, and that to what comes next.
#[cycle(numbering)]
fn number_recover(
    alloc: Global,
    bodies: &mut Bodies,
    names: &Names<'_>,
    site: Site,
    x: u32,
    block: &Block,
    given: u32,
    give: Span,
) -> Result<Emitted, NoMemory>
    requires inside { AllBelow site.at block.now.stmts }
    requires at { site.at < length names.now.tables.program.stmts }
    requires next { site.next < length bodies.old.steps }
    requires places { HasPlaces names.now bodies.old }
    ensures { IfOk result (IsStmtEmitted (setting_of names.now) bodies.old site.next bodies.new (recover_code (setting_of names.now) site.head x block.now.stmts given give) (block_holds (setting_of names.now) block.now.stmts) (λ action. action ≡ Give given x)) }
{
    let stmts = block.stmts.as_slice();
    let end = emit(bodies, give, site.next, Action::Give(given, x))?;
    let body = number_block(alloc, bodies, names, site.at, stmts, end)?;
    let first = emit(bodies, site.head, body.first, Action::Recover)?;
    let inner = with(with(body.written, given), x);
    let written = with(outer(inner, names, site.at, stmts)?, x);
    Ok(Emitted {
        fragment: Fragment { first, written },
        step: end,
    })
}
