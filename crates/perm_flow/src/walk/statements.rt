//! The statements of a method, one function for each form.

ghost use Rattle.std.specs.Prelude.{◌≡◌, ℕ, List, Some};
ghost use Rattle.std.specs.Option.{IfSome};
ghost use Rattle.perm_tree.specs.declared.ast.Ident.{Ident};
ghost use Rattle.perm_tree.specs.declared.ast.StmtKind.TheVariants as kinds;
ghost use Rattle.perm_tree.specs.declared.bodies.Bodies.{Bodies};
ghost use Rattle.perm_tree.specs.Code.{End};
ghost use Rattle.perm_tree.specs.CodeNames.{own_vars, var_at, Setting};
ghost use Rattle.perm_tree.specs.CodeOf.{block_code, stmt_code};
ghost use Rattle.perm_tree.specs.InBody.{AreParOf, HasStmt, IsBlockOf, IsStmtOf};
ghost use Rattle.perm_tree.specs.Scopes.{else_stmts};
ghost use Rattle.perm_tree.specs.StatementSteps.{SaysGive, SaysSimple, SaysTerm, SaysTest};
ghost use Rattle.perm_tree.specs.VarSets.{member};
ghost use Rattle.perm_tree.specs.Vars.{Vars};
ghost use Rattle.perm_rules.specs.AtPlace.{block_code_at, own_at};
ghost use Rattle.perm_rules.specs.Effects.{block_effect, effect};
ghost use Rattle.perm_rules.specs.Goes.{hiding, joined};
ghost use Rattle.perm_rules.specs.MethodBodies.{context_of, setting_of};
ghost use Rattle.perm_rules.specs.Pars.{par_head};
ghost use Rattle.perm_flow.specs.Parts.{part_of, IsPartIn};
ghost use Rattle.perm_flow.specs.Walk.{kind_end, AreOfBody, GivesBlock, GivesCode, GivesPart, IsAssignment, IsIf, IsKnown, IsRecover, IsWhile, PartGives};

use crate::part::Part;
use crate::refusal::refusal_in;
use crate::sets::without;
use crate::walk::hidden::tied_before;
use crate::walk::live::{after_action, with};
use perm_par::{effect_in, own_in, par_mode_in};
use perm_rules::{MethodBody, VarSet};
use perm_tree::ast::{Block, Rhs, Span, Stmt, StmtKind};
use perm_tree::bodies::{Action, Expression, Operand};
use perm_tree::errors::TypeError;

/// A part that stands at a span.
pub fn pass(
    body: &MethodBody<'_>,
    hidden: VarSet,
    part: Part,
    live: VarSet,
    at: Span,
) -> Result<(), TypeError>
    requires { IsPartIn body.now part }
    ensures { GivesPart body.now hidden at (part_of body.now part) live result }
{
    match refusal_in(body, hidden, part, live) {
        Some(kind) => Err(TypeError { span: at, kind }),
        None => Ok(()),
    }
}

/// The head of a par.
fn pass_par(body: &MethodBody<'_>, left: &Block, right: &Block, at: Span) -> Result<(), TypeError>
    requires { AreParOf body.now.unit body.now.number left.now right.now }
    ensures { (hides : List ℕ) (G : Vars) → PartGives (hiding hides (context_of body.now)) at (par_head (context_of body.now) (own_at body.now.unit body.now.number left.now) (block_code_at body.now.unit body.now.number left.now) (own_at body.now.unit body.now.number right.now) (block_code_at body.now.unit body.now.number right.now)) G result }
{
    match par_mode_in(body, left, right) {
        Err(kind) => Err(TypeError { span: at, kind }),
        Ok(_) => Ok(()),
    }
}

/// The expression that an action tests.
fn tested(action: Action) -> Expression
    ensures { (k : Setting) (b : Bodies) (at : ℕ) → SaysTest k b at action → SaysTerm k b at result }
{
    match action {
        Action::If(e, _) => e,
        Action::While(e, _) => e,
        _ => Expression::Operand(Operand::Null),
    }
}

/// The variable that an action gives, and the one that takes it.
fn given_by(action: Action) -> (u32, u32)
    ensures { (k : Setting) (w x : Ident) → SaysGive k w x action → (result.0 ≡ var_at k w) × (result.1 ≡ var_at k x) }
{
    match action {
        Action::Give(given, taker) => (given, taker),
        _ => (0, 0),
    }
}

/// What is live after a par: without what either block loses, with what either makes live.
fn joined(live: VarSet, left: VarSet, right: VarSet) -> VarSet
    ensures { member result ≡ joined (member live) (member left) (member right) }
{
    let lost = live.difference(left).union(live.difference(right));
    let made = left.difference(live).union(right.difference(live));
    live.difference(lost).union(made)
}

/// A statement without blocks.
fn flow_simple(
    body: &MethodBody<'_>,
    hidden: VarSet,
    live: VarSet,
    stmt: &Stmt,
    action: Action,
) -> Result<VarSet, TypeError>
    requires says { SaysSimple (setting_of body.now) body.now.bodies stmt.now action }
    requires known { IsKnown body.now live }
    ensures { GivesCode body.now hidden (kind_end body.now stmt.now) (effect (kind_end body.now stmt.now)) live result }
{
    body.kept();
    pass(body, hidden, Part::Simple(action), live, stmt.span)?;
    Ok(after_action(body, action, live))
}

/// The statements of a block, one behind the other.
#[cycle(flows)]
pub fn flow_block(
    body: &MethodBody<'_>,
    hidden: VarSet,
    live: VarSet,
    stmts: &[u32],
) -> Result<VarSet, TypeError>
    requires inside { AreOfBody body.now stmts.now }
    requires known { IsKnown body.now live }
    ensures { GivesBlock body.now hidden stmts.now live result }
{
    body.kept();
    let mut now = live;
    'stmts: for at in stmts {
        now = flow_stmt(body, hidden, now, *at)?;
    }
    Ok(now)
}

/// A block, whose own variables are live no longer at its end.
#[cycle(flows)]
fn flow_braced(
    body: &MethodBody<'_>,
    hidden: VarSet,
    live: VarSet,
    block: &Block,
) -> Result<VarSet, TypeError>
    requires inside { IsBlockOf body.now.unit body.now.number block.now }
    requires known { IsKnown body.now live }
    ensures { GivesCode body.now hidden (block_code (setting_of body.now) block.now.stmts End) (block_effect (own_vars (setting_of body.now) block.now.stmts) (block_code (setting_of body.now) block.now.stmts End)) live result }
{
    body.kept();
    let end = flow_block(body, hidden, live, block.stmts.as_slice())?;
    Ok(end.difference(own_in(body, block)))
}

/// The block behind `else`.
#[cycle(flows)]
fn flow_else(
    body: &MethodBody<'_>,
    hidden: VarSet,
    live: VarSet,
    block: &Option<Block>,
) -> Result<VarSet, TypeError>
    requires inside { IfSome block.now (IsBlockOf body.now.unit body.now.number) }
    requires known { IsKnown body.now live }
    ensures { GivesCode body.now hidden (block_code (setting_of body.now) (else_stmts block.now) End) (block_effect (own_vars (setting_of body.now) (else_stmts block.now)) (block_code (setting_of body.now) (else_stmts block.now) End)) live result }
{
    match block {
        Some(block) => flow_braced(body, hidden, live, block),
        None => Ok(live),
    }
}

#[cycle(flows)]
fn flow_if(
    body: &MethodBody<'_>,
    hidden: VarSet,
    live: VarSet,
    at: u32,
    stmt: &Stmt,
    yes: &Block,
    no: &Option<Block>,
) -> Result<VarSet, TypeError>
    requires stands { HasStmt body.now.unit body.now.number at stmt.now }
    requires is { IsIf stmt.now.kind yes.now no.now }
    requires known { IsKnown body.now live }
    ensures { GivesCode body.now hidden (kind_end body.now stmt.now) (effect (kind_end body.now stmt.now)) live result }
{
    body.kept();
    let test = tested(body.action(at));
    pass(body, hidden, Part::Condition(test), live, stmt.head)?;
    let yes = flow_braced(body, hidden, live, yes)?;
    let no = flow_else(body, hidden, live, no)?;
    Ok(yes.intersection(no))
}

/// The condition and the body are entered without what the body loses.
#[cycle(flows)]
fn flow_while(
    body: &MethodBody<'_>,
    hidden: VarSet,
    live: VarSet,
    at: u32,
    stmt: &Stmt,
    block: &Block,
) -> Result<VarSet, TypeError>
    requires stands { HasStmt body.now.unit body.now.number at stmt.now }
    requires is { IsWhile stmt.now.kind block.now }
    requires known { IsKnown body.now live }
    ensures { GivesCode body.now hidden (kind_end body.now stmt.now) (effect (kind_end body.now stmt.now)) live result }
{
    body.kept();
    let test = tested(body.action(at));
    let kept = live.difference(effect_in(body, block).lost);
    pass(body, hidden, Part::Condition(test), kept, stmt.head)?;
    flow_braced(body, hidden, kept, block)?;
    Ok(kept)
}

#[cycle(flows)]
fn flow_par(
    body: &MethodBody<'_>,
    hidden: VarSet,
    live: VarSet,
    at: u32,
    stmt: &Stmt,
    left: &Block,
    right: &Block,
) -> Result<VarSet, TypeError>
    requires stands { HasStmt body.now.unit body.now.number at stmt.now }
    requires is { stmt.now.kind ≡ kinds.Par left.now right.now }
    requires known { IsKnown body.now live }
    ensures { GivesCode body.now hidden (kind_end body.now stmt.now) (effect (kind_end body.now stmt.now)) live result }
{
    let _place = at;
    body.kept();
    pass_par(body, left, right, stmt.head)?;
    let left = flow_braced(body, hidden, live, left)?;
    let right = flow_braced(body, hidden, live, right)?;
    Ok(joined(live, left, right))
}

/// A recover block hides what is declared before it, and ends with its `give`.
#[cycle(flows)]
fn flow_recover(
    body: &MethodBody<'_>,
    hidden: VarSet,
    live: VarSet,
    at: u32,
    stmt: &Stmt,
    block: &Block,
    give: Span,
) -> Result<VarSet, TypeError>
    requires stands { HasStmt body.now.unit body.now.number at stmt.now }
    requires is { IsRecover stmt.now.kind block.now give }
    requires known { IsKnown body.now live }
    ensures { GivesCode body.now hidden (kind_end body.now stmt.now) (effect (kind_end body.now stmt.now)) live result }
{
    body.kept();
    let (given, taker) = given_by(body.action(at));
    pass(body, hidden, Part::Recover(taker), live, stmt.head)?;
    let hidden = hidden.union(tied_before(body.vars(), stmt.head.end));
    let end = flow_block(body, hidden, live, block.stmts.as_slice())?;
    pass(body, hidden, Part::Given(given, taker), end, give)?;
    Ok(with(without(end, given), taker).difference(own_in(body, block)))
}

/// An assignment, which may be a recover.
#[cycle(flows)]
fn flow_assignment(
    body: &MethodBody<'_>,
    hidden: VarSet,
    live: VarSet,
    at: u32,
    stmt: &Stmt,
    rhs: &Rhs,
) -> Result<VarSet, TypeError>
    requires stands { HasStmt body.now.unit body.now.number at stmt.now }
    requires is { IsAssignment stmt.now.kind rhs.now }
    requires known { IsKnown body.now live }
    ensures { GivesCode body.now hidden (kind_end body.now stmt.now) (effect (kind_end body.now stmt.now)) live result }
{
    match rhs {
        Rhs::Recover(block, _, give) => flow_recover(body, hidden, live, at, stmt, block, *give),
        _ => flow_simple(body, hidden, live, stmt, body.action(at)),
    }
}

/// The statement at a place.
#[cycle(flows)]
pub fn flow_stmt(
    body: &MethodBody<'_>,
    hidden: VarSet,
    live: VarSet,
    at: u32,
) -> Result<VarSet, TypeError>
    requires inside { IsStmtOf body.now.unit body.now.number at }
    requires known { IsKnown body.now live }
    ensures { GivesCode body.now hidden (stmt_code (setting_of body.now) at End) (effect (stmt_code (setting_of body.now) at End)) live result }
{
    body.kept();
    let stmt = body.stmt(at);
    match &stmt.kind {
        StmtKind::If(_, yes, no) => flow_if(body, hidden, live, at, stmt, yes, no),
        StmtKind::While(_, block) => flow_while(body, hidden, live, at, stmt, block),
        StmtKind::Par(left, right) => flow_par(body, hidden, live, at, stmt, left, right),
        StmtKind::Assign(_, _, rhs) => flow_assignment(body, hidden, live, at, stmt, rhs),
        _ => flow_simple(body, hidden, live, stmt, body.action(at)),
    }
}
