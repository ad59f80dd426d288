//! What blocks mention, and what they write.

ghost use Rattle.std.specs.Prelude.{◌≡◌};
ghost use Rattle.std.specs.Option.{IfSome};
ghost use Rattle.perm_tree.specs.declared.ast.Span as places;
ghost use Rattle.perm_tree.specs.BodyTerms.{expression_term, instruction_of, IsActionIn, IsExpressionIn};
ghost use Rattle.perm_tree.specs.Code.{Give, Tie};
ghost use Rattle.perm_tree.specs.CodeNames.{own_vars};
ghost use Rattle.perm_tree.specs.CodeOf.{block_code, code_of, stmt_code};
ghost use Rattle.perm_tree.specs.InBody.{IsBlockOf, IsStmtOf};
ghost use Rattle.perm_tree.specs.VarSets.{member};
ghost use Rattle.perm_tree.specs.Vars.{those};
ghost use Rattle.perm_rules.specs.AtPlace.{sets_of, uses_of};
ghost use Rattle.perm_rules.specs.MethodBodies.{setting_of, AreStmtsOf};
ghost use Rattle.perm_par.specs.BlockSets.{code_uses, else_uses, instruction_uses, joint, no_uses, outside, stmts_uses, target, term_uses, test_of, told, HasUses, IsUses};
ghost use Rattle.perm_par.specs.StepVariables.{IsAssignmentAt};

use crate::actions::{Gift, assigned, consumed, gift_of, known, mentioned};
use crate::effects::own_in;
use crate::terms::in_expression;
use perm_rules::{MethodBody, VarSet};
use perm_tree::ast::{Block, Rhs, StmtKind};
use perm_tree::bodies::{Action, Expression, Operand};

/// The variables that stand in a piece of code, and those that it assigns or consumes.
#[derive(Clone, Copy, Debug)]
pub struct Uses {
    pub mentioned: VarSet,
    pub written: VarSet,
}

/// The outer variables of a block.
#[cycle(uses)]
pub fn uses_of_block(body: &MethodBody<'_>, block: &Block) -> Uses
    requires { IsBlockOf body.now.unit body.now.number block.now }
    ensures { HasUses body.now result (stmts_uses (setting_of body.now) block.now.stmts) }
{
    body.kept();
    let inner = uses_of_all(body, block.stmts.as_slice());
    outside(own_in(body, block), inner)
}

/// Those of some statements.
#[cycle(uses)]
fn uses_of_all(body: &MethodBody<'_>, stmts: &[u32]) -> Uses
    requires { AreStmtsOf body.now stmts.now }
    ensures { IsUses body.now result (block_code (setting_of body.now) stmts.now) }
{
    let mut all = no_uses();
    'stmts: for at in stmts {
        all = joint(all, uses_at(body, *at));
    }
    all
}

/// Those of the statement at a place.
#[cycle(uses)]
fn uses_at(body: &MethodBody<'_>, at: u32) -> Uses
    requires { IsStmtOf body.now.unit body.now.number at }
    ensures { IsUses body.now result (stmt_code (setting_of body.now) at) }
{
    body.kept();
    let action = body.action(at);
    let stmt = body.stmt(at);
    match &stmt.kind {
        StmtKind::If(_, yes, no) => uses_of_if(body, action, yes, no),
        StmtKind::While(_, inner) => uses_of_while(body, action, inner),
        StmtKind::Par(left, right) => uses_of_par(body, left, right),
        StmtKind::Assign(_, _, rhs) => uses_of_assignment(body, at, rhs),
        _ => uses_of_step(body, action),
    }
}

/// Those of an assignment, which may be a recover.
#[cycle(uses)]
fn uses_of_assignment(body: &MethodBody<'_>, at: u32, rhs: &Rhs) -> Uses
    requires { IsAssignmentAt body.now at rhs.now }
    ensures { IsUses body.now result (stmt_code (setting_of body.now) at) }
{
    body.kept();
    let action = body.action(at);
    match rhs {
        Rhs::Recover(block, _, _) => uses_of_recover(body, block, gift_of(action)),
        _ => uses_of_step(body, action),
    }
}

/// Those of a simple statement.
fn uses_of_step(body: &MethodBody<'_>, action: Action) -> Uses
    requires { IsActionIn body.now.bodies (code_of body.now.unit) action }
    ensures { (tie : Tie) → HasUses body.now result (instruction_uses (instruction_of body.now.bodies tie action)) }
{
    Uses {
        mentioned: mentioned(body, action),
        written: consumed(body, action).union(assigned(body, action)),
    }
}

/// The expression that a step tests.
fn test(action: Action) -> Expression
    ensures { result ≡ test_of action }
{
    match action {
        Action::If(e, _) => e,
        Action::While(e, _) => e,
        _ => Expression::Operand(Operand::Null),
    }
}

/// Those of the condition of a step.
fn uses_of_test(body: &MethodBody<'_>, action: Action) -> Uses
    requires { IsExpressionIn body.now.bodies.operations (test_of action) }
    ensures { HasUses body.now result (term_uses (expression_term body.now.bodies.operations (test_of action))) }
{
    Uses {
        mentioned: in_expression(body, test(action)),
        written: VarSet::new(),
    }
}

#[cycle(uses)]
fn uses_of_if(body: &MethodBody<'_>, action: Action, yes: &Block, no: &Option<Block>) -> Uses
    requires test { IsExpressionIn body.now.bodies.operations (test_of action) }
    requires yes { IsBlockOf body.now.unit body.now.number yes.now }
    requires no { IfSome no.now (IsBlockOf body.now.unit body.now.number) }
    ensures { HasUses body.now result (joint (term_uses (expression_term body.now.bodies.operations (test_of action))) (joint (stmts_uses (setting_of body.now) yes.now.stmts) (else_uses (setting_of body.now) no.now))) }
{
    let yes = uses_of_block(body, yes);
    let no = uses_of_else(body, no);
    joint(uses_of_test(body, action), joint(yes, no))
}

/// Those of the block behind `else`.
#[cycle(uses)]
fn uses_of_else(body: &MethodBody<'_>, block: &Option<Block>) -> Uses
    requires { IfSome block.now (IsBlockOf body.now.unit body.now.number) }
    ensures { HasUses body.now result (else_uses (setting_of body.now) block.now) }
{
    match block {
        Some(block) => uses_of_block(body, block),
        None => no_uses(),
    }
}

#[cycle(uses)]
fn uses_of_while(body: &MethodBody<'_>, action: Action, block: &Block) -> Uses
    requires test { IsExpressionIn body.now.bodies.operations (test_of action) }
    requires block { IsBlockOf body.now.unit body.now.number block.now }
    ensures { HasUses body.now result (joint (term_uses (expression_term body.now.bodies.operations (test_of action))) (stmts_uses (setting_of body.now) block.now.stmts)) }
{
    let inner = uses_of_block(body, block);
    joint(uses_of_test(body, action), inner)
}

#[cycle(uses)]
fn uses_of_par(body: &MethodBody<'_>, left: &Block, right: &Block) -> Uses
    requires left { IsBlockOf body.now.unit body.now.number left.now }
    requires right { IsBlockOf body.now.unit body.now.number right.now }
    ensures { HasUses body.now result (joint (stmts_uses (setting_of body.now) left.now.stmts) (stmts_uses (setting_of body.now) right.now.stmts)) }
{
    let left = uses_of_block(body, left);
    let right = uses_of_block(body, right);
    joint(left, right)
}

/// The recover block ends with its `give`, to the variable that takes the value.
#[cycle(uses)]
fn uses_of_recover(body: &MethodBody<'_>, block: &Block, gift: Gift) -> Uses
    requires { IsBlockOf body.now.unit body.now.number block.now }
    ensures { (at : places.Span) → HasUses body.now result (joint (target gift.taker) (outside (those (own_vars (setting_of body.now) block.now.stmts)) (code_uses (block_code (setting_of body.now) block.now.stmts (Give at gift.given gift.taker))))) }
{
    body.kept();
    let inner = uses_of_all(body, block.stmts.as_slice());
    let taker = target(body, gift.taker);
    let give = joint(target(body, gift.given), taker);
    joint(taker, outside(own_in(body, block), joint(inner, give)))
}

/// One variable that is written.
fn target(body: &MethodBody<'_>, x: u32) -> Uses
    ensures { HasUses body.now result (target x) }
{
    let set = known(body, x);
    Uses {
        mentioned: set,
        written: set,
    }
}

fn no_uses() -> Uses
    ensures { told result ≡ no_uses }
{
    Uses {
        mentioned: VarSet::new(),
        written: VarSet::new(),
    }
}

/// Those of both.
fn joint(first: Uses, second: Uses) -> Uses
    ensures { told result ≡ joint (told first) (told second) }
{
    Uses {
        mentioned: first.mentioned.union(second.mentioned),
        written: first.written.union(second.written),
    }
}

/// Those that aren't own variables.
fn outside(own: VarSet, inner: Uses) -> Uses
    ensures { told result ≡ outside (member own) (told inner) }
{
    Uses {
        mentioned: inner.mentioned.difference(own),
        written: inner.written.difference(own),
    }
}

/// The outer variables that a block mentions.
pub fn uses_in(body: &MethodBody<'_>, block: &Block) -> VarSet
    requires { IsBlockOf body.now.unit body.now.number block.now }
    ensures { member result ≡ uses_of body.now.unit body.now.number block.now }
{
    body.kept();
    uses_of_block(body, block).mentioned
}

/// The outer variables that a block assigns or consumes.
pub fn sets_in(body: &MethodBody<'_>, block: &Block) -> VarSet
    requires { IsBlockOf body.now.unit body.now.number block.now }
    ensures { member result ≡ sets_of body.now.unit body.now.number block.now }
{
    body.kept();
    uses_of_block(body, block).written
}
