//! What blocks lose and make.

ghost use Rattle.std.specs.Prelude.{◌≡◌, map};
ghost use Rattle.std.specs.Option.{IfSome};
ghost use Rattle.perm_tree.specs.declared.ast.Span as places;
ghost use Rattle.perm_tree.specs.BodyTerms.{instruction_of};
ghost use Rattle.perm_tree.specs.Code.{Give, Tie};
ghost use Rattle.perm_tree.specs.CodeNames.{own_vars, var_at};
ghost use Rattle.perm_tree.specs.CodeOf.{block_code, stmt_code};
ghost use Rattle.perm_tree.specs.InBody.{IsBlockOf, IsStmtOf};
ghost use Rattle.perm_tree.specs.Mentions.{just_option};
ghost use Rattle.perm_tree.specs.Scopes.{declared_at};
ghost use Rattle.perm_tree.specs.VarSets.{member};
ghost use Rattle.perm_tree.specs.Vars.{those};
ghost use Rattle.perm_rules.specs.AtPlace.{effect_of, own_at};
ghost use Rattle.perm_rules.specs.Effects.{block_effect, both, effect, either, instruction_effect, no_effect, repeated, then};
ghost use Rattle.perm_rules.specs.MethodBodies.{setting_of, AreStmtsOf};
ghost use Rattle.perm_par.specs.BlockEffects.{else_effect, seen, stmts_effect, without, HasEffect, IsEffect};
ghost use Rattle.perm_par.specs.Known.{HoldsKnown};
ghost use Rattle.perm_par.specs.StepVariables.{if_declared, taker_of, IsAssignmentAt, IsCallIn};

use crate::actions::{Gift, assigned, consumed, declared, gift_of, known, known_if, taker};
use perm_rules::{Effect, MethodBody, VarSet};
use perm_tree::ast::{Block, Rhs, StmtKind, Ty};
use perm_tree::bodies::Action;

/// What a block of a body loses and makes; its own variables are lost at its end.
#[cycle(effects)]
pub fn effect_in(body: &MethodBody<'_>, block: &Block) -> Effect
    requires { IsBlockOf body.now.unit body.now.number block.now }
    ensures lost { member result.lost ≡ (effect_of body.now.unit body.now.number block.now).lost }
    ensures made { member result.made ≡ (effect_of body.now.unit body.now.number block.now).made }
{
    body.kept();
    let inner = effect_of_all(body, block.stmts.as_slice());
    closed(own_in(body, block), inner)
}

/// The effect of some statements, one behind the other.
#[cycle(effects)]
fn effect_of_all(body: &MethodBody<'_>, stmts: &[u32]) -> Effect
    requires { AreStmtsOf body.now stmts.now }
    ensures { IsEffect body.now result (block_code (setting_of body.now) stmts.now) }
{
    let mut all = no_effect();
    'stmts: for at in stmts {
        all = then(all, effect_at(body, *at));
    }
    all
}

/// The effect of the statement at a place.
#[cycle(effects)]
fn effect_at(body: &MethodBody<'_>, at: u32) -> Effect
    requires { IsStmtOf body.now.unit body.now.number at }
    ensures { IsEffect body.now result (stmt_code (setting_of body.now) at) }
{
    body.kept();
    let stmt = body.stmt(at);
    match &stmt.kind {
        StmtKind::If(_, yes, no) => effect_of_if(body, yes, no),
        StmtKind::While(_, inner) => effect_of_while(body, inner),
        StmtKind::Par(left, right) => effect_of_par(body, left, right),
        StmtKind::Assign(_, _, rhs) => effect_of_assignment(body, at, rhs),
        _ => effect_of_step(body, body.action(at)),
    }
}

/// The effect of an assignment, which may be a recover.
#[cycle(effects)]
fn effect_of_assignment(body: &MethodBody<'_>, at: u32, rhs: &Rhs) -> Effect
    requires { IsAssignmentAt body.now at rhs.now }
    ensures { IsEffect body.now result (stmt_code (setting_of body.now) at) }
{
    body.kept();
    let action = body.action(at);
    match rhs {
        Rhs::Recover(block, _, _) => effect_of_recover(body, block, gift_of(action)),
        _ => effect_of_step(body, action),
    }
}

/// The effect of a simple statement.
fn effect_of_step(body: &MethodBody<'_>, action: Action) -> Effect
    requires { IsCallIn body.now.bodies action }
    ensures { (tie : Tie) → HasEffect body.now result (instruction_effect (instruction_of body.now.bodies tie action)) }
{
    let made = assigned(body, action);
    let lost = declared(body, action).union(consumed(body, action));
    Effect {
        lost: lost.difference(made),
        made,
    }
}

#[cycle(effects)]
fn effect_of_if(body: &MethodBody<'_>, yes: &Block, no: &Option<Block>) -> Effect
    requires yes { IsBlockOf body.now.unit body.now.number yes.now }
    requires no { IfSome no.now (IsBlockOf body.now.unit body.now.number) }
    ensures { HasEffect body.now result (either (stmts_effect (setting_of body.now) yes.now.stmts) (else_effect (setting_of body.now) no.now)) }
{
    let yes = effect_in(body, yes);
    let no = effect_of_else(body, no);
    either(yes, no)
}

/// The effect of the block behind `else`.
#[cycle(effects)]
fn effect_of_else(body: &MethodBody<'_>, block: &Option<Block>) -> Effect
    requires { IfSome block.now (IsBlockOf body.now.unit body.now.number) }
    ensures { HasEffect body.now result (else_effect (setting_of body.now) block.now) }
{
    match block {
        Some(block) => effect_in(body, block),
        None => no_effect(),
    }
}

#[cycle(effects)]
fn effect_of_while(body: &MethodBody<'_>, block: &Block) -> Effect
    requires { IsBlockOf body.now.unit body.now.number block.now }
    ensures { HasEffect body.now result (repeated (stmts_effect (setting_of body.now) block.now.stmts)) }
{
    Effect {
        lost: effect_in(body, block).lost,
        made: VarSet::new(),
    }
}

#[cycle(effects)]
fn effect_of_par(body: &MethodBody<'_>, left: &Block, right: &Block) -> Effect
    requires left { IsBlockOf body.now.unit body.now.number left.now }
    requires right { IsBlockOf body.now.unit body.now.number right.now }
    ensures { HasEffect body.now result (both (stmts_effect (setting_of body.now) left.now.stmts) (stmts_effect (setting_of body.now) right.now.stmts)) }
{
    let left = effect_in(body, left);
    let right = effect_in(body, right);
    both(left, right)
}

/// The recover block ends with its `give`.
#[cycle(effects)]
fn effect_of_recover(body: &MethodBody<'_>, block: &Block, gift: Gift) -> Effect
    requires { IsBlockOf body.now.unit body.now.number block.now }
    ensures { (at : places.Span) → HasEffect body.now result (block_effect (own_vars (setting_of body.now) block.now.stmts) (block_code (setting_of body.now) block.now.stmts (Give at gift.given gift.taker))) }
{
    body.kept();
    let inner = effect_of_all(body, block.stmts.as_slice());
    closed(own_in(body, block), then(inner, effect_of_give(body, gift)))
}

/// The effect of a `give`.
fn effect_of_give(body: &MethodBody<'_>, gift: Gift) -> Effect
    ensures { (at : places.Span) → HasEffect body.now result (effect (Give at gift.given gift.taker)) }
{
    let made = known(body, gift.taker);
    Effect {
        lost: known(body, gift.given).difference(made),
        made,
    }
}

fn no_effect() -> Effect
    ensures { seen result ≡ no_effect }
{
    Effect {
        lost: VarSet::new(),
        made: VarSet::new(),
    }
}

/// The one and then the other.
fn then(first: Effect, second: Effect) -> Effect
    ensures { seen result ≡ then (seen first) (seen second) }
{
    Effect {
        lost: first.lost.difference(second.made).union(second.lost),
        made: first.made.difference(second.lost).union(second.made),
    }
}

/// One of the two, as in an `if`.
fn either(left: Effect, right: Effect) -> Effect
    ensures { seen result ≡ either (seen left) (seen right) }
{
    Effect {
        lost: left.lost.union(right.lost),
        made: left.made.intersection(right.made),
    }
}

/// Both, as in a par.
fn both(left: Effect, right: Effect) -> Effect
    ensures { seen result ≡ both (seen left) (seen right) }
{
    Effect {
        lost: left.lost.union(right.lost),
        made: left.made.union(right.made),
    }
}

/// At the end of a block its own variables are lost.
fn closed(own: VarSet, inner: Effect) -> Effect
    ensures { seen result ≡ without (member own) (seen inner) }
{
    Effect {
        lost: inner.lost.union(own),
        made: inner.made.difference(own),
    }
}

/// The variables that a block of a body itself declares.
pub fn own_in(body: &MethodBody<'_>, block: &Block) -> VarSet
    requires { IsBlockOf body.now.unit body.now.number block.now }
    ensures { member result ≡ those (own_at body.now.unit body.now.number block.now) }
{
    body.kept();
    own_of_all(body, block.stmts.as_slice())
}

/// The variables that some statements declare.
fn own_of_all(body: &MethodBody<'_>, stmts: &[u32]) -> VarSet
    requires { AreStmtsOf body.now stmts.now }
    ensures { HoldsKnown body.now result (those (own_vars (setting_of body.now) stmts.now)) }
{
    let mut own = VarSet::new();
    'stmts: for at in stmts {
        own = own.union(own_of(body, *at));
    }
    own
}

/// The variable that the statement at a place declares in its block.
fn own_of(body: &MethodBody<'_>, at: u32) -> VarSet
    requires { IsStmtOf body.now.unit body.now.number at }
    ensures { HoldsKnown body.now result (those (map (λ d. var_at (setting_of body.now) d.name) (declared_at body.now.unit.program.stmts at))) }
{
    let action = body.action(at);
    let stmt = body.stmt(at);
    match &stmt.kind {
        StmtKind::Declare(_, _) => declared(body, action),
        StmtKind::Assign(ty, _, _) => own_of_assignment(body, ty, action),
        _ => VarSet::new(),
    }
}

/// The variable of an assignment that declares it.
fn own_of_assignment(body: &MethodBody<'_>, ty: &Option<Ty>, action: Action) -> VarSet
    ensures { HoldsKnown body.now result (just_option (if_declared ty.now (taker_of action))) }
{
    match ty {
        Some(_) => known_if(body, taker(action)),
        None => VarSet::new(),
    }
}
