//! The variables of a step, as sets of the known ones.

ghost use Rattle.std.specs.Prelude.{◌≡◌, ◌+◌, ◌≤◌, length, map};
ghost use Rattle.perm_tree.specs.declared.bodies.Action.TheVariants as actions;
ghost use Rattle.perm_tree.specs.BodyTerms.{argument_of, expression_term, instruction_of, stretch, AreArgumentsIn, IsActionIn, IsArgumentIn, IsExpressionIn};
ghost use Rattle.perm_tree.specs.Code.{Tie};
ghost use Rattle.perm_tree.specs.CodeOf.{code_of};
ghost use Rattle.perm_tree.specs.Mentions.{argument_consumes, argument_mentions, arguments_consume, assigns, consumes, just_if, just_option, mentions, term_mentions};
ghost use Rattle.perm_tree.specs.Vars.{just, plus};
ghost use Rattle.perm_par.specs.Known.{HoldsKnown};
ghost use Rattle.perm_par.specs.Operands.{stand_in};
ghost use Rattle.perm_par.specs.StepVariables.{declares, taker_of, IsCallIn, IsGive};

use crate::terms::{in_argument, in_arguments, in_expression};
use perm_rules::{MethodBody, VarSet};
use perm_tree::bodies::{Action, Argument, Expression, Invocation};

/// What a recover block gives: the given variable, and the one that takes it.
#[derive(Clone, Copy, Debug)]
pub struct Gift {
    pub given: u32,
    pub taker: u32,
}

/// The gift of a `give`.
pub fn gift_of(action: Action) -> Gift
    requires { IsGive action }
    ensures { action ≡ actions.Give result.given result.taker }
{
    match action {
        Action::Give(given, taker) => Gift { given, taker },
        _ => Gift { given: 0, taker: 0 },
    }
}

/// The set of one variable, if it is known.
pub fn known(body: &MethodBody<'_>, x: u32) -> VarSet
    ensures { HoldsKnown body.now result (just x) }
{
    body.kept();
    if body.vars().len() <= x as usize {
        return VarSet::new();
    }
    match u8::try_from(x) {
        Ok(x) => VarSet::just(x),
        Err(_) => VarSet::new(),
    }
}

/// The set of a variable that may be there.
pub fn known_if(body: &MethodBody<'_>, x: Option<u32>) -> VarSet
    ensures { HoldsKnown body.now result (just_option x) }
{
    match x {
        Some(x) => known(body, x),
        None => VarSet::new(),
    }
}

/// The variable to which an action gives a value.
pub fn taker(action: Action) -> Option<u32>
    ensures { result ≡ taker_of action }
{
    match action {
        Action::Assign(x, _) => Some(x),
        Action::LoadField(x, _, _) => Some(x),
        Action::LoadLength(x, _) => Some(x),
        Action::LoadItem(x, _, _) => Some(x),
        Action::TakeField(x, _, _) => Some(x),
        Action::NewObject(x, _, _) => Some(x),
        Action::NewArray(x, _) => Some(x),
        Action::Invoke(call) => call.into,
        Action::Give(_, x) => Some(x),
        _ => None,
    }
}

/// The variable that a simple statement assigns.
pub fn assigned(body: &MethodBody<'_>, action: Action) -> VarSet
    ensures { (tie : Tie) → HoldsKnown body.now result (assigns (instruction_of body.now.bodies tie action)) }
{
    match action {
        Action::Give(_, _) => VarSet::new(),
        _ => known_if(body, taker(action)),
    }
}

/// The variable that a simple statement declares without a value. A step that is none reads as a declaration of the first variable.
pub fn declared(body: &MethodBody<'_>, action: Action) -> VarSet
    ensures { (tie : Tie) → HoldsKnown body.now result (declares (instruction_of body.now.bodies tie action)) }
{
    match action {
        Action::Declare(x) => known(body, x),
        Action::If(_, _)
        | Action::While(_, _)
        | Action::Par(_, _, _)
        | Action::Recover
        | Action::Give(_, _)
        | Action::Return(_)
        | Action::End => known(body, 0),
        _ => VarSet::new(),
    }
}

/// The variable that an argument consumes.
pub fn consumed_by(body: &MethodBody<'_>, argument: Argument) -> VarSet
    ensures { HoldsKnown body.now result (argument_consumes (argument_of body.now.bodies.operations argument)) }
{
    match argument {
        Argument::Consume(y) => known(body, y),
        Argument::Expression(_) => VarSet::new(),
    }
}

/// The variables that some arguments consume.
fn consumed_among(body: &MethodBody<'_>, arguments: &[Argument]) -> VarSet
    ensures { HoldsKnown body.now result (arguments_consume (map (argument_of body.now.bodies.operations) arguments.now)) }
{
    let mut set = VarSet::new();
    'arguments: for argument in arguments {
        set = set.union(consumed_by(body, *argument));
    }
    set
}

/// The receiver of a call, if it is consumed.
fn receiver_of(body: &MethodBody<'_>, call: Invocation) -> VarSet
    ensures { HoldsKnown body.now result (just_if call.consumed call.receiver) }
{
    if call.consumed {
        known(body, call.receiver)
    } else {
        VarSet::new()
    }
}

/// The arguments of a call.
pub fn arguments_of<'a>(body: &'a MethodBody<'_>, call: Invocation) -> &'a [Argument]
    requires { call.first + call.count ≤ length body.now.bodies.arguments }
    ensures { result.now ≡ stretch body.now.bodies.arguments call.first call.count }
{
    let first = call.first as usize;
    &body.arguments()[first..first + call.count as usize]
}

/// The variables that a call consumes.
fn consumed_by_call(body: &MethodBody<'_>, call: Invocation) -> VarSet
    requires { call.first + call.count ≤ length body.now.bodies.arguments }
    ensures { HoldsKnown body.now result (plus (just_if call.consumed call.receiver) (arguments_consume (map (argument_of body.now.bodies.operations) (stretch body.now.bodies.arguments call.first call.count)))) }
{
    let arguments = arguments_of(body, call);
    receiver_of(body, call).union(consumed_among(body, arguments))
}

/// The variables that a simple statement consumes.
pub fn consumed(body: &MethodBody<'_>, action: Action) -> VarSet
    requires { IsCallIn body.now.bodies action }
    ensures { (tie : Tie) → HoldsKnown body.now result (consumes (instruction_of body.now.bodies tie action)) }
{
    match action {
        Action::Assign(_, argument) => consumed_by(body, argument),
        Action::StoreField(_, _, argument) => consumed_by(body, argument),
        Action::Invoke(call) => consumed_by_call(body, call),
        _ => VarSet::new(),
    }
}

/// The variables that stand in a call.
fn mentioned_by_call(body: &MethodBody<'_>, call: Invocation) -> VarSet
    requires first { call.first + call.count ≤ length body.now.bodies.arguments }
    requires arguments { AreArgumentsIn body.now.bodies.operations (stretch body.now.bodies.arguments call.first call.count) }
    ensures { HoldsKnown body.now result (plus (just_option call.into) (plus (just call.receiver) (stand_in (map (argument_of body.now.bodies.operations) (stretch body.now.bodies.arguments call.first call.count))))) }
{
    let arguments = in_arguments(body, arguments_of(body, call));
    let used = known(body, call.receiver).union(arguments);
    known_if(body, call.into).union(used)
}

/// The variables that stand in a write of an item.
fn mentioned_by_item(body: &MethodBody<'_>, y: u32, at: Expression, value: Expression) -> VarSet
    requires at { IsExpressionIn body.now.bodies.operations at }
    requires value { IsExpressionIn body.now.bodies.operations value }
    ensures { HoldsKnown body.now result (plus (just y) (plus (term_mentions (expression_term body.now.bodies.operations at)) (term_mentions (expression_term body.now.bodies.operations value)))) }
{
    let used = in_expression(body, at).union(in_expression(body, value));
    known(body, y).union(used)
}

/// Two variables and those that stand in an expression.
fn mentioned_by_load(body: &MethodBody<'_>, x: u32, y: u32, at: Expression) -> VarSet
    requires { IsExpressionIn body.now.bodies.operations at }
    ensures { HoldsKnown body.now result (plus (just x) (plus (just y) (term_mentions (expression_term body.now.bodies.operations at)))) }
{
    let used = known(body, y).union(in_expression(body, at));
    known(body, x).union(used)
}

/// Two variables.
fn known_two(body: &MethodBody<'_>, x: u32, y: u32) -> VarSet
    ensures { HoldsKnown body.now result (plus (just x) (just y)) }
{
    known(body, x).union(known(body, y))
}

/// A variable and those that stand in an argument.
fn known_with(body: &MethodBody<'_>, x: u32, argument: Argument) -> VarSet
    requires { IsArgumentIn body.now.bodies.operations argument }
    ensures { HoldsKnown body.now result (plus (just x) (argument_mentions (argument_of body.now.bodies.operations argument))) }
{
    known(body, x).union(in_argument(body, argument))
}

/// The variables that stand in a simple statement, an assigned one included.
pub fn mentioned(body: &MethodBody<'_>, action: Action) -> VarSet
    requires { IsActionIn body.now.bodies (code_of body.now.unit) action }
    ensures { (tie : Tie) → HoldsKnown body.now result (mentions (instruction_of body.now.bodies tie action)) }
{
    match action {
        Action::Assign(x, argument) => known_with(body, x, argument),
        Action::LoadField(x, y, _) => known_two(body, x, y),
        Action::LoadLength(x, y) => known_two(body, x, y),
        Action::LoadItem(x, y, at) => mentioned_by_load(body, x, y, at),
        Action::TakeField(x, y, _) => known_two(body, x, y),
        Action::NewObject(x, _, _) => known(body, x),
        Action::NewArray(x, size) => known_with(body, x, Argument::Expression(size)),
        Action::StoreField(y, _, argument) => known_with(body, y, argument),
        Action::StoreItem(y, at, value) => mentioned_by_item(body, y, at, value),
        Action::Invoke(call) => mentioned_by_call(body, call),
        Action::Print(value) => in_expression(body, value),
        _ => declared(body, action),
    }
}
