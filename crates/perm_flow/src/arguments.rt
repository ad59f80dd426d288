//! What is told of the arguments of calls.

ghost use Rattle.std.specs.Prelude.{◌≡◌, All, map};
ghost use Rattle.std.specs.List.{list_any};
ghost use Rattle.perm_tree.specs.BodyTerms.{argument_of, stretch, IsActionIn, IsArgumentIn};
ghost use Rattle.perm_tree.specs.Code as code;
ghost use Rattle.perm_tree.specs.CodeOf.{code_of};
ghost use Rattle.perm_tree.specs.declared.bodies.Action.TheVariants as actions;
ghost use Rattle.perm_tree.specs.VarSets.{member};
ghost use Rattle.perm_rules.specs.Liveness.{after_argument};
ghost use Rattle.perm_rules.specs.MethodBodies.{context_of};
ghost use Rattle.perm_rules.specs.Permissions.{argument_weak, arguments_weak};
ghost use Rattle.perm_rules.specs.Shapes.{argument_misfits, arguments_misfit, taker_type};
ghost use Rattle.perm_rules.specs.Sorts.{argument_sort, isnt_value_of};
ghost use Rattle.perm_rules.specs.Parts.{if_known};
ghost use Rattle.perm_flow.specs.Questions.{as_sort, argument_answer};

use crate::sets::without;
use crate::sorts::{Sort, isnt_value_of, sort_if, type_if};
use crate::terms::{Question, answer, passes, sort_of};
use crate::types::{known_plain, weak};
use perm_rules::{MethodBody, VarSet};
use perm_tree::ast::{FieldDecl, Ty};
use perm_tree::bodies::{Argument, Invocation};

/// The arguments of a call.
pub fn given<'a>(body: &'a MethodBody<'_>, call: &Invocation) -> &'a [Argument]
    requires { IsActionIn body.now.bodies (code_of body.now.unit) (actions.Invoke call.now) }
    ensures values { result.now ≡ stretch body.now.bodies.arguments call.now.first call.now.count }
    ensures there { All (IsArgumentIn body.now.bodies.operations) result.now }
{
    &body.arguments()[call.first as usize..call.first as usize + call.count as usize]
}

/// The answer for an argument.
pub fn argument_answer(body: &MethodBody<'_>, question: Question, a: &Argument) -> bool
    requires { IsArgumentIn body.now.bodies.operations a.now }
    ensures { result ≡ argument_answer (context_of body.now) question (argument_of body.now.bodies.operations a.now) }
{
    match a {
        Argument::Expression(e) => answer(body, question, e),
        Argument::Consume(y) => consumed_answer(body, question, *y),
    }
}

fn consumed_answer(body: &MethodBody<'_>, question: Question, y: u32) -> bool
    ensures { result ≡ argument_answer (context_of body.now) question (code.Consumed y) }
{
    match question {
        Question::Any(test) => passes(body, test, y),
        Question::Wrong => known_plain(body.ty(y)),
        Question::Needs => false,
    }
}

/// The answer for some arguments: that for one of them.
pub fn arguments_answer(body: &MethodBody<'_>, question: Question, args: &[Argument]) -> bool
    requires { All (IsArgumentIn body.now.bodies.operations) args.now }
    ensures { result ≡ list_any (argument_answer (context_of body.now) question) (map (argument_of body.now.bodies.operations) args.now) }
{
    let mut found = false;
    for a in args {
        found |= argument_answer(body, question, a);
    }
    found
}

// ---------- live sets ----------

/// What is live after an argument is taken.
pub fn after_argument(body: &MethodBody<'_>, a: &Argument, live: VarSet) -> VarSet
    ensures { member result ≡ after_argument (argument_of body.now.bodies.operations a.now) (member live) }
{
    match a {
        Argument::Expression(_) => live,
        Argument::Consume(y) => without(live, *y),
    }
}

// ---------- arguments and the types that they come to ----------

/// What is known of the value of an argument.
fn argument_sort(body: &MethodBody<'_>, a: &Argument) -> Sort
    requires { IsArgumentIn body.now.bodies.operations a.now }
    ensures { as_sort result ≡ argument_sort (context_of body.now) (argument_of body.now.bodies.operations a.now) }
{
    match a {
        Argument::Expression(e) => sort_of(body, e),
        Argument::Consume(y) => sort_if(body.ty(*y)),
    }
}

/// The value of an argument doesn't come into a variable of a type, if that is known.
pub fn argument_misfits(body: &MethodBody<'_>, a: &Argument, t: Option<Ty>) -> bool
    requires { IsArgumentIn body.now.bodies.operations a.now }
    ensures { result ≡ argument_misfits (context_of body.now) (argument_of body.now.bodies.operations a.now) t }
{
    argument_answer(body, Question::Wrong, a) | isnt_known_value_of(argument_sort(body, a), t)
}

fn isnt_known_value_of(sort: Sort, t: Option<Ty>) -> bool
    ensures { result ≡ if_known t (isnt_value_of (as_sort sort)) }
{
    match t {
        Some(t) => isnt_value_of(sort, t),
        None => false,
    }
}

/// The value of an argument has the shape of a type, and too weak a permission.
pub fn argument_weak(body: &MethodBody<'_>, a: &Argument, t: Option<Ty>) -> bool
    requires { IsArgumentIn body.now.bodies.operations a.now }
    ensures { result ≡ argument_weak (context_of body.now) (argument_of body.now.bodies.operations a.now) t }
{
    weak(type_if(argument_sort(body, a)), t)
}

/// The arguments don't fit the parameters, or there are more or fewer.
pub fn arguments_misfit(body: &MethodBody<'_>, args: &[Argument], params: &[FieldDecl]) -> bool
    requires { All (IsArgumentIn body.now.bodies.operations) args.now }
    ensures { result ≡ arguments_misfit (context_of body.now) (map (argument_of body.now.bodies.operations) args.now) (map (λ f. f.ty) params.now) }
{
    if args.len() != params.len() {
        return true;
    }
    let mut found = false;
    for at in 0..args.len() {
        found |= argument_misfits(body, &args[at], Some(params[at].ty));
    }
    found
}

/// Some argument beside its parameter has too weak a permission.
pub fn arguments_weak(body: &MethodBody<'_>, args: &[Argument], params: &[FieldDecl]) -> bool
    requires { All (IsArgumentIn body.now.bodies.operations) args.now }
    ensures { result ≡ arguments_weak (context_of body.now) (map (argument_of body.now.bodies.operations) args.now) (map (λ f. f.ty) params.now) }
{
    let mut found = false;
    for at in 0..args.len().min(params.len()) {
        found |= argument_weak(body, &args[at], Some(params[at].ty));
    }
    found
}

/// The type of the variable that takes a result, if one does.
pub fn taker_type(body: &MethodBody<'_>, into: Option<u32>) -> Option<Ty>
    ensures { result ≡ taker_type (context_of body.now) into }
{
    match into {
        Some(x) => body.ty(x),
        None => None,
    }
}

/// The type of what the method returns.
pub fn returned_type(body: &MethodBody<'_>) -> Ty
    ensures { result ≡ (context_of body.now).result }
{
    body.kept();
    body.method().result
}
