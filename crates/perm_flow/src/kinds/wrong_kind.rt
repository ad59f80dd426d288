//! WrongKind: shapes don't fit, or a member is used of what has no such member.

ghost use Rattle.std.specs.Prelude.{◌≡◌, All, map, slice_get};
ghost use Rattle.perm_tree.specs.BodyTerms.{argument_of, expression_term, instruction_of, IsActionIn, IsArgumentIn, IsExpressionIn};
ghost use Rattle.perm_tree.specs.Code.{Tie, TakeField};
ghost use Rattle.perm_tree.specs.CodeOf.{code_of};
ghost use Rattle.perm_rules.specs.MethodBodies.{context_of};
ghost use Rattle.perm_rules.specs.Shapes.{call_misfits, instruction_wrong, isnt_isolated, wrong_kind};
ghost use Rattle.perm_rules.specs.Sorts.{isnt_bool, isnt_long};
ghost use Rattle.perm_flow.specs.Parts.{part_of, IsPartIn};

use crate::arguments::{
    argument_misfits, arguments_answer, arguments_misfit, given, returned_type, taker_type,
};
use crate::part::Part;
use crate::sorts::isnt_plain;
use crate::terms::{Question, answer, sort_of};
use crate::types::{has_isolated, known_no_array, known_no_object, known_plain, shapes_differ};
use perm_rules::MethodBody;
use perm_tree::ast::{Perm, Shape, Ty};
use perm_tree::bodies::{Action, Argument, Expression, Invocation};

/// What is wrong with a given value is told by `BadGive`.
pub fn wrong_kind(body: &MethodBody<'_>, part: &Part) -> bool
    requires { IsPartIn body.now part.now }
    ensures { result ≡ wrong_kind (context_of body.now) (part_of body.now part.now) }
{
    match part {
        Part::Simple(action) => action_wrong(body, action),
        Part::Condition(e) => isnt_bool(body, e),
        Part::Recover(x) => known_plain(body.ty(*x)),
        Part::Given(_, _) => false,
        Part::Returned(a) => argument_misfits(body, a, Some(returned_type(body))),
    }
}

fn action_wrong(body: &MethodBody<'_>, action: &Action) -> bool
    requires { IsActionIn body.now.bodies (code_of body.now.unit) action.now }
    ensures { (tie : Tie) → result ≡ instruction_wrong (context_of body.now) (instruction_of body.now.bodies tie action.now) }
{
    match action {
        Action::Assign(x, a) => argument_misfits(body, a, body.ty(*x)),
        Action::LoadField(x, y, f) => known_no_object(body.ty(*y))
            | shapes_differ(body.field(*y, *f), body.ty(*x)),
        Action::LoadLength(x, y) => known_no_array(body.ty(*y))
            | shapes_differ(Some(Ty::Long), body.ty(*x)),
        Action::LoadItem(x, y, e) => known_no_array(body.ty(*y))
            | (isnt_long(body, e) | shapes_differ(Some(Ty::Long), body.ty(*x))),
        Action::TakeField(x, y, f) => take_wrong(body, *x, *y, *f),
        Action::NewObject(x, class, _) => shapes_differ(
            Some(Ty::Ref(Perm::Isolated, Shape::Class(*class))),
            body.ty(*x),
        ),
        Action::NewArray(x, e) => isnt_long(body, e)
            | shapes_differ(Some(Ty::Ref(Perm::Isolated, Shape::Array)), body.ty(*x)),
        Action::StoreField(y, f, a) => known_no_object(body.ty(*y))
            | argument_misfits(body, a, body.field(*y, *f)),
        Action::StoreItem(y, i, e) => known_no_array(body.ty(*y))
            | (isnt_long(body, i) | isnt_long(body, e)),
        Action::Invoke(call) => call_wrong(body, call),
        Action::Print(e) => isnt_long(body, e),
        _ => false,
    }
}

fn take_wrong(body: &MethodBody<'_>, x: u32, y: u32, f: u32) -> bool
    ensures { result ≡ instruction_wrong (context_of body.now) (TakeField x y f) }
{
    known_no_object(body.ty(y))
        | (isnt_isolated(body.field(y, f)) | shapes_differ(body.field(y, f), body.ty(x)))
}

/// The field is known not to be isolated.
fn isnt_isolated(t: Option<Ty>) -> bool
    ensures { result ≡ isnt_isolated t }
{
    match t {
        Some(t) => !has_isolated(Some(t)),
        None => false,
    }
}

fn isnt_long(body: &MethodBody<'_>, e: &Expression) -> bool
    requires { IsExpressionIn body.now.bodies.operations e.now }
    ensures { result ≡ isnt_long (context_of body.now) (expression_term body.now.bodies.operations e.now) }
{
    answer(body, Question::Wrong, e) | isnt_plain(sort_of(body, e), Ty::Long)
}

fn isnt_bool(body: &MethodBody<'_>, e: &Expression) -> bool
    requires { IsExpressionIn body.now.bodies.operations e.now }
    ensures { result ≡ isnt_bool (context_of body.now) (expression_term body.now.bodies.operations e.now) }
{
    answer(body, Question::Wrong, e) | isnt_plain(sort_of(body, e), Ty::Bool)
}

fn call_wrong(body: &MethodBody<'_>, call: &Invocation) -> bool
    requires { IsActionIn body.now.bodies (code_of body.now.unit) (Action.Invoke call.now) }
    ensures { (tie : Tie) → result ≡ instruction_wrong (context_of body.now) (instruction_of body.now.bodies tie (Action.Invoke call.now)) }
{
    let args = given(body, call);
    let misfits = call_misfits(body, call.into, args, call.routine);
    known_no_object(body.ty(call.receiver))
        | (arguments_answer(body, Question::Wrong, args) | misfits)
}

/// The arguments or the result of a call don't fit its method.
fn call_misfits(body: &MethodBody<'_>, into: Option<u32>, args: &[Argument], routine: u32) -> bool
    requires { All (IsArgumentIn body.now.bodies.operations) args.now }
    ensures { result ≡ call_misfits (context_of body.now) into (map (argument_of body.now.bodies.operations) args.now) (slice_get (context_of body.now).routines routine) }
{
    match body.routine(routine) {
        Some(d) => arguments_misfit(body, args, d.params.as_slice())
            | shapes_differ(Some(d.result), taker_type(body, into)),
        None => false,
    }
}
