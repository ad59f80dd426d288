//! PermissionTooWeak: shapes fit, and a permission isn't at most the one that is asked for.

ghost use Rattle.std.specs.Prelude.{◌≡◌, All, map, not, option_map, slice_get};
ghost use Rattle.perm_tree.specs.BodyTerms.{argument_of, instruction_of, IsActionIn, IsArgumentIn};
ghost use Rattle.perm_tree.specs.CodeOf.{code_of};
ghost use Rattle.perm_tree.specs.StatementSteps.{action_tie};
ghost use Rattle.perm_tree.specs.Lookup.{var_ty};
ghost use Rattle.perm_perm.specs.Adaptation.{adapted};
ghost use Rattle.perm_perm.specs.Order.{is_at_most};
ghost use Rattle.perm_rules.specs.MethodBodies.{context_of, setting_of};
ghost use Rattle.perm_rules.specs.Parts as rules;
ghost use Rattle.perm_rules.specs.Parts.{if_both_known, if_reference};
ghost use Rattle.perm_rules.specs.Permissions.{call_type, call_weak, permission_too_weak, raised_weak, receiver_weak, seen_through};
ghost use Rattle.perm_flow.specs.Parts.{part_of, IsPartIn};
ghost use Rattle.perm_flow.specs.Questions.{as_tie};

use crate::arguments::{argument_weak, arguments_weak, given, returned_type, taker_type};
use crate::part::Part;
use crate::ties::{Tie, tie_in};
use crate::types::{is_too_weak, raised_type, weak};
use perm_perm::{adapt, leq};
use perm_rules::MethodBody;
use perm_tree::ast::{Perm, Shape, Ty};
use perm_tree::bodies::{Action, Argument, Invocation};

pub fn permission_too_weak(body: &MethodBody<'_>, part: &Part) -> bool
    requires { IsPartIn body.now part.now }
    ensures { result ≡ permission_too_weak (context_of body.now) (part_of body.now part.now) }
{
    match part {
        Part::Simple(action) => action_weak(body, action),
        Part::Condition(_) => false,
        Part::Recover(_) => false,
        Part::Given(w, x) => given_weak(body.ty(*w), body.ty(*x)),
        Part::Returned(a) => argument_weak(body, a, Some(returned_type(body))),
    }
}

fn action_weak(body: &MethodBody<'_>, action: &Action) -> bool
    requires { IsActionIn body.now.bodies (code_of body.now.unit) action.now }
    ensures { result ≡ permission_too_weak (context_of body.now) (rules.Simple (instruction_of body.now.bodies (action_tie (var_ty (setting_of body.now).vars) body.now.bodies action.now) action.now)) }
{
    match action {
        Action::Assign(x, a) => argument_weak(body, a, body.ty(*x)),
        Action::LoadField(x, y, f) => weak(
            seen_through(body.ty(*y), body.field(*y, *f)),
            body.ty(*x),
        ),
        Action::StoreField(y, f, a) => argument_weak(body, a, body.field(*y, *f)),
        Action::Invoke(call) => call_weak(body, call, tie_in(body, call), given(body, call)),
        _ => false,
    }
}

/// The type that a field has where it is read through a receiver.
fn seen_through(t: Option<Ty>, u: Option<Ty>) -> Option<Ty>
    ensures { result ≡ seen_through t u }
{
    match (t, u) {
        (Some(Ty::Ref(p, _)), Some(Ty::Ref(q, l))) => adapted(p, q, l),
        _ => u,
    }
}

fn adapted(p: Perm, q: Perm, l: Shape) -> Option<Ty>
    ensures { result ≡ option_map (λ r. Ty.Ref r l) (adapted p q) }
{
    match adapt(p, q) {
        Some(r) => Some(Ty::Ref(r, l)),
        None => None,
    }
}

/// A given value is raised, and then has the shape of the variable that takes it and too weak a permission.
fn given_weak(t: Option<Ty>, u: Option<Ty>) -> bool
    ensures { result ≡ if_both_known t u raised_weak }
{
    match (t, u) {
        (Some(t), Some(u)) => is_too_weak(raised_type(t), u),
        _ => false,
    }
}

/// Of a call an argument, the receiver or the result is too weak.
fn call_weak(body: &MethodBody<'_>, call: &Invocation, tie: Tie, args: &[Argument]) -> bool
    requires { All (IsArgumentIn body.now.bodies.operations) args.now }
    ensures { result ≡ call_weak (context_of body.now) call.now.into (as_tie tie) call.now.receiver (map (argument_of body.now.bodies.operations) args.now) (slice_get (context_of body.now).routines call.now.routine) }
{
    match body.routine(call.routine) {
        Some(d) => {
            let receiver = receiver_weak(tie, body.ty(call.receiver), d.receiver);
            let back = weak(Some(call_type(tie, d.result)), taker_type(body, call.into));
            arguments_weak(body, args, d.params.as_slice()) | (receiver | back)
        }
        None => false,
    }
}

/// The permission of a receiver that isn't lent is more than the method asks for.
fn receiver_weak(tie: Tie, t: Option<Ty>, r: Perm) -> bool
    ensures { result ≡ receiver_weak (as_tie tie) t r }
{
    match tie {
        Tie::Lends => false,
        Tie::Shares => isnt_at_most(t, r),
        Tie::Raises => isnt_at_most(t, r),
    }
}

fn isnt_at_most(t: Option<Ty>, r: Perm) -> bool
    ensures { result ≡ if_reference t (λ p. not (is_at_most p r)) }
{
    match t {
        Some(Ty::Ref(p, _)) => !leq(p, r),
        _ => false,
    }
}

/// The type of a call's value.
fn call_type(tie: Tie, t: Ty) -> Ty
    ensures { result ≡ call_type (as_tie tie) t }
{
    match tie {
        Tie::Raises => raised_type(t),
        Tie::Shares => t,
        Tie::Lends => t,
    }
}
