//! NotAllowedThrough: a field, an item or a method isn't used so through a receiver of this permission.

ghost use Rattle.std.specs.Prelude.{◌≡◌, ◌&&◌, not, map, slice_get};
ghost use Rattle.std.specs.List.{list_all};
ghost use Rattle.perm_tree.specs.BodyTerms.{argument_of, instruction_of, IsActionIn};
ghost use Rattle.perm_tree.specs.Code as code;
ghost use Rattle.perm_tree.specs.CodeOf.{code_of};
ghost use Rattle.perm_tree.specs.CodeNames.{is_tied};
ghost use Rattle.perm_tree.specs.Ties.{is_harmless};
ghost use Rattle.perm_tree.specs.StatementSteps.{action_tie};
ghost use Rattle.perm_tree.specs.Lookup.{var_ty};
ghost use Rattle.perm_rules.specs.MethodBodies.{context_of, setting_of};
ghost use Rattle.perm_rules.specs.Parts as rules;
ghost use Rattle.perm_rules.specs.Parts.{if_both_known, if_known, type_of};
ghost use Rattle.perm_rules.specs.Permissions.{call_barred, may_change, may_store, not_allowed_through, read_barred};
ghost use Rattle.perm_flow.specs.Parts.{part_of, IsPartIn};
ghost use Rattle.perm_flow.specs.Questions.{as_tie};

use crate::arguments::given;
use crate::part::Part;
use crate::ties::{Tie, are_harmless, keeps_receiver, tie_in};
use crate::types::is_tied;
use perm_rules::MethodBody;
use perm_tree::ast::{Method, Perm, Ty};
use perm_tree::bodies::{Action, Argument};

pub fn not_allowed_through(body: &MethodBody<'_>, part: &Part) -> bool
    requires { IsPartIn body.now part.now }
    ensures { result ≡ not_allowed_through (context_of body.now) (part_of body.now part.now) }
{
    match part {
        Part::Simple(action) => action_barred(body, action),
        Part::Condition(_) => false,
        Part::Recover(_) => false,
        Part::Given(_, _) => false,
        Part::Returned(_) => false,
    }
}

fn action_barred(body: &MethodBody<'_>, action: &Action) -> bool
    requires { IsActionIn body.now.bodies (code_of body.now.unit) action.now }
    ensures { result ≡ not_allowed_through (context_of body.now) (rules.Simple (instruction_of body.now.bodies (action_tie (var_ty (setting_of body.now).vars) body.now.bodies action.now) action.now)) }
{
    match action {
        Action::LoadField(_, y, f) => read_barred(body.ty(*y), body.field(*y, *f)),
        Action::TakeField(_, y, _) => known_unchangeable(body.ty(*y)),
        Action::StoreField(y, f, _) => store_barred(body.ty(*y), body.field(*y, *f)),
        Action::StoreItem(y, _, _) => known_unchangeable(body.ty(*y)),
        Action::Invoke(call) => call_barred(
            body,
            tie_in(body, call),
            given(body, call),
            call.routine,
        ),
        _ => false,
    }
}

/// Through an isolated variable no readable or writable field is read.
fn read_barred(t: Option<Ty>, u: Option<Ty>) -> bool
    ensures { result ≡ if_both_known t u read_barred }
{
    match (t, u) {
        (Some(Ty::Ref(Perm::Isolated, _)), Some(Ty::Ref(q, l))) => is_tied(Ty::Ref(q, l)),
        _ => false,
    }
}

fn store_barred(t: Option<Ty>, u: Option<Ty>) -> bool
    ensures { result ≡ if_both_known t u (λ a b. not (may_store a b)) }
{
    match (t, u) {
        (Some(t), Some(u)) => !may_store(t, u),
        _ => false,
    }
}

/// Through a writable variable every field is written, and through an isolated one each that isn't readable or writable.
fn may_store(t: Ty, u: Ty) -> bool
    ensures { result ≡ may_store t u }
{
    match t {
        Ty::Ref(Perm::Writable, _) => true,
        Ty::Ref(Perm::Isolated, _) => !is_tied(u),
        _ => false,
    }
}

fn known_unchangeable(t: Option<Ty>) -> bool
    ensures { result ≡ if_known t (λ u. not (may_change u)) }
{
    match t {
        Some(t) => !may_change(t),
        None => false,
    }
}

/// An array is written, and an isolated field taken, through a writable or an isolated variable.
fn may_change(t: Ty) -> bool
    ensures { result ≡ may_change t }
{
    matches!(t, Ty::Ref(Perm::Writable | Perm::Isolated, _))
}

/// A call lends what it may not lend; where the method keeps its receiver, a consume is needed instead.
fn call_barred(body: &MethodBody<'_>, tie: Tie, args: &[Argument], routine: u32) -> bool
    ensures { result ≡ call_barred (context_of body.now) (as_tie tie) (map (argument_of body.now.bodies.operations) args.now) (slice_get (context_of body.now).routines routine) }
{
    match tie {
        Tie::Lends => is_loan_barred(body, args, routine),
        Tie::Shares => false,
        Tie::Raises => false,
    }
}

fn is_loan_barred(body: &MethodBody<'_>, args: &[Argument], routine: u32) -> bool
    ensures { result ≡ call_barred (context_of body.now) code.Lends (map (argument_of body.now.bodies.operations) args.now) (slice_get (context_of body.now).routines routine) }
{
    match body.routine(routine) {
        Some(d) => !keeps_receiver(d.receiver) & !may_lend(body, args, d),
        None => false,
    }
}

/// A lending call has only harmless arguments, and its result isn't readable or writable.
fn may_lend(body: &MethodBody<'_>, args: &[Argument], routine: &Method) -> bool
    ensures { result ≡ (list_all (is_harmless (type_of (context_of body.now))) (map (argument_of body.now.bodies.operations) args.now) && not (is_tied routine.now.result)) }
{
    are_harmless(body, args) & !is_tied(routine.result)
}
