//! NeedsConsume: an isolated variable stands as a value, an isolated field is read without a take, or a method keeps a receiver that is only lent.

ghost use Rattle.std.specs.Prelude.{◌≡◌, slice_get};
ghost use Rattle.perm_tree.specs.BodyTerms.{instruction_of, IsActionIn};
ghost use Rattle.perm_tree.specs.Code as code;
ghost use Rattle.perm_tree.specs.CodeOf.{code_of};
ghost use Rattle.perm_tree.specs.StatementSteps.{action_tie};
ghost use Rattle.perm_tree.specs.Lookup.{var_ty};
ghost use Rattle.perm_rules.specs.MethodBodies.{context_of, setting_of};
ghost use Rattle.perm_rules.specs.Parts.{if_both_known, is_isolated};
ghost use Rattle.perm_rules.specs.Permissions.{call_needs, instruction_needs, needs_consume, read_needs};
ghost use Rattle.perm_flow.specs.Parts.{part_of, IsPartIn};
ghost use Rattle.perm_flow.specs.Questions.{as_tie};

use crate::arguments::{argument_answer, arguments_answer, given};
use crate::part::Part;
use crate::terms::{Question, answer};
use crate::ties::{Tie, keeps_receiver, tie_in};
use perm_perm::adapt;
use perm_rules::MethodBody;
use perm_tree::ast::{Perm, Ty};
use perm_tree::bodies::{Action, Invocation};

pub fn needs_consume(body: &MethodBody<'_>, part: &Part) -> bool
    requires { IsPartIn body.now part.now }
    ensures { result ≡ needs_consume (context_of body.now) (part_of body.now part.now) }
{
    match part {
        Part::Simple(action) => action_needs(body, action),
        Part::Condition(e) => answer(body, Question::Needs, e),
        Part::Recover(_) => false,
        Part::Given(_, _) => false,
        Part::Returned(a) => argument_answer(body, Question::Needs, a),
    }
}

fn action_needs(body: &MethodBody<'_>, action: &Action) -> bool
    requires { IsActionIn body.now.bodies (code_of body.now.unit) action.now }
    ensures { result ≡ instruction_needs (context_of body.now) (instruction_of body.now.bodies (action_tie (var_ty (setting_of body.now).vars) body.now.bodies action.now) action.now) }
{
    match action {
        Action::Assign(_, a) => argument_answer(body, Question::Needs, a),
        Action::LoadField(_, y, f) => read_needs(body.ty(*y), body.field(*y, *f)),
        Action::LoadItem(_, _, e) => answer(body, Question::Needs, e),
        Action::NewArray(_, e) => answer(body, Question::Needs, e),
        Action::StoreField(_, _, a) => argument_answer(body, Question::Needs, a),
        Action::StoreItem(_, i, e) => answer(body, Question::Needs, i)
            | answer(body, Question::Needs, e),
        Action::Invoke(call) => call_needs(body, call),
        Action::Print(e) => answer(body, Question::Needs, e),
        _ => false,
    }
}

/// An isolated field is seen as nothing through the receiver.
fn read_needs(t: Option<Ty>, u: Option<Ty>) -> bool
    ensures { result ≡ if_both_known t u read_needs }
{
    match (t, u) {
        (Some(Ty::Ref(p, _)), Some(Ty::Ref(q, _))) => is_isolated(q) & adapt(p, q).is_none(),
        _ => false,
    }
}

fn is_isolated(p: Perm) -> bool
    ensures { result ≡ is_isolated p }
{
    matches!(p, Perm::Isolated)
}

fn call_needs(body: &MethodBody<'_>, call: &Invocation) -> bool
    requires { IsActionIn body.now.bodies (code_of body.now.unit) (Action.Invoke call.now) }
    ensures { result ≡ instruction_needs (context_of body.now) (instruction_of body.now.bodies (action_tie (var_ty (setting_of body.now).vars) body.now.bodies (Action.Invoke call.now)) (Action.Invoke call.now)) }
{
    arguments_answer(body, Question::Needs, given(body, call))
        | lent_needs(body, tie_in(body, call), call.routine)
}

/// A variable is lent to a method that keeps its receiver.
fn lent_needs(body: &MethodBody<'_>, tie: Tie, routine: u32) -> bool
    ensures { result ≡ call_needs (as_tie tie) (slice_get (context_of body.now).routines routine) }
{
    match tie {
        Tie::Lends => is_receiver_kept(body, routine),
        Tie::Shares => false,
        Tie::Raises => false,
    }
}

fn is_receiver_kept(body: &MethodBody<'_>, routine: u32) -> bool
    ensures { result ≡ call_needs code.Lends (slice_get (context_of body.now).routines routine) }
{
    match body.routine(routine) {
        Some(d) => keeps_receiver(d.receiver),
        None => false,
    }
}
