//! UnknownName: a variable isn't known, or the receiver's class has no such member.

ghost use Rattle.std.specs.Prelude.{◌≡◌, is_none, slice_get};
ghost use Rattle.perm_tree.specs.BodyTerms.{instruction_of};
ghost use Rattle.perm_tree.specs.Code.{Tie};
ghost use Rattle.perm_rules.specs.MethodBodies.{context_of};
ghost use Rattle.perm_rules.specs.Parts as rules;
ghost use Rattle.perm_rules.specs.Shapes.{lacks_field, lacks_member, lacks_routine, unknown_name};
ghost use Rattle.perm_flow.specs.Parts.{part_of, IsPartIn};

use crate::mentions::any_in_part;
use crate::part::Part;
use crate::terms::Test;
use crate::types::known_object;
use perm_rules::MethodBody;
use perm_tree::bodies::Action;

/// The tests of other kinds say nothing of what isn't known, since this one is the lowest.
pub fn unknown_name(body: &MethodBody<'_>, part: &Part) -> bool
    requires { IsPartIn body.now part.now }
    ensures { result ≡ unknown_name (context_of body.now) (part_of body.now part.now) }
{
    any_in_part(body, Test::Unknown, part) | lacks_member(body, part)
}

fn lacks_member(body: &MethodBody<'_>, part: &Part) -> bool
    ensures { result ≡ lacks_member (context_of body.now) (part_of body.now part.now) }
{
    match part {
        Part::Simple(action) => action_lacks(body, action),
        Part::Condition(_) => false,
        Part::Recover(_) => false,
        Part::Given(_, _) => false,
        Part::Returned(_) => false,
    }
}

fn action_lacks(body: &MethodBody<'_>, action: &Action) -> bool
    ensures { (tie : Tie) → result ≡ lacks_member (context_of body.now) (rules.Simple (instruction_of body.now.bodies tie action.now)) }
{
    match action {
        Action::LoadField(_, y, f) => lacks_field(body, *y, *f),
        Action::TakeField(_, y, f) => lacks_field(body, *y, *f),
        Action::StoreField(y, f, _) => lacks_field(body, *y, *f),
        Action::Invoke(call) => lacks_routine(body, call.receiver, call.routine),
        _ => false,
    }
}

fn lacks_field(body: &MethodBody<'_>, y: u32, f: u32) -> bool
    ensures { result ≡ lacks_field (context_of body.now) y f }
{
    known_object(body.ty(y)) & body.field(y, f).is_none()
}

fn lacks_routine(body: &MethodBody<'_>, y: u32, n: u32) -> bool
    ensures { result ≡ lacks_routine (context_of body.now) y n }
{
    known_object(body.ty(y)) & is_no_routine(body, n)
}

fn is_no_routine(body: &MethodBody<'_>, n: u32) -> bool
    ensures { result ≡ is_none (slice_get (context_of body.now).routines n) }
{
    body.routine(n).is_none()
}
