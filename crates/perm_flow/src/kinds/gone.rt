//! Gone: a variable isn't live where the part reads it, looks at it or consumes it.

ghost use Rattle.std.specs.Prelude.{◌≡◌, All, map};
ghost use Rattle.perm_tree.specs.BodyTerms.{argument_of, instruction_of, IsActionIn, IsArgumentIn};
ghost use Rattle.perm_tree.specs.Code.{Tie};
ghost use Rattle.perm_tree.specs.CodeOf.{code_of};
ghost use Rattle.perm_tree.specs.VarSets.{member};
ghost use Rattle.perm_rules.specs.Liveness.{after_arguments, arguments_gone, call_gone, gone, instruction_gone};
ghost use Rattle.perm_flow.specs.Parts.{part_of, IsPartIn};

use crate::arguments::{after_argument, argument_answer, given};
use crate::part::Part;
use crate::sets::{holds, without};
use crate::terms::{Question, Test, answer};
use perm_rules::{MethodBody, VarSet};
use perm_tree::bodies::{Action, Argument};

/// What is assigned need not be live.
pub fn gone(body: &MethodBody<'_>, part: &Part, live: VarSet) -> bool
    requires { IsPartIn body.now part.now }
    ensures { result ≡ gone (part_of body.now part.now) (member live) }
{
    match part {
        Part::Simple(action) => action_gone(body, action, live),
        Part::Condition(e) => answer(body, Question::Any(Test::Gone(live)), e),
        Part::Recover(_) => false,
        Part::Given(w, _) => !holds(live, *w),
        Part::Returned(a) => argument_answer(body, Question::Any(Test::Gone(live)), a),
    }
}

fn action_gone(body: &MethodBody<'_>, action: &Action, live: VarSet) -> bool
    requires { IsActionIn body.now.bodies (code_of body.now.unit) action.now }
    ensures { (tie : Tie) → result ≡ instruction_gone (instruction_of body.now.bodies tie action.now) (member live) }
{
    let any = Question::Any(Test::Gone(live));
    match action {
        Action::Assign(_, a) => argument_answer(body, any, a),
        Action::LoadField(_, y, _) => !holds(live, *y),
        Action::LoadLength(_, y) => !holds(live, *y),
        Action::LoadItem(_, y, e) => answer(body, any, e) | !holds(live, *y),
        Action::TakeField(_, y, _) => !holds(live, *y),
        Action::NewArray(_, e) => answer(body, any, e),
        Action::StoreField(y, _, a) => argument_answer(body, any, a)
            | !holds(after_argument(body, a, live), *y),
        Action::StoreItem(y, i, e) => answer(body, any, i)
            | (answer(body, any, e) | !holds(live, *y)),
        Action::Invoke(call) => call_gone(
            body,
            call.consumed,
            call.receiver,
            given(body, call),
            live,
        ),
        Action::Print(e) => answer(body, any, e),
        _ => false,
    }
}

/// A receiver that is consumed comes before the arguments, and one that isn't after them.
fn call_gone(body: &MethodBody<'_>, consumed: bool, y: u32, args: &[Argument], live: VarSet) -> bool
    requires { All (IsArgumentIn body.now.bodies.operations) args.now }
    ensures { result ≡ call_gone consumed y (map (argument_of body.now.bodies.operations) args.now) (member live) }
{
    if consumed {
        !holds(live, y) | arguments_gone(body, args, without(live, y))
    } else {
        arguments_gone(body, args, live) | !holds(after_arguments(body, args, live), y)
    }
}

/// Each argument is looked at after those before it are taken.
fn arguments_gone(body: &MethodBody<'_>, args: &[Argument], live: VarSet) -> bool
    requires { All (IsArgumentIn body.now.bodies.operations) args.now }
    ensures { result ≡ arguments_gone (map (argument_of body.now.bodies.operations) args.now) (member live) }
{
    let mut left = live;
    let mut found = false;
    for a in args {
        found |= argument_answer(body, Question::Any(Test::Gone(left)), a);
        left = after_argument(body, a, left);
    }
    found
}

fn after_arguments(body: &MethodBody<'_>, args: &[Argument], live: VarSet) -> VarSet
    ensures { member result ≡ after_arguments (map (argument_of body.now.bodies.operations) args.now) (member live) }
{
    let mut left = live;
    for a in args {
        left = after_argument(body, a, left);
    }
    left
}
