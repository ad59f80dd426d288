//! Variables anywhere in a part that pass a test.

ghost use Rattle.std.specs.Prelude.{◌≡◌};
ghost use Rattle.perm_tree.specs.BodyTerms.{instruction_of, IsActionIn};
ghost use Rattle.perm_tree.specs.Code.{Tie};
ghost use Rattle.perm_tree.specs.CodeOf.{code_of};
ghost use Rattle.perm_tree.specs.Mentions.{any_in_instruction, any_in_option};
ghost use Rattle.perm_rules.specs.MethodBodies.{context_of};
ghost use Rattle.perm_rules.specs.Parts.{any_in_part};
ghost use Rattle.perm_flow.specs.Parts.{part_of, IsPartIn};
ghost use Rattle.perm_flow.specs.Questions.{passes};

use crate::arguments::{argument_answer, arguments_answer, given};
use crate::part::Part;
use crate::terms::{Question, Test, answer, passes};
use perm_rules::MethodBody;
use perm_tree::bodies::{Action, Invocation};

/// A variable that takes a value counts too.
pub fn any_in_part(body: &MethodBody<'_>, test: Test, part: &Part) -> bool
    requires { IsPartIn body.now part.now }
    ensures { result ≡ any_in_part (passes (context_of body.now) test) (part_of body.now part.now) }
{
    match part {
        Part::Simple(action) => any_in_action(body, test, action),
        Part::Condition(e) => answer(body, Question::Any(test), e),
        Part::Recover(x) => passes(body, test, *x),
        Part::Given(w, x) => passes(body, test, *w) | passes(body, test, *x),
        Part::Returned(a) => argument_answer(body, Question::Any(test), a),
    }
}

fn any_in_action(body: &MethodBody<'_>, test: Test, action: &Action) -> bool
    requires { IsActionIn body.now.bodies (code_of body.now.unit) action.now }
    ensures { (tie : Tie) → result ≡ any_in_instruction (passes (context_of body.now) test) (instruction_of body.now.bodies tie action.now) }
{
    let any = Question::Any(test);
    match action {
        Action::Declare(x) => passes(body, test, *x),
        Action::Assign(x, a) => passes(body, test, *x) | argument_answer(body, any, a),
        Action::LoadField(x, y, _) => passes(body, test, *x) | passes(body, test, *y),
        Action::LoadLength(x, y) => passes(body, test, *x) | passes(body, test, *y),
        Action::LoadItem(x, y, e) => passes(body, test, *x)
            | (passes(body, test, *y) | answer(body, any, e)),
        Action::TakeField(x, y, _) => passes(body, test, *x) | passes(body, test, *y),
        Action::NewObject(x, _, _) => passes(body, test, *x),
        Action::NewArray(x, e) => passes(body, test, *x) | answer(body, any, e),
        Action::StoreField(y, _, a) => passes(body, test, *y) | argument_answer(body, any, a),
        Action::StoreItem(y, i, e) => passes(body, test, *y)
            | (answer(body, any, i) | answer(body, any, e)),
        Action::Invoke(call) => any_in_call(body, test, call),
        Action::Print(e) => answer(body, any, e),
        _ => passes(body, test, 0),
    }
}

fn any_in_call(body: &MethodBody<'_>, test: Test, call: &Invocation) -> bool
    requires { IsActionIn body.now.bodies (code_of body.now.unit) (Action.Invoke call.now) }
    ensures { (tie : Tie) → result ≡ any_in_instruction (passes (context_of body.now) test) (instruction_of body.now.bodies tie (Action.Invoke call.now)) }
{
    any_in_option(body, test, call.into)
        | (passes(body, test, call.receiver)
            | arguments_answer(body, Question::Any(test), given(body, call)))
}

fn any_in_option(body: &MethodBody<'_>, test: Test, into: Option<u32>) -> bool
    ensures { result ≡ any_in_option (passes (context_of body.now) test) into }
{
    match into {
        Some(x) => passes(body, test, x),
        None => false,
    }
}
