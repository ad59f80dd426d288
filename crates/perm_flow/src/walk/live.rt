//! What a simple statement and a `give` change of the live set.

ghost use Rattle.std.specs.Prelude.{map};
ghost use Rattle.perm_tree.specs.declared.bodies.Action.TheVariants as actions;
ghost use Rattle.perm_tree.specs.BodyTerms.{argument_of, instruction_of, stretch, IsActionIn};
ghost use Rattle.perm_tree.specs.Code.{Tie};
ghost use Rattle.perm_tree.specs.CodeOf.{code_of};
ghost use Rattle.perm_tree.specs.Mentions.{arguments_consume, just_if, just_option};
ghost use Rattle.perm_tree.specs.VarSets.{member};
ghost use Rattle.perm_tree.specs.Vars.{just, minus, plus};
ghost use Rattle.perm_rules.specs.Liveness.{after};
ghost use Rattle.perm_flow.specs.Walk.{Holds};

use crate::arguments::{after_argument, given};
use crate::sets::without;
use perm_rules::{MethodBody, VarSet};
use perm_tree::bodies::{Action, Argument, Invocation};

/// The set with one more variable. The number 256, which an unknown name may have, is in no set.
pub fn with(set: VarSet, x: u32) -> VarSet
    ensures { Holds result (plus (member set) (just x)) }
{
    match u8::try_from(x) {
        Ok(x) => set.insert(x),
        Err(_) => set,
    }
}

/// The set without what some arguments consume.
fn without_arguments(body: &MethodBody<'_>, set: VarSet, arguments: &[Argument]) -> VarSet
    ensures { Holds result (minus (member set) (arguments_consume (map (argument_of body.now.bodies.operations) arguments.now))) }
{
    let mut rest = set;
    'arguments: for argument in arguments {
        rest = after_argument(body, argument, rest);
    }
    rest
}

/// The set without the receiver of a call, if it is consumed.
fn without_receiver(set: VarSet, consumed: bool, receiver: u32) -> VarSet
    ensures { Holds result (minus (member set) (just_if consumed receiver)) }
{
    if consumed {
        without(set, receiver)
    } else {
        set
    }
}

/// The set with the variable that a call's result goes into.
fn with_result(set: VarSet, into: Option<u32>) -> VarSet
    ensures { Holds result (plus (member set) (just_option into)) }
{
    match into {
        Some(x) => with(set, x),
        None => set,
    }
}

/// What is live after a call.
fn after_call(body: &MethodBody<'_>, call: Invocation, live: VarSet) -> VarSet
    requires { IsActionIn body.now.bodies (code_of body.now.unit) (actions.Invoke call) }
    ensures { Holds result (plus (minus (member live) (plus (just_if call.consumed call.receiver) (arguments_consume (map (argument_of body.now.bodies.operations) (stretch body.now.bodies.arguments call.first call.count))))) (just_option call.into)) }
{
    let set = without_receiver(live, call.consumed, call.receiver);
    let set = without_arguments(body, set, given(body, &call));
    with_result(set, call.into)
}

/// What is live after a simple statement.
pub fn after_action(body: &MethodBody<'_>, action: Action, live: VarSet) -> VarSet
    requires { IsActionIn body.now.bodies (code_of body.now.unit) action }
    ensures { (tie : Tie) → Holds result (after (instruction_of body.now.bodies tie action) (member live)) }
{
    match action {
        Action::Declare(x) => without(live, x),
        Action::Assign(x, argument) => with(after_argument(body, &argument, live), x),
        Action::LoadField(x, _, _) => with(live, x),
        Action::LoadLength(x, _) => with(live, x),
        Action::LoadItem(x, _, _) => with(live, x),
        Action::TakeField(x, _, _) => with(live, x),
        Action::NewObject(x, _, _) => with(live, x),
        Action::NewArray(x, _) => with(live, x),
        Action::StoreField(_, _, argument) => after_argument(body, &argument, live),
        Action::StoreItem(_, _, _) => live,
        Action::Invoke(call) => after_call(body, call, live),
        Action::Print(_) => live,
        _ => without(live, 0),
    }
}
