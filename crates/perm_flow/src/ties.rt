//! How a call is tied to its caller's references.

ghost use Rattle.std.specs.Prelude.{◌≡◌, map};
ghost use Rattle.std.specs.List.{list_all};
ghost use Rattle.perm_tree.specs.declared.bodies.Action.TheVariants as actions;
ghost use Rattle.perm_tree.specs.BodyTerms.{argument_of, expression_term, IsActionIn};
ghost use Rattle.perm_tree.specs.Code as code;
ghost use Rattle.perm_tree.specs.CodeOf.{code_of};
ghost use Rattle.perm_tree.specs.Lookup.{var_ty};
ghost use Rattle.perm_tree.specs.StatementSteps.{action_tie};
ghost use Rattle.perm_tree.specs.Ties.{is_harmless, is_harmless_consumed, is_harmless_ty, raises_if, tie_of};
ghost use Rattle.perm_rules.specs.MethodBodies.{context_of, setting_of};
ghost use Rattle.perm_rules.specs.Parts.{type_of};
ghost use Rattle.perm_rules.specs.Permissions.{keeps_receiver};
ghost use Rattle.perm_flow.specs.Questions.{as_tie};

use crate::arguments::given;
use perm_rules::MethodBody;
use perm_tree::ast::{Perm, Ty};
use perm_tree::bodies::{Argument, Expression, Invocation, Operand};

/// It shares its caller's references, its result is raised, or its isolated receiver is lent to it.
#[derive(Clone, Copy, Debug)]
pub enum Tie {
    Shares,
    Raises,
    Lends,
}

/// The tie of a call on a variable of this type.
pub fn tie_of(t: Option<Ty>, consumed: bool, harmless: bool) -> Tie
    ensures { as_tie result ≡ tie_of t consumed harmless }
{
    match t {
        Some(Ty::Ref(Perm::Isolated, _)) => {
            if consumed {
                raises_if(harmless)
            } else {
                Tie::Lends
            }
        }
        Some(Ty::Ref(Perm::Immutable, _)) => raises_if(harmless),
        _ => Tie::Shares,
    }
}

fn raises_if(harmless: bool) -> Tie
    ensures { as_tie result ≡ raises_if harmless }
{
    if harmless { Tie::Raises } else { Tie::Shares }
}

/// All arguments of a call are harmless.
pub fn are_harmless(body: &MethodBody<'_>, args: &[Argument]) -> bool
    ensures { result ≡ list_all (is_harmless (type_of (context_of body.now))) (map (argument_of body.now.bodies.operations) args.now) }
{
    let mut all = true;
    for a in args {
        all &= is_harmless(body, a);
    }
    all
}

fn is_harmless(body: &MethodBody<'_>, a: &Argument) -> bool
    ensures { result ≡ is_harmless (type_of (context_of body.now)) (argument_of body.now.bodies.operations a.now) }
{
    match a {
        Argument::Expression(e) => is_harmless_value(body, e),
        Argument::Consume(y) => is_harmless_consumed(body.ty(*y)),
    }
}

/// A variable is harmless by its type, and all other values are.
fn is_harmless_value(body: &MethodBody<'_>, e: &Expression) -> bool
    ensures { result ≡ is_harmless (type_of (context_of body.now)) (code.Expression (expression_term body.now.bodies.operations e.now)) }
{
    match e {
        Expression::Operand(Operand::Local(x)) => is_harmless_ty(body.ty(*x)),
        Expression::Operand(_) => true,
        Expression::Operation(_) => true,
        Expression::Operations(_, _) => true,
    }
}

fn is_harmless_ty(t: Option<Ty>) -> bool
    ensures { result ≡ is_harmless_ty t }
{
    match t {
        Some(Ty::Ref(Perm::Immutable, _)) => true,
        Some(Ty::Ref(_, _)) => false,
        _ => true,
    }
}

fn is_harmless_consumed(t: Option<Ty>) -> bool
    ensures { result ≡ is_harmless_consumed t }
{
    matches!(t, Some(Ty::Ref(Perm::Isolated | Perm::Immutable, _)))
}

/// The tie of a call.
pub fn tie_in(body: &MethodBody<'_>, call: &Invocation) -> Tie
    requires { IsActionIn body.now.bodies (code_of body.now.unit) (actions.Invoke call.now) }
    ensures { as_tie result ≡ action_tie (var_ty (setting_of body.now).vars) body.now.bodies (actions.Invoke call.now) }
{
    body.kept();
    let harmless = are_harmless(body, given(body, call));
    tie_of(body.ty(call.receiver), call.consumed, harmless)
}

/// A method with this permission keeps its receiver.
pub fn keeps_receiver(p: Perm) -> bool
    ensures { result ≡ keeps_receiver p }
{
    matches!(p, Perm::Isolated | Perm::Immutable)
}
