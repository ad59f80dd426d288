//! The variables that stand in an expression, as sets of the known ones.

ghost use Rattle.std.specs.Prelude.{◌≡◌, [], length, map};
ghost use Rattle.perm_tree.specs.declared.bodies.Expression.TheVariants as expressions;
ghost use Rattle.perm_tree.specs.BodyTerms.{argument_of, expression_term, operand_term, operation_term, operation_terms, AreArgumentsIn, AreOrdered, IsArgumentIn, IsExpressionIn, IsOperandBelow};
ghost use Rattle.perm_tree.specs.Mentions.{argument_mentions, term_mentions};
ghost use Rattle.perm_par.specs.Known.{HoldsKnown};
ghost use Rattle.perm_par.specs.Operands.{left_of, right_of, stand_in};

use crate::actions::known;
use perm_rules::{MethodBody, VarSet};
use perm_tree::bodies::{Argument, Expression, Operand, Operation};

/// The left operand, or the only one.
fn left(operation: Operation) -> Operand
    ensures { result ≡ left_of operation }
{
    match operation {
        Operation::Unary(_, a) => a,
        Operation::Binary(_, a, _) => a,
    }
}

/// The right operand. That of a unary operator is as null.
fn right(operation: Operation) -> Operand
    ensures { result ≡ right_of operation }
{
    match operation {
        Operation::Unary(_, _) => Operand::Null,
        Operation::Binary(_, _, b) => b,
    }
}

/// The variable that an operand is, if it is one.
fn in_leaf(body: &MethodBody<'_>, operand: Operand) -> VarSet
    ensures { HoldsKnown body.now result (term_mentions (operand_term [] operand)) }
{
    match operand {
        Operand::Local(x) => known(body, x),
        _ => VarSet::new(),
    }
}

/// The variables of the value of an operand. It goes on to the left in a loop, so that only right operands take a call.
fn in_operand(body: &MethodBody<'_>, run: &[Operation], operand: Operand) -> VarSet
    requires ordered { AreOrdered run.now }
    requires below { IsOperandBelow (length run.now) operand }
    ensures { HoldsKnown body.now result (term_mentions (operand_term (operation_terms run.now) operand)) }
{
    let mut set = VarSet::new();
    let mut on = operand;
    'on: while let Operand::Earlier(at) = on {
        let operation = run[at as usize];
        set = set.union(in_operand(body, run, right(operation)));
        on = left(operation);
    }
    set.union(in_leaf(body, on))
}

/// The variables of one operation that stands alone.
fn in_operation(body: &MethodBody<'_>, operation: Operation) -> VarSet
    ensures { HoldsKnown body.now result (term_mentions (operation_term [] operation)) }
{
    in_leaf(body, right(operation)).union(in_leaf(body, left(operation)))
}

/// The variables of the last of some operations.
fn in_operations(body: &MethodBody<'_>, first: u32, count: u32) -> VarSet
    requires { IsExpressionIn body.now.bodies.operations (expressions.Operations first count) }
    ensures { HoldsKnown body.now result (term_mentions (expression_term body.now.bodies.operations (expressions.Operations first count))) }
{
    let begin = first as usize;
    let run = &body.operations()[begin..begin + count as usize];
    in_operand(body, run, Operand::Earlier(count - 1))
}

/// The variables that stand in an expression.
pub fn in_expression(body: &MethodBody<'_>, expression: Expression) -> VarSet
    requires { IsExpressionIn body.now.bodies.operations expression }
    ensures { HoldsKnown body.now result (term_mentions (expression_term body.now.bodies.operations expression)) }
{
    match expression {
        Expression::Operand(a) => in_leaf(body, a),
        Expression::Operation(operation) => in_operation(body, operation),
        Expression::Operations(first, count) => in_operations(body, first, count),
    }
}

/// The variables that stand in an argument.
pub fn in_argument(body: &MethodBody<'_>, argument: Argument) -> VarSet
    requires { IsArgumentIn body.now.bodies.operations argument }
    ensures { HoldsKnown body.now result (argument_mentions (argument_of body.now.bodies.operations argument)) }
{
    match argument {
        Argument::Expression(e) => in_expression(body, e),
        Argument::Consume(y) => known(body, y),
    }
}

/// The variables that stand in some arguments.
pub fn in_arguments(body: &MethodBody<'_>, arguments: &[Argument]) -> VarSet
    requires { AreArgumentsIn body.now.bodies.operations arguments.now }
    ensures { HoldsKnown body.now result (stand_in (map (argument_of body.now.bodies.operations) arguments.now)) }
{
    let mut set = VarSet::new();
    'arguments: for argument in arguments {
        set = set.union(in_argument(body, *argument));
    }
    set
}
