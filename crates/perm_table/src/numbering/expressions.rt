//! Expressions and arguments, without recursion: an operand stands before its expression.

ghost use Rattle.std.specs.Prelude.{◌≡◌, ◌<◌, [], ◌∷◌, ◌++◌, length, map, slice_index, IfOk, OnOk};
ghost use Rattle.perm_tree.specs.BodyTerms.{operation_terms, AreOrdered};
ghost use Rattle.perm_tree.specs.CodeNames.{argument, term_at, term_of, terms_of};
ghost use Rattle.perm_tree.specs.Lows.{lows_of};
ghost use Rattle.perm_tree.specs.Places.{ArgPlaced, ArgsPlaced};
ghost use Rattle.perm_table.specs.Numbering.{setting_of};
ghost use Rattle.perm_table.specs.Operands.{node_of, node_term, operand_at, operand_for, operations_for, AreKnown, IsNodeBelow};
ghost use Rattle.perm_table.specs.Numbered.{TellsArgument, TellsArguments, TellsTerm};

use crate::numbering::names::Names;
use crate::numbers::number;
use perm_tree::ast::{Arg, Expr};
use perm_tree::bodies::{Argument, Bodies, Expression, Operand, Operation};
use perm_tree::errors::NoMemory;
use std::alloc::Global;

/// An expression with its operands.
#[derive(Clone, Copy)]
pub enum Node {
    Operand(Operand),
    Operation(Operation),
}

/// Numbers the expression at a place. An operator whose operands are none is kept as it is; the operators of any other stand in the list of operations.
pub fn number_expression(
    alloc: Global,
    bodies: &mut Bodies,
    names: &Names<'_>,
    root: u32,
) -> Result<Expression, NoMemory>
    requires { root < length names.now.tables.program.exprs }
    ensures { IfOk result (TellsTerm bodies.old bodies.new (term_at (setting_of names.now) root)) }
{
    let mut operands = Vec::new(alloc);
    let mut operations = Vec::new(alloc);
    let low = names.program().low(root) as usize;
    add_operands(names, low, root, &mut operands, &mut operations)?;
    let node = node_for(
        names,
        low,
        operands.as_slice(),
        names.program().exprs()[root as usize],
    )?;
    expression(bodies, operations, node)
}

/// Adds the operands that stand for the expressions from a low place up to another, and the operations of which they are values.
fn add_operands(
    names: &Names<'_>,
    low: usize,
    root: u32,
    operands: &mut Vec<Operand>,
    operations: &mut Vec<Operation>,
) -> Result<(), NoMemory>
    requires within { root < length names.now.tables.program.exprs }
    requires low { low ≡ slice_index (lows_of names.now.tables.program.exprs) root }
    requires no_operands { operands.old.items ≡ [] }
    requires no_operations { operations.old.items ≡ [] }
    ensures { OnOk result (AreKnown names.now low root operands.new.items operations.new.items) }
{
    let exprs = names.program().exprs();
    for at in low..root as usize {
        let node = node_for(names, low, operands.as_slice(), exprs[at])?;
        add_node(node, operands, operations)?;
    }
    Ok(())
}

/// An expression with its operands, of which the first stands for the expression at a low place.
fn node_for(
    names: &Names<'_>,
    low: usize,
    operands: &[Operand],
    expr: Expr,
) -> Result<Node, NoMemory>
    ensures { IfOk result (λ node. node ≡ node_of names.now.vars (operand_at low operands.now) expr) }
{
    match expr {
        Expr::Number(n) => Ok(Node::Operand(Operand::Number(n))),
        Expr::Bool(b) => Ok(Node::Operand(Operand::Bool(b))),
        Expr::Null => Ok(Node::Operand(Operand::Null)),
        Expr::Var(x) => Ok(Node::Operand(Operand::Local(names.variable(x)?))),
        Expr::Unary(op, a) => {
            let a = operand(low, operands, a);
            Ok(Node::Operation(Operation::Unary(op, a)))
        }
        Expr::Binary(op, a, b) => {
            let a = operand(low, operands, a);
            let b = operand(low, operands, b);
            Ok(Node::Operation(Operation::Binary(op, a, b)))
        }
    }
}

fn operand(low: usize, operands: &[Operand], at: u32) -> Operand
    ensures { result ≡ operand_at low operands.now at }
{
    operands
        .get((at as usize).saturating_sub(low))
        .copied()
        .unwrap_or(Operand::Null)
}

/// Adds the operand that stands for an expression, and its operation if it has one.
fn add_node(
    node: Node,
    operands: &mut Vec<Operand>,
    operations: &mut Vec<Operation>,
) -> Result<(), NoMemory>
    ensures operand { OnOk result (operands.new.items ≡ operands.old.items ++ operand_for (length operations.old.items) node ∷ []) }
    ensures operation { OnOk result (operations.new.items ≡ operations.old.items ++ operations_for node) }
{
    match node {
        Node::Operand(operand) => operands.push(operand)?,
        Node::Operation(operation) => {
            let at = number(operations.len())?;
            operations.push(operation)?;
            operands.push(Operand::Earlier(at))?;
        }
    }
    Ok(())
}

/// The expression with this node behind the operations of which its operands are values.
fn expression(
    bodies: &mut Bodies,
    operations: Vec<Operation>,
    node: Node,
) -> Result<Expression, NoMemory>
    requires ordered { AreOrdered operations.items }
    requires below { IsNodeBelow (length operations.items) node }
    ensures { IfOk result (TellsTerm bodies.old bodies.new (node_term (operation_terms operations.items) node)) }
{
    match node {
        Node::Operand(operand) => Ok(Expression::Operand(operand)),
        Node::Operation(operation) => with_operation(bodies, operations, operation),
    }
}

/// The same of an operation.
fn with_operation(
    bodies: &mut Bodies,
    operations: Vec<Operation>,
    operation: Operation,
) -> Result<Expression, NoMemory>
    requires ordered { AreOrdered operations.items }
    requires below { IsNodeBelow (length operations.items) (Node.Operation operation) }
    ensures { IfOk result (TellsTerm bodies.old bodies.new (node_term (operation_terms operations.items) (Node.Operation operation))) }
{
    if operations.is_empty() {
        return Ok(Expression::Operation(operation));
    }
    let first = number(bodies.operations.len())?;
    let mut operations = operations;
    operations.push(operation)?;
    let count = number(operations.len())?;
    add_operations(bodies, operations.as_slice())?;
    Ok(Expression::Operations(first, count))
}

fn add_operations(bodies: &mut Bodies, operations: &[Operation]) -> Result<(), NoMemory>
    ensures { OnOk result (bodies.new ≡ record bodies.old { operations = bodies.old.operations ++ operations.now }) }
{
    'operations: for operation in operations {
        bodies.operations.push(*operation)?;
    }
    Ok(())
}

/// Numbers an argument.
pub fn number_argument(
    alloc: Global,
    bodies: &mut Bodies,
    names: &Names<'_>,
    arg: Arg,
) -> Result<Argument, NoMemory>
    requires { ArgPlaced (length names.now.tables.program.exprs) arg }
    ensures { IfOk result (TellsArgument bodies.old bodies.new (argument (setting_of names.now) arg)) }
{
    match arg {
        Arg::Expr(root) => {
            let expression = number_expression(alloc, bodies, names, root)?;
            Ok(Argument::Expression(expression))
        }
        Arg::Consume(y) => Ok(Argument::Consume(names.variable(y)?)),
    }
}

/// Numbers arguments, which stand behind those that are there.
pub fn number_arguments(
    alloc: Global,
    bodies: &mut Bodies,
    names: &Names<'_>,
    args: &[Arg],
) -> Result<(), NoMemory>
    requires { ArgsPlaced (length names.now.tables.program.exprs) args.now }
    ensures { OnOk result (TellsArguments bodies.old bodies.new (map (argument (setting_of names.now)) args.now)) }
{
    'each: for arg in args {
        let argument = number_argument(alloc, bodies, names, *arg)?;
        bodies.arguments.push(argument)?;
    }
    Ok(())
}
