//! The parts of expressions, statements and members.

ghost use Rattle.std.specs.Prelude.{◌≡◌, ◌+◌, ◌<◌, ◌^◌, length, OnOk};
ghost use Rattle.perm_tree.specs.Places.{ExprBelow};
ghost use Rattle.perm_tree.specs.Printer.Parts.{onto, else_tasks, expr_tasks, field_tasks, looseness_at, method_tasks, operand_tasks, recover_tasks, rhs_tasks, stmt_tasks};
ghost use Rattle.perm_tree.specs.declared.ast.Expr.TheVariants as node;
ghost use Rattle.perm_tree.specs.declared.ast.Rhs.TheVariants as right;
ghost use Rattle.perm_tree.specs.declared.ast.StmtKind.TheVariants as form;

use crate::ast::{Arg, BinaryOp, Block, Expr, FieldDecl, Ident, Method, Rhs, StmtKind};
use crate::errors::NoMemory;
use crate::print::part::{Part, Word, level};
use crate::print::stack::{push, push_all, push_block, push_call, push_params};

pub fn push_expr(stack: &mut Vec<Part>, exprs: &[Expr], expr: Expr) -> Result<(), NoMemory>
    requires { ExprBelow (length exprs.now) expr }
    ensures { OnOk result (stack.new.items ≡ onto stack.old.items (expr_tasks exprs.now expr)) }
{
    match expr {
        Expr::Number(n) => push(stack, Part::Number(n)),
        Expr::Bool(true) => push(stack, Part::Word(Word::True)),
        Expr::Bool(false) => push(stack, Part::Word(Word::False)),
        Expr::Null => push(stack, Part::Word(Word::Null)),
        Expr::Var(x) => push(stack, Part::Name(x)),
        Expr::Unary(op, a) => {
            push_operand(stack, looseness(exprs, a) > 0, a)?;
            push(stack, Part::Sign(op))
        }
        Expr::Binary(op, a, b) => push_binary(stack, exprs, op, a, b),
    }
}

fn push_binary(
    stack: &mut Vec<Part>,
    exprs: &[Expr],
    op: BinaryOp,
    a: u32,
    b: u32,
) -> Result<(), NoMemory>
    requires left { a < length exprs.now }
    requires right { b < length exprs.now }
    ensures { OnOk result (stack.new.items ≡ onto stack.old.items (expr_tasks exprs.now (node.Binary op a b))) }
{
    push_operand(stack, looseness(exprs, b) >= level(op), b)?;
    push(stack, Part::Operator(op))?;
    push_operand(stack, looseness(exprs, a) > level(op), a)
}

fn push_operand(stack: &mut Vec<Part>, in_parens: bool, at: u32) -> Result<(), NoMemory>
    ensures { OnOk result (stack.new.items ≡ onto stack.old.items (operand_tasks in_parens at)) }
{
    if in_parens {
        push_all(
            stack,
            &[
                Part::Word(Word::Open),
                Part::Expr(at),
                Part::Word(Word::Close),
            ],
        )
    } else {
        push(stack, Part::Expr(at))
    }
}

/// How loosely the outermost operator of an expression binds, which is 0 where that is no binary one.
fn looseness(exprs: &[Expr], at: u32) -> u8
    requires { at < length exprs.now }
    ensures { result ≡ looseness_at exprs.now at }
{
    match exprs[at as usize] {
        Expr::Binary(op, _, _) => level(op),
        _ => 0,
    }
}

pub fn push_stmt(stack: &mut Vec<Part>, kind: &StmtKind, depth: usize) -> Result<(), NoMemory>
    requires { depth + 1 < 2 ^ 64 }
    ensures { OnOk result (stack.new.items ≡ onto stack.old.items (stmt_tasks depth kind.now)) }
{
    let indent = Part::Indent(depth);
    let end = Part::Word(Word::End);
    match kind {
        StmtKind::Declare(ty, x) => push_all(stack, &[indent, Part::Declared(*ty, *x), end]),
        StmtKind::Assign(ty, x, rhs) => {
            push_rhs(stack, rhs, depth)?;
            let gets = Part::Word(Word::Gets);
            push_all(stack, &[indent, Part::Target(*ty, *x), gets])
        }
        StmtKind::SetField(y, f, a) => push_set_field(stack, *y, *f, *a, depth),
        StmtKind::SetItem(y, i, e) => push_set_item(stack, *y, *i, *e, depth),
        StmtKind::Call(call) => {
            push(stack, end)?;
            push_call(stack, call)?;
            push(stack, indent)
        }
        StmtKind::Print(e) => push_all(
            stack,
            &[indent, Part::Word(Word::Print), Part::Expr(*e), end],
        ),
        StmtKind::If(e, a, b) => push_if(stack, *e, a, b, depth),
        StmtKind::While(e, a) => push_while(stack, *e, a, depth),
        StmtKind::Par(a, b) => push_par(stack, a, b, depth),
    }
}

fn push_set_field(
    stack: &mut Vec<Part>,
    holder: Ident,
    field: Ident,
    value: Arg,
    depth: usize,
) -> Result<(), NoMemory>
    ensures { OnOk result (stack.new.items ≡ onto stack.old.items (stmt_tasks depth (form.SetField holder field value))) }
{
    push_all(
        stack,
        &[
            Part::Indent(depth),
            Part::Name(holder),
            Part::Word(Word::Dot),
            Part::Name(field),
            Part::Word(Word::Gets),
            Part::Arg(value),
            Part::Word(Word::End),
        ],
    )
}

fn push_set_item(
    stack: &mut Vec<Part>,
    array: Ident,
    index: u32,
    value: u32,
    depth: usize,
) -> Result<(), NoMemory>
    ensures { OnOk result (stack.new.items ≡ onto stack.old.items (stmt_tasks depth (form.SetItem array index value))) }
{
    push_all(
        stack,
        &[
            Part::Indent(depth),
            Part::Name(array),
            Part::Word(Word::OpenItem),
            Part::Expr(index),
            Part::Word(Word::ItemGets),
            Part::Expr(value),
            Part::Word(Word::End),
        ],
    )
}

fn push_if(
    stack: &mut Vec<Part>,
    test: u32,
    first: &Block,
    other: &Option<Block>,
    depth: usize,
) -> Result<(), NoMemory>
    requires { depth + 1 < 2 ^ 64 }
    ensures { OnOk result (stack.new.items ≡ onto stack.old.items (stmt_tasks depth (form.If test first.now other.now))) }
{
    push_else(stack, other, depth)?;
    push_block(stack, first, depth + 1)?;
    push_all(
        stack,
        &[
            Part::Indent(depth),
            Part::Word(Word::If),
            Part::Expr(test),
            Part::Word(Word::Body),
        ],
    )
}

fn push_else(stack: &mut Vec<Part>, other: &Option<Block>, depth: usize) -> Result<(), NoMemory>
    requires { depth + 1 < 2 ^ 64 }
    ensures { OnOk result (stack.new.items ≡ onto stack.old.items (else_tasks depth other.now)) }
{
    push_all(stack, &[Part::Indent(depth), Part::Word(Word::BlockEnd)])?;
    match other {
        None => Ok(()),
        Some(block) => {
            push_block(stack, block, depth + 1)?;
            push_all(stack, &[Part::Indent(depth), Part::Word(Word::Else)])
        }
    }
}

fn push_while(stack: &mut Vec<Part>, test: u32, body: &Block, depth: usize) -> Result<(), NoMemory>
    requires { depth + 1 < 2 ^ 64 }
    ensures { OnOk result (stack.new.items ≡ onto stack.old.items (stmt_tasks depth (form.While test body.now))) }
{
    push_all(stack, &[Part::Indent(depth), Part::Word(Word::BlockEnd)])?;
    push_block(stack, body, depth + 1)?;
    push_all(
        stack,
        &[
            Part::Indent(depth),
            Part::Word(Word::While),
            Part::Expr(test),
            Part::Word(Word::Body),
        ],
    )
}

fn push_par(
    stack: &mut Vec<Part>,
    left: &Block,
    right: &Block,
    depth: usize,
) -> Result<(), NoMemory>
    requires { depth + 1 < 2 ^ 64 }
    ensures { OnOk result (stack.new.items ≡ onto stack.old.items (stmt_tasks depth (form.Par left.now right.now))) }
{
    push_all(stack, &[Part::Indent(depth), Part::Word(Word::BlockEnd)])?;
    push_block(stack, right, depth + 1)?;
    push_all(stack, &[Part::Indent(depth), Part::Word(Word::Beside)])?;
    push_block(stack, left, depth + 1)?;
    push_all(stack, &[Part::Indent(depth), Part::Word(Word::Par)])
}

fn push_take(stack: &mut Vec<Part>, holder: Ident, field: Ident) -> Result<(), NoMemory>
    ensures { OnOk result (stack.new.items ≡ onto stack.old.items (rhs_tasks 0 (right.TakeField holder field))) }
{
    push_all(
        stack,
        &[
            Part::Word(Word::Consume),
            Part::Name(holder),
            Part::Word(Word::Dot),
            Part::Name(field),
            Part::Word(Word::End),
        ],
    )
}

fn push_item(stack: &mut Vec<Part>, array: Ident, index: u32) -> Result<(), NoMemory>
    ensures { OnOk result (stack.new.items ≡ onto stack.old.items (rhs_tasks 0 (right.Item array index))) }
{
    push_all(
        stack,
        &[
            Part::Name(array),
            Part::Word(Word::OpenItem),
            Part::Expr(index),
            Part::Word(Word::ItemEnd),
        ],
    )
}

/// The right side of an assignment, and the end of its line.
fn push_rhs(stack: &mut Vec<Part>, rhs: &Rhs, depth: usize) -> Result<(), NoMemory>
    requires { depth + 1 < 2 ^ 64 }
    ensures { OnOk result (stack.new.items ≡ onto stack.old.items (rhs_tasks depth rhs.now)) }
{
    let end = Part::Word(Word::End);
    let dot = Part::Word(Word::Dot);
    match rhs {
        Rhs::Value(a) => push_all(stack, &[Part::Arg(*a), end]),
        Rhs::Field(y, f) => push_all(stack, &[Part::Name(*y), dot, Part::Name(*f), end]),
        Rhs::TakeField(y, f) => push_take(stack, *y, *f),
        Rhs::Item(y, e) => push_item(stack, *y, *e),
        Rhs::New(c) => {
            let new = Part::Word(Word::New);
            push_all(stack, &[new, Part::Name(*c), Part::Word(Word::NewEnd)])
        }
        Rhs::NewArray(e) => {
            let new = Part::Word(Word::NewArray);
            push_all(stack, &[new, Part::Expr(*e), Part::Word(Word::ItemEnd)])
        }
        Rhs::Call(call) => {
            push(stack, end)?;
            push_call(stack, call)
        }
        Rhs::Recover(block, given, _) => push_recover(stack, block, *given, depth),
    }
}

fn push_recover(
    stack: &mut Vec<Part>,
    block: &Block,
    given: Ident,
    depth: usize,
) -> Result<(), NoMemory>
    requires { depth + 1 < 2 ^ 64 }
    ensures { OnOk result (stack.new.items ≡ onto stack.old.items (recover_tasks depth block.now given)) }
{
    push_all(
        stack,
        &[
            Part::Indent(depth + 1),
            Part::Word(Word::Give),
            Part::Name(given),
            Part::Word(Word::End),
            Part::Indent(depth),
            Part::Word(Word::RecoverEnd),
        ],
    )?;
    push_block(stack, block, depth + 1)?;
    push(stack, Part::Word(Word::Recover))
}

pub fn push_field(stack: &mut Vec<Part>, field: FieldDecl) -> Result<(), NoMemory>
    ensures { OnOk result (stack.new.items ≡ onto stack.old.items (field_tasks field)) }
{
    push_all(
        stack,
        &[
            Part::Indent(1),
            Part::Declared(field.ty, field.name),
            Part::Word(Word::End),
        ],
    )
}

pub fn push_method(stack: &mut Vec<Part>, method: &Method) -> Result<(), NoMemory>
    ensures { OnOk result (stack.new.items ≡ onto stack.old.items (method_tasks method.now)) }
{
    push_all(
        stack,
        &[
            Part::Indent(2),
            Part::Word(Word::Return),
            Part::Arg(method.back),
            Part::Word(Word::End),
            Part::Indent(1),
            Part::Word(Word::BlockEnd),
        ],
    )?;
    push_block(stack, &method.body, 2)?;
    push_all(
        stack,
        &[
            Part::Word(Word::ParamsEnd),
            Part::Perm(method.receiver),
            Part::Word(Word::MethodBody),
        ],
    )?;
    push_params(stack, method.params.as_slice())?;
    push_all(
        stack,
        &[
            Part::Indent(1),
            Part::Declared(method.result, method.name),
            Part::Word(Word::Open),
        ],
    )
}
