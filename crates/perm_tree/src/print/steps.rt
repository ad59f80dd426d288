//! The parts of a stack are written down one after the other.

ghost use Rattle.std.specs.Prelude.{◌≡◌, ◌++◌, [], OnOk};
ghost use Rattle.perm_tree.specs.declared.print.part.Part.TheVariants as piece;
ghost use Rattle.perm_tree.specs.Printer.PendingParts.{AreParts, IsPart, Steps, rest_text};

use crate::ast::Arg;
use crate::errors::NoMemory;
use crate::print::forms::{push_expr, push_stmt};
use crate::print::part::{Part, operator_bytes, perm_bytes, sign_bytes};
use crate::print::stack::push;
use crate::print::write::{
    write, write_declared, write_indent, write_name, write_number, write_receiver, write_target,
};
use crate::program::Program;

/// Writes all the parts of a stack, which is empty then.
pub fn write_all(
    program: &Program,
    text: &mut Vec<u8>,
    stack: &mut Vec<Part>,
) -> Result<(), NoMemory>
    requires { AreParts program.now stack.old.items }
    ensures text { OnOk result (text.new.items ≡ text.old.items ++ rest_text program.now stack.old.items) }
    ensures empty { OnOk result (stack.new.items ≡ []) }
{
    while let Some(part) = stack.pop() {
        write_part(program, text, stack, part)?;
    }
    Ok(())
}

fn write_part(
    program: &Program,
    text: &mut Vec<u8>,
    stack: &mut Vec<Part>,
    part: Part,
) -> Result<(), NoMemory>
    requires { IsPart program.now part }
    ensures { OnOk result (Steps program.now part text.old.items text.new.items stack.old.items stack.new.items) }
{
    let names = program.names();
    match part {
        Part::Word(word) => write(text, word.bytes()),
        Part::Indent(depth) => write_indent(text, depth),
        Part::Name(name) => write_name(text, names, name),
        Part::Perm(perm) => write(text, perm_bytes(perm)),
        Part::Declared(ty, name) => write_declared(text, names, ty, name),
        Part::Target(ty, name) => write_target(text, names, ty, name),
        Part::Receiver(consumed, name) => write_receiver(text, names, consumed, name),
        Part::Number(number) => write_number(text, number),
        Part::Sign(op) => write(text, sign_bytes(op)),
        Part::Operator(op) => write(text, operator_bytes(op)),
        Part::Arg(arg) => write_arg(program, text, stack, arg),
        Part::Expr(at) => {
            let exprs = program.exprs();
            push_expr(stack, exprs, exprs[at as usize])
        }
        Part::Stmt(at, depth) => push_stmt(stack, &program.stmts()[at as usize].kind, depth),
    }
}

fn write_arg(
    program: &Program,
    text: &mut Vec<u8>,
    stack: &mut Vec<Part>,
    arg: Arg,
) -> Result<(), NoMemory>
    requires { IsPart program.now (piece.Arg arg) }
    ensures { OnOk result (Steps program.now (piece.Arg arg) text.old.items text.new.items stack.old.items stack.new.items) }
{
    match arg {
        Arg::Expr(at) => push(stack, Part::Expr(at)),
        Arg::Consume(name) => {
            write(text, b"consume ")?;
            write_name(text, program.names(), name)
        }
    }
}
