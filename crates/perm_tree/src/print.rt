//! Programs written down anew, in their canonical text.

ghost use Rattle.std.specs.Prelude.{◌≡◌, ◌<◌, ◌++◌, [], IfOk, OnOk, length, map};
ghost use Rattle.perm_tree.specs.Printer.Programs.{canonical, class_text};
ghost use Rattle.perm_tree.specs.Printer.Members.{AllFormsPlaced, IsFormPlaced, form_member, form_of, form_tasks, forms_text};
ghost use Rattle.perm_tree.specs.Places.{ClassPlaced, IsPlaced};
ghost use Rattle.perm_tree.specs.Printer.Parts.{onto};

mod class;
mod forms;
mod part;
mod stack;
mod steps;
mod write;

use crate::ast::ClassDecl;
use crate::errors::NoMemory;
use crate::print::class::{Member, sorted};
use crate::print::forms::{push_field, push_method};
use crate::print::part::Part;
use crate::print::steps::write_all;
use crate::print::write::{write, write_name};
use crate::program::Program;
use std::alloc::Global;

/// The canonical text of a program whose types name classes by the numbers of their names.
pub fn print_program(alloc: Global, program: &Program) -> Result<Vec<u8>, NoMemory>
    ensures { IfOk result (λ t. t.items ≡ canonical program.now) }
{
    let mut text = Vec::new(alloc);
    for class in program.classes() {
        write_class(alloc, program, class, &mut text)?;
    }
    Ok(text)
}

fn write_class(
    alloc: Global,
    program: &Program,
    class: &ClassDecl,
    text: &mut Vec<u8>,
) -> Result<(), NoMemory>
    requires { ClassPlaced (length program.now.exprs) (length program.now.stmts) class.now }
    ensures { OnOk result (text.new.items ≡ text.old.items ++ class_text program.now class.now) }
{
    let members = sorted(alloc, class)?;
    write(text, b"class ")?;
    write_name(text, program.names(), class.name)?;
    write(text, b" {\n")?;
    write_members(alloc, program, members.as_slice(), text)?;
    write(text, b"}\n")
}

fn write_members(
    alloc: Global,
    program: &Program,
    members: &[Member],
    text: &mut Vec<u8>,
) -> Result<(), NoMemory>
    requires { AllFormsPlaced (length program.now.exprs) (length program.now.stmts) (map form_of members.now) }
    ensures { OnOk result (text.new.items ≡ text.old.items ++ forms_text program.now (map form_of members.now)) }
{
    let mut stack = Vec::new(alloc);
    for member in members {
        write_member(program, member, text, &mut stack)?;
    }
    Ok(())
}

fn write_member(
    program: &Program,
    member: &Member,
    text: &mut Vec<u8>,
    stack: &mut Vec<Part>,
) -> Result<(), NoMemory>
    requires empty { stack.old.items ≡ [] }
    requires placed { IsFormPlaced (length program.now.exprs) (length program.now.stmts) (form_of member.now) }
    ensures text { OnOk result (text.new.items ≡ text.old.items ++ (form_member program.now (form_of member.now)).text) }
    ensures empty { OnOk result (stack.new.items ≡ []) }
{
    push_member(stack, member)?;
    write_all(program, text, stack)
}

fn push_member(stack: &mut Vec<Part>, member: &Member) -> Result<(), NoMemory>
    ensures { OnOk result (stack.new.items ≡ onto stack.old.items (form_tasks (form_of member.now))) }
{
    match member {
        Member::Field(field) => push_field(stack, *field),
        Member::Method(method) => push_method(stack, method),
    }
}
