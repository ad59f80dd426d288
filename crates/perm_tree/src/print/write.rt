//! The words of a text.

ghost use Rattle.std.specs.Prelude.{◌≡◌, ◌++◌, OnOk};
ghost use Rattle.std.specs.Fmt.{signed_decimal};
ghost use Rattle.perm_tree.specs.Printer.Expressions.{type_text, word};
ghost use Rattle.perm_tree.specs.Printer.Programs.{declared_text, indent, name_text, receiver_text, target_text};
ghost use Rattle.perm_tree.specs.Printer.PendingParts.{shape_word};

use crate::ast::{Ident, Shape, Ty};
use crate::errors::NoMemory;
use crate::list::Name;
use crate::print::part::perm_bytes;
use itoa::Buffer;

pub fn write(text: &mut Vec<u8>, bytes: &[u8]) -> Result<(), NoMemory>
    ensures { OnOk result (text.new.items ≡ text.old.items ++ bytes.now) }
{
    text.extend_from_slice(bytes)?;
    Ok(())
}

/// The word of a name. There is none where its number is too large.
pub fn word(names: &[Name], name: u32) -> &[u8]
    ensures { result.now ≡ word names.now name }
{
    match names.get(name as usize) {
        Some(name) => name.as_slice(),
        None => b"",
    }
}

pub fn write_name(text: &mut Vec<u8>, names: &[Name], name: Ident) -> Result<(), NoMemory>
    ensures { OnOk result (text.new.items ≡ text.old.items ++ name_text names.now name) }
{
    write(text, word(names, name.name))
}

/// Two spaces for each open brace.
pub fn write_indent(text: &mut Vec<u8>, depth: usize) -> Result<(), NoMemory>
    ensures { OnOk result (text.new.items ≡ text.old.items ++ indent depth) }
{
    for _ in 0..depth {
        write(text, b"  ")?;
    }
    Ok(())
}

pub fn write_number(text: &mut Vec<u8>, number: i64) -> Result<(), NoMemory>
    ensures { OnOk result (text.new.items ≡ text.old.items ++ signed_decimal number) }
{
    let mut digits = Buffer::new();
    write(text, digits.format(number).as_bytes())
}

fn write_type(text: &mut Vec<u8>, names: &[Name], ty: Ty) -> Result<(), NoMemory>
    ensures { OnOk result (text.new.items ≡ text.old.items ++ type_text names.now ty) }
{
    match ty {
        Ty::Long => write(text, b"long"),
        Ty::Bool => write(text, b"bool"),
        Ty::Ref(perm, shape) => {
            write(text, perm_bytes(perm))?;
            write_shape(text, names, shape)
        }
    }
}

fn write_shape(text: &mut Vec<u8>, names: &[Name], shape: Shape) -> Result<(), NoMemory>
    ensures { OnOk result (text.new.items ≡ text.old.items ++ shape_word names.now shape) }
{
    match shape {
        Shape::Class(class) => {
            write(text, b" ")?;
            write(text, word(names, class))
        }
        Shape::Array => write(text, b" long[]"),
    }
}

pub fn write_declared(
    text: &mut Vec<u8>,
    names: &[Name],
    ty: Ty,
    name: Ident,
) -> Result<(), NoMemory>
    ensures { OnOk result (text.new.items ≡ text.old.items ++ declared_text names.now ty name) }
{
    write_type(text, names, ty)?;
    write(text, b" ")?;
    write_name(text, names, name)
}

pub fn write_target(
    text: &mut Vec<u8>,
    names: &[Name],
    ty: Option<Ty>,
    name: Ident,
) -> Result<(), NoMemory>
    ensures { OnOk result (text.new.items ≡ text.old.items ++ target_text names.now ty name) }
{
    match ty {
        Some(ty) => write_declared(text, names, ty, name),
        None => write_name(text, names, name),
    }
}

pub fn write_receiver(
    text: &mut Vec<u8>,
    names: &[Name],
    consumed: bool,
    name: Ident,
) -> Result<(), NoMemory>
    ensures { OnOk result (text.new.items ≡ text.old.items ++ receiver_text names.now consumed name) }
{
    if consumed {
        write(text, b"(consume ")?;
        write_name(text, names, name)?;
        write(text, b")")
    } else {
        write_name(text, names, name)
    }
}
