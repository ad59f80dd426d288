//! The members of a class, in the order of their names.

ghost use Rattle.std.specs.Prelude.{◌≡◌, IfOk, map};
ghost use Rattle.perm_tree.specs.Printer.Programs.{sort_by};
ghost use Rattle.perm_tree.specs.Printer.Members.{form_of, form_start, forms};

use crate::ast::{ClassDecl, FieldDecl, Method};
use crate::errors::NoMemory;
use std::alloc::Global;

/// A field or a method of a class.
#[derive(Clone, Copy)]
pub enum Member<'a> {
    Field(FieldDecl),
    Method(&'a Method),
}

/// Where the name of a member starts.
fn start(member: &Member) -> u32
    ensures { result ≡ form_start (form_of member.now) }
{
    match member {
        Member::Field(field) => field.name.span.start,
        Member::Method(method) => method.name.span.start,
    }
}

/// The fields and then the methods of a class.
fn listed<'a>(alloc: Global, class: &'a ClassDecl) -> Result<Vec<Member<'a>>, NoMemory>
    ensures { IfOk result (λ ms. map form_of ms.items ≡ forms class.now) }
{
    let mut members = Vec::new(alloc);
    for field in class.fields.as_slice() {
        members.push(Member::Field(*field))?;
    }
    for method in class.methods.as_slice() {
        members.push(Member::Method(method))?;
    }
    Ok(members)
}

/// The members of a class in the order of the starts of their names.
pub fn sorted<'a>(alloc: Global, class: &'a ClassDecl) -> Result<Vec<Member<'a>>, NoMemory>
    ensures { IfOk result (λ ms. map form_of ms.items ≡ sort_by form_start (forms class.now)) }
{
    let mut members = listed(alloc, class)?;
    members.sort_by_key(|member| start(member))?;
    Ok(members)
}
