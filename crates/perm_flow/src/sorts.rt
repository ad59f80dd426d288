//! What is known of the value of an expression.

ghost use Rattle.std.specs.Prelude.{◌≡◌};
ghost use Rattle.perm_rules.specs.Permissions.{type_if};
ghost use Rattle.perm_rules.specs.Sorts.{arent_comparable, binary_type, isnt_plain, isnt_value_of, may_be_reference, sort_if, unary_type};
ghost use Rattle.perm_rules.specs.Sorts as rules;
ghost use Rattle.perm_flow.specs.Questions.{as_sort};

use crate::types::{differ, is_reference};
use perm_tree::ast::{BinaryOp, Ty, UnaryOp};

/// Nothing, where a variable isn't known; that it is null; or its type.
#[derive(Clone, Copy, Debug)]
pub enum Sort {
    Unknown,
    Null,
    Typed(Ty),
}

/// The sort of a variable, by its type.
pub fn sort_if(t: Option<Ty>) -> Sort
    ensures { as_sort result ≡ sort_if t }
{
    match t {
        None => Sort::Unknown,
        Some(t) => Sort::Typed(t),
    }
}

/// The type of a value, if it has one that is known.
pub fn type_if(sort: Sort) -> Option<Ty>
    ensures { result ≡ type_if (as_sort sort) }
{
    match sort {
        Sort::Typed(t) => Some(t),
        Sort::Unknown | Sort::Null => None,
    }
}

/// The type of an operator's value, and of what it takes.
pub fn unary_type(op: UnaryOp) -> Ty
    ensures { result ≡ unary_type op }
{
    match op {
        UnaryOp::Minus => Ty::Long,
        UnaryOp::Not => Ty::Bool,
    }
}

pub fn binary_type(op: BinaryOp) -> Ty
    ensures { result ≡ binary_type op }
{
    match op {
        BinaryOp::Mul | BinaryOp::Div | BinaryOp::Rem | BinaryOp::Plus | BinaryOp::Minus =>
            Ty::Long,
        _ => Ty::Bool,
    }
}

/// The value is known not to be of this type, which is no reference.
pub fn isnt_plain(sort: Sort, t: Ty) -> bool
    ensures { result ≡ isnt_plain (as_sort sort) t }
{
    match sort {
        Sort::Unknown => false,
        Sort::Null => true,
        Sort::Typed(u) => differ(u, t),
    }
}

/// The value is known not to come into a variable of this type, whatever the permissions.
pub fn isnt_value_of(sort: Sort, t: Ty) -> bool
    ensures { result ≡ isnt_value_of (as_sort sort) t }
{
    match sort {
        Sort::Unknown => false,
        Sort::Null => !is_reference(t),
        Sort::Typed(u) => differ(u, t),
    }
}

/// The values are known not to be both `long` or both `bool`.
pub fn arent_comparable(s: Sort, t: Sort) -> bool
    ensures { result ≡ arent_comparable (as_sort s) (as_sort t) }
{
    match s {
        Sort::Unknown => false,
        Sort::Null => is_no_match(t),
        Sort::Typed(u) => is_no_match_of(u, t),
    }
}

fn is_no_match(t: Sort) -> bool
    ensures { result ≡ arent_comparable rules.Null (as_sort t) }
{
    match t {
        Sort::Unknown => false,
        Sort::Null => true,
        Sort::Typed(_) => true,
    }
}

fn is_no_match_of(u: Ty, t: Sort) -> bool
    ensures { result ≡ arent_comparable (rules.Typed u) (as_sort t) }
{
    match t {
        Sort::Unknown => false,
        Sort::Null => true,
        Sort::Typed(w) => arent_one_plain(u, w),
    }
}

fn arent_one_plain(t: Ty, u: Ty) -> bool
    ensures { result ≡ arent_comparable (rules.Typed t) (rules.Typed u) }
{
    match (t, u) {
        (Ty::Long, Ty::Long) | (Ty::Bool, Ty::Bool) => false,
        _ => true,
    }
}

/// Nothing is known that keeps a variable of this type from being a reference.
pub fn may_be_reference(t: Option<Ty>) -> bool
    ensures { result ≡ may_be_reference t }
{
    match t {
        None => true,
        Some(t) => is_reference(t),
    }
}
