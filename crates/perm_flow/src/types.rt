//! Tests of types and permissions, and of types that are known.

ghost use Rattle.std.specs.Prelude.{◌≡◌, not};
ghost use Rattle.perm_tree.specs.CodeNames.{is_tied};
ghost use Rattle.perm_tree.specs.Lookup.{is_array};
ghost use Rattle.perm_tree.specs.Shapes.{same_shape};
ghost use Rattle.perm_perm.specs.Types.{is_too_weak, raised_type};
ghost use Rattle.perm_perm.specs.Adaptation.{raised};
ghost use Rattle.perm_rules.specs.Parts.{has_isolated, if_known, is_object, is_reference, isnt_reference};
ghost use Rattle.perm_rules.specs.Shapes.{shapes_differ};
ghost use Rattle.perm_rules.specs.Sorts.{differ};
ghost use Rattle.perm_rules.specs.Permissions.{weak};

use perm_perm::leq;
use perm_tree::ast::{Perm, Shape, Ty};

pub fn is_reference(t: Ty) -> bool
    ensures { result ≡ is_reference t }
{
    match t {
        Ty::Ref(_, _) => true,
        Ty::Long | Ty::Bool => false,
    }
}

pub fn is_object(t: Ty) -> bool
    ensures { result ≡ is_object t }
{
    matches!(t, Ty::Ref(_, Shape::Class(_)))
}

pub fn is_array(t: Ty) -> bool
    ensures { result ≡ is_array (Some t) }
{
    matches!(t, Ty::Ref(_, Shape::Array))
}

/// A readable or writable reference.
pub fn is_tied(t: Ty) -> bool
    ensures { result ≡ is_tied t }
{
    matches!(t, Ty::Ref(Perm::Readable | Perm::Writable, _))
}

pub fn has_isolated(t: Option<Ty>) -> bool
    ensures { result ≡ has_isolated t }
{
    matches!(t, Some(Ty::Ref(Perm::Isolated, _)))
}

pub fn same_shape(k: Shape, l: Shape) -> bool
    ensures { result ≡ same_shape k l }
{
    match (k, l) {
        (Shape::Class(c), Shape::Class(d)) => c == d,
        (Shape::Array, Shape::Array) => true,
        _ => false,
    }
}

/// The types differ in more than permissions.
pub fn differ(t: Ty, u: Ty) -> bool
    ensures { result ≡ differ t u }
{
    match (t, u) {
        (Ty::Long, Ty::Long) => false,
        (Ty::Bool, Ty::Bool) => false,
        (Ty::Ref(_, k), Ty::Ref(_, l)) => !same_shape(k, l),
        _ => true,
    }
}

pub fn is_too_weak(t: Ty, u: Ty) -> bool
    ensures { result ≡ is_too_weak t u }
{
    match (t, u) {
        (Ty::Ref(p, k), Ty::Ref(q, l)) => same_shape(k, l) & !leq(p, q),
        _ => false,
    }
}

fn raised(p: Perm) -> Perm
    ensures { result ≡ raised p }
{
    match p {
        Perm::Writable => Perm::Isolated,
        Perm::Readable => Perm::Immutable,
        Perm::Isolated => Perm::Isolated,
        Perm::Immutable => Perm::Immutable,
    }
}

/// The type of a result that nothing else refers to.
pub fn raised_type(t: Ty) -> Ty
    ensures { result ≡ raised_type t }
{
    match t {
        Ty::Ref(p, k) => Ty::Ref(raised(p), k),
        Ty::Long => Ty::Long,
        Ty::Bool => Ty::Bool,
    }
}

// ---------- types that may not be known ----------

/// The type is known, and `long` or `bool`.
pub fn known_plain(t: Option<Ty>) -> bool
    ensures { result ≡ if_known t isnt_reference }
{
    match t {
        Some(t) => !is_reference(t),
        None => false,
    }
}

pub fn known_object(t: Option<Ty>) -> bool
    ensures { result ≡ if_known t is_object }
{
    match t {
        Some(t) => is_object(t),
        None => false,
    }
}

pub fn known_no_object(t: Option<Ty>) -> bool
    ensures { result ≡ if_known t (λ u. not (is_object u)) }
{
    match t {
        Some(t) => !is_object(t),
        None => false,
    }
}

pub fn known_no_array(t: Option<Ty>) -> bool
    ensures { result ≡ if_known t (λ u. not (is_array (Some u))) }
{
    match t {
        Some(t) => !is_array(t),
        None => false,
    }
}

/// Both types are known and differ in more than permissions.
pub fn shapes_differ(t: Option<Ty>, u: Option<Ty>) -> bool
    ensures { result ≡ shapes_differ t u }
{
    match (t, u) {
        (Some(t), Some(u)) => differ(t, u),
        _ => false,
    }
}

/// Both types are known and of one shape, and the permission of the first isn't at most that of the other.
pub fn weak(t: Option<Ty>, u: Option<Ty>) -> bool
    ensures { result ≡ weak t u }
{
    match (t, u) {
        (Some(t), Some(u)) => is_too_weak(t, u),
        _ => false,
    }
}
