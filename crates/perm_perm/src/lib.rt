//! Permissions: their order, and what a field is seen as through a receiver.
#![tactic(auto)]

pub mod laws;

ghost use Rattle.std.specs.Prelude.{◌≡◌, ◌≢◌, ◌↔◌, Contains, IsNone, IsTrue};
ghost use Rattle.perm_perm.specs.Order.{order, is_at_most};
ghost use Rattle.perm_perm.specs.Adaptation.{adapted};

use perm_tree::ast::Perm;

/// Whether a reference of the one permission may be used as one of the other.
pub fn leq(p: Perm, q: Perm) -> bool
    ensures pairs { IsTrue result ↔ Contains order (p, q) }
    ensures test { result ≡ is_at_most p q }
{
    match (p, q) {
        (Perm::Isolated, _) => true,
        (Perm::Immutable, Perm::Immutable | Perm::Readable) => true,
        (Perm::Readable, Perm::Readable) => true,
        (Perm::Writable, Perm::Writable | Perm::Readable) => true,
        _ => false,
    }
}

/// What a field of the one permission is seen as through a receiver of the other.
pub fn adapt(receiver: Perm, field: Perm) -> Option<Perm>
    ensures table { result ≡ adapted receiver field }
    ensures none { IsNone result ↔ ((field ≡ Perm.Isolated) × (receiver ≢ Perm.Immutable)) }
{
    match (receiver, field) {
        (Perm::Immutable, _) => Some(Perm::Immutable),
        (_, Perm::Isolated) => None,
        (_, Perm::Immutable) => Some(Perm::Immutable),
        (Perm::Isolated, Perm::Readable) => Some(Perm::Immutable),
        (Perm::Isolated, Perm::Writable) => Some(Perm::Isolated),
        (Perm::Readable, _) => Some(Perm::Readable),
        (Perm::Writable, Perm::Readable) => Some(Perm::Readable),
        (Perm::Writable, Perm::Writable) => Some(Perm::Writable),
    }
}
