//! What is refused of a part: the lowest kind that applies.

ghost use Rattle.std.specs.Prelude.{◌≡◌, ℕ, List};
ghost use Rattle.perm_tree.specs.VarSets.{member};
ghost use Rattle.perm_rules.specs.Goes.{hiding};
ghost use Rattle.perm_rules.specs.MethodBodies.{context_of};
ghost use Rattle.perm_rules.specs.Refusals.{refusal};
ghost use Rattle.perm_flow.specs.Lowest.{lowest};
ghost use Rattle.perm_flow.specs.Parts.{part_of, HoldsHidden, IsPartIn};

use crate::kinds::bad_give::bad_give;
use crate::kinds::gone::gone;
use crate::kinds::hidden::is_hidden;
use crate::kinds::needs_consume::needs_consume;
use crate::kinds::not_allowed_through::not_allowed_through;
use crate::kinds::permission_too_weak::permission_too_weak;
use crate::kinds::unknown_name::unknown_name;
use crate::kinds::wrong_kind::wrong_kind;
use crate::part::Part;
use perm_rules::{MethodBody, VarSet};
use perm_tree::errors::TypeKind;

/// The lowest kind that applies to a part that is entered with a live set, where some variables are hidden.
pub fn refusal_in(
    body: &MethodBody<'_>,
    hidden: VarSet,
    part: Part,
    live: VarSet,
) -> Option<TypeKind>
    requires { IsPartIn body.now part }
    ensures { (hides : List ℕ) → HoldsHidden body.now hidden hides → result ≡ refusal (hiding hides (context_of body.now)) (part_of body.now part) (member live) }
{
    lowest(body, hidden, &part, live)
}

fn lowest(body: &MethodBody<'_>, hidden: VarSet, part: &Part, live: VarSet) -> Option<TypeKind>
    requires { IsPartIn body.now part.now }
    ensures { result ≡ lowest (context_of body.now) (member hidden) (part_of body.now part.now) (member live) }
{
    if unknown_name(body, part) {
        return Some(TypeKind::UnknownName);
    }
    if wrong_kind(body, part) {
        return Some(TypeKind::WrongKind);
    }
    if gone(body, part, live) {
        return Some(TypeKind::Gone);
    }
    if needs_consume(body, part) {
        return Some(TypeKind::NeedsConsume);
    }
    if not_allowed_through(body, part) {
        return Some(TypeKind::NotAllowedThrough);
    }
    if permission_too_weak(body, part) {
        return Some(TypeKind::PermissionTooWeak);
    }
    if is_hidden(body, part, hidden) {
        return Some(TypeKind::Hidden);
    }
    if bad_give(body, part) {
        return Some(TypeKind::BadGive);
    }
    None
}
