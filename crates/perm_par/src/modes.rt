//! What the blocks of a par share, and which of them stands alone.

ghost use Rattle.std.specs.Prelude.{◌≡◌, Some, true};
ghost use Rattle.perm_tree.specs.declared.ast.Shape.{Shape};
ghost use Rattle.perm_tree.specs.declared.ast.Ty.TheVariants as types;
ghost use Rattle.perm_tree.specs.InBody.{AreParOf};
ghost use Rattle.perm_tree.specs.VarSets.{member};
ghost use Rattle.perm_tree.specs.Vars.{meet};
ghost use Rattle.perm_rules.specs.AtPlace.{mode_unless, par_mode_of};
ghost use Rattle.perm_rules.specs.MethodBodies.{context_of};
ghost use Rattle.perm_rules.specs.Parts.{ParHead};
ghost use Rattle.perm_rules.specs.Pars.{can_stand_alone, has_writable, mode_by, mode_of, par_shared, some_var};
ghost use Rattle.perm_rules.specs.Refusals.{refusal};
ghost use Rattle.perm_par.specs.Kinds.{is_of, of_kind, permitted};
ghost use Rattle.perm_par.specs.Known.{count_of};

use crate::mentions::{Uses, uses_of_block};
use perm_rules::{MethodBody, ParMode, VarSet};
use perm_tree::ast::{Block, Perm, Ty};
use perm_tree::errors::TypeKind;

/// Kinds of variables by their permission.
#[derive(Clone, Copy, Debug)]
pub enum Kind {
    Isolated,
    Writable,
    /// Readable or writable.
    Tied,
}

fn permits(kind: Kind, perm: Perm) -> bool
    ensures { (s : Shape) → result ≡ is_of kind (Some (types.Ref perm s)) }
{
    match (kind, perm) {
        (Kind::Isolated, Perm::Isolated) => true,
        (Kind::Writable, Perm::Writable) => true,
        (Kind::Tied, Perm::Readable) => true,
        (Kind::Tied, Perm::Writable) => true,
        _ => false,
    }
}

fn has_kind(kind: Kind, ty: Ty) -> bool
    ensures { result ≡ is_of kind (Some ty) }
{
    match ty {
        Ty::Ref(perm, _) => permits(kind, perm),
        _ => false,
    }
}

/// Whether a variable of this type is of a kind.
fn is_of(kind: Kind, ty: Option<Ty>) -> bool
    ensures { result ≡ is_of kind ty }
{
    match ty {
        Some(ty) => has_kind(kind, ty),
        None => false,
    }
}

fn holds(set: VarSet, x: u32) -> bool
    ensures { result ≡ member set x }
{
    match u8::try_from(x) {
        Ok(x) => set.contains(x),
        Err(_) => false,
    }
}

/// Whether a variable is of a kind and in a set.
fn is_among(body: &MethodBody<'_>, kind: Kind, set: VarSet, x: u32) -> bool
    ensures { result ≡ meet (of_kind body.now kind) (member set) x }
{
    is_of(kind, body.ty(x)) & holds(set, x)
}

fn count(body: &MethodBody<'_>) -> u32
    ensures { result ≡ count_of body.now }
{
    body.kept();
    body.vars().len() as u32
}

/// Whether some variable of the method is in a set.
fn some_in(body: &MethodBody<'_>, set: VarSet) -> bool
    ensures { result ≡ some_var (context_of body.now) (member set) }
{
    body.kept();
    let count = count(body);
    let mut found = false;
    'vars: for x in 0..count {
        found |= holds(set, x);
    }
    found
}

/// Whether some variable of the method is of a kind and in a set.
fn some_of(body: &MethodBody<'_>, kind: Kind, set: VarSet) -> bool
    ensures { result ≡ some_var (context_of body.now) (meet (of_kind body.now kind) (member set)) }
{
    body.kept();
    let count = count(body);
    let mut found = false;
    'vars: for x in 0..count {
        found |= is_among(body, kind, set, x);
    }
    found
}

/// Whether one block writes what stands in the other, or an isolated variable stands in both.
fn is_shared(body: &MethodBody<'_>, left: Uses, right: Uses) -> bool
    ensures { result ≡ par_shared (context_of body.now) (ParHead (member left.mentioned) (member right.mentioned) (member left.written) (member right.written)) }
{
    let to_right = some_in(body, left.written.intersection(right.mentioned));
    let to_left = some_in(body, right.written.intersection(left.mentioned));
    let both = left.mentioned.intersection(right.mentioned);
    to_right | (to_left | some_of(body, Kind::Isolated, both))
}

fn has_writable(body: &MethodBody<'_>, set: VarSet) -> bool
    ensures { result ≡ has_writable (context_of body.now) (member set) }
{
    some_of(body, Kind::Writable, set)
}

fn can_stand_alone(body: &MethodBody<'_>, set: VarSet) -> bool
    ensures { result ≡ can_stand_alone (context_of body.now) (member set) }
{
    !some_of(body, Kind::Tied, set)
}

/// The mode, by whether a writable variable stands in the blocks and whether the left one can stand alone.
fn mode_by(writable: bool, left_can: bool) -> ParMode
    ensures { result ≡ mode_by writable left_can }
{
    match (writable, left_can) {
        (false, _) => ParMode::Symmetric,
        (true, true) => ParMode::LeftAlone,
        (true, false) => ParMode::RightAlone,
    }
}

/// The mode, unless a writable variable stands in the blocks and neither can stand alone.
fn mode_of(body: &MethodBody<'_>, left: VarSet, right: VarSet) -> Result<ParMode, TypeKind>
    ensures { result ≡ permitted (context_of body.now) (member left) (member right) }
{
    let writable = has_writable(body, left) | has_writable(body, right);
    let left_can = can_stand_alone(body, left);
    let alone = left_can | can_stand_alone(body, right);
    if writable & !alone {
        return Err(TypeKind::ParPermission);
    }
    Ok(mode_by(writable, left_can))
}

/// The mode of two blocks by what they mention and write.
fn mode_by_uses(body: &MethodBody<'_>, left: Uses, right: Uses) -> Result<ParMode, TypeKind>
    ensures { result ≡ mode_unless (refusal (context_of body.now) (ParHead (member left.mentioned) (member right.mentioned) (member left.written) (member right.written)) (λ x. true)) (mode_of (context_of body.now) (member left.mentioned) (member right.mentioned)) }
{
    if is_shared(body, left, right) {
        return Err(TypeKind::ParShared);
    }
    mode_of(body, left.mentioned, right.mentioned)
}

/// Which blocks of a par of a body stand alone, or why they may not be side by side.
pub fn par_mode_in(body: &MethodBody<'_>, left: &Block, right: &Block) -> Result<ParMode, TypeKind>
    requires { AreParOf body.now.unit body.now.number left.now right.now }
    ensures { result ≡ par_mode_of body.now.unit body.now.number left.now right.now }
{
    body.kept();
    let left = uses_of_block(body, left);
    let right = uses_of_block(body, right);
    mode_by_uses(body, left, right)
}
