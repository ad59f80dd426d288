//! The variables of blocks: what a block loses and makes, what it mentions and writes, and what the two blocks of a par share. No call takes memory.
#![tactic(auto)]

mod actions;
mod effects;
mod mentions;
mod modes;
mod terms;

ghost use Rattle.std.specs.Prelude.{◌≡◌, ◌<◌, length};
ghost use Rattle.perm_tree.specs.InBody.{AreParOf, IsBlockOf};
ghost use Rattle.perm_tree.specs.VarSets.{member};
ghost use Rattle.perm_rules.specs.AtPlace.{effect_of, par_mode_of, sets_of, uses_of};

pub use effects::{effect_in, own_in};
pub use mentions::{sets_in, uses_in};
pub use modes::par_mode_in;
use perm_rules::{Effect, MethodBody, ParMode, VarSet};
use perm_tree::ast::Block;
use perm_tree::errors::TypeKind;
use perm_tree::unit::Unit;

/// What a block of a method loses and makes of the method's variables; its own ones are lost at its end.
pub fn effect(unit: &Unit, method: u32, block: &Block) -> Effect
    requires method { method < length unit.now.tables }
    requires block { IsBlockOf unit.now method block.now }
    ensures lost { member result.lost ≡ (effect_of unit.now method block.now).lost }
    ensures made { member result.made ≡ (effect_of unit.now method block.now).made }
{
    effect_in(&MethodBody::new(unit, method), block)
}

/// The outer variables that stand anywhere in a block, an assigned one included.
pub fn uses(unit: &Unit, method: u32, block: &Block) -> VarSet
    requires method { method < length unit.now.tables }
    requires block { IsBlockOf unit.now method block.now }
    ensures { member result ≡ uses_of unit.now method block.now }
{
    uses_in(&MethodBody::new(unit, method), block)
}

/// The outer variables that a block assigns or consumes anywhere.
pub fn sets(unit: &Unit, method: u32, block: &Block) -> VarSet
    requires method { method < length unit.now.tables }
    requires block { IsBlockOf unit.now method block.now }
    ensures { member result ≡ sets_of unit.now method block.now }
{
    sets_in(&MethodBody::new(unit, method), block)
}

/// Which blocks of a par stand alone, or why they may not be side by side.
pub fn par_mode(unit: &Unit, method: u32, left: &Block, right: &Block) -> Result<ParMode, TypeKind>
    requires method { method < length unit.now.tables }
    requires par { AreParOf unit.now method left.now right.now }
    ensures { result ≡ par_mode_of unit.now method left.now right.now }
{
    par_mode_in(&MethodBody::new(unit, method), left, right)
}
