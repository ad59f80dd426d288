//! Variables in sets, by numbers that may be past the last one.

ghost use Rattle.std.specs.Prelude.{◌≡◌};
ghost use Rattle.perm_tree.specs.Vars.{just, minus};
ghost use Rattle.perm_tree.specs.VarSets.{member};

use perm_rules::VarSet;

/// A set holds no number past 255.
pub fn holds(set: VarSet, x: u32) -> bool
    ensures { result ≡ member set x }
{
    if x < 256 {
        set.contains(x as u8)
    } else {
        false
    }
}

pub fn without(set: VarSet, x: u32) -> VarSet
    ensures { member result ≡ minus (member set) (just x) }
{
    if x < 256 { set.remove(x as u8) } else { set }
}
