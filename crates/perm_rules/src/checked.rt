//! Units that the typing rules accept.

ghost use Rattle.std.specs.Prelude.{◌≡◌};
ghost use Rattle.perm_tree.specs.CodeOf.{code_of};
ghost use Rattle.perm_rules.specs.Goes.{IsAccepted};

use perm_tree::unit::Unit;
use std::marker::Model;

/// A unit of which each method has a derivation by the typing rules.
#[derive(Debug, Drop)]
pub struct Checked {
    unit: Unit,
}

impl Model for Checked {
    ghost use Rattle.perm_tree.specs.CodeOf.{code_of};
    ghost use Rattle.perm_tree.specs.UnitTables.{Tables};
    ghost use Rattle.perm_rules.specs.Goes.{IsAccepted};

    ghost Value = { Tables };

    ghost view = { λ c. c.unit };

    ghost invariant = { λ c. IsAccepted (code_of c.unit) };
}

impl Checked {
    /// Takes no memory.
    pub fn of(unit: Unit) -> Checked
        requires { IsAccepted (code_of unit) }
        ensures { result ≡ unit }
    {
        Checked { unit }
    }

    pub fn unit(&self) -> &Unit
        ensures { result.now ≡ self.now }
    {
        &self.unit
    }

    /// What every checked unit keeps.
    pub fn accepted(&self)
        ensures { IsAccepted (code_of self.now) }
    {
        let _ = &self.unit;
    }
}
