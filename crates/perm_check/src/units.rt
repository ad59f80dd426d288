//! The check of a unit.

ghost use Rattle.std.specs.Prelude.{◌≡◌, IfErr, IfOk, Some};
ghost use Rattle.perm_tree.specs.CodeOf.{code_of};
ghost use Rattle.perm_rules.specs.FirstRefused.{unit_refusal};
ghost use Rattle.perm_rules.specs.Goes.{IsAccepted};

use perm_flow::method_refusal;
use perm_rules::Checked;
use perm_tree::errors::TypeError;
use perm_tree::unit::Unit;

/// Checks all methods in text order. Takes no memory; the unit is dropped with a refusal. docs/LANGUAGE.md lists the kinds.
pub fn check_unit(unit: Unit) -> Result<Checked, TypeError>
    ensures accepted { IfOk result (λ checked. (checked ≡ unit) × IsAccepted (code_of unit)) }
    ensures refused { IfErr result (λ e. unit_refusal (code_of unit) ≡ Some e) }
{
    match unit_refusal(&unit) {
        Some(error) => Err(error),
        None => Ok(Checked::of(unit)),
    }
}

/// The first part of a unit that is refused.
fn unit_refusal(unit: &Unit) -> Option<TypeError>
    ensures { result ≡ unit_refusal (code_of unit.now) }
{
    unit.resolved();
    'methods: for method in 0..unit.tables().len() {
        if let Some(error) = method_refusal(unit, method as u32) {
            return Some(error);
        }
    }
    None
}
