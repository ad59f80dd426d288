//! Hidden: a hidden variable is mentioned or assigned.

ghost use Rattle.std.specs.Prelude.{◌≡◌};
ghost use Rattle.perm_tree.specs.VarSets.{member};
ghost use Rattle.perm_flow.specs.Lowest.{any_hidden};
ghost use Rattle.perm_flow.specs.Parts.{part_of, IsPartIn};

use crate::mentions::any_in_part;
use crate::part::Part;
use crate::sets::holds;
use crate::terms::Test;
use perm_rules::{MethodBody, VarSet};

/// The variable that takes what is given stands outside of its recover block.
pub fn is_hidden(body: &MethodBody<'_>, part: &Part, hidden: VarSet) -> bool
    requires { IsPartIn body.now part.now }
    ensures { result ≡ any_hidden (member hidden) (part_of body.now part.now) }
{
    match part {
        Part::Given(w, _) => holds(hidden, *w),
        Part::Simple(_) => any_in_part(body, Test::Hidden(hidden), part),
        Part::Condition(_) => any_in_part(body, Test::Hidden(hidden), part),
        Part::Recover(_) => any_in_part(body, Test::Hidden(hidden), part),
        Part::Returned(_) => any_in_part(body, Test::Hidden(hidden), part),
    }
}
