//! BadGive: what is given is no reference, or of another shape than the variable that takes it.

ghost use Rattle.std.specs.Prelude.{◌≡◌, ◌||◌};
ghost use Rattle.perm_rules.specs.MethodBodies.{context_of};
ghost use Rattle.perm_rules.specs.Parts.{if_both_known, isnt_reference};
ghost use Rattle.perm_rules.specs.Shapes.{bad_give};
ghost use Rattle.perm_rules.specs.Sorts.{differ};
ghost use Rattle.perm_flow.specs.Parts.{part_of};

use crate::part::Part;
use crate::types::{differ, is_reference};
use perm_rules::MethodBody;
use perm_tree::ast::Ty;

pub fn bad_give(body: &MethodBody<'_>, part: &Part) -> bool
    ensures { result ≡ bad_give (context_of body.now) (part_of body.now part.now) }
{
    match part {
        Part::Given(w, x) => is_bad(body.ty(*w), body.ty(*x)),
        Part::Simple(_) => false,
        Part::Condition(_) => false,
        Part::Recover(_) => false,
        Part::Returned(_) => false,
    }
}

fn is_bad(t: Option<Ty>, u: Option<Ty>) -> bool
    ensures { result ≡ if_both_known t u (λ a b. isnt_reference a || differ a b) }
{
    match (t, u) {
        (Some(t), Some(u)) => !is_reference(t) | differ(t, u),
        _ => false,
    }
}
