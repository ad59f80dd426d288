//! The live set after a statement of a unit, and the first refused part of a method.

ghost use Rattle.std.specs.Prelude.{◌≡◌, ◌+◌, ◌<◌, ◌≤◌, length, slice_get, Some};
ghost use Rattle.perm_tree.specs.declared.ast.Method as ast;
ghost use Rattle.perm_tree.specs.Code.{Return, Routine};
ghost use Rattle.perm_tree.specs.CodeNames.{argument};
ghost use Rattle.perm_tree.specs.CodeOf.{code_of};
ghost use Rattle.perm_tree.specs.InBody.{method_at, vars_at, IsStmtOf};
ghost use Rattle.perm_tree.specs.VarSets.{member};
ghost use Rattle.perm_tree.specs.Vars.{below, IsWithin};
ghost use Rattle.perm_rules.specs.AtPlace.{flow_of};
ghost use Rattle.perm_rules.specs.FirstRefused.{first_refused, method_refusal};
ghost use Rattle.perm_rules.specs.MethodBodies.{context_of, setting_of};
ghost use Rattle.perm_flow.specs.Walk.{told};

use crate::part::Part;
use crate::walk::hidden::hidden_at;
use crate::walk::statements::{flow_block, flow_stmt, pass};
use perm_rules::{MethodBody, VarSet};
use perm_tree::errors::TypeError;
use perm_tree::unit::Unit;

/// The live set after a statement of a method, or the first part of it that is refused.
pub fn flow(unit: &Unit, method: u32, live: VarSet, stmt: u32) -> Result<VarSet, TypeError>
    requires there { method < length unit.now.tables }
    requires stmt { IsStmtOf unit.now method stmt }
    requires live { IsWithin (member live) (below (length (vars_at unit.now method))) }
    ensures { told result ≡ flow_of unit.now method stmt (member live) }
{
    unit.resolved();
    let body = MethodBody::new(unit, method);
    body.kept();
    let hidden = hidden_at(body.vars(), unit.program().stmts(), stmt as usize);
    flow_stmt(&body, hidden, live, stmt)
}

/// The numbers below a count.
fn first_variables(count: usize) -> VarSet
    requires { count ≤ 256 }
    ensures { member result ≡ below count }
{
    let mut set = VarSet::new();
    'numbers: for x in 0..count {
        set = set.insert(x as u8);
    }
    set
}

/// The error of the `return` of a method that comes to it with a live set.
fn return_refusal(body: &MethodBody<'_>, live: VarSet) -> Option<TypeError>
    ensures { (d : ast.Method) → method_at body.now.unit body.now.number ≡ Some d → result ≡ first_refused (context_of body.now) (Return d.span (argument (setting_of body.now) d.back)) (member live) }
{
    let value = Part::Returned(body.back());
    match pass(body, VarSet::new(), value, live, body.method().span) {
        Err(error) => Some(error),
        Ok(_) => None,
    }
}

/// The first part of a method that is refused.
pub fn method_refusal(unit: &Unit, method: u32) -> Option<TypeError>
    requires { method < length unit.now.tables }
    ensures { (r : Routine) → slice_get (code_of unit.now).routines method ≡ Some r → result ≡ method_refusal (code_of unit.now) r }
{
    let body = MethodBody::new(unit, method);
    body.kept();
    let declared = body.method();
    let live = first_variables(declared.params.len() + 1);
    match flow_block(&body, VarSet::new(), live, declared.body.stmts.as_slice()) {
        Err(error) => Some(error),
        Ok(live) => return_refusal(&body, live),
    }
}
