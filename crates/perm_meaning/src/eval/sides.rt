//! The sides of pars.

ghost use Rattle.std.specs.Prelude.{◌≡◌, ◌-◌, ◌/◌, ◌<◌, [], suc, IfOk};

use super::own::Own;
use perm_tree::errors::NoMemory;
use perm_tree::list::List;
use std::alloc::Global;

impl Own {
    /// What a side has where it begins: a copy of the variables, one deeper, with nothing printed.
    pub fn side(&self, alloc: Global) -> Result<Own, NoMemory>
        requires { self.now.depth < 100000 }
        ensures { IfOk result (λ o. o ≡ record self.now { depth = suc self.now.depth; printed = [] }) }
    {
        let vars = self.vars.as_slice().to_vec(alloc)?;
        Ok(Own {
            vars: List::from_vec(vars),
            method: self.method,
            depth: self.depth + 1,
            printed: List::new(alloc),
        })
    }
}

/// The turns of the right side: half of those that are left, rounded down.
pub fn right_turns(turns: u64) -> u64
    ensures { result ≡ turns / 2 }
{
    turns / 2
}

/// The turns of the left side: the rest.
pub fn left_turns(turns: u64) -> u64
    ensures { result ≡ turns - turns / 2 }
{
    turns - turns / 2
}
