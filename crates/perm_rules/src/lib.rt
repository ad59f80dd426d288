//! The typing rules: what is allowed of each part of a method, from which live set to which its code goes, and the first part that is refused.
#![tactic(auto)]

mod body;
mod checked;
pub mod laws;

pub use body::MethodBody;
pub use checked::Checked;
pub use perm_tree::var_set::VarSet;

/// Which sides of a par stand alone. In `Symmetric` no writable variable stands in the blocks, and both do. Else only the named one does, whose outer variables are isolated, immutable, `long` or `bool`, and the other goes on with all that their parent has.
#[derive(Clone, Copy, Debug, PartialEq, Eq)]
pub enum ParMode {
    Symmetric,
    LeftAlone,
    RightAlone,
}

/// What a block takes out of the live set, and what it puts in, of the variables of its method; nothing is in both.
#[derive(Clone, Copy, Debug)]
pub struct Effect {
    pub lost: VarSet,
    pub made: VarSet,
}
