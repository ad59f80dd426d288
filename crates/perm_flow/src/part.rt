//! The parts of a method, as its steps tell them.

use perm_tree::bodies::{Action, Argument, Expression};

/// What is checked at one place, but for the head of a par.
#[derive(Clone, Copy, Debug)]
pub enum Part {
    Simple(Action),
    Condition(Expression),
    /// The variable that takes what the recover block gives.
    Recover(u32),
    /// The given variable, and the one that takes it.
    Given(u32, u32),
    Returned(Argument),
}
