//! From which live set to which the statements of a method go, or the first part of them that is refused.
#![tactic(auto)]

mod arguments;
mod kinds;
mod mentions;
mod part;
mod refusal;
mod sets;
mod sorts;
mod terms;
mod ties;
mod types;
mod walk;

pub use walk::{flow, method_refusal};
