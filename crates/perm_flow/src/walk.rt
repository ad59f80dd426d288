//! The walk over the statements of a method.

mod hidden;
mod live;
mod methods;
mod statements;

pub use methods::{flow, method_refusal};
