//! The whole check of a text: it is lexed, parsed, resolved and typed, each to its end before the next.
#![tactic(auto)]

mod text;
mod units;

pub use text::{check_text, one_check};
pub use units::check_unit;
