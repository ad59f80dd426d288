//! The interleaved core of a run, the region picture of its states, and the laws of both.
#![tactic(auto)]

pub mod laws;
