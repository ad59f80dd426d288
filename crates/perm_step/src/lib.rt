//! The interpreter: the control of a branch, what its steps ask and do, and a whole run on one thread.
#![tactic(auto)]

mod alone;
mod ask;
mod calls;
mod control;
mod ctl;
mod ends;
mod heap;
mod leaf;
mod pars;
mod spare;
mod tell;
mod values;

pub use alone::run_alone;
pub use ctl::{Answered, Ctl, Op, finished, fork, join, next, resume, room, start};
pub use ends::Finished;
