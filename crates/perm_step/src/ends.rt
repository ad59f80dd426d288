//! What is told of a root that has ended.

ghost use Rattle.std.specs.Prelude.{◌≡◌, ◌≢◌, Some};
ghost use Rattle.perm_meaning.specs.Told.{told_end};
ghost use Rattle.perm_step.specs.ParMoves.{final_of};
ghost use Rattle.perm_step.specs.Working.{Working};

use crate::control::Failure;
use crate::pars::Final;
use perm_meaning::End;
use perm_tree::list::Numbers;

/// How a root has ended, what it has printed, and its turns that are left.
#[derive(Debug, Drop)]
pub struct Finished {
    pub end: End,
    pub printed: Numbers,
    pub left: u64,
}

/// How a run has ended whose root has ended so. A root ends by returning a word or by a failure.
pub fn told_end(end: Final) -> End
    requires { end ≢ Final.Fine }
    ensures { (c : Working) → told_end (final_of c end) ≡ Some result }
{
    match end {
        Final::Returned(word) => End::Done(word.cast_signed()),
        Final::Failed(Failure::Trap(kind, span)) => End::Trap(kind, span),
        Final::Failed(Failure::NoTurns) => End::OutOfTurns,
        Final::Failed(Failure::NoRoom) => End::HeapFull,
        Final::Fine => unreachable!(),
    }
}
