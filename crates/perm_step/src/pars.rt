//! Pars: how a branch starts one, how a side ends, and how two ended sides are joined.

ghost use Rattle.std.specs.Prelude.{◌≡◌, ℕ, ◌+◌, ◌<◌, ◌≤◌, ◌^◌, ◌++◌, ◌↔◌, drop, take, length, IfOk, IsTrue, OnErr};
ghost use Rattle.perm_tree.specs.VarSets.{member};
ghost use Rattle.perm_meaning.specs.Custody.{merged};
ghost use Rattle.perm_step.specs.ParMoves.{either_failure, failure_in, worse_of, EndsAs, IsAtEnd, IsSide, IsWaiting, Joins, Parts, RunsOut, printed_by};
ghost use Rattle.perm_step.specs.Working.{locals};

use crate::control::{Control, Ending, Failure, Leaf};
use perm_tree::bodies::{Action, Bodies, Sides};
use perm_tree::errors::NoMemory;
use std::alloc::Global;
use std::mem;

/// How a branch has ended: at the end of its code, with a word that it returned, or by a failure.
#[derive(Clone, Copy, Debug, PartialEq, Eq)]
pub enum Final {
    Fine,
    Returned(u64),
    Failed(Failure),
}

/// The parent of a par that waits, and its right side.
#[derive(Debug, Drop)]
pub struct Forked {
    pub parent: Control,
    pub right: Control,
}

impl Leaf {
    /// How the branch has ended, if no step is due.
    #[inline(always)]
    pub fn end(&self, bodies: &Bodies) -> Option<Final>
        requires { self.now.control.at < length bodies.now.steps }
        ensures { EndsAs bodies.now self.now.control self.now.ending result }
    {
        match self.ending {
            Some(Ending::Returned(word)) => Some(Final::Returned(word)),
            Some(Ending::Failed(failure)) => Some(Final::Failed(failure)),
            None => self.control.end(bodies),
        }
    }
}

impl Control {
    /// How a branch has ended that has no other ending, if no step is due.
    #[inline(always)]
    fn end(&self, bodies: &Bodies) -> Option<Final>
        requires { self.now.at < length bodies.now.steps }
        ensures { RunsOut bodies.now self.now result }
    {
        if self.is_at_end(bodies) {
            return Some(Final::Fine);
        }
        if self.turns == 0 {
            return Some(Final::Failed(Failure::NoTurns));
        }
        None
    }

    /// Starts a par: the branch becomes the left side. Half of the turns that are left after this one go to the right side.
    pub fn fork(&mut self, alloc: Global, first: u32, second: u32) -> Result<Forked, NoMemory>
        requires due { 0 < self.old.turns }
        requires deep { self.old.depth < 2 ^ 32 }
        ensures parts { IfOk result (λ f. Parts first second self.old f.parent self.new f.right) }
        ensures same { OnErr result (self.new ≡ self.old) }
    {
        let turns = self.turns - 1;
        let left = self.side(alloc, first, turns - turns / 2)?;
        let right = self.side(alloc, second, turns / 2)?;
        let mut parent = mem::replace(self, left);
        parent.turns = 0;
        Ok(Forked { parent, right })
    }

    /// A side of a par, which works on a copy of the variables.
    fn side(&self, alloc: Global, at: u32, turns: u64) -> Result<Control, NoMemory>
        requires deep { self.now.depth < 2 ^ 32 }
        ensures { IfOk result (IsSide at turns self.now) }
    {
        Ok(Control {
            at,
            base: 0,
            calls: Vec::new(alloc),
            vars: self.locals().to_vec(alloc)?,
            printed: Vec::new(alloc),
            depth: self.depth + 1,
            turns,
            values: Vec::new(alloc),
        })
    }

    /// The variables of the running method.
    fn locals(&self) -> &[u64]
        ensures { result.now ≡ locals self.now }
    {
        let base = (self.base as usize).min(self.vars.len());
        &self.vars.as_slice()[base..]
    }

    /// Joins the two sides of a par, which have ended so: the parent goes on, or has ended.
    pub fn join(
        &mut self,
        bodies: &Bodies,
        left: &Control,
        left_end: Final,
        right: &Control,
        right_end: Final,
    ) -> Result<Option<Ending>, NoMemory>
        requires par { IsWaiting bodies.now self.old }
        requires turns { left.now.turns + right.now.turns < 2 ^ 64 }
        requires lefts { left_end ≡ Final.Fine → length (locals left.now) ≡ length (locals self.old) }
        requires rights { right_end ≡ Final.Fine → length (locals right.now) ≡ length (locals self.old) }
        requires few { length (locals self.old) ≤ 256 }
        ensures joins { IfOk result (λ ending. Joins bodies.now left.now left_end right.now right_end self.old self.new ending) }
        ensures same { OnErr result (self.new ≡ record self.old { room = self.new.room }) }
    {
        let step = self.step(bodies);
        let Action::Par(_, _, place) = step.action else {
            unreachable!();
        };
        self.append_printed(left, left_end, right)?;
        self.turns = left.turns + right.turns;
        if let Some(failure) = failure_of(left_end, right_end) {
            return Ok(Some(Ending::Failed(failure)));
        }
        if left_end.is_fine() && right_end.is_fine() {
            let sides = &bodies.sides.as_slice()[place as usize];
            self.merge(sides, left.locals(), right.locals());
        }
        self.at = step.next;
        Ok(None)
    }

    /// Appends what the sides of a par have printed; what the right side has only where the left hasn't failed.
    fn append_printed(
        &mut self,
        left: &Control,
        left_end: Final,
        right: &Control,
    ) -> Result<(), NoMemory>
        ensures ok { IfOk result (λ _. self.new ≡ record self.old { printed = self.old.printed ++ printed_by left_end left.now.printed right.now.printed; room = self.new.room }) }
        ensures same { OnErr result (self.new ≡ record self.old { room = self.new.room }) }
    {
        let more: &[i64] = match left_end {
            Final::Failed(_) => &[],
            _ => right.printed.as_slice(),
        };
        self.printed.reserve(left.printed.len() + more.len())?;
        self.printed.extend_from_slice(left.printed.as_slice())?;
        self.printed.extend_from_slice(more)?;
        Ok(())
    }

    /// Takes from each side the variables that it writes; what both write from the right.
    fn merge(&mut self, sides: &Sides, left: &[u64], right: &[u64])
        requires lefts { length left.now ≡ length (locals self.old) }
        requires rights { length right.now ≡ length (locals self.old) }
        requires few { length (locals self.old) ≤ 256 }
        ensures { self.new ≡ record self.old { vars = take self.old.base self.old.vars ++ merged (member sides.now.left) (member sides.now.right) (locals self.old) left.now right.now } }
    {
        let base = (self.base as usize).min(self.vars.len());
        merge_words(&mut self.vars.as_mut_slice()[base..], sides, left, right);
    }

    /// The branch stands at the end of a side, and no call is open.
    fn is_at_end(&self, bodies: &Bodies) -> bool
        requires { self.now.at < length bodies.now.steps }
        ensures { IsTrue result ↔ IsAtEnd bodies.now self.now }
    {
        matches!(self.step(bodies).action, Action::End) && self.calls.is_empty()
    }
}

impl Final {
    fn is_fine(self) -> bool
        ensures { IsTrue result ↔ (self ≡ Final.Fine) }
    {
        matches!(self, Final::Fine)
    }

    /// Why the branch has failed, if it has.
    fn failure(self) -> Option<Failure>
        ensures { result ≡ failure_in self }
    {
        match self {
            Final::Failed(failure) => Some(failure),
            Final::Fine | Final::Returned(_) => None,
        }
    }
}

/// Why a par fails whose sides have ended so, if it does.
fn failure_of(left: Final, right: Final) -> Option<Failure>
    ensures { result ≡ either_failure (failure_in left) (failure_in right) }
{
    match (left.failure(), right.failure()) {
        (Some(first), Some(second)) => Some(worse(first, second)),
        (first, second) => first.or(second),
    }
}

/// Which of two failures the par has: want of room comes first, then the left's.
fn worse(left: Failure, right: Failure) -> Failure
    ensures { result ≡ worse_of left right }
{
    match right {
        Failure::NoRoom => Failure::NoRoom,
        _ => left,
    }
}

/// Takes from each side the words that it writes; what both write from the right.
fn merge_words(words: &mut [u64], sides: &Sides, left: &[u64], right: &[u64])
    requires lefts { length left.now ≡ length words.old }
    requires rights { length right.now ≡ length words.old }
    requires few { length words.old ≤ 256 }
    ensures { words.new ≡ merged (member sides.now.left) (member sides.now.right) words.old left.now right.now }
{
    for (x, word) in words.iter_mut().enumerate() {
        if sides.right.contains(x as u8) {
            *word = right[x];
        } else if sides.left.contains(x as u8) {
            *word = left[x];
        }
    }
}
