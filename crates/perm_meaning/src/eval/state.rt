//! The state of a run, and how parts of it end.

ghost use Rattle.std.specs.Prelude.{◌≡◌, ◌<◌, ◌^◌, IfOk};
ghost use Rattle.perm_meaning.specs.Evaluator.States.{final_of, joined_at, joined_fate, right_at, split_at, BeginsRight};

use super::control::{Control, behind};
use super::frames::{Failure, Final, Frame, Parent};
use super::heap::Heap;
use super::own::Own;
use super::parts::Part;
use super::sides::{left_turns, right_turns};
use super::values::Value;
use perm_tree::errors::NoMemory;
use perm_tree::list::List;
use std::alloc::Global;
use std::mem;

/// What the branch that runs has, its turns left, the heap, and where it stands.
#[derive(Debug, Drop)]
pub struct State {
    pub own: Own,
    pub turns: u64,
    pub heap: Heap,
    pub control: Control,
}

/// The code goes on; or it has ended: it is done, it gives a value for a variable, it gives a value back, or it has failed; or the heap is full, or nothing is meant.
#[derive(Clone, Copy, Debug)]
pub enum Fate {
    Goes,
    Closes,
    Gives(Value, usize),
    Returns(Value),
    Fails(Failure),
    Full,
    Sticks,
}

impl State {
    /// Begins the left side of the par at a place.
    pub fn split(&mut self, alloc: Global, at: u32) -> Result<(), NoMemory>
        requires depth { self.old.own.depth < 100000 }
        requires fits { self.old.control.spot.at < 2 ^ 63 }
        ensures { IfOk result (λ r. self.new ≡ split_at at self.old) }
    {
        let side = self.own.side(alloc)?;
        let own = mem::replace(&mut self.own, side);
        let parent = Parent {
            own,
            turns: self.turns,
            stmt: at,
            rest: behind(self.control.spot),
        };
        self.turns = left_turns(self.turns);
        self.control.enter(Part::First(at), Frame::Left(parent))
    }

    /// Begins the right side of a par whose left side has ended so.
    pub fn begin_right(
        &mut self,
        alloc: Global,
        parent: Parent,
        left: Final,
    ) -> Result<(), NoMemory>
        requires { parent.own.depth < 100000 }
        ensures { IfOk result (λ r. self.new ≡ right_at parent left self.old) }
    {
        self.own = parent.own.side(alloc)?;
        self.turns = right_turns(parent.turns);
        let at = parent.stmt;
        self.control
            .enter(Part::Second(at), Frame::Right(parent, left))
    }

    /// How a side ends that runs, if this is an end of one. Its variables and what it has printed are taken out.
    pub fn take_final(&mut self, alloc: Global, fate: Fate) -> Option<Final>
        ensures value { result ≡ final_of self.old fate }
        ensures same { self.new ≡ record self.old { own = self.new.own } }
    {
        match fate {
            Fate::Closes => {
                let vars = mem::replace(&mut self.own.vars, List::new(alloc));
                let printed = mem::replace(&mut self.own.printed, List::new(alloc));
                Some(Final::Fine(vars, self.turns, printed))
            }
            Fate::Fails(failure) => {
                let printed = mem::replace(&mut self.own.printed, List::new(alloc));
                Some(Final::Failed(failure, self.turns, printed))
            }
            Fate::Goes => None,
            Fate::Gives(_, _) => None,
            Fate::Returns(_) => None,
            Fate::Full => None,
            Fate::Sticks => None,
        }
    }

    /// Goes on behind the left side of a par.
    pub fn behind_left(
        &mut self,
        alloc: Global,
        parent: Parent,
        fate: Fate,
    ) -> Result<Fate, NoMemory>
        requires { parent.own.depth < 100000 }
        ensures { IfOk result (λ y. BeginsRight parent self.old (final_of self.old fate) self.new y) }
    {
        match self.take_final(alloc, fate) {
            Some(left) => {
                self.begin_right(alloc, parent, left)?;
                Ok(Fate::Goes)
            }
            None => Ok(Fate::Sticks),
        }
    }

    /// Goes on behind a par whose sides have joined so.
    pub fn join(&mut self, parent: Parent, end: Final) -> Fate
        ensures state { self.new ≡ joined_at parent end self.old }
        ensures fate { result ≡ joined_fate end }
    {
        self.own = parent.own;
        match end {
            Final::Fine(vars, turns, printed) => {
                self.own.vars = vars;
                self.own.printed = printed;
                self.turns = turns;
                self.control.spot = parent.rest;
                Fate::Goes
            }
            Final::Failed(failure, turns, printed) => {
                self.own.printed = printed;
                self.turns = turns;
                Fate::Fails(failure)
            }
        }
    }
}
