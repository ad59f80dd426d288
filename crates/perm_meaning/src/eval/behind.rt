//! What comes behind code that has ended.

ghost use Rattle.std.specs.Prelude.{◌≡◌, IfOk};
ghost use Rattle.perm_tree.specs.UnitTables.{Tables};
ghost use Rattle.perm_meaning.specs.Evaluator.Runs.{below_frame, IsNext, IsSmall};
ghost use Rattle.perm_meaning.specs.Evaluator.States.{IsEnd};

use super::frames::{Caller, Final, Frame, Parent, Spot};
use super::join::joined;
use super::parts::Part;
use super::state::{Fate, State};
use perm_tree::errors::NoMemory;
use perm_tree::unit::Unit;
use std::alloc::Global;

impl State {
    /// Goes on behind a frame above which the code has ended.
    pub fn follow(
        &mut self,
        alloc: Global,
        unit: &Unit,
        frame: Frame,
        fate: Fate,
    ) -> Result<Fate, NoMemory>
        requires ended { IsEnd fate }
        requires small { IsSmall (below_frame frame self.old) }
        ensures { IfOk result (λ y. IsNext unit.now (below_frame frame self.old) fate self.new y) }
    {
        match frame {
            Frame::Block(part, rest) => Ok(self.behind_block(unit, part, rest, fate)),
            Frame::Recover(part, rest) => Ok(self.behind_recover(unit, part, rest, fate)),
            Frame::Call(caller) => Ok(self.behind_call(caller, fate)),
            Frame::Left(parent) => self.behind_left(alloc, parent, fate),
            Frame::Right(parent, left) => self.behind_right(alloc, unit, parent, left, fate),
        }
    }

    /// Goes on behind a block.
    fn behind_block(&mut self, unit: &Unit, part: Part, rest: Spot, fate: Fate) -> Fate
        requires { IsEnd fate }
        ensures { IsNext unit.now (below_frame (Frame.Block part rest) self.old) fate self.new result }
    {
        match fate {
            Fate::Closes => {
                self.own.close(unit, part);
                self.control.spot = rest;
                Fate::Goes
            }
            Fate::Fails(_) => fate,
            _ => Fate::Sticks,
        }
    }

    /// Goes on behind a recover block, which gives a variable a value.
    fn behind_recover(&mut self, unit: &Unit, part: Part, rest: Spot, fate: Fate) -> Fate
        requires { IsEnd fate }
        ensures { IsNext unit.now (below_frame (Frame.Recover part rest) self.old) fate self.new result }
    {
        match fate {
            Fate::Gives(value, x) => {
                self.own.recover(unit, part, x, value);
                self.control.spot = rest;
                Fate::Goes
            }
            Fate::Fails(_) => fate,
            _ => Fate::Sticks,
        }
    }

    /// Goes on behind a call, which gives back a value.
    fn behind_call(&mut self, caller: Caller, fate: Fate) -> Fate
        requires { IsEnd fate }
        ensures { (u : Tables) → IsNext u (below_frame (Frame.Call caller) self.old) fate self.new result }
    {
        match fate {
            Fate::Returns(value) => {
                self.control.spot = caller.rest;
                self.own.come_back(caller, value);
                Fate::Goes
            }
            Fate::Fails(_) => {
                self.own.method = caller.method;
                fate
            }
            _ => Fate::Sticks,
        }
    }

    /// Goes on behind the right side of a par, whose left side has ended so.
    fn behind_right(
        &mut self,
        alloc: Global,
        unit: &Unit,
        mut parent: Parent,
        left: Final,
        fate: Fate,
    ) -> Result<Fate, NoMemory>
        requires ended { IsEnd fate }
        requires small { IsSmall (below_frame (Frame.Right parent left) self.old) }
        ensures { IfOk result (λ y. IsNext unit.now (below_frame (Frame.Right parent left) self.old) fate self.new y) }
    {
        let Some(right) = self.take_final(alloc, fate) else {
            return Ok(Fate::Sticks);
        };
        let at = parent.stmt;
        let end = joined(alloc, unit, at, &mut parent.own, left, right)?;
        Ok(self.join(parent, end))
    }
}
