//! Control: where a run stands in the code, and all that waits.

ghost use Rattle.std.specs.Prelude.{◌≡◌, ◌∷◌, ◌<◌, ◌^◌, IfOk, IfSome, option_copied, slice_get};
ghost use Rattle.perm_meaning.specs.Evaluator.Control.{behind, entered, if_control, passed, recover_control, while_control, TestsAs};
ghost use Rattle.perm_meaning.specs.Evaluator.NumberedValues.{given_by, Names};
ghost use Rattle.perm_meaning.specs.Evaluator.Parts.{stmts_in};

use super::frames::{Frame, Frames, Spot};
use super::parts::{Part, stmts_of};
use super::values::{Given, Value};
use perm_tree::errors::{NoMemory, TrapKind};
use perm_tree::unit::Unit;

/// Where the code goes on, and what waits for its end.
#[derive(Debug, Drop)]
pub struct Control {
    pub spot: Spot,
    pub frames: Frames,
}

/// What a condition comes to: it decides, it traps, or it gives no truth value.
#[derive(Clone, Copy, Debug)]
pub enum Tested {
    Decides(bool),
    Halts(TrapKind),
    Sticks,
}

/// What a condition comes to that gives this.
pub fn test_of(given: &Given) -> Tested
    ensures { (names : Names) → TestsAs (given_by names given.now) result }
{
    match given {
        Given::Value(value) => decided(value),
        Given::Trap(kind) => Tested::Halts(*kind),
        Given::Nothing => Tested::Sticks,
    }
}

fn decided(value: &Value) -> Tested
    ensures { (names : Names) → TestsAs (given_by names (Given.Value value.now)) result }
{
    match value {
        Value::Truth(b) => Tested::Decides(*b),
        Value::Number(_) => Tested::Sticks,
        Value::Null => Tested::Sticks,
        Value::Reference(_, _) => Tested::Sticks,
    }
}

/// The place behind a statement.
pub fn behind(spot: Spot) -> Spot
    requires { spot.at < 2 ^ 63 }
    ensures { result ≡ behind spot }
{
    Spot {
        part: spot.part,
        at: spot.at + 1,
    }
}

impl Control {
    /// The place of the statement that comes next, if the part is not at its end.
    pub fn next(&self, unit: &Unit, method: usize) -> Option<u32>
        ensures value { result ≡ slice_get (stmts_in unit.now method self.now.spot.part) self.now.spot.at }
        ensures fits { IfSome result (λ i. self.now.spot.at < 2 ^ 63) }
    {
        let stmts = stmts_of(unit, method, self.spot.part);
        if self.spot.at < stmts.len() {
            return Some(stmts[self.spot.at]);
        }
        None
    }

    /// Goes behind a statement.
    pub fn pass(&mut self)
        requires { self.old.spot.at < 2 ^ 63 }
        ensures { self.new ≡ passed self.old }
    {
        self.spot = behind(self.spot);
    }

    /// Goes into a part, for whose end something waits.
    pub fn enter(&mut self, part: Part, frame: Frame) -> Result<(), NoMemory>
        ensures { IfOk result (λ r. self.new ≡ entered part frame self.old) }
    {
        self.frames.push(frame)?;
        self.spot = Spot { part, at: 0 };
        Ok(())
    }

    /// Goes where the `if` at a place leads.
    pub fn on_if(&mut self, at: u32, tested: Tested) -> Result<(), NoMemory>
        requires { self.old.spot.at < 2 ^ 63 }
        ensures { IfOk result (λ r. self.new ≡ if_control at tested self.old) }
    {
        let rest = behind(self.spot);
        match tested {
            Tested::Decides(true) => self.enter(
                Part::First(at),
                Frame::Block(Part::First(at), rest),
            ),
            Tested::Decides(false) => self.enter(
                Part::Second(at),
                Frame::Block(Part::Second(at), rest),
            ),
            Tested::Halts(_) => Ok(()),
            Tested::Sticks => Ok(()),
        }
    }

    /// Goes where the `while` at a place leads.
    pub fn on_while(&mut self, at: u32, tested: Tested) -> Result<(), NoMemory>
        requires { self.old.spot.at < 2 ^ 63 }
        ensures { IfOk result (λ r. self.new ≡ while_control at tested self.old) }
    {
        match tested {
            Tested::Decides(true) => {
                let again = self.spot;
                self.enter(Part::First(at), Frame::Block(Part::First(at), again))
            }
            Tested::Decides(false) => {
                self.pass();
                Ok(())
            }
            Tested::Halts(_) => Ok(()),
            Tested::Sticks => Ok(()),
        }
    }

    /// Goes into the recover block at a place.
    pub fn on_recover(&mut self, at: u32) -> Result<(), NoMemory>
        requires { self.old.spot.at < 2 ^ 63 }
        ensures { IfOk result (λ r. self.new ≡ recover_control at self.old) }
    {
        let rest = behind(self.spot);
        self.enter(Part::First(at), Frame::Recover(Part::First(at), rest))
    }
}
