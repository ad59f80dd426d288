//! What a step asks of the heap.

ghost use Rattle.std.specs.Prelude.{◌≡◌, ◌↔◌, ℕ, ◌<◌, ◌≤◌, ◌⊎◌, length, IfOk, IfErr, IsTrue};
ghost use Rattle.perm_tree.specs.Code.{UnitCode};
ghost use Rattle.perm_tree.specs.BodyTerms.{IsActionIn};
ghost use Rattle.perm_meaning.specs.Words.{number_in, reference_in};
ghost use Rattle.perm_step.specs.Given.{IsElementBy, IsNoElementBy, IsNewLength, IsNoLength, IsNullBy, IsPlaceBy};
ghost use Rattle.perm_step.specs.HeapAsks.{Asks, TrapsFirst, IsElement, IsField, IsNoElement, IsNull};
ghost use Rattle.perm_step.specs.Rooms.{HasRoomForStep};
ghost use Rattle.perm_step.specs.Working.{locals};

use crate::control::{BASES, Control};
use perm_tree::bodies::{Action, Bodies};
use perm_tree::errors::TrapKind;

/// How deep open calls and open par branches of one path may nest.
pub const MOST_DEPTH: u64 = 100_000;

/// What a step asks of the heap: nothing, though it may start a par; a word at a place; to store a word there; to swap it with null; or an object of so many values, with the length that its reference holds.
#[derive(Clone, Copy, Debug, PartialEq, Eq)]
pub enum Ask {
    Nothing,
    Fork,
    Load(usize),
    Store(usize, u64),
    Take(usize),
    Make(usize, usize),
}

impl Ask {
    /// The step starts a par.
    #[inline(always)]
    pub fn is_fork(self) -> bool
        ensures { IsTrue result ↔ (self ≡ Ask.Fork) }
    {
        matches!(self, Ask::Fork)
    }
}

impl Control {
    /// What the step asks of the heap, or why it traps before it asks. A step that asks nothing may trap still.
    #[inline(always)]
    pub fn ask(&mut self, bodies: &Bodies, action: &Action) -> Result<Ask, TrapKind>
        requires there { (u : UnitCode) × IsActionIn bodies.now u action.now }
        requires room { HasRoomForStep bodies.now action.now self.old }
        ensures asks { IfOk result (Asks bodies.now (locals self.old) self.old.depth action.now) }
        ensures traps { IfErr result (TrapsFirst bodies.now (locals self.old) self.old.depth action.now) }
        ensures same { self.new ≡ self.old }
    {
        let operations = bodies.operations.as_slice();
        match action {
            Action::LoadField(_, y, f) => Ok(Ask::Load(self.field(*y, *f)?)),
            Action::LoadItem(_, y, e) => {
                let index = self.value(operations, e)?;
                Ok(Ask::Load(self.element(*y, index)?))
            }
            Action::TakeField(_, y, f) => Ok(Ask::Take(self.field(*y, *f)?)),
            Action::NewObject(_, _, fields) => Ok(Ask::Make(*fields as usize, 0)),
            Action::NewArray(_, e) => {
                let count = new_length(self.value(operations, e)?)?;
                Ok(Ask::Make(count, count))
            }
            Action::StoreField(y, f, a) => {
                let word = self.argument(operations, a)?;
                Ok(Ask::Store(self.field(*y, *f)?, word))
            }
            Action::StoreItem(y, i, e) => {
                let index = self.value(operations, i)?;
                let word = self.value(operations, e)?;
                Ok(Ask::Store(self.element(*y, index)?, word))
            }
            Action::Par(_, _, _) => {
                if self.depth >= MOST_DEPTH {
                    return Err(TrapKind::StackOverflow);
                }
                Ok(Ask::Fork)
            }
            _ => Ok(Ask::Nothing),
        }
    }

    /// The place of a field's word.
    #[inline(always)]
    fn field(&self, y: u32, f: u32) -> Result<usize, TrapKind>
        ensures there { IfOk result (IsField (locals self.now) y f) }
        ensures null { IfErr result (IsNull (locals self.now) y) }
    {
        place(self.variable(y), f)
    }

    /// The place of an element's word, by the word of its index.
    #[inline(always)]
    fn element(&self, y: u32, index: u64) -> Result<usize, TrapKind>
        ensures there { IfOk result (IsElement (locals self.now) y index) }
        ensures none { IfErr result (IsNoElement (locals self.now) y index) }
    {
        element_place(self.variable(y), index)
    }
}

/// The place of a field's word.
#[inline(always)]
fn place(reference: u64, f: u32) -> Result<usize, TrapKind>
    ensures there { IfOk result (IsPlaceBy (reference_in reference) f) }
    ensures null { IfErr result (IsNullBy (reference_in reference)) }
{
    match (reference % BASES).checked_sub(1) {
        Some(base) => Ok(base as usize + f as usize),
        None => Err(TrapKind::NullReference),
    }
}

/// The place of an element's word. An index that is negative as a number is larger than any length as a word.
#[inline(always)]
fn element_place(reference: u64, index: u64) -> Result<usize, TrapKind>
    ensures there { IfOk result (IsElementBy (reference_in reference) (number_in index)) }
    ensures none { IfErr result (IsNoElementBy (reference_in reference) (number_in index)) }
{
    let Some(base) = (reference % BASES).checked_sub(1) else {
        return Err(TrapKind::NullReference);
    };
    if index >= reference / BASES {
        return Err(TrapKind::IndexOutOfRange);
    }
    Ok(base as usize + index as usize)
}

/// The length of a new array.
#[inline(always)]
fn new_length(word: u64) -> Result<usize, TrapKind>
    ensures given { IfOk result (IsNewLength (number_in word)) }
    ensures negative { IfErr result (IsNoLength (number_in word)) }
{
    match usize::try_from(word.cast_signed()) {
        Ok(count) => Ok(count),
        Err(_) => Err(TrapKind::Overflow),
    }
}
