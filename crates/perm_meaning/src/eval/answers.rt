//! What the heap answers to what simple statements ask.

ghost use Rattle.std.specs.Prelude.{◌≡◌, ◌≤◌, length, IfOk};
ghost use Rattle.perm_tree.specs.CodeOf.{code_of};
ghost use Rattle.perm_tree.specs.declared.ast.Shape.TheVariants.{Class, Array};
ghost use Rattle.perm_meaning.specs.Objects.{field_types};
ghost use Rattle.perm_meaning.specs.Evaluator.NumberedHeap.{found_there, found_value, Answers, MakesOne, StartsAs};

use super::asks::Ask;
use super::heap::{Heap, first_values, zeros};
use super::values::Value;
use perm_tree::errors::NoMemory;
use perm_tree::list::List;
use perm_tree::unit::Unit;
use std::alloc::Global;

/// What is found, if anything is asked for; that there is no room for a new object; or that a field isn't there.
#[derive(Clone, Copy, Debug)]
pub enum Answer {
    Found(Option<Value>),
    Refused,
    Missing,
}

impl Heap {
    /// Answers what a statement asks.
    pub fn answer(&mut self, alloc: Global, unit: &Unit, ask: Ask) -> Result<Answer, NoMemory>
        requires { self.old.limit ≤ 4194304 }
        ensures { IfOk result (λ a. Answers (code_of unit.now) ask self.old a self.new) }
    {
        match ask {
            Ask::Tick => Ok(Answer::Found(None)),
            Ask::Load(object, f) => Ok(found_value(self.load(object, f))),
            Ask::Store(object, f, value) => {
                let there = found_there(self.load(object, f));
                self.put(object, f, value);
                Ok(there)
            }
            Ask::Take(object, f) => {
                let found = found_value(self.load(object, f));
                self.put(object, f, Value::Null);
                Ok(found)
            }
            Ask::Object(class) => self.make_object(alloc, unit, class),
            Ask::Array(length) => self.make_array(alloc, unit, length),
        }
    }

    /// Makes an array of so many elements, if it has room.
    fn make_array(&mut self, alloc: Global, unit: &Unit, count: usize) -> Result<Answer, NoMemory>
        requires { self.old.limit ≤ 4194304 }
        ensures { IfOk result (λ a. MakesOne (code_of unit.now) Array count self.old a self.new) }
    {
        let _ = unit;
        if !self.has_room(count) {
            return Ok(Answer::Refused);
        }
        let values = zeros(alloc, count)?;
        let number = self.add(values)?;
        Ok(Answer::Found(Some(Value::Reference(number, count as u32))))
    }

    /// Makes an object of a class, if it has room.
    fn make_object(&mut self, alloc: Global, unit: &Unit, class: usize) -> Result<Answer, NoMemory>
        ensures { IfOk result (λ a. MakesOne (code_of unit.now) (Class class) (length (field_types (code_of unit.now) class)) self.old a self.new) }
    {
        let values = values_of(alloc, unit, class)?;
        if !self.has_room(values.len()) {
            return Ok(Answer::Refused);
        }
        let number = self.add(values)?;
        Ok(Answer::Found(Some(Value::Reference(number, 0))))
    }
}

/// The values that a new object of a class starts with.
pub fn values_of(alloc: Global, unit: &Unit, class: usize) -> Result<List<Value>, NoMemory>
    ensures start { IfOk result (λ o. StartsAs (code_of unit.now) (Class class) (length o) o) }
    ensures count { IfOk result (λ o. length o ≡ length (field_types (code_of unit.now) class)) }
{
    match unit.program().classes().get(class) {
        Some(declared) => first_values(alloc, declared.fields.as_slice()),
        None => Ok(List::new(alloc)),
    }
}

fn found_value(found: Option<Value>) -> Answer
    ensures { result ≡ found_value found }
{
    match found {
        Some(value) => Answer::Found(Some(value)),
        None => Answer::Missing,
    }
}

fn found_there(found: Option<Value>) -> Answer
    ensures { result ≡ found_there found }
{
    match found {
        Some(_) => Answer::Found(None),
        None => Answer::Missing,
    }
}
