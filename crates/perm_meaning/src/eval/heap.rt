//! The heap: the values of each object, by its number.

ghost use Rattle.std.specs.Prelude.{◌≡◌, ◌+◌, ◌≤◌, ◌++◌, [], ◌∷◌, pos, length, map, nat_le, replicate, slice_set, IfOk};
ghost use Rattle.perm_tree.specs.CodeOf.{code_of};
ghost use Rattle.perm_meaning.specs.Objects.{size};
ghost use Rattle.perm_meaning.specs.Evaluator.NumberedHeap.{put_at, value_at, zero_value};

use super::values::Value;
use indexmap::IndexMap;
use perm_tree::ast::{FieldDecl, Ty};
use perm_tree::errors::NoMemory;
use perm_tree::list::List;
use std::alloc::Global;
use std::marker::Model;

/// The objects that were made, how many words were given for them, and how many words there are.
#[derive(Debug, Drop)]
pub struct Heap {
    objects: IndexMap<usize, List<Value>>,
    given: u64,
    limit: u64,
}

impl Model for Heap {
    ghost use Rattle.indexmap.specs.IndexMap.{values};
    ghost use Rattle.perm_meaning.specs.Evaluator.NumberedHeap.{CountFrom, Stored};

    ghost Value = { Stored };

    ghost view = { λ h. record { objects = values h.objects; given = h.given; limit = h.limit } };

    ghost invariant = { λ h. CountFrom 0 h.objects.entries };
}

impl Heap {
    /// A heap of so many words, of which none is given.
    pub fn new(alloc: Global, limit: u64) -> Heap
        ensures { result ≡ record { objects = []; given = 0; limit = limit } }
    {
        Heap {
            objects: IndexMap::new(alloc),
            given: 0,
            limit,
        }
    }

    /// How many words were given.
    pub fn given(&self) -> u64
        ensures { result ≡ self.now.given }
    {
        self.given
    }

    /// The value of a field, if it is there.
    pub fn load(&self, object: usize, f: usize) -> Option<Value>
        ensures { result ≡ value_at self.now.objects object f }
    {
        match self.objects.get(&object) {
            Some(values) => values.as_slice().get(f).copied(),
            None => None,
        }
    }

    /// Puts a value into a field. A field that isn't there is left so.
    pub fn put(&mut self, object: usize, f: usize, value: Value)
        ensures { self.new ≡ record self.old { objects = put_at self.old.objects object f value } }
    {
        if let Some(values) = self.objects.get_mut(&object) {
            put_into(values, f, value);
        }
    }
}

impl Heap {
    /// Whether an object of so many values has room. It takes one word at least.
    pub fn has_room(&self, count: usize) -> bool
        ensures { result ≡ nat_le (self.now.given + size count) self.now.limit }
    {
        let left = self.limit.saturating_sub(self.given);
        self.given <= self.limit && count.max(1) as u64 <= left
    }

    /// Adds an object that has room, and answers its number.
    pub fn add(&mut self, values: List<Value>) -> Result<usize, NoMemory>
        requires room { self.old.given + size (length values) ≤ self.old.limit }
        ensures { IfOk result (λ r. (r ≡ length self.old.objects) × (self.new ≡ record self.old { objects = self.old.objects ++ values ∷ []; given = self.old.given + size (length values) })) }
    {
        let number = self.objects.len();
        let words = values.len().max(1) as u64;
        self.objects.insert(number, values)?;
        let _limit = self.limit;
        self.given = self.given + words;
        Ok(number)
    }
}

/// The values of a new array of so many elements.
pub fn zeros(alloc: Global, count: usize) -> Result<List<Value>, NoMemory>
    ensures { IfOk result (λ o. o ≡ replicate count (Value.Number (pos 0))) }
{
    let values = vec![in alloc; Value::Number(0); count]?;
    Ok(List::from_vec(values))
}

/// The values of a new object with these fields.
pub fn first_values(alloc: Global, fields: &[FieldDecl]) -> Result<List<Value>, NoMemory>
    ensures { IfOk result (λ o. o ≡ map (λ f. zero_value f.ty) fields.now) }
{
    let mut values = List::new(alloc);
    'fields: for field in fields {
        values.push(zero_of(field.ty))?;
    }
    Ok(values)
}

fn zero_of(ty: Ty) -> Value
    ensures { result ≡ zero_value ty }
{
    match ty {
        Ty::Long => Value::Number(0),
        Ty::Bool => Value::Truth(false),
        Ty::Ref(_, _) => Value::Null,
    }
}

/// The values of the input array.
pub fn numbers(alloc: Global, input: &[i64]) -> Result<List<Value>, NoMemory>
    ensures { IfOk result (λ o. o ≡ map (λ n. Value.Number n) input.now) }
{
    let mut values = List::new(alloc);
    'input: for number in input {
        values.push(Value::Number(*number))?;
    }
    Ok(values)
}

fn put_into(values: &mut List<Value>, f: usize, value: Value)
    ensures { values.new ≡ slice_set values.old f value }
{
    if f < values.len() {
        values.set(f, value);
    }
}
