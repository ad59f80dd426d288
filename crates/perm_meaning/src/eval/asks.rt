//! What simple statements ask of the heap, by what their operands give. Operands come first, then the test for null, then that of an index.

ghost use Rattle.std.specs.Prelude.{slice_get, ◌≡◌, Some};
ghost use Rattle.perm_tree.specs.Code.{UnitCode};
ghost use Rattle.perm_meaning.specs.Evaluator.Asks.{asked_by, count_of, assigned, index_in, length_in, loaded, loaded_item, made_of, measured, new_array, printed_by, stored_by, stored_item, taken};
ghost use Rattle.perm_meaning.specs.NamedHeap as heaps;
ghost use Rattle.perm_meaning.specs.Evaluator.NumberedValues.{given_by, Names};

use super::values::{Given, Value};
use perm_tree::errors::TrapKind;

/// What is asked of the heap: nothing; a field of an object, to store into it, or to swap it with null; a new object of a class; or a new array of so many elements.
#[derive(Clone, Copy, Debug)]
pub enum Ask {
    Tick,
    Load(usize, usize),
    Store(usize, usize, Value),
    Take(usize, usize),
    Object(usize),
    Array(usize),
}

/// What is done by what the heap answers: nothing; a variable takes it, or another value, or loses its own; a variable takes a new object; a number is printed; or the branch traps.
#[derive(Clone, Copy, Debug)]
pub enum Told {
    Goes,
    Into(usize),
    Sets(usize, Option<Value>),
    Made(usize),
    Prints(i64),
    Halts(TrapKind),
}

/// One thing is asked, and what is done by the answer. Or nothing is meant of the statement.
#[derive(Clone, Copy, Debug)]
pub enum Asked {
    Does(Ask, Told),
    Sticks,
}

/// A trap before the heap is asked.
pub fn halts(kind: TrapKind) -> Asked
    ensures { result ≡ Asked.Does Ask.Tick (Told.Halts kind) }
{
    Asked::Does(Ask::Tick, Told::Halts(kind))
}

/// The value of an argument comes into x.
pub fn assign(value: &Given, x: usize) -> Asked
    ensures { (u : UnitCode) (names : Names) (l : heaps.Own) → assigned l x (given_by names value.now) ≡ asked_by u names l result }
{
    match value {
        Given::Value(value) => Asked::Does(Ask::Tick, Told::Sets(x, Some(*value))),
        Given::Trap(kind) => halts(*kind),
        Given::Nothing => Asked::Sticks,
    }
}

/// A field of y comes into x.
pub fn load(y: &Given, x: usize, f: usize) -> Asked
    ensures { (u : UnitCode) (names : Names) (l : heaps.Own) → loaded l x f (given_by names y.now) ≡ asked_by u names l result }
{
    match y {
        Given::Value(y) => match y {
            Value::Reference(object, _) => Asked::Does(Ask::Load(*object, f), Told::Into(x)),
            Value::Null => halts(TrapKind::NullReference),
            _ => Asked::Sticks,
        },
        Given::Trap(kind) => halts(*kind),
        Given::Nothing => Asked::Sticks,
    }
}

/// The length of y comes into x.
pub fn measure(y: &Given, x: usize) -> Asked
    ensures { (u : UnitCode) (names : Names) (l : heaps.Own) → measured l x (given_by names y.now) ≡ asked_by u names l result }
{
    match y {
        Given::Value(y) => match y {
            Value::Reference(_, length) => sets_number(x, i64::from(*length)),
            Value::Null => halts(TrapKind::NullReference),
            _ => Asked::Sticks,
        },
        Given::Trap(kind) => halts(*kind),
        Given::Nothing => Asked::Sticks,
    }
}

fn sets_number(x: usize, n: i64) -> Asked
    ensures { result ≡ Asked.Does Ask.Tick (Told.Sets x (Some (Value.Number n))) }
{
    Asked::Does(Ask::Tick, Told::Sets(x, Some(Value::Number(n))))
}

/// A field of y comes into x, and is left null.
pub fn take(y: &Given, x: usize, f: usize) -> Asked
    ensures { (u : UnitCode) (names : Names) (l : heaps.Own) → taken l x f (given_by names y.now) ≡ asked_by u names l result }
{
    match y {
        Given::Value(y) => match y {
            Value::Reference(object, _) => Asked::Does(Ask::Take(*object, f), Told::Into(x)),
            Value::Null => halts(TrapKind::NullReference),
            _ => Asked::Sticks,
        },
        Given::Trap(kind) => halts(*kind),
        Given::Nothing => Asked::Sticks,
    }
}

/// A value comes into a field of y.
pub fn store(value: &Given, y: &Given, f: usize) -> Asked
    ensures { (u : UnitCode) (names : Names) (l : heaps.Own) → stored_by l f (given_by names value.now) (given_by names y.now) ≡ asked_by u names l result }
{
    match value {
        Given::Value(value) => store_value(value, y, f),
        Given::Trap(kind) => halts(*kind),
        Given::Nothing => Asked::Sticks,
    }
}

fn store_value(value: &Value, y: &Given, f: usize) -> Asked
    ensures { (u : UnitCode) (names : Names) (l : heaps.Own) → stored_by l f (given_by names (Given.Value value.now)) (given_by names y.now) ≡ asked_by u names l result }
{
    match y {
        Given::Value(y) => match y {
            Value::Reference(object, _) => Asked::Does(Ask::Store(*object, f, *value), Told::Goes),
            Value::Null => halts(TrapKind::NullReference),
            _ => Asked::Sticks,
        },
        Given::Trap(kind) => halts(*kind),
        Given::Nothing => Asked::Sticks,
    }
}

/// A number is printed.
pub fn print(e: &Given) -> Asked
    ensures { (u : UnitCode) (names : Names) (l : heaps.Own) → printed_by l (given_by names e.now) ≡ asked_by u names l result }
{
    match e {
        Given::Value(e) => match e {
            Value::Number(n) => Asked::Does(Ask::Tick, Told::Prints(*n)),
            _ => Asked::Sticks,
        },
        Given::Trap(kind) => halts(*kind),
        Given::Nothing => Asked::Sticks,
    }
}

/// The element of y at an index comes into x.
pub fn load_item(i: &Given, y: &Given, x: usize) -> Asked
    ensures { (u : UnitCode) (names : Names) (l : heaps.Own) → loaded_item l x (given_by names i.now) (given_by names y.now) ≡ asked_by u names l result }
{
    match i {
        Given::Value(i) => match i {
            Value::Number(i) => load_at(i, y, x),
            _ => Asked::Sticks,
        },
        Given::Trap(kind) => halts(*kind),
        Given::Nothing => Asked::Sticks,
    }
}

fn load_at(i: &i64, y: &Given, x: usize) -> Asked
    ensures { (u : UnitCode) (names : Names) (l : heaps.Own) → loaded_item l x (given_by names (Given.Value (Value.Number i.now))) (given_by names y.now) ≡ asked_by u names l result }
{
    match y {
        Given::Value(y) => match y {
            Value::Reference(object, length) => load_element(i, *object, *length, x),
            Value::Null => halts(TrapKind::NullReference),
            _ => Asked::Sticks,
        },
        Given::Trap(kind) => halts(*kind),
        Given::Nothing => Asked::Sticks,
    }
}

fn load_element(i: &i64, object: usize, length: u32, x: usize) -> Asked
    ensures { (u : UnitCode) (names : Names) (l : heaps.Own) → loaded_item l x (given_by names (Given.Value (Value.Number i.now))) (given_by names (Given.Value (Value.Reference object length))) ≡ asked_by u names l result }
{
    match index(i, length) {
        Some(f) => Asked::Does(Ask::Load(object, f), Told::Into(x)),
        None => halts(TrapKind::IndexOutOfRange),
    }
}

/// A number comes into the element of y at an index.
pub fn store_item(i: &Given, e: &Given, y: &Given) -> Asked
    ensures { (u : UnitCode) (names : Names) (l : heaps.Own) → stored_item l (given_by names i.now) (given_by names e.now) (given_by names y.now) ≡ asked_by u names l result }
{
    match i {
        Given::Value(i) => match i {
            Value::Number(i) => store_at(i, e, y),
            _ => Asked::Sticks,
        },
        Given::Trap(kind) => halts(*kind),
        Given::Nothing => Asked::Sticks,
    }
}

fn store_at(i: &i64, e: &Given, y: &Given) -> Asked
    ensures { (u : UnitCode) (names : Names) (l : heaps.Own) → stored_item l (given_by names (Given.Value (Value.Number i.now))) (given_by names e.now) (given_by names y.now) ≡ asked_by u names l result }
{
    match e {
        Given::Value(e) => match e {
            Value::Number(n) => store_number(i, n, y),
            _ => Asked::Sticks,
        },
        Given::Trap(kind) => halts(*kind),
        Given::Nothing => Asked::Sticks,
    }
}

fn store_number(i: &i64, n: &i64, y: &Given) -> Asked
    ensures { (u : UnitCode) (names : Names) (l : heaps.Own) → stored_item l (given_by names (Given.Value (Value.Number i.now))) (given_by names (Given.Value (Value.Number n.now))) (given_by names y.now) ≡ asked_by u names l result }
{
    match y {
        Given::Value(y) => match y {
            Value::Reference(object, length) => store_element(i, n, *object, *length),
            Value::Null => halts(TrapKind::NullReference),
            _ => Asked::Sticks,
        },
        Given::Trap(kind) => halts(*kind),
        Given::Nothing => Asked::Sticks,
    }
}

fn store_element(i: &i64, n: &i64, object: usize, length: u32) -> Asked
    ensures { (u : UnitCode) (names : Names) (l : heaps.Own) → stored_item l (given_by names (Given.Value (Value.Number i.now))) (given_by names (Given.Value (Value.Number n.now))) (given_by names (Given.Value (Value.Reference object length))) ≡ asked_by u names l result }
{
    match index(i, length) {
        Some(f) => Asked::Does(Ask::Store(object, f, Value::Number(*n)), Told::Goes),
        None => halts(TrapKind::IndexOutOfRange),
    }
}

/// The place of an index within a length.
fn index(i: &i64, length: u32) -> Option<usize>
    ensures { result ≡ index_in i.now length }
{
    match usize::try_from(*i) {
        Ok(place) => if place < length as usize {
            Some(place)
        } else {
            None
        },
        Err(_) => None,
    }
}

/// A new array comes into x.
pub fn new_array(n: &Given, x: usize) -> Asked
    ensures { (u : UnitCode) (names : Names) (l : heaps.Own) → new_array l x (given_by names n.now) ≡ asked_by u names l result }
{
    match n {
        Given::Value(n) => match n {
            Value::Number(n) => array_of(n, x),
            _ => Asked::Sticks,
        },
        Given::Trap(kind) => halts(*kind),
        Given::Nothing => Asked::Sticks,
    }
}

fn array_of(n: &i64, x: usize) -> Asked
    ensures { (u : UnitCode) (names : Names) (l : heaps.Own) → new_array l x (given_by names (Given.Value (Value.Number n.now))) ≡ asked_by u names l result }
{
    match length_of(n) {
        Some(length) => Asked::Does(Ask::Array(length), Told::Made(x)),
        None => halts(TrapKind::Overflow),
    }
}

/// The length of a new array.
fn length_of(n: &i64) -> Option<usize>
    ensures { result ≡ length_in n.now }
{
    match usize::try_from(*n) {
        Ok(length) => Some(length),
        Err(_) => None,
    }
}

/// A new object of a class comes into x, where the class is there and has so many fields.
pub fn new_object(class: usize, fields: Option<usize>, x: usize) -> Asked
    ensures { (u : UnitCode) (names : Names) (l : heaps.Own) → fields ≡ count_of (slice_get u.classes class) → made_of l x class fields ≡ asked_by u names l result }
{
    match fields {
        Some(_) => Asked::Does(Ask::Object(class), Told::Made(x)),
        None => Asked::Sticks,
    }
}
