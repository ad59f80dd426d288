//! Steps are added behind those that are there.

ghost use Rattle.std.specs.Prelude.{◌≡◌, ◌<◌, [], ◌∷◌, ◌++◌, length, slice_set, IfOk};

use crate::numbers::number;
use perm_tree::ast::Span;
use perm_tree::bodies::{Action, Bodies, Sides, Step};
use perm_tree::errors::NoMemory;
use perm_tree::var_set::VarSet;

/// A part of a method that has been emitted: the place of its first step, and the variables that it assigns or consumes.
#[derive(Clone, Copy)]
pub struct Fragment {
    pub first: u32,
    pub written: VarSet,
}

/// A statement that has been emitted, with the place of the step that says what it does.
#[derive(Clone, Copy)]
pub struct Emitted {
    pub fragment: Fragment,
    pub step: u32,
}

/// Adds a step, and answers its place.
pub fn emit(bodies: &mut Bodies, span: Span, next: u32, action: Action) -> Result<u32, NoMemory>
    ensures place { IfOk result (λ at. at ≡ length bodies.old.steps) }
    ensures bodies { IfOk result (λ _. bodies.new ≡ record bodies.old { steps = bodies.old.steps ++ record { span = span; next = next; action = action } ∷ [] }) }
{
    let at = number(bodies.steps.len())?;
    bodies.steps.push(Step { span, next, action })?;
    Ok(at)
}

/// Puts a step in the place that was taken for it.
pub fn settle(bodies: &mut Bodies, at: u32, span: Span, next: u32, action: Action)
    requires { at < length bodies.old.steps }
    ensures { bodies.new ≡ record bodies.old { steps = slice_set bodies.old.steps at (record { span = span; next = next; action = action }) } }
{
    bodies.steps.set(at as usize, Step { span, next, action });
}

/// Names the step of the statement at a place.
pub fn name_step(bodies: &mut Bodies, at: usize, step: u32)
    requires { at < length bodies.old.places }
    ensures { bodies.new ≡ record bodies.old { places = slice_set bodies.old.places at step } }
{
    bodies.places.set(at, step);
}

/// Adds what the sides of a par write, and answers its place.
pub fn add_sides(bodies: &mut Bodies, sides: Sides) -> Result<u32, NoMemory>
    ensures place { IfOk result (λ at. at ≡ length bodies.old.sides) }
    ensures bodies { IfOk result (λ _. bodies.new ≡ record bodies.old { sides = bodies.old.sides ++ sides ∷ [] }) }
{
    let at = number(bodies.sides.len())?;
    bodies.sides.push(sides)?;
    Ok(at)
}
