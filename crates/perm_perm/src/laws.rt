//! Laws of the order, of adaptation and of types. A law does nothing: its contract is the claim.

ghost use Rattle.perm_perm.specs.Laws.{IsReflexive, IsTransitive, IsAntisymmetric, IsolatedIsLeast, ReadableIsGreatest, IsMonotone, IsAssociative, FitsByParts};

/// The order is a partial order with a least and a greatest permission.
pub fn order()
    ensures reflexive { IsReflexive }
    ensures transitive { IsTransitive }
    ensures antisymmetric { IsAntisymmetric }
    ensures least { IsolatedIsLeast }
    ensures greatest { ReadableIsGreatest }
{}

/// Adaptation is monotone in both arguments and associative, wherever both sides have a value.
pub fn adaptation()
    ensures monotone { IsMonotone }
    ensures associative { IsAssociative }
{}

/// Whether a value may come into a variable is told by two tests, of which each refusal of typing makes one.
pub fn fitting()
    ensures { FitsByParts }
{}
