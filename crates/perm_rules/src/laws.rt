//! Laws of the typing rules. A law does nothing: its contract is the claim.

ghost use Rattle.perm_rules.specs.Laws.{GoesByEffect, LosesOrMakes, GoesFromMore, ChangesKnown, GoesUnrefused, AcceptedUnrefused, FlowGoes, PlainlyShared, RefusedByKnown, PlaceContext, ModeByWrites, PartsInOrder, UnitInOrder, RefusedAtFirst, RefusedByBody};

/// What goes is told by effects, and a larger live set stays larger; the effect of a block is told by the variables of its method alone.
pub fn effects()
    ensures by_effect { GoesByEffect }
    ensures clear { LosesOrMakes }
    ensures monotone { GoesFromMore }
    ensures known { ChangesKnown }
{}

/// What goes is what isn't refused.
pub fn refusals()
    ensures code { GoesUnrefused }
    ensures unit { AcceptedUnrefused }
    ensures flow { FlowGoes }
    ensures known { RefusedByKnown }
{}

/// Whether a par of a unit is refused as shared, and its mode, are told by what its blocks assign and consume alone.
pub fn pars()
    ensures shared { PlainlyShared }
    ensures mode { ModeByWrites }
{}

/// What is told of a statement by its place is what is told of it within its method.
pub fn places()
    ensures context { PlaceContext }
    ensures body { RefusedByBody }
{}

/// The parts of a unit stand in text order, so that the first refused one is the first in the text too.
pub fn order()
    ensures methods { PartsInOrder }
    ensures unit { UnitInOrder }
    ensures first { RefusedAtFirst }
{}
