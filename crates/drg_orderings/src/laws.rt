//! Laws of P-polynomial orderings, for callers that need them.

ghost use Rattle.drg_orderings.specs.Laws.{FirstForcesRest, NaturalOrderIsOne};

/// The natural order is an ordering of the numbers of each array, and two orderings of the same numbers
/// that begin with one index are the same.
pub fn ordering_law()
    ensures natural { NaturalOrderIsOne }
    ensures one { FirstForcesRest }
{}
