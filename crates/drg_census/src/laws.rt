//! Laws of the census and of classical parameters, for callers that need them.

ghost use Rattle.drg_census.specs.ClassicalRows.{NoneIsMissed, OnePair};
ghost use Rattle.drg_census.specs.Laws.{AllFit, OneCensus};

/// The numbers of each array of a census fit in 128 bits, so that none is left out since it can't be
/// decided, and a census is one list.
pub fn census_law()
    ensures fit { AllFit }
    ensures one { OneCensus }
{}

/// An array has one pair of classical parameters at most to a base that is tried, and where it has them
/// its row stands, with them or as one that is too wide.
pub fn classical_law()
    ensures one { OnePair }
    ensures none_missed { NoneIsMissed }
{}
