//! The laws of triple intersection numbers.
ghost use Rattle.drg_triple_numbers.specs.Places.{UnknownsHavePlaces, PlacesHaveUnknowns};
ghost use Rattle.drg_triple_numbers.specs.Laws.{NumbersStandAtPlaces, TriplesExist, NumbersAreSolution, NoSolutionNoGraph};

/// Each unknown has one place, below d³, and each such place is that of one unknown.
pub fn place_law()
    ensures unknowns { UnknownsHavePlaces }
    ensures places { PlacesHaveUnknowns }
{}

/// Three vertices of a type exist where its intersection number `p^W_VU` isn't 0.
pub fn exist_law()
    ensures { TriplesExist }
{}

/// The triple intersection numbers of three vertices stand at the places of the unknowns, and are a
/// solution of the counting equations of their type.
pub fn system_law()
    ensures places { NumbersStandAtPlaces }
    ensures solution { NumbersAreSolution }
{}

/// An array with a type whose `p^W_VU` isn't 0 and whose counting equations have no solution has no
/// graph.
pub fn no_solution_law()
    ensures { NoSolutionNoGraph }
{}
