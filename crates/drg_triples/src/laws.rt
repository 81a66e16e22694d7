//! The laws of counting systems.

ghost use Rattle.drg_triples.specs.Laws.{EquationsAreAll, FitsMeansFitsOver, LiveTypesOccur, NoFaultWhereAllFit, NoSolutionNoGraph, OneFault, SystemHasTheSolutions, TriplesSolveSystems};

/// The solutions of a counting system are those of the counting equations within the high bounds, and
/// it has one equation for each vertex and each two distances from 1 to d.
pub fn solution_law()
    ensures solutions { SystemHasTheSolutions }
    ensures equations { EquationsAreAll }
{}

/// An equation fits exactly where it fits over the room. A counting system has one fault at most, apart
/// from want of memory, and none where all its equations fit.
pub fn fault_law()
    ensures fits { FitsMeansFitsOver }
    ensures one { OneFault }
    ensures none { NoFaultWhereAllFit }
{}

/// In a graph of an array three vertices of each live type exist, and their triple intersection numbers
/// solve the counting system of the type. An array with a live type whose counting system has no
/// solution has no graph.
pub fn graph_law()
    ensures exist { LiveTypesOccur }
    ensures solve { TriplesSolveSystems }
    ensures none { NoSolutionNoGraph }
{}
