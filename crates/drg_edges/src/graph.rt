//! Graphs as they are read.

ghost use Rattle.std.specs.Prelude.{◌≡◌};
ghost use Rattle.drg_algebra.specs.Sums.{below};
ghost use Rattle.std.specs.List.{AllByRecursion};
ghost use Rattle.drg_edges.specs.Text.{IsCount, IsPair, graph_on};

use std::marker::Model;

/// A finite simple graph: its vertices are the numbers below a count, and its edges are pairs of
/// them, of which any may be told more than once and in any order.
#[derive(Drop)]
pub struct Graph {
    count: u16,
    pairs: Vec<(u16, u16)>,
}

impl Model for Graph {
    ghost use Rattle.std.specs.List.{AllByRecursion};
    ghost use Rattle.drg_graph.specs.Graph.{Graph as TheGraph};
    ghost use Rattle.drg_edges.specs.Text.{IsCount, IsPair, graph_on};

    ghost Value = { TheGraph };

    ghost view = { λ g. graph_on g.count g.pairs.items };

    ghost invariant = { λ g. IsCount g.count × AllByRecursion (IsPair g.count) g.pairs.items };
}

impl Graph {
    /// The number of vertices.
    pub fn count(&self) -> u16
        ensures vertices { self.now.vertices ≡ below result }
        ensures range { IsCount result }
        ensures pairs { AllByRecursion (IsPair result) self.now.pairs }
    {
        self.count
    }

    /// The pairs as they were read.
    pub fn pairs(&self) -> &[(u16, u16)]
        ensures { result.now ≡ self.now.pairs }
    {
        &self.pairs
    }

    pub(crate) fn of_pairs(count: u16, pairs: Vec<(u16, u16)>) -> Graph
        requires count { IsCount count }
        requires pairs { AllByRecursion (IsPair count) pairs.items }
        ensures { result ≡ graph_on count pairs.items }
    {
        Graph { count, pairs }
    }
}
