//! Orderings, and lists of them.

ghost use Rattle.std.specs.Prelude.{◌≡◌};

use arrayvec::ArrayVec;
use drg_array::MAX_DIAMETER;
use std::marker::Model;

/// An ordering of the indices 0 to d, seen as its list r_1, .., r_d.
#[derive(Drop, Debug)]
pub struct PolynomialOrdering {
    indices: ArrayVec<u8, MAX_DIAMETER>,
}

impl Model for PolynomialOrdering {
    ghost use Rattle.std.specs.Prelude.{List, ℕ};

    ghost Value = { List ℕ };

    ghost view = { λ o. o.indices.items };
}

impl PolynomialOrdering {
    /// The indices r_1, .., r_d.
    pub fn as_slice(&self) -> &[u8]
        ensures { result.now ≡ self.now }
    {
        &self.indices
    }

    pub(crate) fn of(indices: ArrayVec<u8, MAX_DIAMETER>) -> PolynomialOrdering
        ensures { result ≡ indices.items }
    {
        PolynomialOrdering { indices }
    }
}

/// Orderings, seen as their list.
#[derive(Drop, Debug)]
pub struct Orderings {
    orderings: Vec<PolynomialOrdering>,
}

impl Model for Orderings {
    ghost use Rattle.std.specs.Prelude.{List, ℕ};

    ghost Value = { List (List ℕ) };

    ghost view = { λ o. o.orderings.items };
}

impl Orderings {
    /// The orderings in their order.
    pub fn as_slice(&self) -> &[PolynomialOrdering]
        ensures { result.now ≡ self.now }
    {
        &self.orderings
    }

    pub(crate) fn of(orderings: Vec<PolynomialOrdering>) -> Orderings
        ensures { result ≡ orderings.items }
    {
        Orderings { orderings }
    }
}
