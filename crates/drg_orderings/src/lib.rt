//! Orderings of the indices 0 to d by which a table with three indices is polynomial.
//!
//! A P-polynomial ordering r_0 = 0, r_1, .., r_d of intersection numbers has p^(r_h)_(r_1 r_j) zero where
//! h and j are more than one apart, and not zero where they are one apart. In a graph with these numbers
//! the pairs at distance r_1 are then the edges of a distance-regular graph with the distances in this
//! order (Brouwer, Cohen and Neumaier 1989, section 2.7). The natural order 1, .., d is one of them for
//! the numbers of each array (`ordering_law`), and `p_orderings` gives exactly all of them. Q-polynomial
//! orderings are the same for the Krein parameters q^h_ij of a frame, and `q_orderings` gives exactly all
//! of these.
//!
//! The search takes any table of which it is known where it is zero. The first index of an ordering
//! forces the rest, so it makes at most one list for each first index, and then checks all of it.
//!
//! `specs/Orderings.antt` says what an ordering is, `specs/PPolynomial.antt` which ones are P-polynomial,
//! and `specs/QPolynomial.antt` which ones are Q-polynomial.
#![tactic(auto)]

mod laws;
mod ordering;
mod search;
mod table;

ghost use Rattle.std.specs.Prelude.{IfOk};
ghost use Rattle.drg_orderings.specs.Orderings.{AreOrderings};
ghost use Rattle.drg_orderings.specs.PPolynomial.{IsPPolynomialOrdering};
ghost use Rattle.drg_orderings.specs.QPolynomial.{IsQPolynomialOrdering};

use drg_fraction::Field;
use drg_intersection::Numbers;
use drg_krein::Krein;
pub use laws::ordering_law;
pub use ordering::{Orderings, PolynomialOrdering};
use std::alloc::{AllocError, Global};

#[cfg(test)]
mod tests;

/// All P-polynomial orderings of the intersection numbers, ascending by r_1. Want of memory is the one
/// error.
pub fn p_orderings(alloc: Global, numbers: &Numbers) -> Result<Orderings, AllocError>
    ensures { IfOk result (AreOrderings (IsPPolynomialOrdering numbers.now)) }
{
    search::orderings(alloc, numbers)
}

/// All Q-polynomial orderings of the Krein parameters, ascending by r_1. Want of memory is the one error.
pub fn q_orderings<F: Field>(alloc: Global, krein: &Krein<F>) -> Result<Orderings, AllocError>
    ensures { IfOk result (AreOrderings
        (IsQPolynomialOrdering F.value F.operations krein.now)) }
{
    search::orderings(alloc, krein)
}
