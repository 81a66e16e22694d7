//! The Krein parameters of a frame, exactly, with their signs.
//!
//! `krein_of` makes the parameters q^h_ij over any exact field as weighted sums over the products of
//! three cosines, once for each i ≤ j, or names the first quantity with a work number above
//! `2^127 - 1` in magnitude. They meet the equations of Krein parameters, and a frame has no other
//! family of them. `vanishing` lists exactly those that are 0.
//!
//! `specs/Formulas.antt` says by which formula they are made, `specs/Fits.antt` when the formulas fit,
//! and `specs/Faults.antt` which is the first that doesn't. `specs/Vanishing.antt` says what the list of
//! `vanishing` has. Krein parameters are defined in `drg_matrix`, and frames in `drg_matrices`.
#![tactic(auto)]

mod checks;
mod copies;
mod fault;
mod krein;
mod laws;
mod numbers;
#[cfg(test)]
mod tests;
mod vanishing;

pub use fault::KreinFault;
pub use krein::{Krein, krein_of};
pub use laws::{fault_law, formula_law};
