//! The characteristic polynomial of an intersection array, its factors and its spectrum.
//!
//! `characteristic` gives the polynomial F_(d+1) of an array of diameter d, whose roots are the
//! eigenvalues, or names the first F_j with a number on the way above 2^127 - 1 in magnitude. A
//! `Poly` is a monic polynomial with whole coefficients. `split_of` takes its factors `x - r` and
//! `x² - sx + t` off and gives the spectrum, all eigenvalues over one root from the largest down,
//! or the certificate that no one quadratic field holds them. Or it names the first division on the
//! way that has a number above 2^127 - 1 in magnitude.
//!
//! `specs/Characteristic.antt` defines the polynomials F_j of an array, `specs/Fits.antt` when the
//! formula of an F_j fits, `specs/Factor.antt` the factors and the candidates among them,
//! `specs/Division.antt` their quotients and when a division fits, `specs/Candidates.antt` which
//! divisions the search asks for, and `specs/Spectrum.antt` and `specs/Split.antt` its answers. The
//! functions without code promise laws: the identity of Christoffel and Darboux
//! (`specs/RecurrenceLaws.antt`), that no factor divides a characteristic polynomial twice
//! (`specs/FactorLaws.antt`), and that there is one answer (`specs/SplitLaws.antt`).
#![tactic(auto)]

mod discriminant;
mod divisor;
mod factors;
mod fault;
mod laws;
mod poly;
mod products;
mod quotient;
mod recurrence;
mod search;
mod spectrum;
mod split;
mod values;

pub use factors::{Eigenvalues, Factors};
pub use fault::EigenFault;
pub use laws::{example_law, factor_law, fault_law, has_simple_factors, recurrence_law, split_law};
pub use poly::Poly;
pub use recurrence::characteristic;
pub use split::{OtherSpectrum, Spectrum, Split, split_of};

#[cfg(test)]
mod tests;
