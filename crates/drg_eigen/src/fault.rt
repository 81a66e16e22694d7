//! Why there is no answer.

ghost use Rattle.std.specs.Prelude.{◌≡◌};
ghost use Rattle.drg_eigen.specs.declared.fault.EigenFault.TheVariants.{Memory};

use drg_array::Node;
use std::alloc::{AllocError, AllocFailed};

/// Why there is no characteristic polynomial of an array, or no split of a polynomial.
#[derive(Clone, Copy, Debug, PartialEq, Eq)]
pub enum EigenFault {
    /// The first quantity with a number on the way above 2^127 - 1 in magnitude: an F_j, or a
    /// division.
    Wide { node: Node },
    /// Want of memory.
    Memory,
}

impl From<AllocError> for EigenFault {
    ghost from_gives = { λ _ fault. fault ≡ Memory };

    fn from(_error: AllocError) -> EigenFault {
        EigenFault::Memory
    }
}

impl<T: Drop> From<AllocFailed<T>> for EigenFault {
    ghost from_gives = { λ _ fault. fault ≡ Memory };

    fn from(_failed: AllocFailed<T>) -> EigenFault {
        EigenFault::Memory
    }
}
