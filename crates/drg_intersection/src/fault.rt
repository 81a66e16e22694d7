//! Why an array has no table of numbers.

ghost use Rattle.std.specs.Prelude.{◌≡◌};
ghost use Rattle.drg_intersection.specs.declared.fault.NumbersFault.TheVariants.{Memory};

use drg_array::{Claim, Node};
use std::alloc::{AllocError, AllocFailed};

/// Why an array has no table of numbers.
#[derive(Clone, Copy, Debug, PartialEq, Eq)]
pub enum NumbersFault {
    /// The array fails size or intersect, first at this claim.
    Fall { claim: Claim },
    /// The first number that fails has a work number above 2^127 - 1 in magnitude.
    Wide { node: Node },
    /// Want of memory.
    Memory,
}

impl<T: Drop> From<AllocFailed<T>> for NumbersFault {
    ghost from_gives = { λ _ fault. fault ≡ Memory };

    fn from(_failed: AllocFailed<T>) -> NumbersFault {
        NumbersFault::Memory
    }
}

impl From<AllocError> for NumbersFault {
    ghost from_gives = { λ _ fault. fault ≡ Memory };

    fn from(_error: AllocError) -> NumbersFault {
        NumbersFault::Memory
    }
}
