//! Why a system isn't made.

ghost use Rattle.std.specs.Prelude.{◌≡◌};
ghost use Rattle.drg_triples.specs.declared.fault.TripleFault.TheVariants.{Memory};

use drg_array::Node;
use std::alloc::{AllocError, AllocFailed};

/// Why a system isn't made.
#[derive(Clone, Copy, Debug, PartialEq, Eq)]
pub enum TripleFault {
    /// The first equation of the type that doesn't fit.
    Wide { node: Node },
    /// Want of memory.
    Memory,
}

impl From<AllocError> for TripleFault {
    ghost from_gives = { λ _ fault. fault ≡ Memory };

    fn from(_error: AllocError) -> TripleFault {
        TripleFault::Memory
    }
}

impl<T: Drop> From<AllocFailed<T>> for TripleFault {
    ghost from_gives = { λ _ fault. fault ≡ Memory };

    fn from(_failed: AllocFailed<T>) -> TripleFault {
        TripleFault::Memory
    }
}
