//! Why an array has no frame here.

ghost use Rattle.std.specs.Prelude.{◌≡◌};
ghost use Rattle.drg_matrices.specs.declared.fault.FrameFault.TheVariants.{Memory};

use drg_array::Node;
use std::alloc::{AllocError, AllocFailed};

/// Why an array has no frame here.
#[derive(Clone, Copy, Debug, PartialEq, Eq)]
pub enum FrameFault {
    /// The first quantity with a work number above 2^127 - 1 in magnitude.
    Wide { node: Node },
    /// Want of memory.
    Memory,
}

impl From<AllocError> for FrameFault {
    ghost from_gives = { λ _ fault. fault ≡ Memory };

    fn from(_error: AllocError) -> FrameFault {
        FrameFault::Memory
    }
}

impl<T: Drop> From<AllocFailed<T>> for FrameFault {
    ghost from_gives = { λ _ fault. fault ≡ Memory };

    fn from(_failed: AllocFailed<T>) -> FrameFault {
        FrameFault::Memory
    }
}
