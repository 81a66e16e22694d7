//! Why the Krein parameters of a frame are not made.

ghost use Rattle.std.specs.Prelude.{◌≡◌};
ghost use Rattle.drg_krein.specs.declared.fault.KreinFault.TheVariants.{Memory};

use drg_array::Node;
use std::alloc::{AllocError, AllocFailed};

/// Why the Krein parameters of a frame are not made.
#[derive(Clone, Copy, Debug, PartialEq, Eq)]
pub enum KreinFault {
    /// The first quantity with a work number above 2^127 - 1 in magnitude.
    Wide { node: Node },
    /// Want of memory.
    Memory,
}

impl From<AllocError> for KreinFault {
    ghost from_gives = { λ _ fault. fault ≡ Memory };

    fn from(_error: AllocError) -> KreinFault {
        KreinFault::Memory
    }
}

impl<T: Drop> From<AllocFailed<T>> for KreinFault {
    ghost from_gives = { λ _ fault. fault ≡ Memory };

    fn from(_failed: AllocFailed<T>) -> KreinFault {
        KreinFault::Memory
    }
}
