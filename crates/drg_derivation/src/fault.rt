//! Why bytes aren't read as a derivation.

ghost use Rattle.std.specs.Prelude.{◌≡◌};
ghost use Rattle.drg_derivation.specs.declared.fault.DerivationFault.TheVariants.{Memory};

use std::alloc::AllocError;

/// Why bytes aren't read as a derivation.
#[derive(Clone, Copy, Debug, PartialEq, Eq)]
pub enum DerivationFault {
    /// The line of this number, counted from 1, is the first that isn't one of its place, or the
    /// bytes end in it.
    BadText { line: u64 },
    /// There isn't enough memory.
    Memory,
}

impl From<AllocError> for DerivationFault {
    ghost from_gives = { λ _ fault. fault ≡ Memory };

    fn from(_error: AllocError) -> DerivationFault {
        DerivationFault::Memory
    }
}
