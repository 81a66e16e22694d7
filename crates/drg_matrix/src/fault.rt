//! Why there is no product of two tables.

ghost use Rattle.std.specs.Prelude.{◌≡◌};
ghost use Rattle.drg_matrix.specs.declared.fault.TableFault.TheVariants.{Memory};

use std::alloc::{AllocError, AllocFailed};

/// Why there is no product of two tables.
#[derive(Clone, Copy, Debug, PartialEq, Eq)]
pub enum TableFault {
    /// The first cell, row by row, with a work number above 2^127 - 1 in magnitude, counted from 0.
    Wide { row: u8, col: u8 },
    /// Want of memory.
    Memory,
}

impl From<AllocError> for TableFault {
    ghost from_gives = { λ _ fault. fault ≡ Memory };

    fn from(_error: AllocError) -> TableFault {
        TableFault::Memory
    }
}

impl<T: Drop> From<AllocFailed<T>> for TableFault {
    ghost from_gives = { λ _ fault. fault ≡ Memory };

    fn from(_failed: AllocFailed<T>) -> TableFault {
        TableFault::Memory
    }
}
