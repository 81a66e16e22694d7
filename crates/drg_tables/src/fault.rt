//! Why a table isn't read.

ghost use Rattle.std.specs.Prelude.{◌≡◌};
ghost use Rattle.drg_tables.specs.declared.fault.TableReadFault.TheVariants.{Memory};

use std::alloc::{AllocError, AllocFailed};

/// Why a table isn't read.
#[derive(Clone, Copy, Debug, PartialEq, Eq)]
pub enum TableReadFault {
    /// The first record that is no row.
    Bad {
        /// The number of the record, from 1. Empty lines are no records.
        row: u64,
        /// 0 where the record hasn't two fields, and else the place of the first fault in its second
        /// field, counted in bytes from 1.
        at: u64,
    },
    /// Want of memory.
    Memory,
}

impl From<AllocError> for TableReadFault {
    ghost from_gives = { λ _ fault. fault ≡ Memory };

    fn from(_error: AllocError) -> TableReadFault {
        TableReadFault::Memory
    }
}

impl<T: Drop> From<AllocFailed<T>> for TableReadFault {
    ghost from_gives = { λ _ fault. fault ≡ Memory };

    fn from(_failed: AllocFailed<T>) -> TableReadFault {
        TableReadFault::Memory
    }
}
