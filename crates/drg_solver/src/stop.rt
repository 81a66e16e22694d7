//! Why a proposal isn't made.
use drg_whole::Wide;
use std::alloc::{AllocError, AllocFailed};

/// Why a proposal isn't made.
#[derive(Clone, Copy, Debug)]
pub enum Stop {
    /// A number is out of range.
    Wide,
    /// Memory ran out.
    Memory,
}

impl From<Wide> for Stop {
    fn from(_wide: Wide) -> Stop {
        Stop::Wide
    }
}

impl From<AllocError> for Stop {
    fn from(_error: AllocError) -> Stop {
        Stop::Memory
    }
}

impl<T: Drop> From<AllocFailed<T>> for Stop {
    fn from(_failed: AllocFailed<T>) -> Stop {
        Stop::Memory
    }
}
