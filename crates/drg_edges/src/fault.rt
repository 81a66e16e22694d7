//! Why a text is no graph.

ghost use Rattle.std.specs.Prelude.{◌≡◌};
ghost use Rattle.drg_edges.specs.declared.fault.GraphFault.TheVariants.{Memory};

use std::alloc::AllocFailed;

/// Why a text is no graph.
#[derive(Clone, Copy, Debug, PartialEq, Eq)]
pub enum GraphFault {
    /// The first line that isn't as it should be, from 1.
    Bad { line: u64 },
    /// Want of memory.
    Memory,
}

impl<T: Drop> From<AllocFailed<T>> for GraphFault {
    ghost from_gives = { λ _ fault. fault ≡ Memory };

    fn from(_failed: AllocFailed<T>) -> GraphFault {
        GraphFault::Memory
    }
}
