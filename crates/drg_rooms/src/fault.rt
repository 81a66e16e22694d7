//! Why a line wasn't taken.
ghost use Rattle.std.specs.Prelude.{◌≡◌};
ghost use Rattle.drg_rooms.specs.declared.refusal.Refusal.TheVariants.{Wide as the_wide};
ghost use Rattle.drg_rooms.specs.declared.fault.Fault.TheVariants.{Memory, Refused};

use crate::refusal::Refusal;
use drg_whole::Wide;
use std::alloc::AllocError;

/// Why a line wasn't taken.
#[derive(Clone, Copy, Debug, PartialEq, Eq)]
pub enum RoomFault {
    /// A condition of the line fails.
    NotMet,
    /// A work number of the line is out of range.
    Wide,
    /// Memory ran out.
    Memory,
}

/// Why a line wasn't taken, with its refusal apart.
#[derive(Clone, Copy, Debug, PartialEq, Eq)]
pub enum Fault {
    Refused(Refusal),
    Memory,
}

impl From<Refusal> for Fault {
    ghost from_gives = { λ refusal fault. fault ≡ Refused refusal };

    fn from(refusal: Refusal) -> Fault {
        Fault::Refused(refusal)
    }
}

impl From<Wide> for Fault {
    ghost from_gives = { λ _ fault. fault ≡ Refused the_wide };

    fn from(_wide: Wide) -> Fault {
        Fault::Refused(Refusal::Wide)
    }
}

impl From<AllocError> for Fault {
    ghost from_gives = { λ _ fault. fault ≡ Memory };

    fn from(_error: AllocError) -> Fault {
        Fault::Memory
    }
}
