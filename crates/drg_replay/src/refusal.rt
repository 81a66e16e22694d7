//! Why a line isn't taken.
ghost use Rattle.std.specs.Prelude.{◌≡◌, ◌∷◌, []};
ghost use Rattle.std.specs.Ordering.{int_eq};
ghost use Rattle.drg_replay.specs.Steps.{Holds, first_failure, not_built as the_not_built};
ghost use Rattle.drg_replay.specs.declared.refusal.Refusal.TheVariants.{Wide as the_wide};
ghost use Rattle.drg_replay.specs.declared.refusal.Fault.TheVariants.{Memory, Refused};
ghost use Rattle.drg_replay.specs.Rooms.{fault_of_room};

use drg_rooms::RoomFault;
use drg_whole::{Whole, Wide};
use std::alloc::AllocError;

/// Why a line isn't met.
#[derive(Clone, Copy, Debug, PartialEq, Eq)]
pub enum Refusal {
    /// A condition fails.
    NotMet,
    /// A work number is out of range.
    Wide,
}

/// Why a line wasn't taken.
#[derive(Clone, Copy, Debug, PartialEq, Eq)]
pub enum Fault {
    Refused(Refusal),
    Memory,
}

/// Ok where the condition holds.
pub fn met_where(condition: bool) -> Result<(), Refusal>
    ensures { result ≡ first_failure (Holds condition ∷ []) }
{
    if condition {
        Ok(())
    } else {
        Err(Refusal::NotMet)
    }
}

/// Ok where both numbers are the same.
pub fn met_where_same(left: Whole, right: Whole) -> Result<(), Refusal>
    ensures { result ≡ first_failure (Holds (int_eq left.value right.value) ∷ []) }
{
    met_where(left.value == right.value)
}

/// The answer where no rule is built yet.
pub fn not_built() -> Result<(), Refusal>
    ensures { result ≡ first_failure the_not_built }
{
    Err(Refusal::NotMet)
}

impl From<Wide> for Refusal {
    ghost from_gives = { λ _ refusal. refusal ≡ the_wide };

    fn from(_wide: Wide) -> Refusal {
        Refusal::Wide
    }
}

impl From<Refusal> for Fault {
    ghost from_gives = { λ refusal fault. fault ≡ Refused refusal };

    fn from(refusal: Refusal) -> Fault {
        Fault::Refused(refusal)
    }
}

impl From<AllocError> for Fault {
    ghost from_gives = { λ _ fault. fault ≡ Memory };

    fn from(_error: AllocError) -> Fault {
        Fault::Memory
    }
}

impl From<RoomFault> for Fault {
    ghost from_gives = { λ room fault. fault ≡ fault_of_room room };

    fn from(fault: RoomFault) -> Fault {
        match fault {
            RoomFault::NotMet => Fault::Refused(Refusal::NotMet),
            RoomFault::Wide => Fault::Refused(Refusal::Wide),
            RoomFault::Memory => Fault::Memory,
        }
    }
}
