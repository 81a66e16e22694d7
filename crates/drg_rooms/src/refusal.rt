//! Why a line isn't met.
ghost use Rattle.std.specs.Prelude.{◌≡◌, ◌∷◌, []};
ghost use Rattle.drg_rooms.specs.Steps.{Holds, first_failure};
ghost use Rattle.drg_rooms.specs.declared.refusal.Refusal.TheVariants.{Wide as the_wide};

use drg_whole::Wide;

/// Why a line isn't met.
#[derive(Clone, Copy, Debug, PartialEq, Eq)]
pub enum Refusal {
    /// A condition fails.
    NotMet,
    /// A work number is out of range.
    Wide,
}

/// Ok where the condition holds.
pub fn met_where(condition: bool) -> Result<(), Refusal>
    ensures { result ≡ first_failure (Holds condition ∷ []) }
{
    if condition {
        Ok(())
    } else {
        Err(Refusal::NotMet)
    }
}

impl From<Wide> for Refusal {
    ghost from_gives = { λ _ refusal. refusal ≡ the_wide };

    fn from(_wide: Wide) -> Refusal {
        Refusal::Wide
    }
}
