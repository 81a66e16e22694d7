//! Numbers of a line that are indices.
ghost use Rattle.std.specs.Prelude.{◌≡◌, unsigned_abs, Ok, Err, if◌then◌else◌};
ghost use Rattle.drg_replay.specs.Indices.{is_index};
ghost use Rattle.drg_replay.specs.declared.refusal.Refusal.TheVariants.{NotMet};

use crate::refusal::Refusal;

/// The number as an index, from the least one to the limit.
pub fn index(least: usize, n: i128, limit: usize) -> Result<usize, Refusal>
    ensures { result ≡ (if is_index least n limit then Ok (unsigned_abs n) else Err NotMet) }
{
    if n < least as i128 || n > limit as i128 {
        return Err(Refusal::NotMet);
    }
    Ok(n as usize)
}
