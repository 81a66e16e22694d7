ghost use Rattle.std.specs.Prelude.{◌<◌, ℕ, List, Option, length, IfOk};
ghost use Rattle.std.specs.Io.{WritesAtMost};
ghost use Rattle.std.specs.Io.KnownBytes.{WriteAppends};
ghost use Rattle.drg_outside.specs.Causes.{HasCause};

use crate::Failed;

/// Where bytes go.
///
/// The bytes are `None` where an implementation doesn't tell them; clauses on them then say
/// nothing.
pub trait Sink {
    /// The bytes written so far.
    ghost bytes: { Self → Option (List ℕ) };
    /// How many calls of `write` failed.
    ghost faults: { Self → ℕ };

    /// Appends the first bytes of `piece` and says how many: at least one where `piece` isn't
    /// empty.
    fn write(&mut self, piece: &[u8]) -> Result<usize, Failed>
        ensures bound { WritesAtMost result piece.now }
        ensures progress { 0 < length piece.now → IfOk result (λ n. 0 < n) }
        ensures appended { WriteAppends (bytes self.old) (bytes self.new) result piece.now }
        ensures cause { HasCause (faults self.old) (faults self.new) result };
}
