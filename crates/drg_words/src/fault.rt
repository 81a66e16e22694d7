//! Why words aren't read as a command.

ghost use Rattle.std.specs.Prelude.{◌≡◌};
ghost use Rattle.drg_words.specs.declared.fault.WordsFault.TheVariants.{Memory};

use std::alloc::AllocError;

/// Why words aren't read as a command.
#[derive(Clone, Copy, Debug, PartialEq, Eq)]
pub enum WordsFault {
    /// The words are no command.
    Usage,
    /// There isn't enough memory.
    Memory,
}

impl From<AllocError> for WordsFault {
    ghost from_gives = { λ _ fault. fault ≡ Memory };

    fn from(_error: AllocError) -> WordsFault {
        WordsFault::Memory
    }
}
