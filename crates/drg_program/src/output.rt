ghost use Rattle.std.specs.Prelude.{◌≡◌};
ghost use Rattle.drg_program.specs.declared.output.EarlyRefusal.TheVariants.{Memory};

use crate::Status;
use std::alloc::AllocError;

/// What a command ends with: its status, and the text that it writes.
#[derive(Drop)]
pub struct Output {
    pub status: Status,
    pub text: Vec<u8>,
}

/// Why a command ended before its text stood.
#[derive(Clone, Copy, Debug, PartialEq, Eq)]
pub enum EarlyRefusal {
    /// The input isn't in the grammar. Line and place are counted from 1; place 0 is the whole line.
    BadInput { line: u64, at: u64 },
    /// The input has more than [`crate::INPUT_LIMIT`] bytes.
    TooLong,
    /// The file could not be opened.
    OpenFault,
    /// The file could not be read to its end.
    ReadFault,
    /// There was not enough memory.
    Memory,
}

impl From<AllocError> for EarlyRefusal {
    ghost from_gives = { λ _ refusal. refusal ≡ Memory };

    fn from(_error: AllocError) -> EarlyRefusal {
        EarlyRefusal::Memory
    }
}
