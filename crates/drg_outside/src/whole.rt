ghost use Rattle.std.specs.Prelude.{◌≡◌, ◌<◌, ◌≤◌, ◌+◌, vec_len, OnOk, OnErr, IfOk, IsErrOf};
ghost use Rattle.std.specs.Io.KnownBytes.{Appends};
ghost use Rattle.drg_outside.specs.Causes.{HasCause, Rose};
ghost use Rattle.drg_outside.specs.Whole.{AppendsPart, TakesAll, TakesCount, TakesAtMost, IsTooLongExactly};

use crate::{Failed, Inputs, Sink};
use std::alloc::{AllocError, Global};

/// Why [`read_all`] gave up.
#[derive(Clone, Copy, Debug, PartialEq, Eq)]
pub enum ReadAllFault {
    /// A read failed.
    Read,
    /// More bytes were left than the limit allows.
    TooLong,
    /// There was no memory for the bytes.
    Memory,
}

/// How many bytes one read asks for at most.
const PIECE: usize = 65_536;

/// Reads all bytes that are left, where they are at most `limit`.
///
/// The room for the bytes grows by doubling, and one buffer of 64 KiB serves all reads.
pub fn read_all<I: Inputs>(
    alloc: Global,
    inputs: &mut I,
    limit: usize,
) -> Result<Vec<u8>, ReadAllFault>
    requires { limit < usize.MAX }
    ensures all { IfOk result (λ v. TakesAll (I.left inputs.old) (I.left inputs.new) v.items) }
    ensures short { IfOk result (λ v. vec_len v ≤ limit) }

    // The cause of each refusal, and what it has taken. Memory is want of memory alone.
    ensures read { IsErrOf result ReadAllFault.Read
        → Rose (I.read_faults inputs.old) (I.read_faults inputs.new) }
    ensures read_takes { IsErrOf result ReadAllFault.Read
        → TakesAtMost (I.left inputs.old) (I.left inputs.new) limit }
    ensures memory_takes { IsErrOf result ReadAllFault.Memory
        → TakesAtMost (I.left inputs.old) (I.left inputs.new) limit }
    ensures too_long_takes { IsErrOf result ReadAllFault.TooLong
        → TakesCount (I.left inputs.old) (I.left inputs.new) (limit + 1) }

    ensures too_long { IsTooLongExactly (I.left inputs.old) limit result }

    ensures later { I.read_faults inputs.old ≤ I.read_faults inputs.new }
    ensures same_files { I.files inputs.new ≡ I.files inputs.old }
    ensures other_count { I.open_faults inputs.new ≡ I.open_faults inputs.old }
{
    let Ok(mut buffer) = zeros(alloc, PIECE) else {
        return Err(ReadAllFault::Memory);
    };
    let mut bytes = Vec::new(alloc);
    'pieces: loop {
        let room = limit - bytes.len();
        let wanted = PIECE.min(room + 1);
        let piece = &mut buffer[..wanted];
        let Ok(count) = inputs.read(piece) else {
            return Err(ReadAllFault::Read);
        };
        if count == 0 {
            return Ok(bytes);
        }
        if count > room {
            return Err(ReadAllFault::TooLong);
        }
        let Ok(()) = bytes.extend_from_slice(&piece[..count]) else {
            return Err(ReadAllFault::Memory);
        };
    }
}

fn zeros(alloc: Global, count: usize) -> Result<Vec<u8>, AllocError>
    ensures { IfOk result (λ v. vec_len v ≡ count) }
{
    vec![in alloc; 0; count]
}

/// Writes all of `piece`, in as many writes as it takes. It takes no memory.
pub fn write_all<K: Sink>(sink: &mut K, piece: &[u8]) -> Result<(), Failed>
    ensures whole { OnOk result (Appends (K.bytes sink.old) (K.bytes sink.new) piece.now) }
    ensures part { OnErr result (AppendsPart (K.bytes sink.old) (K.bytes sink.new) piece.now) }
    ensures cause { HasCause (K.faults sink.old) (K.faults sink.new) result }
{
    let mut done = 0;
    'writes: while done < piece.len() {
        done += sink.write(&piece[done..])?;
    }
    Ok(())
}
