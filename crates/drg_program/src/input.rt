ghost use Rattle.std.specs.Prelude.{◌≡◌, ℕ, List, Some};
ghost use Rattle.drg_program.specs.Input.{AreBytesOf, HasCauses, ReadsAll};

use crate::INPUT_LIMIT;
use crate::output::EarlyRefusal;
use drg_outside::{Inputs, ReadAllFault, read_all};
use std::alloc::Global;

/// All bytes of the file of this name.
pub fn read_input<I: Inputs>(
    alloc: Global,
    inputs: &mut I,
    name: &str,
) -> Result<Vec<u8>, EarlyRefusal>
    ensures bytes { (bytes : List ℕ) × AreBytesOf (I.files inputs.old) name.now bytes
        × ReadsAll bytes result }
    ensures causes { HasCauses (Some name.now) (I.files inputs.old)
        (I.open_faults inputs.old) (I.open_faults inputs.new)
        (I.read_faults inputs.old) (I.read_faults inputs.new) result }
    ensures same_files { I.files inputs.new ≡ I.files inputs.old }
{
    if inputs.open(name).is_err() {
        return Err(EarlyRefusal::OpenFault);
    }
    match read_all(alloc, inputs, INPUT_LIMIT) {
        Ok(bytes) => Ok(bytes),
        Err(ReadAllFault::Read) => Err(EarlyRefusal::ReadFault),
        Err(ReadAllFault::TooLong) => Err(EarlyRefusal::TooLong),
        Err(ReadAllFault::Memory) => Err(EarlyRefusal::Memory),
    }
}
