ghost use Rattle.std.specs.Prelude.{◌≡◌, ℕ, List, Some, IfOk};
ghost use Rattle.drg_program.specs.Input.{AreBytesOf, HasCauses};
ghost use Rattle.drg_program.specs.Replay.{Concludes, Tells};
ghost use Rattle.drg_program.specs.Run.{Ends, Finds};
ghost use Rattle.drg_words.specs.declared.command.Command.TheVariants.{Replay};

use crate::Status;
use crate::answer_text::{write_accepted, write_open, write_rejected, write_wide};
use crate::input::read_input;
use crate::output::{EarlyRefusal, Output};
use drg_array::{Claim, Class};
use drg_derivation::{Derivation, DerivationFault, read, refusal_law};
use drg_outside::Inputs;
use drg_replay::{ReplayFault, replay};
use drg_words::FileName;
use std::alloc::{AllocError, Global};

/// Answers the derivation at the front of the file.
pub fn replay_file<I: Inputs>(
    alloc: Global,
    inputs: &mut I,
    file: &FileName<'_>,
) -> Result<Output, EarlyRefusal>
    ensures output { (bytes : List ℕ) × AreBytesOf (I.files inputs.old) file.now bytes
        × Ends (Replay file.now) bytes result }
    ensures causes { HasCauses (Some file.now) (I.files inputs.old)
        (I.open_faults inputs.old) (I.open_faults inputs.new)
        (I.read_faults inputs.old) (I.read_faults inputs.new) result }
    ensures same_files { I.files inputs.new ≡ I.files inputs.old }
{
    let bytes = read_input(alloc, inputs, file.as_str())?;
    replay_text(alloc, &bytes)
}

/// Answers the derivation at the front of these bytes.
fn replay_text(alloc: Global, bytes: &[u8]) -> Result<Output, EarlyRefusal>
    ensures { (file : List ℕ) → Finds (Replay file) bytes.now result }
{
    refusal_law();
    let (derivation, _) = match read(alloc, bytes) {
        Ok(found) => found,
        Err(DerivationFault::BadText { line }) => return Err(EarlyRefusal::BadInput {
            line,
            at: 0,
        }),
        Err(DerivationFault::Memory) => return Err(EarlyRefusal::Memory),
    };
    let output = conclude(alloc, &derivation)?;
    Ok(output)
}

/// The status and the line of the derivation's answer.
fn conclude(alloc: Global, derivation: &Derivation) -> Result<Output, AllocError>
    ensures { IfOk result (λ output. Concludes derivation.now output.status output.text.items) }
{
    let answer = replay(alloc, derivation);
    let output = tell(alloc, derivation.claim, answer)?;
    Ok(output)
}

/// The status and the line of an answer on this claim.
fn tell(
    alloc: Global,
    claim: Claim,
    answer: Result<Class, ReplayFault>,
) -> Result<Output, AllocError>
    ensures { IfOk result (λ output. Tells claim answer output.status output.text.items) }
{
    let mut text = Vec::new(alloc);
    let status = match answer {
        Ok(class) => {
            write_accepted(claim, class, &mut text)?;
            Status::Accepted
        }
        Err(ReplayFault::NotMet { line }) => {
            write_rejected(line, &mut text)?;
            Status::Rejected
        }
        Err(ReplayFault::Open { line }) => {
            write_open(line, &mut text)?;
            Status::Rejected
        }
        Err(ReplayFault::Wide { line }) => {
            write_wide(line, &mut text)?;
            Status::Undecided
        }
        Err(ReplayFault::Memory) => return Err(AllocError),
    };
    Ok(Output { status, text })
}
