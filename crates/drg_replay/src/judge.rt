//! A judge, who is fed with lines.
ghost use Rattle.std.specs.Prelude.{◌≡◌, ◌≢◌, ◌+◌, ◌<◌, ◌^◌, List, [], ◌∷◌, reverse, Ok, Err, IfOk, OnOk, OnErr};
ghost use Rattle.drg_array.specs.Entries.{Entries};
ghost use Rattle.drg_array.specs.declared.claim.Class.TheVariants.{Counting, Spectral};
ghost use Rattle.drg_graph.specs.Graph.{NoGraph};
ghost use Rattle.drg_replay.specs.Lines.{known_at_end};
ghost use Rattle.drg_replay.specs.Spectral.{SpectralHolds};
ghost use Rattle.drg_replay.specs.HasJudged.{HasJudged};
ghost use Rattle.drg_replay.specs.Answers.{answer_of, answer_after, answer_at, accepted_class};
ghost use Rattle.drg_replay.specs.declared.progress.Progress.TheVariants.{AllMet};
ghost use Rattle.drg_replay.specs.declared.answer.ReplayFault.TheVariants.{Memory};
ghost use Rattle.drg_array.specs.declared.claim.Claim.{Claim};
ghost use Rattle.drg_derivation.specs.declared.line.Line.{Line};

use crate::answer::ReplayFault;
use crate::claims::{check_closing, claim_is_met};
use crate::known::Known;
use crate::laws::{class_law, graph_law, spectral_law};
use crate::progress::Progress;
use crate::refusal::{Fault, Refusal};
use drg_array::{Array, Claim, Class};
use drg_derivation::{Derivation, Line};
use std::alloc::{AllocError, Global};

/// What the lines so far have come to, for one array and one claim.
#[derive(Debug, Drop)]
pub struct Judge {
    progress: Progress,
    line: u64,
}

impl Judge {
    /// A judge before the first evidence line.
    pub fn start(alloc: Global, array: Array, claim: Claim) -> Result<Judge, AllocError>
        ensures { IfOk result (λ judge. HasJudged judge array claim []) }
    {
        let progress = if claim_is_met(&array, claim) {
            Progress::AllMet(Known::new(alloc, array, claim)?)
        } else {
            Progress::Decided {
                refusal: Refusal::NotMet,
                line: 3,
            }
        };
        Ok(Judge { progress, line: 4 })
    }

    /// Takes the next line. Want of memory changes nothing.
    pub fn feed(&mut self, line: &Line) -> Result<(), AllocError>
        requires { self.old.line + 1 < 2 ^ 64 }
        ensures judged { OnOk result ((a : Entries) (claim : Claim) (lines : List Line)
            → HasJudged self.old a claim lines → HasJudged self.new a claim (line.now ∷ lines)) }
        ensures line { OnOk result (self.new.line ≡ self.old.line + 1) }
        ensures err { OnErr result (self.new ≡ self.old) }
    {
        if let Progress::AllMet(known) = &mut self.progress {
            match known.step(line) {
                Ok(()) => {}
                Err(Fault::Refused(refusal)) => {
                    self.progress = Progress::Decided {
                        refusal,
                        line: self.line,
                    };
                }
                Err(Fault::Memory) => return Err(AllocError),
            }
        }
        self.line += 1;
        Ok(())
    }

    /// The answer, where the end line comes now.
    pub fn finish(&self) -> Result<Class, ReplayFault>
        ensures { (a : Entries) (claim : Claim) (lines : List Line)
            → HasJudged self.now a claim lines → result ≡ answer_after a claim lines }
    {
        match &self.progress {
            Progress::AllMet(known) => close(known, self.line),
            Progress::Decided {
                refusal: Refusal::NotMet,
                line,
            } => Err(ReplayFault::NotMet { line: *line }),
            Progress::Decided {
                refusal: Refusal::Wide,
                line,
            } => Err(ReplayFault::Wide { line: *line }),
        }
    }
}

/// The answer at the end line, which has this number, where all lines before it are met.
fn close(known: &Known, line: u64) -> Result<Class, ReplayFault>
    ensures { result ≡ answer_at (AllMet known.now) line }
{
    match check_closing(known) {
        Ok(()) => Ok(if known.framed() {
            Class::Spectral
        } else {
            Class::Counting
        }),
        Err(Refusal::NotMet) => Err(ReplayFault::Open { line }),
        Err(Refusal::Wide) => Err(ReplayFault::Wide { line }),
    }
}

/// The answer of these evidence lines, for this array and this claim.
pub fn replay_lines(
    alloc: Global,
    array: &Array,
    claim: Claim,
    lines: &[Line],
) -> Result<Class, ReplayFault>
    ensures { result ≢ Err Memory → result ≡ answer_after array.now claim (reverse lines.now) }
{
    let Ok(mut judge) = Judge::start(alloc, array.copied(), claim) else {
        return Err(ReplayFault::Memory);
    };
    'lines: for line in lines {
        if judge.feed(line).is_err() {
            return Err(ReplayFault::Memory);
        }
    }
    judge.finish()
}

/// The class of a derivation that is accepted, or why it isn't, by the first line that decides.
/// Each answer but want of memory comes exactly where the definition gives it. An answer Counting
/// excludes every graph that has the array, and an answer Spectral says that the written frame is one
/// of the array and that the condition of the claim fails at its numbers.
pub fn replay(alloc: Global, derivation: &Derivation) -> Result<Class, ReplayFault>
    ensures answer { result ≢ Err Memory → result ≡ answer_of derivation.now }
    ensures class { IfOk result (λ class. class ≡ accepted_class (known_at_end derivation.now)) }
    ensures graph { result ≡ Ok Counting → NoGraph derivation.now.array }
    ensures spectral { result ≡ Ok Spectral → SpectralHolds derivation.now }
{
    graph_law();
    spectral_law();
    class_law();
    derivation.array.known_valid();
    replay_lines(
        alloc,
        &derivation.array,
        derivation.claim,
        &derivation.lines,
    )
}
