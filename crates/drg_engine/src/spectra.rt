//! The frame of an array over the field of its eigenvalues.

ghost use Rattle.std.specs.Prelude.{◌≡◌, ℕ, IfOk, IfErr, IfSome, IfNone};
ghost use Rattle.drg_array.specs.ClaimOrder.{ComesBefore};
ghost use Rattle.drg_array.specs.Conditions.{CountsHold};
ghost use Rattle.drg_array.specs.Entries.{Entries, IsArray};
ghost use Rattle.drg_array.specs.declared.claim.Claim.{Claim as TheClaim};
ghost use Rattle.drg_array.specs.declared.claim.Claim.TheVariants as claim;
ghost use Rattle.drg_array.specs.declared.test.Test.TheVariants as test;
ghost use Rattle.drg_array.specs.Claims.{test_of};
ghost use Rattle.drg_intersection.specs.Numbers.{AreNumbersOf};
ghost use Rattle.drg_engine.specs.Conditions.{Fails};
ghost use Rattle.drg_engine.specs.Frames.{HasSpectrum, IsFactored, IsFrameReached};
ghost use Rattle.drg_evidence.specs.Lines.{AreLinesOf};
ghost use Rattle.drg_engine.specs.Parameters.{HaveNoParameters};
ghost use Rattle.drg_engine.specs.SpectraFaults.{IsSpectraFault};
ghost use Rattle.drg_engine.specs.Verdicts.{AreSpectraOf};
ghost use Rattle.drg_engine.specs.declared.spectra.SpectraFault.TheVariants as fault;

use drg_array::{Array, Claim, Node};
use drg_bounds::multiplicities;
use drg_derivation::Line;
use drg_eigen::{EigenFault, OtherSpectrum, Spectrum, Split, characteristic, split_of};
use drg_evidence::{frame_law, mult_lines};
use drg_fraction::Fraction;
use drg_intersection::Numbers;
use drg_matrices::{FrameFault, frame_of};
use drg_quadratic::Quadratic;
use drg_report::{Spectra, SpectralTables};
use std::alloc::{AllocError, Global};

/// Why the frame of an array isn't made.
#[derive(Drop)]
pub(crate) enum SpectraFault {
    /// The first number on the way to it with a work number above 2^127 - 1 in magnitude.
    Wide { node: Node },
    /// No one quadratic field holds all eigenvalues.
    Other { other: OtherSpectrum },
    /// Want of memory.
    Memory,
}

impl From<EigenFault> for SpectraFault {
    ghost use Rattle.std.specs.Prelude.{◌≡◌};
    ghost use Rattle.drg_engine.specs.SpectraFaults.{of_eigen};

    ghost from_gives = { λ cause fault. fault ≡ of_eigen cause };

    fn from(fault: EigenFault) -> SpectraFault {
        match fault {
            EigenFault::Wide { node } => SpectraFault::Wide { node },
            EigenFault::Memory => SpectraFault::Memory,
        }
    }
}

impl From<FrameFault> for SpectraFault {
    ghost use Rattle.std.specs.Prelude.{◌≡◌};
    ghost use Rattle.drg_engine.specs.SpectraFaults.{of_frame};

    ghost from_gives = { λ cause fault. fault ≡ of_frame cause };

    fn from(fault: FrameFault) -> SpectraFault {
        match fault {
            FrameFault::Wide { node } => SpectraFault::Wide { node },
            FrameFault::Memory => SpectraFault::Memory,
        }
    }
}

/// The frame of the array, from its numbers. A fault names the first number on the way to it that
/// is too wide, or has the certificate that no one quadratic field holds the eigenvalues.
pub(crate) fn spectra_of(
    alloc: Global,
    array: &Array,
    numbers: &Numbers,
) -> Result<Spectra, SpectraFault>
    requires first { CountsHold array.now test.First }
    requires numbers { AreNumbersOf array.now numbers.now }
    ensures spectra { IfOk result (AreSpectraOf array.now) }
    ensures made { IfOk result (λ spectra. IsFrameReached array.now) }
    ensures parameters { IfOk result HaveNoParameters }
    ensures fault { IfErr result (IsSpectraFault array.now) }
{
    array.known_valid();
    let poly = characteristic(alloc, array)?;
    match split_of(alloc, &poly, array.valency())? {
        Split::Spectrum(spectrum) => spectra_over(alloc, array, numbers, &spectrum),
        Split::Other(other) => Err(SpectraFault::Other { other }),
    }
}

/// The frame of the array over the root of its eigenvalues.
fn spectra_over(
    alloc: Global,
    array: &Array,
    numbers: &Numbers,
    spectrum: &Spectrum,
) -> Result<Spectra, SpectraFault>
    requires first { CountsHold array.now test.First }
    requires numbers { AreNumbersOf array.now numbers.now }
    requires factored { IsFactored array.now }
    requires spectrum { HasSpectrum array.now spectrum.now.root spectrum.now.thetas }
    ensures spectra { IfOk result (AreSpectraOf array.now) }
    ensures made { IfOk result (λ spectra. IsFrameReached array.now) }
    ensures parameters { IfOk result HaveNoParameters }
    ensures fault { IfErr result (IsSpectraFault array.now) }
{
    if spectrum.root == 0 {
        let frame = frame_of::<Fraction>(alloc, array, numbers, spectrum)?;
        return Ok(Spectra::Rational(SpectralTables { frame, krein: None }));
    }
    let frame = frame_of::<Quadratic>(alloc, array, numbers, spectrum)?;
    Ok(Spectra::Quadratic(SpectralTables { frame, krein: None }))
}

/// The first failing claim of the test mult, of the array that has this frame.
pub(crate) fn first_multiplicity(spectra: &Spectra) -> Option<Claim>
    ensures test { IfSome result (λ claim. test_of claim ≡ test.Mult) }
    ensures fails { IfSome result (λ claim. (a : Entries) →
        AreSpectraOf a spectra.now → Fails a claim) }
    ensures first { IfSome result (λ claim. (a : Entries) →
        IsArray a → AreSpectraOf a spectra.now → (earlier : TheClaim) →
        test_of earlier ≡ test.Mult → ComesBefore earlier claim → Fails a earlier → ⊥) }
    ensures none { IfNone result ((a : Entries) → IsArray a → AreSpectraOf a spectra.now →
        (claim : TheClaim) → test_of claim ≡ test.Mult → Fails a claim → ⊥) }
{
    frame_law();
    match spectra {
        Spectra::Rational(tables) => multiplicities(&tables.frame),
        Spectra::Quadratic(tables) => multiplicities(&tables.frame),
    }
}

/// The lines of a derivation of a claim of the test mult, of the array with these numbers and this
/// frame.
pub(crate) fn frame_lines(
    alloc: Global,
    numbers: &Numbers,
    spectra: &Spectra,
) -> Result<Vec<Line>, AllocError>
    requires one_array { (a : Entries) × AreNumbersOf a numbers.now
        × AreSpectraOf a spectra.now }
    ensures { IfOk result (λ lines. (a : Entries) (i : ℕ) →
        AreNumbersOf a numbers.now → AreSpectraOf a spectra.now →
        AreLinesOf a (claim.Mult i) lines.items) }
{
    match spectra {
        Spectra::Rational(tables) => mult_lines(alloc, numbers.first(), &tables.frame),
        Spectra::Quadratic(tables) => mult_lines(alloc, numbers.first(), &tables.frame),
    }
}
