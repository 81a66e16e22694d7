//! The lines of the certificate that no one quadratic field holds all eigenvalues.

ghost use Rattle.std.specs.Prelude.{◌≡◌, ◌++◌, OnOk, OnErr};
ghost use Rattle.std.specs.Fmt.{signed_decimal};
ghost use Rattle.drg_algebra.specs.Beginnings.{BeginsWith};
ghost use Rattle.drg_report.specs.Pieces.{spaced};
ghost use Rattle.drg_report.specs.Certificates.{certificate_lines, coefficients_text, factor_lines, other_lines, poly_line};

use drg_eigen::{OtherSpectrum, Poly};
use itoa::Buffer;
use std::alloc::AllocError;

/// Appends the lines of the certificate, where there is one.
pub(crate) fn write_other_lines(
    other: &Option<OtherSpectrum>,
    out: &mut Vec<u8>,
) -> Result<(), AllocError>
    ensures ok { OnOk result (out.new.items ≡ out.old.items ++ other_lines other.now) }
    ensures err { OnErr result (BeginsWith (other_lines other.now) out.old.items out.new.items) }
{
    match other {
        None => Ok(()),
        Some(other) => write_certificate_lines(other, out),
    }
}

/// Appends a line for each factor, and the lines of what is left without them, or of the two factors
/// with roots in different fields.
pub(crate) fn write_certificate_lines(
    other: &OtherSpectrum,
    out: &mut Vec<u8>,
) -> Result<(), AllocError>
    ensures ok { OnOk result (out.new.items ≡ out.old.items ++ certificate_lines other.now) }
    ensures err { OnErr result
        (BeginsWith (certificate_lines other.now) out.old.items out.new.items) }
{
    match other {
        OtherSpectrum::Rest { factors, rest } => {
            write_factor_lines(factors.as_slice(), out)?;
            write_poly_line(b"rest", rest, out)
        }
        OtherSpectrum::TwoFields {
            factors,
            first,
            second,
        } => {
            write_factor_lines(factors.as_slice(), out)?;
            write_poly_line(b"first", first, out)?;
            write_poly_line(b"second", second, out)
        }
    }
}

/// Appends a line for each factor.
fn write_factor_lines(factors: &[Poly], out: &mut Vec<u8>) -> Result<(), AllocError>
    ensures ok { OnOk result (out.new.items ≡ out.old.items ++ factor_lines factors.now) }
    ensures err { OnErr result
        (BeginsWith (factor_lines factors.now) out.old.items out.new.items) }
{
    'factors: for factor in factors {
        write_poly_line(b"factor", factor, out)?;
    }
    Ok(())
}

/// Appends the line of a word and the coefficients of a polynomial.
fn write_poly_line(word: &[u8], poly: &Poly, out: &mut Vec<u8>) -> Result<(), AllocError>
    ensures ok { OnOk result (out.new.items ≡ out.old.items ++ poly_line word.now poly.now) }
    ensures err { OnErr result
        (BeginsWith (poly_line word.now poly.now) out.old.items out.new.items) }
{
    out.extend_from_slice(word)?;
    write_coefficients(poly.coefficients(), out)?;
    out.extend_from_slice(b"\n")
}

/// Appends the coefficients, with one space before each.
fn write_coefficients(coefficients: &[i128], out: &mut Vec<u8>) -> Result<(), AllocError>
    ensures ok { OnOk result
        (out.new.items ≡ out.old.items ++ coefficients_text coefficients.now) }
    ensures err { OnErr result
        (BeginsWith (coefficients_text coefficients.now) out.old.items out.new.items) }
{
    'coefficients: for coefficient in coefficients {
        write_coefficient(*coefficient, out)?;
    }
    Ok(())
}

/// Appends a space and the coefficient.
fn write_coefficient(coefficient: i128, out: &mut Vec<u8>) -> Result<(), AllocError>
    ensures ok { OnOk result
        (out.new.items ≡ out.old.items ++ spaced (signed_decimal coefficient)) }
    ensures err { OnErr result
        (BeginsWith (spaced (signed_decimal coefficient)) out.old.items out.new.items) }
{
    out.push(b' ')?;
    out.extend_from_slice(Buffer::new().format(coefficient).as_bytes())
}
