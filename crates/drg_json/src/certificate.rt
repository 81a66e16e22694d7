//! The certificate that no one quadratic field holds all eigenvalues.

ghost use Rattle.std.specs.Prelude.{◌≡◌, IfOk, OnOk};
ghost use Rattle.serde_json.specs.View.{members_view, view};
ghost use Rattle.drg_json.specs.Certificates.{poly_data, polys_data};
ghost use Rattle.drg_json.specs.Putting.{put_certificate as with_certificate, put_other as with_other};

use crate::pieces::integers;
use drg_eigen::{OtherSpectrum, Poly};
use serde_json::{Map, Value, put};
use std::alloc::{AllocError, Global};

/// Puts in the members of the certificate, where there is one.
pub(crate) fn put_other(
    object: &mut Map<String, Value>,
    alloc: Global,
    other: &Option<OtherSpectrum>,
) -> Result<(), AllocError>
    ensures { OnOk result (members_view object.new.entries
        ≡ with_other other.now (members_view object.old.entries)) }
{
    match other {
        None => Ok(()),
        Some(other) => put_certificate(object, alloc, other),
    }
}

/// Puts in the factors, and what is left without them, or the two factors with roots in different
/// fields.
pub(crate) fn put_certificate(
    object: &mut Map<String, Value>,
    alloc: Global,
    other: &OtherSpectrum,
) -> Result<(), AllocError>
    ensures { OnOk result (members_view object.new.entries
        ≡ with_certificate other.now (members_view object.old.entries)) }
{
    match other {
        OtherSpectrum::Rest { factors, rest } => {
            put(object, alloc, "factors", polys(alloc, factors.as_slice())?)?;
            put(object, alloc, "rest", poly_value(alloc, rest)?)
        }
        OtherSpectrum::TwoFields {
            factors,
            first,
            second,
        } => {
            put(object, alloc, "factors", polys(alloc, factors.as_slice())?)?;
            put(object, alloc, "first", poly_value(alloc, first)?)?;
            put(object, alloc, "second", poly_value(alloc, second)?)
        }
    }
}

/// The polynomials in their order.
fn polys(alloc: Global, polys: &[Poly]) -> Result<Value, AllocError>
    ensures { IfOk result (λ v. view v ≡ polys_data polys.now) }
{
    let mut list = Vec::new(alloc);
    'polys: for poly in polys {
        list.push(poly_value(alloc, poly)?)?;
    }
    Ok(Value::Array(list))
}

/// The coefficients of a polynomial from the constant upwards.
fn poly_value(alloc: Global, poly: &Poly) -> Result<Value, AllocError>
    ensures { IfOk result (λ v. view v ≡ poly_data poly.now) }
{
    integers(alloc, poly.coefficients())
}
