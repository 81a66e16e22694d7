//! The report on an array with a verdict.

ghost use Rattle.std.specs.Prelude.{◌≡◌, IfOk, OnOk, Some, codes, option_map};
ghost use Rattle.serde_json.specs.View.{members_view, view};
ghost use Rattle.drg_json.specs.Putting.{put_if};
ghost use Rattle.drg_json.specs.Reports.{infeasible_data, json_text, open_data, orderings_data, survivor_data, verdict_data};

use crate::certificate::{put_certificate, put_other};
use crate::numbers::{array_value, orderings_value, sizes, vertices};
use crate::tables::put_spectra;
use crate::words::{claim_value, derivation_value, names, pending_tests};
use drg_array::Array;
use drg_orderings::Orderings;
use drg_report::{Infeasible, RefusedSpectrum, Survivor, Undecided, Verdict};
use serde_json::{Map, Value, put};
use std::alloc::{AllocError, Global};

/// The JSON report on this array with this verdict, and one line feed. The one error is want of
/// memory.
pub fn render_json(alloc: Global, array: &Array, verdict: &Verdict) -> Result<Vec<u8>, AllocError>
    ensures { IfOk result (λ text. text.items ≡ json_text array.now verdict.now) }
{
    let report = verdict_value(alloc, array, verdict)?;
    let mut text = report.to_vec(alloc)?;
    text.push(b'\n')?;
    Ok(text)
}

/// The report as a value.
fn verdict_value(alloc: Global, array: &Array, verdict: &Verdict) -> Result<Value, AllocError>
    ensures { IfOk result (λ v. view v ≡ verdict_data array.now verdict.now) }
{
    match verdict {
        Verdict::Infeasible(found) => infeasible_value(alloc, array, found),
        Verdict::Undecided(found) => undecided_value(alloc, array, found),
        Verdict::RefusedSpectrum(found) => refused_value(alloc, array, found),
        Verdict::Survivor(found) => survivor_value(alloc, array, found),
    }
}

/// The report on an array that fails a claim.
fn infeasible_value(alloc: Global, array: &Array, found: &Infeasible) -> Result<Value, AllocError>
    ensures { IfOk result (λ v. view v ≡ infeasible_data array.now found.now) }
{
    let mut object = Map::new(alloc);
    put(&mut object, alloc, "array", array_value(alloc, array)?)?;
    put(
        &mut object,
        alloc,
        "claim",
        claim_value(alloc, found.claim)?,
    )?;
    put(
        &mut object,
        alloc,
        "class",
        Value::try_from_str(alloc, found.class.name())?,
    )?;
    put(
        &mut object,
        alloc,
        "derivation",
        derivation_value(alloc, &found.derivation)?,
    )?;
    put_other(&mut object, alloc, &found.other)?;
    put(
        &mut object,
        alloc,
        "pending",
        pending_tests(alloc, found.pending.as_slice())?,
    )?;
    put(
        &mut object,
        alloc,
        "verdict",
        Value::try_from_str(alloc, "infeasible")?,
    )?;
    Ok(Value::Object(object))
}

/// The report on an array with tests that a number too wide leaves open.
fn undecided_value(alloc: Global, array: &Array, found: &Undecided) -> Result<Value, AllocError>
    ensures { IfOk result (λ v. view v
        ≡ open_data (codes "undecided") array.now found.now.passed found.now.pending found.now.other) }
{
    let mut object = Map::new(alloc);
    put(&mut object, alloc, "array", array_value(alloc, array)?)?;
    put(
        &mut object,
        alloc,
        "passed",
        names(alloc, found.passed.as_slice())?,
    )?;
    put(
        &mut object,
        alloc,
        "pending",
        pending_tests(alloc, found.pending.as_slice())?,
    )?;
    put_other(&mut object, alloc, &found.other)?;
    put(
        &mut object,
        alloc,
        "verdict",
        Value::try_from_str(alloc, "undecided")?,
    )?;
    Ok(Value::Object(object))
}

/// The report on an array whose eigenvalues no one quadratic field holds.
fn refused_value(alloc: Global, array: &Array, found: &RefusedSpectrum) -> Result<Value, AllocError>
    ensures { IfOk result (λ v. view v ≡ open_data (codes "refused-spectrum")
        array.now found.now.passed found.now.pending (Some found.now.other)) }
{
    let mut object = Map::new(alloc);
    put(&mut object, alloc, "array", array_value(alloc, array)?)?;
    put(
        &mut object,
        alloc,
        "passed",
        names(alloc, found.passed.as_slice())?,
    )?;
    put(
        &mut object,
        alloc,
        "pending",
        pending_tests(alloc, found.pending.as_slice())?,
    )?;
    put_certificate(&mut object, alloc, &found.other)?;
    put(
        &mut object,
        alloc,
        "verdict",
        Value::try_from_str(alloc, "refused-spectrum")?,
    )?;
    Ok(Value::Object(object))
}

/// The report on a survivor.
fn survivor_value(alloc: Global, array: &Array, found: &Survivor) -> Result<Value, AllocError>
    ensures { IfOk result (λ v. view v ≡ survivor_data array.now found.now) }
{
    let mut object = Map::new(alloc);
    put(&mut object, alloc, "array", array_value(alloc, array)?)?;
    put(
        &mut object,
        alloc,
        "passed",
        names(alloc, found.passed.as_slice())?,
    )?;
    put(&mut object, alloc, "n", vertices(alloc, &found.numbers)?)?;
    put(&mut object, alloc, "sizes", sizes(alloc, &found.numbers)?)?;
    put_spectra(&mut object, alloc, &found.spectra)?;
    put(
        &mut object,
        alloc,
        "ppoly",
        orderings_value(alloc, found.p_orderings.as_slice())?,
    )?;
    put_q(&mut object, alloc, &found.q_orderings)?;
    put(
        &mut object,
        alloc,
        "verdict",
        Value::try_from_str(alloc, "survivor")?,
    )?;
    Ok(Value::Object(object))
}

/// Puts in the Q-polynomial orderings, where there are Krein parameters.
fn put_q(
    object: &mut Map<String, Value>,
    alloc: Global,
    orderings: &Option<Orderings>,
) -> Result<(), AllocError>
    ensures { OnOk result (members_view object.new.entries
        ≡ put_if (codes "qpoly") (option_map orderings_data orderings.now)
        (members_view object.old.entries)) }
{
    match orderings {
        None => Ok(()),
        Some(orderings) => put(
            object,
            alloc,
            "qpoly",
            orderings_value(alloc, orderings.as_slice())?,
        ),
    }
}
