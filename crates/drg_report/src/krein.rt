//! The lines of Krein parameters.

ghost use Rattle.std.specs.Prelude.{◌≡◌, ◌≤◌, ◌++◌, ◌-◌, suc, OnOk, OnErr};
ghost use Rattle.drg_algebra.specs.Beginnings.{BeginsWith};
ghost use Rattle.drg_report.specs.KreinTexts.{krein_head, krein_line, krein_lines, lines_of_index, parameter_lines, parameters_text};

use crate::tables::write_spaced_value;
use drg_fraction::Field;
use drg_krein::Krein;
use itoa::Buffer;
use std::alloc::AllocError;

/// Appends the lines of the Krein parameters, where there are any.
pub(crate) fn write_krein_lines<F: Field>(
    krein: &Option<Krein<F>>,
    out: &mut Vec<u8>,
) -> Result<(), AllocError>
    ensures ok { OnOk result
        (out.new.items ≡ out.old.items ++ krein_lines F.value F.operations krein.now) }
    ensures err { OnErr result
        (BeginsWith (krein_lines F.value F.operations krein.now) out.old.items out.new.items) }
{
    match krein {
        None => Ok(()),
        Some(krein) => write_parameter_lines(krein, out),
    }
}

/// Appends a line for all i and j with `1 <= i <= j <= d`.
fn write_parameter_lines<F: Field>(krein: &Krein<F>, out: &mut Vec<u8>) -> Result<(), AllocError>
    ensures ok { OnOk result
        (out.new.items ≡ out.old.items ++ parameter_lines F.value F.operations krein.now) }
    ensures err { OnErr result
        (BeginsWith (parameter_lines F.value F.operations krein.now)
        out.old.items out.new.items) }
{
    'firsts: for i in 1..krein.d() + 1 {
        write_lines_of_index(krein, i, out)?;
    }
    Ok(())
}

/// Appends the lines of i, for each j from i to d.
fn write_lines_of_index<F: Field>(
    krein: &Krein<F>,
    i: usize,
    out: &mut Vec<u8>,
) -> Result<(), AllocError>
    requires { i ≤ krein.now.d }
    ensures ok { OnOk result (out.new.items
        ≡ out.old.items ++ lines_of_index F.value F.operations krein.now i (suc krein.now.d - i)) }
    ensures err { OnErr result
        (BeginsWith (lines_of_index F.value F.operations krein.now i (suc krein.now.d - i))
        out.old.items out.new.items) }
{
    'seconds: for j in i..krein.d() + 1 {
        write_krein_line(krein, i, j, out)?;
    }
    Ok(())
}

/// Appends the line of i and j.
fn write_krein_line<F: Field>(
    krein: &Krein<F>,
    i: usize,
    j: usize,
    out: &mut Vec<u8>,
) -> Result<(), AllocError>
    requires i { i ≤ krein.now.d }
    requires j { j ≤ krein.now.d }
    ensures ok { OnOk result
        (out.new.items ≡ out.old.items ++ krein_line F.value F.operations krein.now i j) }
    ensures err { OnErr result
        (BeginsWith (krein_line F.value F.operations krein.now i j)
        out.old.items out.new.items) }
{
    write_head(i, j, out)?;
    write_parameters(krein, i, j, out)?;
    out.extend_from_slice(b"\n")
}

/// Appends the word of the line and the indices i and j.
fn write_head(i: usize, j: usize, out: &mut Vec<u8>) -> Result<(), AllocError>
    ensures ok { OnOk result (out.new.items ≡ out.old.items ++ krein_head i j) }
    ensures err { OnErr result (BeginsWith (krein_head i j) out.old.items out.new.items) }
{
    out.extend_from_slice(b"krein ")?;
    out.extend_from_slice(Buffer::new().format(i).as_bytes())?;
    out.extend_from_slice(b" ")?;
    out.extend_from_slice(Buffer::new().format(j).as_bytes())
}

/// Appends the parameters q^0_ij to q^d_ij, with one space before each.
fn write_parameters<F: Field>(
    krein: &Krein<F>,
    i: usize,
    j: usize,
    out: &mut Vec<u8>,
) -> Result<(), AllocError>
    requires i { i ≤ krein.now.d }
    requires j { j ≤ krein.now.d }
    ensures ok { OnOk result (out.new.items
        ≡ out.old.items ++ parameters_text F.value F.operations krein.now i j (suc krein.now.d)) }
    ensures err { OnErr result
        (BeginsWith (parameters_text F.value F.operations krein.now i j (suc krein.now.d))
        out.old.items out.new.items) }
{
    'thirds: for h in 0..krein.d() + 1 {
        write_spaced_value(krein.q(i, j, h), out)?;
    }
    Ok(())
}
