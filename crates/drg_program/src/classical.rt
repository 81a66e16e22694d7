ghost use Rattle.std.specs.Fmt.{signed_decimal};
ghost use Rattle.std.specs.Prelude.{◌≡◌, ◌++◌, ℕ, List, Some, OnOk, IfOk};
ghost use Rattle.drg_census.specs.declared.bases.ClassicalRow.TheVariants.{Holds};
ghost use Rattle.drg_program.specs.Classical.{parameter_text, row_text, rows_status as the_rows_status, rows_text as the_rows_text};
ghost use Rattle.drg_program.specs.Input.{AreBytesOf, HasCauses};
ghost use Rattle.drg_program.specs.Run.{Ends, Finds};
ghost use Rattle.drg_words.specs.declared.command.Command.TheVariants.{Classical as ClassicalCommand};

use crate::Status;
use crate::check::without_end;
use crate::input::read_input;
use crate::output::{EarlyRefusal, Output};
use drg_array::Array;
use drg_census::{ClassicalRow, classical};
use drg_fraction::Fraction;
use drg_outside::Inputs;
use drg_words::FileName;
use itoa::Buffer;
use std::alloc::{AllocError, Global};

/// The classical parameters of the one array that the file holds.
pub fn classical_file<I: Inputs>(
    alloc: Global,
    inputs: &mut I,
    file: &FileName<'_>,
) -> Result<Output, EarlyRefusal>
    ensures output { (bytes : List ℕ) × AreBytesOf (I.files inputs.old) file.now bytes
        × Ends (ClassicalCommand file.now) bytes result }
    ensures causes { HasCauses (Some file.now) (I.files inputs.old)
        (I.open_faults inputs.old) (I.open_faults inputs.new)
        (I.read_faults inputs.old) (I.read_faults inputs.new) result }
    ensures same_files { I.files inputs.new ≡ I.files inputs.old }
{
    let bytes = read_input(alloc, inputs, file.as_str())?;
    classical_text(alloc, &bytes)
}

/// The classical parameters of the one array that stands in these bytes.
fn classical_text(alloc: Global, bytes: &[u8]) -> Result<Output, EarlyRefusal>
    ensures { (file : List ℕ) → Finds (ClassicalCommand file) bytes.now result }
{
    let array = match Array::read(without_end(bytes)) {
        Ok(array) => array,
        Err(fault) => {
            return Err(EarlyRefusal::BadInput {
                line: 1,
                at: fault.at,
            });
        }
    };
    if array.d() == 1 {
        let text = b"diameter 1\n".to_vec(alloc)?;
        return Ok(Output {
            status: Status::Done,
            text,
        });
    }
    let rows = classical(alloc, &array)?;
    let text = rows_text(alloc, &rows)?;
    Ok(Output {
        status: rows_status(&rows),
        text,
    })
}

/// The status with which the rows are told: undecided where one of them is too wide.
fn rows_status(rows: &[ClassicalRow]) -> Status
    ensures { result ≡ the_rows_status rows.now }
{
    match rows {
        [] => Status::Done,
        [ClassicalRow::Holds { .. }, rest @ ..] => rows_status(rest),
        [ClassicalRow::Wide { .. }, ..] => Status::Undecided,
    }
}

/// The rows, each in a line of its own. The one error is want of memory.
fn rows_text(alloc: Global, rows: &[ClassicalRow]) -> Result<Vec<u8>, AllocError>
    ensures { IfOk result (λ text. text.items ≡ the_rows_text rows.now) }
{
    let mut text = Vec::new(alloc);
    'rows: for row in rows {
        write_row(row, &mut text)?;
    }
    Ok(text)
}

/// Appends the line of a row.
fn write_row(row: &ClassicalRow, out: &mut Vec<u8>) -> Result<(), AllocError>
    ensures { OnOk result (out.new.items ≡ out.old.items ++ row_text row.now) }
{
    match row {
        ClassicalRow::Holds { b, alpha, beta } => write_pair(*b, *alpha, *beta, out),
        ClassicalRow::Wide { b } => {
            write_base(b"wide ", *b, out)?;
            out.extend_from_slice(b"\n")?;
            Ok(())
        }
    }
}

/// Appends the line of a base with its parameters.
fn write_pair(b: i32, alpha: Fraction, beta: Fraction, out: &mut Vec<u8>) -> Result<(), AllocError>
    ensures { OnOk result (out.new.items ≡ out.old.items ++ row_text (Holds b alpha beta)) }
{
    write_base(b"classical ", b, out)?;
    write_parameter(alpha, out)?;
    write_parameter(beta, out)?;
    out.extend_from_slice(b"\n")?;
    Ok(())
}

/// Appends the word and the base.
fn write_base(word: &[u8], b: i32, out: &mut Vec<u8>) -> Result<(), AllocError>
    ensures { OnOk result (out.new.items ≡ out.old.items ++ (word.now ++ signed_decimal b)) }
{
    out.extend_from_slice(word)?;
    out.extend_from_slice(Buffer::new().format(b).as_bytes())?;
    Ok(())
}

/// Appends a space and the parameter.
fn write_parameter(value: Fraction, out: &mut Vec<u8>) -> Result<(), AllocError>
    ensures { OnOk result (out.new.items ≡ out.old.items ++ parameter_text value) }
{
    out.push(b' ')?;
    value.write_text(out)?;
    Ok(())
}
