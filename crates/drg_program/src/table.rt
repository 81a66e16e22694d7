ghost use Rattle.std.specs.Prelude.{◌≡◌, ℕ, List, Some, IfOk, map};
ghost use Rattle.std.specs.List.{AllZip};
ghost use Rattle.drg_program.specs.Input.{AreBytesOf, HasCauses};
ghost use Rattle.drg_program.specs.Run.{Ends, Finds};
ghost use Rattle.drg_program.specs.Table.{AreWordsOn, IsTableOf};
ghost use Rattle.drg_words.specs.declared.command.Command.TheVariants.{Table as TableCommand};

use crate::Status;
use crate::check::judged;
use crate::input::read_input;
use crate::output::{EarlyRefusal, Output};
use drg_array::{Array, TestSet};
use drg_outside::Inputs;
use drg_report::verdict_words;
use drg_tables::{Row, TableReadFault, distinct, read_rows, render_rows, row_law};
use drg_words::FileName;
use std::alloc::{AllocError, Global};

/// Judges the arrays in the rows of the file, each of them once, by the tests that always run and these.
pub fn table<I: Inputs>(
    alloc: Global,
    inputs: &mut I,
    file: &FileName<'_>,
    tests: &TestSet,
) -> Result<Output, EarlyRefusal>
    // No test that is built opens branches, so a budget changes nothing.
    ensures output { (bytes : List ℕ) × AreBytesOf (I.files inputs.old) file.now bytes
        × ((budget : ℕ) → Ends (TableCommand tests.now budget file.now) bytes result) }
    ensures causes { HasCauses (Some file.now) (I.files inputs.old)
        (I.open_faults inputs.old) (I.open_faults inputs.new)
        (I.read_faults inputs.old) (I.read_faults inputs.new) result }
    ensures same_files { I.files inputs.new ≡ I.files inputs.old }
{
    let bytes = read_input(alloc, inputs, file.as_str())?;
    table_text(alloc, &bytes, tests)
}

/// Judges the arrays in the rows that stand in these bytes.
fn table_text(alloc: Global, bytes: &[u8], tests: &TestSet) -> Result<Output, EarlyRefusal>
    ensures { (budget : ℕ) (file : List ℕ)
        → Finds (TableCommand tests.now budget file) bytes.now result }
{
    row_law();
    let rows = match read_rows(alloc, bytes) {
        Ok(rows) => rows,
        Err(TableReadFault::Bad { row, at }) => {
            return Err(EarlyRefusal::BadInput { line: row, at });
        }
        Err(TableReadFault::Memory) => return Err(EarlyRefusal::Memory),
    };
    let text = rows_text(alloc, &rows, tests)?;
    Ok(Output {
        status: Status::Done,
        text,
    })
}

/// The rows, each in a record of its own with the words of the verdict on its array. The one error is
/// want of memory.
fn rows_text(alloc: Global, rows: &[Row], tests: &TestSet) -> Result<Vec<u8>, AllocError>
    ensures { IfOk result (λ text. IsTableOf rows.now tests.now text.items) }
{
    let found = distinct(alloc, rows)?;
    let words = words_on_each(alloc, found.arrays(), tests)?;
    let text = render_rows(alloc, rows, &found, &words)?;
    Ok(text)
}

/// The words of the verdict on each array.
fn words_on_each(
    alloc: Global,
    arrays: &[Array],
    tests: &TestSet,
) -> Result<Vec<Vec<u8>>, AllocError>
    ensures { IfOk result (λ words. AllZip (AreWordsOn tests.now) arrays.now
        (map (λ one. one.items) words.items)) }
{
    let mut words = Vec::new(alloc);
    'arrays: for array in arrays {
        let one = words_on(alloc, array, tests)?;
        words.push(one)?;
    }
    Ok(words)
}

/// The words of the verdict on the array.
fn words_on(alloc: Global, array: &Array, tests: &TestSet) -> Result<Vec<u8>, AllocError>
    ensures { IfOk result (λ words. AreWordsOn tests.now array.now words.items) }
{
    array.known_valid();
    let verdict = judged(alloc, array, tests)?;
    let words = verdict_words(alloc, &verdict)?;
    Ok(words)
}
