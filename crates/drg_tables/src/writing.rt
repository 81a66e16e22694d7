//! Writing a table with words for each of its arrays.

ghost use Rattle.std.specs.Prelude.{◌≡◌, ◌<◌, ◌++◌, ℕ, List, [], Some, length, map, slice_get, IfOk, OnOk};
ghost use Rattle.drg_tables.specs.Distinct.{AreDistinct, AreSpread};
ghost use Rattle.drg_tables.specs.Output.{record_text, records_text};
ghost use Rattle.drg_tables.specs.Writing.{HasWritten};

use crate::{DistinctArrays, Row};
use csv::{Writer, WriterBuilder};
use std::alloc::{AllocError, Global};

/// The text of a table: one record for each row, in the order of the rows, with the name of the row, the
/// canonical text of its array and some words. There are words for each distinct array, in the order of
/// these, and rows with equal arrays get the same ones. The one error is want of memory.
pub fn render_rows(
    alloc: Global,
    rows: &[Row],
    found: &DistinctArrays,
    words: &[Vec<u8>],
) -> Result<Vec<u8>, AllocError>
    requires distinct { AreDistinct (map (λ row. row.array) rows.now) found.now }
    requires words { length words.now ≡ length found.now.arrays }
    ensures { IfOk result (λ text. (each : List (List ℕ))
        × AreSpread (map (λ row. row.array) rows.now) found.now.arrays (map (λ w. w.items) words.now) each
        × (text.items ≡ records_text rows.now each)) }
{
    let places = found.places();
    let mut writer = writer_of(alloc);
    'rows: for i in 0..rows.len() {
        let given = words_at(words, places[i]);
        write_row(alloc, &rows[i], given, &mut writer)?;
    }
    let text = text_of(writer)?;
    Ok(text)
}

/// The words at this place.
fn words_at(words: &[Vec<u8>], place: usize) -> &[u8]
    requires { place < length words.now }
    ensures { slice_get (map (λ w. w.items) words.now) place ≡ Some result.now }
{
    &words[place]
}

/// A writer that has written nothing.
fn writer_of(alloc: Global) -> Writer<Vec<u8>>
    ensures { HasWritten [] result }
{
    WriterBuilder::new().from_writer(Vec::new(alloc))
}

/// Writes the record of a row with some words. After an error the writer isn't used again.
fn write_row(
    alloc: Global,
    row: &Row,
    words: &[u8],
    writer: &mut Writer<Vec<u8>>,
) -> Result<(), AllocError>
    ensures { OnOk result ((text : List ℕ) → HasWritten text writer.old
        → HasWritten (text ++ record_text row.now words.now) writer.new) }
{
    let mut array = Vec::new(alloc);
    row.array.write_text(&mut array)?;
    match writer.write_fields(&[row.name.as_bytes(), &array, words]) {
        Ok(()) => Ok(()),
        Err(_error) => Err(AllocError),
    }
}

/// What a writer has written.
fn text_of(writer: Writer<Vec<u8>>) -> Result<Vec<u8>, AllocError>
    ensures { IfOk result (λ all. (text : List ℕ) → HasWritten text writer → all.items ≡ text) }
{
    match writer.into_inner() {
        Ok(text) => Ok(text),
        Err(_error) => Err(AllocError),
    }
}
