//! Reading the rows of a table, record by record, in one pass.

ghost use Rattle.std.specs.Prelude.{◌≡◌, ◌≢◌, [], ◌∷◌, ℕ, List, length, IfOk, IfErr, MatchOption};
ghost use Rattle.csv.specs.Records.{fields_of};
ghost use Rattle.drg_tables.specs.Reading.{HasTaken, IsFaultOfRow, Takes};
ghost use Rattle.drg_tables.specs.Rows.{AreRows, IsRowOf, IsTableFault, Record};
ghost use Rattle.drg_tables.specs.declared.fault.TableReadFault.TheVariants.{Memory};

use crate::{Row, RowName, TableReadFault};
use csv::{ByteRecord, Reader, ReaderBuilder};
use drg_array::Array;
use std::alloc::Global;

/// Reads the rows of a table: records of comma-separated values without a header row, each of a name
/// and an array text. A field can stand in double quotes, empty lines are passed over, and a byte order
/// mark at the start is dropped; no space is. The fault names the first record that is no row.
pub fn read_rows(alloc: Global, bytes: &[u8]) -> Result<Vec<Row>, TableReadFault>
    ensures rows { IfOk result (λ rows. AreRows bytes.now rows.items) }
    ensures fault { IfErr result (IsTableFault bytes.now) }
{
    let mut reader = reader_of(alloc, bytes);
    let mut fields = ByteRecord::new(alloc);
    let mut rows = Vec::new(alloc);
    'records: while take_record(&mut reader, &mut fields)? {
        let number = rows.len() as u64 + 1;
        let row = row_of(alloc, number, &fields)?;
        rows.push(row)?;
    }
    Ok(rows)
}

/// A reader that has taken no record of these bytes.
fn reader_of(alloc: Global, bytes: &[u8]) -> Reader<&[u8]>
    ensures { HasTaken bytes.now [] result }
{
    ReaderBuilder::new()
        .has_headers(false)
        .flexible(true)
        .from_reader(alloc, bytes)
}

/// Takes the next record, where there is one. After an error the reader isn't used again.
fn take_record(reader: &mut Reader<&[u8]>, fields: &mut ByteRecord) -> Result<bool, TableReadFault>
    ensures taken { IfOk result (λ found. (bytes : List ℕ) (records : List Record)
        → HasTaken bytes records reader.old
        → Takes bytes records found (fields_of fields.new) reader.old reader.new) }
    ensures fault { IfErr result (λ fault. fault ≡ Memory) }
{
    match reader.read_byte_record(fields) {
        Ok(found) => Ok(found),
        Err(_error) => Err(TableReadFault::Memory),
    }
}

/// The row that this record is. The record has this number.
fn row_of(alloc: Global, number: u64, fields: &ByteRecord) -> Result<Row, TableReadFault>
    ensures row { IfOk result (IsRowOf (fields_of fields.now)) }
    ensures fault { IfErr result (IsFaultOfRow number (fields_of fields.now)) }
{
    let Some((name, text)) = two_fields(fields) else {
        return Err(TableReadFault::Bad { row: number, at: 0 });
    };
    match Array::read(text) {
        Ok(array) => {
            let name = RowName::copied(alloc, name)?;
            Ok(Row { name, array })
        }
        Err(fault) => Err(TableReadFault::Bad {
            row: number,
            at: fault.at,
        }),
    }
}

/// The fields of a record that has two.
#[tactic(auto, using(crate::proofs::Fields::are_two, crate::proofs::Fields::has_first, crate::proofs::Fields::has_second))]
fn two_fields(fields: &ByteRecord) -> Option<(&[u8], &[u8])>
    ensures { MatchOption result (length (fields_of fields.now) ≢ 2)
        (λ pair. pair.0.now ∷ pair.1.now ∷ [] ≡ fields_of fields.now) }
{
    if fields.len() != 2 {
        return None;
    }
    let first = fields.get(0)?;
    let second = fields.get(1)?;
    Some((first, second))
}
