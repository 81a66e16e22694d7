//! Tables by hand: what is a record, what is a row, and which arrays are distinct.
use crate::{Row, TableReadFault, distinct, distinct_arrays, read_rows, render_rows};
use drg_array::Array;
use itoa::Buffer;
use std::alloc::{AllocError, Global};
use std::test::Fail;

/// Appends each row as its name in brackets and the canonical text of its array.
fn write_rows(rows: &[Row], out: &mut Vec<u8>) -> Result<(), AllocError> {
    for row in rows {
        out.push(b'[')?;
        out.extend_from_slice(row.name.as_bytes())?;
        out.push(b']')?;
        row.array.write_text(out)?;
    }
    Ok(())
}

/// Appends a number and a space.
fn write_number(number: u64, out: &mut Vec<u8>) -> Result<(), AllocError> {
    let mut buffer = Buffer::new();
    out.extend_from_slice(buffer.format(number).as_bytes())?;
    out.push(b' ')?;
    Ok(())
}

/// What is read of a table: its rows, or the record and the place of its fault.
fn reading(alloc: Global, bytes: &[u8]) -> Result<Vec<u8>, AllocError> {
    let mut out = Vec::new(alloc);
    match read_rows(alloc, bytes) {
        Ok(rows) => write_rows(rows.as_slice(), &mut out)?,
        Err(TableReadFault::Bad { row, at }) => {
            write_number(row, &mut out)?;
            write_number(at, &mut out)?;
        }
        Err(TableReadFault::Memory) => out.extend_from_slice(b"memory")?,
    }
    Ok(out)
}

/// Whether exactly these rows are read of a table, or this fault.
fn is_read(alloc: Global, table: &str, rows: &str) -> Result<bool, AllocError> {
    let read = reading(alloc, table.as_bytes())?;
    Ok(read.as_slice() == rows.as_bytes())
}

#[test]
fn reads_rows(rt: HostRuntime) -> Result<(), Fail> {
    for (table, rows) in [
        ("", ""),
        ("a,{3;1}", "[a]{3;1}"),
        ("a,{3;1}\n", "[a]{3;1}"),
        (
            "petersen,\"{3, 2; 1, 1}\"\nbad,\"{3,3;1,1}\"\nagain,\"{3,2;1,1}\"\n",
            "[petersen]{3,2;1,1}[bad]{3,3;1,1}[again]{3,2;1,1}",
        ),
        // The same name and the same array, twice.
        ("a,{3;1}\na,{3;1}", "[a]{3;1}[a]{3;1}"),
        // A space is a part of a field, and an array text can begin and end with some.
        ("a, {3;1} ", "[a]{3;1}"),
        // A quote that stays open ends with the text.
        ("a,\"{3;1}", "[a]{3;1}"),
    ] {
        assert!(rt; is_read(rt.alloc(), table, rows)?, "{table}");
    }
    Ok(())
}

#[test]
fn reads_line_ends_and_marks(rt: HostRuntime) -> Result<(), Fail> {
    for (table, rows) in [
        // A line ends with LF, CR LF or CR alone, and empty lines are no records.
        ("a,{3;1}\r\nb,{4;1}\r\n", "[a]{3;1}[b]{4;1}"),
        ("a,{3;1}\rb,{4;1}\r", "[a]{3;1}[b]{4;1}"),
        ("a,{3;1}\n\n\r\n\r\rb,{4;1}", "[a]{3;1}[b]{4;1}"),
        ("\n\r\n", ""),
        // A byte order mark at the start is dropped once, and nowhere else.
        ("\u{feff}a,{3;1}\n", "[a]{3;1}"),
        ("\u{feff}", ""),
        ("\u{feff}\u{feff}a,{3;1}", "[\u{feff}a]{3;1}"),
        ("a,{3;1}\n\u{feff}b,{4;1}", "[a]{3;1}[\u{feff}b]{4;1}"),
    ] {
        assert!(rt; is_read(rt.alloc(), table, rows)?, "{table}");
    }
    Ok(())
}

#[test]
fn reads_names(rt: HostRuntime) -> Result<(), Fail> {
    // Any bytes, also none, and nothing is taken off but quotes.
    let table =
        b",{3;1}\n\"\",{3;1}\n a b ,{3;1}\n\" a \",{3;1}\n\"a,b\",{3;1}\n\"a\"\"b\",{3;1}\n";
    let read = reading(rt.alloc(), table.as_slice())?;
    let rows = b"[]{3;1}[]{3;1}[ a b ]{3;1}[ a ]{3;1}[a,b]{3;1}[a\"b]{3;1}";
    assert_eq!(rt; read.as_slice(), rows.as_slice());
    let table =
        b"\"a\nb\r\nc\",{3;1}\n\"\n\",{3;1}\na\"b\",{3;1}\n\"a\"b,{3;1}\n\0\xff\xfe,{3;1}\n{3;1},{3;1}";
    let read = reading(rt.alloc(), table.as_slice())?;
    let rows = b"[a\nb\r\nc]{3;1}[\n]{3;1}[a\"b\"]{3;1}[ab]{3;1}[\0\xff\xfe]{3;1}[{3;1}]{3;1}";
    assert_eq!(rt; read.as_slice(), rows.as_slice());
    Ok(())
}

#[test]
fn refuses_other_counts_of_fields(rt: HostRuntime) -> Result<(), Fail> {
    for table in [
        "x",
        "x\n",
        " \n",
        "\"\"\n",
        "{3;1}",
        "a,{3;1},",
        "a,{3;1},b",
        "a,{3,2;1,1}",
        "a, \"{3,2;1,1}\"",
        "\u{feff}\n\nx",
    ] {
        assert!(rt; is_read(rt.alloc(), table, "1 0 ")?, "{table}");
    }
    Ok(())
}

#[test]
fn refuses_other_texts_of_arrays(rt: HostRuntime) -> Result<(), Fail> {
    for (table, fault) in [
        ("a,", "1 1 "),
        ("name,array\na,{3;1}", "1 1 "),
        ("a,\"{3,2;1}\"", "1 7 "),
        ("a,\"{3,0;1,1}\"", "1 4 "),
        ("a,\"{4096,1;1,1}\"", "1 5 "),
        ("a,{3;1", "1 5 "),
        // A line end in the field is not taken off.
        ("a,\"{3;1}\n\"", "1 6 "),
    ] {
        assert!(rt; is_read(rt.alloc(), table, fault)?, "{table}");
    }
    Ok(())
}

#[test]
fn names_the_first_record(rt: HostRuntime) -> Result<(), Fail> {
    // The first that is no row, by its number. Empty lines are not counted.
    for (table, fault) in [
        ("a,{3;1}\nb,{3;0}\nc", "2 4 "),
        ("a,{3;1}\nb\nc,{3;0}", "2 0 "),
        ("\n\na,{3;1}\r\n\r\nb,{3;1}\rc,{03;1}\n", "3 2 "),
    ] {
        assert!(rt; is_read(rt.alloc(), table, fault)?, "{table}");
    }
    Ok(())
}

/// A table of this many rows, of which each second one repeats an array.
fn long_table(alloc: Global, rows: u64) -> Result<Vec<u8>, AllocError> {
    let mut table = Vec::new(alloc);
    for number in 0..rows {
        write_number(number, &mut table)?;
        table.extend_from_slice(b",\"{")?;
        write_number(number / 2 % 4095 + 1, &mut table)?;
        table.extend_from_slice(b";1}\"\n")?;
    }
    Ok(table)
}

#[test]
fn reads_a_long_table(rt: HostRuntime) -> Result<(), Fail> {
    let table = long_table(rt.alloc(), 20_000)?;
    let rows = read_rows(rt.alloc(), table.as_slice()).unwrap_or(Vec::new(rt.alloc()));
    assert_eq!(rt; rows.len(), 20_000);
    let found = distinct(rt.alloc(), rows.as_slice())?;
    assert_eq!(rt; found.arrays().len(), 4095);
    assert_eq!(rt; found.places().len(), 20_000);
    Ok(())
}

#[test]
fn reads_a_long_name(rt: HostRuntime) -> Result<(), Fail> {
    let mut table = Vec::new(rt.alloc());
    for _byte in 0..200_000 {
        table.push(b'n')?;
    }
    table.extend_from_slice(b",{3;1}")?;
    let read = reading(rt.alloc(), table.as_slice())?;
    assert_eq!(rt; read.len(), 200_007);
    Ok(())
}

/// The distinct arrays of a table, and the places of its rows among them.
fn listing(alloc: Global, bytes: &[u8]) -> Result<Vec<u8>, AllocError> {
    let mut out = Vec::new(alloc);
    let rows = read_rows(alloc, bytes).unwrap_or(Vec::new(alloc));
    let found = distinct(alloc, rows.as_slice())?;
    for array in found.arrays() {
        array.write_text(&mut out)?;
    }
    for place in found.places() {
        write_number(*place as u64, &mut out)?;
    }
    Ok(out)
}

#[test]
fn lists_distinct_arrays(rt: HostRuntime) -> Result<(), Fail> {
    for (text, list) in [
        ("", ""),
        ("a,{3;1}", "{3;1}0 "),
        ("a,{3;1}\nb,{3;1}", "{3;1}0 0 "),
        (
            "a,{5;1}\nb,{3;1}\nc,{4;1}\nd,{3;1}\ne,{5;1}",
            "{5;1}{3;1}{4;1}0 1 2 1 0 ",
        ),
        // Spaces make no other array, an entry does, and so does its place.
        ("a,\"{3,2;1,1}\"\nb,\" { 3 , 2 ; 1 , 1 }\"", "{3,2;1,1}0 0 "),
        ("a,\"{3,2;1,1}\"\nb,\"{3,2;1,2}\"", "{3,2;1,1}{3,2;1,2}0 1 "),
        ("a,\"{3,2;1,1}\"\nb,\"{2,3;1,1}\"", "{3,2;1,1}{2,3;1,1}0 1 "),
        ("a,{1;2}\nb,{2;1}", "{1;2}{2;1}0 1 "),
        (
            "a,{1;1}\nb,\"{1,1;1,1}\"\nc,\"{1,1,1;1,1,1}\"",
            "{1;1}{1,1;1,1}{1,1,1;1,1,1}0 1 2 ",
        ),
    ] {
        let found = listing(rt.alloc(), text.as_bytes())?;
        assert_eq!(rt; found.as_slice(), list.as_bytes(), "{text}");
    }
    Ok(())
}

#[test]
fn lists_distinct_arrays_of_a_list(rt: HostRuntime) -> Result<(), Fail> {
    let mut list = Vec::new(rt.alloc());
    for _turn in 0..3 {
        for k in 1..4096 {
            list.push(Array::make(&[k], &[1]).expect(&rt, "an array"))?;
        }
    }
    let found = distinct_arrays(rt.alloc(), list.as_slice())?;
    assert_eq!(rt; found.arrays().len(), 4095);
    assert_eq!(rt; found.places().len(), 12_285);
    assert_eq!(rt; found.places()[4094], 4094);
    assert_eq!(rt; found.places()[4095], 0);
    assert_eq!(rt; found.places()[12_284], 4094);
    Ok(())
}

/// The table with these words for its distinct arrays, or nothing where there aren't as many.
fn rendered(alloc: Global, table: &[u8], words: &[&str]) -> Result<Vec<u8>, AllocError> {
    let rows = read_rows(alloc, table).unwrap_or(Vec::new(alloc));
    let found = distinct(alloc, rows.as_slice())?;
    let mut texts = Vec::new(alloc);
    for word in words {
        let mut text = Vec::new(alloc);
        text.extend_from_slice(word.as_bytes())?;
        texts.push(text)?;
    }
    if texts.len() != found.arrays().len() {
        return Ok(Vec::new(alloc));
    }
    render_rows(alloc, rows.as_slice(), &found, texts.as_slice())
}

#[test]
fn renders_rows(rt: HostRuntime) -> Result<(), Fail> {
    let words = ["survivor", "infeasible degree 1 counting"];
    let table = b"petersen,\"{3, 2; 1, 1}\"\nbad,\"{3,3;1,1}\"\nagain,\"{3,2;1,1}\"\n";
    let text = rendered(rt.alloc(), table.as_slice(), words.as_slice())?;
    let records =
        b"petersen,\"{3,2;1,1}\",survivor\nbad,\"{3,3;1,1}\",infeasible degree 1 counting\nagain,\"{3,2;1,1}\",survivor\n";
    assert_eq!(rt; text.as_slice(), records.as_slice());
    let none = rendered(rt.alloc(), b"", &[])?;
    assert_eq!(rt; none.len(), 0);
    Ok(())
}

#[test]
fn renders_names(rt: HostRuntime) -> Result<(), Fail> {
    // Names with commas, double quotes, line ends and spaces, and without a byte.
    let table =
        b"\"a,b\",{3;1}\r\n\"a\"\"b\",{4;1}\r\n\"a\nb\",{3;1}\n\"a\rb\",{3;1}\n,{4;1}\n a ,{3;1}";
    let text = rendered(rt.alloc(), table.as_slice(), &["x", "y"])?;
    let records =
        b"\"a,b\",{3;1},x\n\"a\"\"b\",{4;1},y\n\"a\nb\",{3;1},x\n\"a\rb\",{3;1},x\n,{4;1},y\n a ,{3;1},x\n";
    assert_eq!(rt; text.as_slice(), records.as_slice());
    Ok(())
}

#[test]
fn renders_a_long_table(rt: HostRuntime) -> Result<(), Fail> {
    let mut table = Vec::new(rt.alloc());
    for _row in 0..20_000 {
        table.extend_from_slice(b"a,{3;1}\n")?;
    }
    let text = rendered(rt.alloc(), table.as_slice(), &["survivor"])?;
    assert_eq!(rt; text.len(), 340_000);
    Ok(())
}

/// The value of each array of the list, from those of its distinct arrays, or none where there aren't as
/// many of these.
fn spread(alloc: Global, list: &[Array], values: &[u8]) -> Result<Vec<u8>, AllocError> {
    let found = distinct_arrays(alloc, list)?;
    if values.len() != found.arrays().len() {
        return Ok(Vec::new(alloc));
    }
    found.spread(alloc, values)
}

#[test]
fn spreads_values(rt: HostRuntime) -> Result<(), Fail> {
    let mut list = Vec::new(rt.alloc());
    for k in [5, 3, 4, 3, 5] {
        list.push(Array::make(&[k], &[1]).expect(&rt, "an array"))?;
    }
    let found = spread(rt.alloc(), list.as_slice(), &[7, 8, 9])?;
    assert_eq!(rt; found.as_slice(), [7, 8, 9, 8, 7].as_slice());
    Ok(())
}

#[test]
fn has_one_no_memory_fault(rt: HostRuntime) {
    assert!(rt; TableReadFault::from(AllocError) == TableReadFault::Memory);
}
