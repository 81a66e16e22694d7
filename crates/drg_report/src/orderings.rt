//! The lines of P- and Q-polynomial orderings.

ghost use Rattle.std.specs.Prelude.{◌≡◌, ◌++◌, decimal, OnOk, OnErr};
ghost use Rattle.drg_algebra.specs.Beginnings.{BeginsWith};
ghost use Rattle.drg_report.specs.Pieces.{spaced};
ghost use Rattle.drg_report.specs.OrderingTexts.{indices_text, ordering_line, ordering_lines, p_lines, q_lines};

use drg_orderings::{Orderings, PolynomialOrdering};
use itoa::Buffer;
use std::alloc::AllocError;

/// Appends a line for each P-polynomial ordering.
pub(crate) fn write_p_lines(orderings: &Orderings, out: &mut Vec<u8>) -> Result<(), AllocError>
    ensures ok { OnOk result (out.new.items ≡ out.old.items ++ p_lines orderings.now) }
    ensures err { OnErr result (BeginsWith (p_lines orderings.now) out.old.items out.new.items) }
{
    write_ordering_lines(b"ppoly", orderings.as_slice(), out)
}

/// Appends a line for each Q-polynomial ordering, where there are any.
pub(crate) fn write_q_lines(
    orderings: &Option<Orderings>,
    out: &mut Vec<u8>,
) -> Result<(), AllocError>
    ensures ok { OnOk result (out.new.items ≡ out.old.items ++ q_lines orderings.now) }
    ensures err { OnErr result (BeginsWith (q_lines orderings.now) out.old.items out.new.items) }
{
    match orderings {
        None => Ok(()),
        Some(orderings) => write_ordering_lines(b"qpoly", orderings.as_slice(), out),
    }
}

/// Appends a line for each ordering, which begins with the word.
fn write_ordering_lines(
    word: &[u8],
    orderings: &[PolynomialOrdering],
    out: &mut Vec<u8>,
) -> Result<(), AllocError>
    ensures ok { OnOk result
        (out.new.items ≡ out.old.items ++ ordering_lines word.now orderings.now) }
    ensures err { OnErr result
        (BeginsWith (ordering_lines word.now orderings.now) out.old.items out.new.items) }
{
    'orderings: for ordering in orderings {
        write_ordering_line(word, ordering, out)?;
    }
    Ok(())
}

/// Appends the line of the word and of an ordering.
fn write_ordering_line(
    word: &[u8],
    ordering: &PolynomialOrdering,
    out: &mut Vec<u8>,
) -> Result<(), AllocError>
    ensures ok { OnOk result
        (out.new.items ≡ out.old.items ++ ordering_line word.now ordering.now) }
    ensures err { OnErr result
        (BeginsWith (ordering_line word.now ordering.now) out.old.items out.new.items) }
{
    out.extend_from_slice(word)?;
    write_indices(ordering.as_slice(), out)?;
    out.extend_from_slice(b"\n")
}

/// Appends the indices, with one space before each.
fn write_indices(indices: &[u8], out: &mut Vec<u8>) -> Result<(), AllocError>
    ensures ok { OnOk result (out.new.items ≡ out.old.items ++ indices_text indices.now) }
    ensures err { OnErr result
        (BeginsWith (indices_text indices.now) out.old.items out.new.items) }
{
    'indices: for index in indices {
        write_index(*index, out)?;
    }
    Ok(())
}

/// Appends a space and the index.
fn write_index(index: u8, out: &mut Vec<u8>) -> Result<(), AllocError>
    ensures ok { OnOk result (out.new.items ≡ out.old.items ++ spaced (decimal index)) }
    ensures err { OnErr result (BeginsWith (spaced (decimal index)) out.old.items out.new.items) }
{
    out.push(b' ')?;
    out.extend_from_slice(Buffer::new().format(index).as_bytes())
}
