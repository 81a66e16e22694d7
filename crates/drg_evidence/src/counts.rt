//! The evidence lines of a claim on counts, from the numbers in hand.

ghost use Rattle.std.specs.Prelude.{◌≡◌, ◌≤◌, ◌-◌, suc, List, [], ◌∷◌, ◌++◌, length, IfOk, OnOk};
ghost use Rattle.drg_array.specs.Entries.{Entries};
ghost use Rattle.drg_derivation.specs.declared.line.Line.{Line as TheLine};
ghost use Rattle.drg_intersection.specs.FirstNumbers.{AreFirstNumbers, HasRow, IsFull};
ghost use Rattle.drg_intersection.specs.Numbers.{place};
ghost use Rattle.drg_evidence.specs.Lines.{AreLinesOf, AreRowLines, AreSizesAndRows, HasNumbersOf, IsRowLine, IsSizeLine};

use drg_array::Claim;
use drg_derivation::{Line, NumberList};
use drg_intersection::FirstNumbers;
use std::alloc::{AllocError, Global};

/// The lines of a derivation of this claim on counts, from numbers that reach as far as it asks.
/// The one error is want of memory.
pub fn count_lines(
    alloc: Global,
    claim: Claim,
    first: &FirstNumbers,
) -> Result<Vec<Line>, AllocError>
    requires made { HasNumbersOf first.now claim }
    ensures { IfOk result (λ lines. (a : Entries) → AreFirstNumbers a first.now →
        AreLinesOf a claim lines.items) }
{
    match claim {
        Claim::Size { i } => size_lines(alloc, first, usize::from(i)),
        Claim::Intersect { h, i, .. } => row_lines(alloc, first, h, usize::from(i)),
        Claim::Handshake { .. } => size_lines(alloc, first, first.d() + 1),
        Claim::Induced { i, .. } | Claim::Triangles { i } => size_and_row_lines(alloc, first, i),
        _ => Ok(Vec::new(alloc)),
    }
}

/// One line with the sizes `k_0` to `k_(i-1)`.
pub(crate) fn size_lines(
    alloc: Global,
    first: &FirstNumbers,
    i: usize,
) -> Result<Vec<Line>, AllocError>
    requires { i ≤ length first.now.sizes }
    ensures { IfOk result (λ lines. (a : Entries) → AreFirstNumbers a first.now →
        (line : TheLine) × (lines.items ≡ line ∷ []) × IsSizeLine a i line) }
{
    let values = NumberList::new(Vec::from_slice(alloc, &first.sizes()[..i])?);
    let mut lines = Vec::new(alloc);
    lines.push(Line::K { values })?;
    Ok(lines)
}

/// The lines with rows 1 to i-1 of h.
fn row_lines(alloc: Global, first: &FirstNumbers, h: u8, i: usize) -> Result<Vec<Line>, AllocError>
    requires h { h ≤ first.now.d }
    requires low { 1 ≤ i }
    requires high { i ≤ suc first.now.d }
    requires made { place first.now.d h i 0 ≤ length first.now.table }
    ensures { IfOk result (λ lines. (a : Entries) → AreFirstNumbers a first.now →
        AreRowLines a h 1 (i - 1) lines.items) }
{
    let mut lines = Vec::new(alloc);
    push_rows(alloc, first, h, i, &mut lines)?;
    Ok(lines)
}

/// The lines with all sizes and with rows 1 to i of h = i.
fn size_and_row_lines(alloc: Global, first: &FirstNumbers, i: u8) -> Result<Vec<Line>, AllocError>
    requires i { i ≤ first.now.d }
    requires full { IsFull first.now }
    ensures { IfOk result (λ lines. (a : Entries) → AreFirstNumbers a first.now →
        AreSizesAndRows a i i lines.items) }
{
    let mut lines = size_lines(alloc, first, first.d() + 1)?;
    push_rows(alloc, first, i, usize::from(i) + 1, &mut lines)?;
    Ok(lines)
}

/// Appends the lines with rows 1 to i-1 of h. After an error some of them are appended.
fn push_rows(
    alloc: Global,
    first: &FirstNumbers,
    h: u8,
    i: usize,
    lines: &mut Vec<Line>,
) -> Result<(), AllocError>
    requires h { h ≤ first.now.d }
    requires low { 1 ≤ i }
    requires high { i ≤ suc first.now.d }
    requires made { place first.now.d h i 0 ≤ length first.now.table }
    ensures { OnOk result ((a : Entries) → AreFirstNumbers a first.now →
        (rows : List TheLine) × (lines.new.items ≡ lines.old.items ++ rows)
        × AreRowLines a h 1 (i - 1) rows) }
{
    'rows: for l in 1..i {
        lines.push(row_line(alloc, first, h, l)?)?;
    }
    Ok(())
}

/// The line with row i of h.
fn row_line(alloc: Global, first: &FirstNumbers, h: u8, i: usize) -> Result<Line, AllocError>
    requires h { h ≤ first.now.d }
    requires i { i ≤ first.now.d }
    requires made { HasRow first.now h i }
    ensures { IfOk result (λ line. (a : Entries) → AreFirstNumbers a first.now →
        IsRowLine a h i line) }
{
    let values = Vec::from_slice(alloc, first.row(usize::from(h), i))?;
    Ok(Line::P {
        h: i128::from(h),
        i: i as i128,
        values: NumberList::new(values),
    })
}
