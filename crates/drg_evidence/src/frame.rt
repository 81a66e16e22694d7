//! The lines of a frame.

ghost use Rattle.std.specs.Prelude.{◌≡◌, ◌≤◌, ◌++◌, suc, pos, [], IfOk, OnOk};
ghost use Rattle.drg_array.specs.Entries.{Entries};
ghost use Rattle.drg_fraction.specs.Fraction.{rational_of};
ghost use Rattle.drg_intersection.specs.FirstNumbers.{AreFirstNumbers, IsFull};
ghost use Rattle.drg_matrices.specs.Tables.{diameter_of, root_of_tables};
ghost use Rattle.drg_evidence.specs.FrameLines.{dual_line as the_dual_line, eigen_line as the_eigen_line, field_numbers, fraction_numbers, frame_lines, lines_from, row_numbers, theta_line as the_theta_line};
ghost use Rattle.drg_evidence.specs.FrameValues.{by_parts, values_of};
ghost use Rattle.drg_evidence.specs.Lines.{AreSizesAndFrame};

use crate::counts::size_lines;
use drg_derivation::{Line, NumberList};
use drg_fraction::{Field, Fraction};
use drg_intersection::FirstNumbers;
use drg_matrices::Frame;
use std::alloc::{AllocError, Global};

/// The lines of a derivation of a claim of the test mult, from all numbers of an array and its
/// frame: a `k` line with all sizes, and then the lines of the frame. The one error is want of
/// memory.
pub fn mult_lines<F: Field>(
    alloc: Global,
    first: &FirstNumbers,
    frame: &Frame<F>,
) -> Result<Vec<Line>, AllocError>
    requires full { IsFull first.now }
    requires diameter { diameter_of frame.now ≡ first.now.d }
    ensures { IfOk result (λ lines. (a : Entries) → AreFirstNumbers a first.now
        → AreSizesAndFrame a (values_of F.value F.operations frame.now) lines.items) }
{
    let mut lines = size_lines(alloc, first, first.d() + 1)?;
    push_frame(alloc, frame, &mut lines)?;
    Ok(lines)
}

/// Appends the lines of the frame: `frame`, and then all lines `theta`, `prow` and `qrow`. After an
/// error some of them are appended.
fn push_frame<F: Field>(
    alloc: Global,
    frame: &Frame<F>,
    lines: &mut Vec<Line>,
) -> Result<(), AllocError>
    ensures { OnOk result (lines.new.items ≡ lines.old.items
        ++ frame_lines (diameter_of frame.now) (values_of F.value F.operations frame.now)) }
{
    lines.push(Line::Frame {
        root: i128::from(frame.root()),
    })?;
    push_thetas(alloc, frame, lines)?;
    push_eigen(alloc, frame, lines)?;
    push_dual(alloc, frame, lines)?;
    Ok(())
}

/// Appends the lines `theta`.
fn push_thetas<F: Field>(
    alloc: Global,
    frame: &Frame<F>,
    lines: &mut Vec<Line>,
) -> Result<(), AllocError>
    ensures { let d = diameter_of frame.now in
        let line = the_theta_line d (values_of F.value F.operations frame.now) in
        OnOk result (lines.new.items ≡ lines.old.items ++ lines_from line 0 (suc d)) }
{
    'indices: for i in 0..frame.d() + 1 {
        lines.push(theta_line(alloc, frame, i)?)?;
    }
    Ok(())
}

/// The line with the eigenvalue θ_i.
fn theta_line<F: Field>(alloc: Global, frame: &Frame<F>, i: usize) -> Result<Line, AllocError>
    requires { i ≤ diameter_of frame.now }
    ensures { IfOk result (λ line. line
        ≡ the_theta_line (diameter_of frame.now) (values_of F.value F.operations frame.now) i) }
{
    let mut numbers = Vec::new(alloc);
    push_value(frame.theta(i), &mut numbers)?;
    Ok(Line::Theta {
        i: i as i128,
        values: NumberList::new(numbers),
    })
}

/// Appends the lines `prow`.
fn push_eigen<F: Field>(
    alloc: Global,
    frame: &Frame<F>,
    lines: &mut Vec<Line>,
) -> Result<(), AllocError>
    ensures { let d = diameter_of frame.now in
        let line = the_eigen_line d (values_of F.value F.operations frame.now) in
        OnOk result (lines.new.items ≡ lines.old.items ++ lines_from line 0 (suc d)) }
{
    'indices: for i in 0..frame.d() + 1 {
        lines.push(eigen_line(alloc, frame, i)?)?;
    }
    Ok(())
}

/// The line with row i of P.
fn eigen_line<F: Field>(alloc: Global, frame: &Frame<F>, i: usize) -> Result<Line, AllocError>
    requires { i ≤ diameter_of frame.now }
    ensures { IfOk result (λ line. line
        ≡ the_eigen_line (diameter_of frame.now) (values_of F.value F.operations frame.now) i) }
{
    let mut numbers = Vec::new(alloc);
    'entries: for j in 0..frame.d() + 1 {
        push_value(frame.eigen(i, j), &mut numbers)?;
    }
    Ok(Line::Prow {
        i: i as i128,
        values: NumberList::new(numbers),
    })
}

/// Appends the lines `qrow`.
fn push_dual<F: Field>(
    alloc: Global,
    frame: &Frame<F>,
    lines: &mut Vec<Line>,
) -> Result<(), AllocError>
    ensures { let d = diameter_of frame.now in
        let line = the_dual_line d (values_of F.value F.operations frame.now) in
        OnOk result (lines.new.items ≡ lines.old.items ++ lines_from line 0 (suc d)) }
{
    'indices: for r in 0..frame.d() + 1 {
        lines.push(dual_line(alloc, frame, r)?)?;
    }
    Ok(())
}

/// The line with row r of Q.
fn dual_line<F: Field>(alloc: Global, frame: &Frame<F>, r: usize) -> Result<Line, AllocError>
    requires { r ≤ diameter_of frame.now }
    ensures { IfOk result (λ line. line
        ≡ the_dual_line (diameter_of frame.now) (values_of F.value F.operations frame.now) r) }
{
    let mut numbers = Vec::new(alloc);
    'entries: for i in 0..frame.d() + 1 {
        push_value(frame.dual(r, i), &mut numbers)?;
    }
    Ok(Line::Qrow {
        r: r as i128,
        values: NumberList::new(numbers),
    })
}

/// Appends the numbers of a value: numerator and denominator of the a of `a + b√root` and, where the
/// root isn't 0, those of the b.
fn push_value<F: Field>(value: F, numbers: &mut Vec<i128>) -> Result<(), AllocError>
    ensures { let root = F.root_of value in
        OnOk result (numbers.new.items ≡ numbers.old.items
        ++ field_numbers root (by_parts (F.operations root) (F.value value))) }
{
    let (a, b) = value.parts();
    push_fraction(a, numbers)?;
    if value.root() != 0 {
        push_fraction(b, numbers)?;
    }
    Ok(())
}

/// Appends the numerator and the denominator of a fraction.
fn push_fraction(fraction: Fraction, numbers: &mut Vec<i128>) -> Result<(), AllocError>
    ensures { OnOk result
        (numbers.new.items ≡ numbers.old.items ++ fraction_numbers (rational_of fraction)) }
{
    numbers.push(fraction.num())?;
    numbers.push(fraction.den())?;
    Ok(())
}
