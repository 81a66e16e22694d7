//! The lines that name the equations of a system, and the line of a split.
ghost use Rattle.std.specs.Prelude.{◌≡◌, pos, IfOk};
ghost use Rattle.drg_derivation.specs.declared.line.Line.TheVariants.{Split};
ghost use Rattle.drg_solver.specs.Lines.{NameEach, line_of as the_line_of};

use drg_derivation::Line;
use drg_linear::{EquationName, System, Unknown};
use std::alloc::{AllocError, Global};

/// The line that makes an equation, by its name.
pub fn line_of(name: EquationName) -> Line
    ensures { result ≡ the_line_of name }
{
    match name {
        EquationName::Eq { a, x, y } => Line::Eq {
            a: i128::from(a),
            x: i128::from(x),
            y: i128::from(y),
        },
        EquationName::Keq { i, j, h, part } => Line::Keq {
            i: i128::from(i),
            j: i128::from(j),
            h: i128::from(h),
            part: i128::from(part),
        },
    }
}

/// The line of a split.
pub fn split_line(unknown: Unknown, at: i128) -> Line
    ensures { result ≡ Split (pos unknown.r) (pos unknown.s) (pos unknown.t) at }
{
    let Unknown { r, s, t } = unknown;
    Line::Split {
        r: i128::from(r),
        s: i128::from(s),
        t: i128::from(t),
        v: at,
    }
}

/// The lines that make all equations of the system, in their order.
pub fn names(alloc: Global, system: &System) -> Result<Vec<Line>, AllocError>
    ensures { IfOk result (λ lines. NameEach system.now lines.items system.now.equations) }
{
    let mut lines = Vec::new(alloc);
    'equations: for n in 0..system.equations().len() {
        lines.push(line_of(system.name(n)))?;
    }
    Ok(lines)
}
