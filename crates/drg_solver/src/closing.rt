//! How a leaf closes in one step, and the lines that close it.
ghost use Rattle.std.specs.Prelude.{◌≡◌, pos, IfOk};
ghost use Rattle.drg_solver.specs.Closings.{high_of, lines_of, low_of, void_of};

use drg_derivation::Line;
use drg_linear::Unknown;
use std::alloc::{AllocError, Global};

/// The least, or the greatest, value that an equation leaves to an unknown, with the number of the
/// equation.
#[derive(Clone, Copy, Debug)]
pub struct Bound {
    pub unknown: Unknown,
    pub number: i128,
    pub equation: usize,
}

/// How a leaf closes in one step.
#[derive(Clone, Copy, Debug)]
pub enum Closing {
    /// The equation with this number misses.
    Miss(usize),
    /// The equation with this number fails modulo g.
    Modulus { equation: usize, g: i128 },
    /// The least value of an unknown is above its greatest one.
    Values { low: Bound, high: Bound },
}

/// The number of an equation in a line.
pub fn number(n: usize) -> i128
    ensures { result ≡ pos n }
{
    n as i128
}

/// The line `low` of a least value.
pub fn low_line(low: Bound) -> Line
    ensures { result ≡ low_of low }
{
    let Unknown { r, s, t } = low.unknown;
    Line::Low {
        r: i128::from(r),
        s: i128::from(s),
        t: i128::from(t),
        v: low.number,
        n: number(low.equation),
    }
}

/// The line `high` of a greatest value.
pub fn high_line(high: Bound) -> Line
    ensures { result ≡ high_of high }
{
    let Unknown { r, s, t } = high.unknown;
    Line::High {
        r: i128::from(r),
        s: i128::from(s),
        t: i128::from(t),
        v: high.number,
        n: number(high.equation),
    }
}

/// The line `void` of an unknown.
pub fn void_line(unknown: Unknown) -> Line
    ensures { result ≡ void_of unknown }
{
    let Unknown { r, s, t } = unknown;
    Line::Void {
        r: i128::from(r),
        s: i128::from(s),
        t: i128::from(t),
    }
}

impl Closing {
    /// The lines that close the leaf.
    pub fn lines(self, alloc: Global) -> Result<Vec<Line>, AllocError>
        ensures { IfOk result (λ lines. lines.items ≡ lines_of self) }
    {
        let lines = match self {
            Closing::Miss(equation) => vec![in alloc;
                Line::Miss {
                    n: number(equation)
                },
            ]?,
            Closing::Modulus { equation, g } => vec![in alloc;
                Line::Mod {
                    n: number(equation),
                    g
                },
            ]?,
            Closing::Values { low, high } => {
                vec![in alloc; low_line(low), high_line(high), void_line(high.unknown)]?
            }
        };
        Ok(lines)
    }
}
