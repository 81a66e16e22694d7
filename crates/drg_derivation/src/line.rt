//! The evidence lines of a derivation.

ghost use Rattle.std.specs.Prelude.{◌≡◌, ◌≤◌, ◌↔◌, ◌++◌, IsTrue, length};
ghost use Rattle.std.specs.List.{AllByRecursion};
ghost use Rattle.drg_derivation.specs.Integers.{IsShort};
ghost use Rattle.drg_derivation.specs.Lines.{kind_of, line_of, parts_of};
ghost use Rattle.drg_derivation.specs.Shapes.{first_of};

use crate::{Kind, NumberList};
use arrayvec::ArrayVec;

/// An evidence line, with its numbers in their order.
#[derive(Debug, Drop)]
pub enum Line {
    /// `k v_0 .. v_m`: the sizes from `k_0` on.
    K {
        values: NumberList,
    },
    /// `p h i v_0 .. v_d`: the intersection numbers `p^h_ij` for each j.
    P {
        h: i128,
        i: i128,
        values: NumberList,
    },
    /// `frame root`: the square root that the field numbers after it are made with, 0 for none.
    Frame {
        root: i128,
    },
    /// `theta i x`: an eigenvalue.
    Theta {
        i: i128,
        values: NumberList,
    },
    /// `prow i x_0 .. x_d`: a row of the eigenmatrix P.
    Prow {
        i: i128,
        values: NumberList,
    },
    /// `qrow r x_0 .. x_d`: a row of the dual eigenmatrix Q.
    Qrow {
        r: i128,
        values: NumberList,
    },
    /// `krein i j x_0 .. x_d`: the Krein parameters `q^h_ij` for each h.
    Krein {
        i: i128,
        j: i128,
        values: NumberList,
    },
    /// `eq a x y`: a counting equation of the triple type.
    Eq {
        a: i128,
        x: i128,
        y: i128,
    },
    /// `keq i j h part`: an equation of a vanishing Krein parameter.
    Keq {
        i: i128,
        j: i128,
        h: i128,
        part: i128,
    },
    /// `comb m n_1 f_1 .. n_m f_m`: a sum of m multiples of equations made before.
    Comb {
        m: i128,
        values: NumberList,
    },
    /// `low r s t v n`: by equation n the unknown is at least v.
    Low {
        r: i128,
        s: i128,
        t: i128,
        v: i128,
        n: i128,
    },
    /// `high r s t v n`: by equation n the unknown is at most v.
    High {
        r: i128,
        s: i128,
        t: i128,
        v: i128,
        n: i128,
    },
    /// `split r s t v`: the unknown is at most v, or above it.
    Split {
        r: i128,
        s: i128,
        t: i128,
        v: i128,
    },
    /// `miss n`: equation n can't hold in the room.
    Miss {
        n: i128,
    },
    /// `mod n g`: equation n can't hold modulo g.
    Mod {
        n: i128,
        g: i128,
    },
    /// `void r s t`: the unknown has no value left.
    Void {
        r: i128,
        s: i128,
        t: i128,
    },
}

/// The most numbers that lead in a line.
pub const MAX_LEADING: usize = 5;

/// A line's kind and its numbers, the leading ones and those that follow.
#[derive(Debug, Drop)]
pub struct Parts<'a> {
    pub kind: Kind,
    pub leading: ArrayVec<i128, MAX_LEADING>,
    pub tail: &'a [i128],
}

impl Line {
    /// The line of this kind with these numbers, of which it takes those that its kind has.
    pub(crate) fn of(kind: Kind, leading: [i128; MAX_LEADING], values: NumberList) -> Line
        ensures { result ≡ line_of kind leading values }
    {
        match (kind, leading) {
            (Kind::K, _) => Line::K { values },
            (Kind::P, [h, i, ..]) => Line::P { h, i, values },
            (Kind::Frame, [root, ..]) => Line::Frame { root },
            (Kind::Theta, [i, ..]) => Line::Theta { i, values },
            (Kind::Prow, [i, ..]) => Line::Prow { i, values },
            (Kind::Qrow, [r, ..]) => Line::Qrow { r, values },
            (Kind::Krein, [i, j, ..]) => Line::Krein { i, j, values },
            (Kind::Eq, [a, x, y, ..]) => Line::Eq { a, x, y },
            (Kind::Keq, [i, j, h, part, _]) => Line::Keq { i, j, h, part },
            (Kind::Comb, [m, ..]) => Line::Comb { m, values },
            (Kind::Low, [r, s, t, v, n]) => Line::Low { r, s, t, v, n },
            (Kind::High, [r, s, t, v, n]) => Line::High { r, s, t, v, n },
            (Kind::Split, [r, s, t, v, _]) => Line::Split { r, s, t, v },
            (Kind::Miss, [n, ..]) => Line::Miss { n },
            (Kind::Mod, [n, g, ..]) => Line::Mod { n, g },
            (Kind::Void, [r, s, t, ..]) => Line::Void { r, s, t },
        }
    }

    /// The kind and the numbers.
    pub(crate) fn parts(&self) -> Parts<'_>
        ensures kind { result.kind ≡ kind_of self.now }
        ensures leading { result.leading.items ≡ (parts_of self.now).leading }
        ensures tail { result.tail.now ≡ (parts_of self.now).tail }
    {
        match self {
            Line::K { values } => numbered(Kind::K, &[], values.as_slice()),
            Line::P { h, i, values } => numbered(Kind::P, &[*h, *i], values.as_slice()),
            Line::Frame { root } => numbered(Kind::Frame, &[*root], &[]),
            Line::Theta { i, values } => numbered(Kind::Theta, &[*i], values.as_slice()),
            Line::Prow { i, values } => numbered(Kind::Prow, &[*i], values.as_slice()),
            Line::Qrow { r, values } => numbered(Kind::Qrow, &[*r], values.as_slice()),
            Line::Krein { i, j, values } => numbered(Kind::Krein, &[*i, *j], values.as_slice()),
            Line::Eq { a, x, y } => numbered(Kind::Eq, &[*a, *x, *y], &[]),
            Line::Keq { i, j, h, part } => numbered(Kind::Keq, &[*i, *j, *h, *part], &[]),
            Line::Comb { m, values } => numbered(Kind::Comb, &[*m], values.as_slice()),
            Line::Low { r, s, t, v, n } => numbered(Kind::Low, &[*r, *s, *t, *v, *n], &[]),
            Line::High { r, s, t, v, n } => numbered(Kind::High, &[*r, *s, *t, *v, *n], &[]),
            Line::Split { r, s, t, v } => numbered(Kind::Split, &[*r, *s, *t, *v], &[]),
            Line::Miss { n } => numbered(Kind::Miss, &[*n], &[]),
            Line::Mod { n, g } => numbered(Kind::Mod, &[*n, *g], &[]),
            Line::Void { r, s, t } => numbered(Kind::Void, &[*r, *s, *t], &[]),
        }
    }

    /// The kind of the line.
    pub fn kind(&self) -> Kind
        ensures { result ≡ kind_of self.now }
    {
        self.parts().kind
    }
}

impl Parts<'_> {
    /// How many numbers the line has.
    pub fn count(&self) -> usize
        ensures { result ≡ length (self.now.leading.items ++ self.now.tail.now) }
    {
        self.leading.len() + self.tail.len()
    }

    /// The first number, or 0 where there is none.
    pub fn first(&self) -> i128
        ensures { result ≡ first_of (self.now.leading.items ++ self.now.tail.now) }
    {
        match self.leading.first() {
            Some(first) => *first,
            None => self.tail.first().copied().unwrap_or(0),
        }
    }

    /// Whether each number can be written: none is below -(2^127-1).
    pub fn is_short(&self) -> bool
        ensures { IsTrue result
            ↔ AllByRecursion IsShort (self.now.leading.items ++ self.now.tail.now) }
    {
        are_short(&self.leading) && are_short(self.tail)
    }
}

/// The parts of a line, which has at most five leading numbers.
fn numbered<'a>(kind: Kind, leading: &[i128], tail: &'a [i128]) -> Parts<'a>
    requires { length leading.now ≤ 5 }
    ensures kind { result.kind ≡ kind }
    ensures leading { result.leading.items ≡ leading.now }
    ensures tail { result.tail.now ≡ tail.now }
{
    let mut few = ArrayVec::new();
    'leading: for number in leading {
        few.push(*number);
    }
    Parts {
        kind,
        leading: few,
        tail,
    }
}

/// Whether each number can be written.
fn are_short(numbers: &[i128]) -> bool
    ensures { IsTrue result ↔ AllByRecursion IsShort numbers.now }
{
    numbers.iter().all(|number| *number != i128::MIN)
}
