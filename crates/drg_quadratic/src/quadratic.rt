ghost use Rattle.std.specs.Prelude.{◌≡◌, pos};
ghost use Rattle.drg_algebra.specs.Rational.{whole};
ghost use Rattle.drg_fraction.specs.Fraction.{rational_of};
ghost use Rattle.drg_whole.specs.Range.{Gives};
ghost use Rattle.drg_quadratic.specs.Values.{IsRoot, flat_prop, conjugate, norm};
ghost use Rattle.drg_quadratic.specs.Work.{norm_fits};

use crate::parts::{root_times, sign};
use drg_fraction::{Field, Fraction, Wide};
use std::cmp::Ordering;

/// A value `a + b√root` with rational a and b. The root is a squarefree number above 1, or 0 where b
/// is 0.
#[derive(Clone, Copy, Debug, PartialEq, Eq)]
pub struct Quadratic {
    a: Fraction,
    b: Fraction,
    root: u32,
    pub ghost has_root: { IsRoot root },
    pub ghost flat: { root ≡ 0 → rational_of b ≡ whole (pos 0) } by { flat_prop root (rational_of b) },
}

impl Quadratic {
    ghost use Rattle.drg_quadratic.specs.Quadratic.{value_of, root_of};

    /// The value `a + b√root`.
    pub fn make(a: Fraction, b: Fraction, root: u32) -> Quadratic
        requires root { IsRoot root }
        requires flat { root ≡ 0 → rational_of b ≡ whole (pos 0) }
        ensures a { (value_of result).a ≡ rational_of a }
        ensures b { (value_of result).b ≡ rational_of b }
        ensures root { root_of result ≡ root }
    {
        Quadratic { a, b, root }
    }

    /// The a of `a + b√root`.
    pub fn a(&self) -> Fraction
        ensures { rational_of result ≡ (value_of self.now).a }
    {
        self.a
    }

    /// The b of `a + b√root`.
    pub fn b(&self) -> Fraction
        ensures { rational_of result ≡ (value_of self.now).b }
    {
        self.b
    }

    // The value `a - b√root`.
    fn conjugate(self) -> Quadratic
        ensures value { value_of result ≡ conjugate (value_of self) }
        ensures root { root_of result ≡ root_of self }
    {
        Quadratic {
            a: self.a,
            b: self.b.negated(),
            root: self.root,
        }
    }

    // The number `a² - root b²`.
    fn norm(self) -> Result<Fraction, Wide>
        ensures { Gives rational_of result
            (norm_fits (root_of self) (value_of self)) (norm (root_of self) (value_of self)) }
    {
        let square = self.a.squared()?;
        let scaled = root_times(self.root, self.b.squared()?)?;
        square.sub(scaled)
    }
}

/// The exact field of the values over a root.
impl Field for Quadratic {
    ghost use Rattle.drg_quadratic.specs.Values.{Value};
    ghost use Rattle.drg_quadratic.specs.Operations.{value_operations};
    ghost use Rattle.drg_quadratic.specs.Laws.{value_laws};
    ghost use Rattle.drg_quadratic.specs.Quadratic.{value_of, root_of, one_quadratic};

    ghost V = { Value };

    ghost value = { value_of };

    ghost root_of = { root_of };

    ghost HasRoot = { IsRoot };

    ghost operations = { value_operations };

    ghost laws = { value_laws };

    ghost has_root = { λ q. q.has_root };

    ghost over = { λ q. q.flat };

    ghost one_member = { one_quadratic };

    fn root(&self) -> u32 {
        self.root
    }

    fn of_int(root: u32, v: i128) -> Quadratic {
        Quadratic {
            a: Fraction::of_int(0, v),
            b: Fraction::of_int(0, 0),
            root,
        }
    }

    fn of_halves(root: u32, s: i128, f: i128) -> Quadratic {
        Quadratic {
            a: Fraction::make(s, 2),
            b: Fraction::make(f, 2),
            root,
        }
    }

    fn of_parts(root: u32, a: Fraction, b: Fraction) -> Quadratic {
        Quadratic { a, b, root }
    }

    fn add(self, other: Quadratic) -> Result<Quadratic, Wide> {
        Ok(Quadratic {
            a: self.a.add(other.a)?,
            b: self.b.add(other.b)?,
            root: self.root,
        })
    }

    fn sub(self, other: Quadratic) -> Result<Quadratic, Wide> {
        Ok(Quadratic {
            a: self.a.sub(other.a)?,
            b: self.b.sub(other.b)?,
            root: self.root,
        })
    }

    fn mul(self, other: Quadratic) -> Result<Quadratic, Wide> {
        let rational = self.a.mul(other.a)?;
        let squares = root_times(self.root, self.b.mul(other.b)?)?;
        let a = rational.add(squares)?;
        let left = self.a.mul(other.b)?;
        let right = self.b.mul(other.a)?;
        let b = left.add(right)?;
        Ok(Quadratic {
            a,
            b,
            root: self.root,
        })
    }

    fn div(self, other: Quadratic) -> Result<Quadratic, Wide> {
        let norm = other.norm()?;
        let product = self.mul(other.conjugate())?;
        Ok(Quadratic {
            a: product.a.div(norm)?,
            b: product.b.div(norm)?,
            root: self.root,
        })
    }

    fn is_zero(&self) -> bool {
        self.a.is_zero() && self.b.is_zero()
    }

    fn same(&self, other: Quadratic) -> bool {
        self.a.same(other.a) && self.b.same(other.b)
    }

    fn sign(&self) -> Result<Ordering, Wide> {
        // Where the signs of the parts are opposite, the larger of a² and root b² has it.
        match (sign(self.a), sign(self.b)) {
            (Ordering::Greater, Ordering::Less) => Ok(sign(self.norm()?)),
            (Ordering::Less, Ordering::Greater) => Ok(sign(self.norm()?).reverse()),
            (first, second) => Ok(first.then(second)),
        }
    }

    fn as_int(&self) -> Option<i128> {
        if self.b.is_zero() {
            self.a.as_int()
        } else {
            None
        }
    }

    fn parts(&self) -> (Fraction, Fraction) {
        (self.a, self.b)
    }
}
