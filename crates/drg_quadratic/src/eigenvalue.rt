ghost use Rattle.std.specs.Prelude.{◌≡◌, ◌≤◌, ◌<◌, ◌*◌, ◌^◌, pos, unsigned_abs};
ghost use Rattle.drg_quadratic.specs.Values.{IsRoot, none_prop};

use std::cmp::Ordering;

/// A value `(s + f√root)/2` with whole s and f. The root is a squarefree number above 1, or 0 where f
/// is 0. Over one root, different s and f are different values. The order is by root, and over one root
/// by value (`eigenvalues_are_ordered`).
#[derive(Clone, Copy, Debug, PartialEq, Eq)]
pub struct Eigenvalue {
    s: i32,
    f: i32,
    root: u32,
    pub ghost small_s: { unsigned_abs s ≤ 65536 },
    pub ghost small_f: { unsigned_abs f ≤ 65536 },
    pub ghost has_root: { IsRoot root },
    pub ghost flat: { root ≡ 0 → f ≡ pos 0 } by { none_prop root f },
}

impl Eigenvalue {
    ghost use Rattle.drg_quadratic.specs.Eigenvalue.{value_cmp, squares_cmp};

    /// The value `(s + f√root)/2`.
    pub fn make(s: i32, f: i32, root: u32) -> Eigenvalue
        requires s { unsigned_abs s ≤ 65536 }
        requires f { unsigned_abs f ≤ 65536 }
        requires root { IsRoot root }
        requires flat { root ≡ 0 → f ≡ pos 0 }
        ensures s { result.s ≡ s }
        ensures f { result.f ≡ f }
        ensures root { result.root ≡ root }
    {
        Eigenvalue { s, f, root }
    }

    /// The s of `(s + f√root)/2`, from -65,536 to 65,536.
    pub fn s(&self) -> i32
        ensures { result ≡ self.now.s }
    {
        self.s
    }

    /// The f of `(s + f√root)/2`, from -65,536 to 65,536.
    pub fn f(&self) -> i32
        ensures { result ≡ self.now.f }
    {
        self.f
    }

    /// The root of `(s + f√root)/2`, which is 0 only where f is 0.
    pub fn root(&self) -> u32
        ensures { result ≡ self.now.root }
    {
        self.root
    }

    // How the value stands to that of the other one, over one root.
    fn cmp_value(&self, other: &Eigenvalue) -> Ordering
        ensures { result ≡ value_cmp self.now other.now }
    {
        // Where s and f differ in opposite directions, the larger of the two squares decides.
        match (self.s.cmp(&other.s), self.f.cmp(&other.f)) {
            (Ordering::Greater, Ordering::Less) => self.cmp_squares(other),
            (Ordering::Less, Ordering::Greater) => self.cmp_squares(other).reverse(),
            (first, second) => first.then(second),
        }
    }

    // The square of the difference of the rational parts, against that of the multiples of √root.
    fn cmp_squares(&self, other: &Eigenvalue) -> Ordering
        ensures { result ≡ squares_cmp self.now other.now }
    {
        let rational = square(self.s.abs_diff(other.s));
        let multiple = u128::from(self.root) * square(self.f.abs_diff(other.f));
        rational.cmp(&multiple)
    }
}

// The square, below `2^64`.
fn square(x: u32) -> u128
    ensures value { result ≡ x * x }
    ensures range { result < 2 ^ 64 }
{
    let wide = u128::from(x);
    wide * wide
}

impl Ord for Eigenvalue {
    ghost use Rattle.std.specs.Prelude.{refl};
    ghost use Rattle.drg_quadratic.specs.Eigenvalue.{eigenvalue_cmp};
    ghost use Rattle.drg_quadratic.specs.EigenvalueLaws.{eigenvalues_total, eigenvalue_ties};

    ghost cmp = { eigenvalue_cmp };

    ghost total = { eigenvalues_total };

    ghost matches_partial_cmp = { λ x y. refl };

    ghost matches_eq = { eigenvalue_ties };

    fn cmp(&self, other: &Eigenvalue) -> Ordering {
        self.root.cmp(&other.root).then(self.cmp_value(other))
    }
}

impl PartialOrd for Eigenvalue {
    ghost use Rattle.std.specs.Ordering.{as_partial_cmp};
    ghost use Rattle.drg_quadratic.specs.Eigenvalue.{eigenvalue_cmp};
    ghost use Rattle.drg_quadratic.specs.EigenvalueLaws.{eigenvalues_partial};

    ghost partial_cmp = { as_partial_cmp eigenvalue_cmp };

    ghost laws = { eigenvalues_partial };

    fn partial_cmp(&self, other: &Eigenvalue) -> Option<Ordering> {
        Some(self.cmp(other))
    }
}
