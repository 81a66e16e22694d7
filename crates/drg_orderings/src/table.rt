//! Tables with three indices, as far as their zeros go.

ghost use Rattle.std.specs.Prelude.{◌≡◌, ℕ, ◌≤◌, ◌↔◌, IsTrue};
ghost use Rattle.drg_orderings.specs.PPolynomial.{IsZeroNumber};
ghost use Rattle.drg_orderings.specs.QPolynomial.{IsZeroParameter};

use drg_array::MAX_DIAMETER;
use drg_fraction::Field;
use drg_intersection::Numbers;
use drg_krein::Krein;

/// A table with an entry for any three indices from 0 to d.
pub(crate) trait ZeroTable {
    // The greatest index d, and which entries are zero.
    ghost diameter: { Self → ℕ };

    ghost IsZero: { Self → ℕ → ℕ → ℕ → Type 0 };

    /// The greatest index.
    fn greatest(&self) -> usize
        ensures value { result ≡ diameter self.now }
        ensures short { result ≤ MAX_DIAMETER };

    /// Whether the entry at these indices is zero.
    fn is_zero(&self, h: usize, i: usize, j: usize) -> bool
        requires h { h ≤ diameter self.now }
        requires i { i ≤ diameter self.now }
        requires j { j ≤ diameter self.now }
        ensures { IsTrue result ↔ IsZero self.now h i j };
}

/// The intersection numbers p^h_ij.
impl ZeroTable for Numbers {
    ghost diameter = { λ numbers. numbers.d };

    ghost IsZero = { IsZeroNumber };

    fn greatest(&self) -> usize {
        self.d()
    }

    fn is_zero(&self, h: usize, i: usize, j: usize) -> bool {
        self.p(h, i, j) == 0
    }
}

/// The Krein parameters q^h_ij.
impl<F: Field> ZeroTable for Krein<F> {
    ghost diameter = { λ krein. krein.d };

    ghost IsZero = { IsZeroParameter F.value F.operations };

    fn greatest(&self) -> usize {
        self.d()
    }

    fn is_zero(&self, h: usize, i: usize, j: usize) -> bool {
        self.q(i, j, h).is_zero()
    }
}
