//! Residues of numbers of any size, for divisibility of sums and products that may be too wide.

ghost use Rattle.std.specs.Prelude.{ℤ, ◌≡◌, ◌<◌, ◌↔◌, ◌+ℤ◌, ◌*ℤ◌, pos, IsTrue};
ghost use Rattle.drg_whole.specs.Division.{Divides};
ghost use Rattle.drg_whole.specs.Residues.{IsResidue, residue};
ghost use Rattle.drg_whole.specs.Sums.{sum_from};

/// The number from 0 to `modulus - 1` that differs from a whole number by a multiple of the modulus.
#[derive(Clone, Copy, Debug, PartialEq, Eq)]
pub struct Residue {
    pub modulus: u16,
    pub value: u16,
    pub ghost below: { value < modulus },
}

impl Residue {
    ghost use Rattle.drg_whole.specs.ResidueOf.{IsResidueOf};

    /// The residue of a number.
    pub fn of(number: i128, modulus: u16) -> Residue
        requires { 0 < modulus }
        ensures modulus { result.modulus ≡ modulus }
        ensures value { result.value ≡ residue modulus number }
        ensures residue { IsResidue modulus number result.value }
    {
        Residue {
            modulus,
            value: number.rem_euclid(i128::from(modulus)) as u16,
        }
    }

    /// The residue of a sum, from those of its terms.
    pub fn plus(self, other: Residue) -> Residue
        requires { self.modulus ≡ other.modulus }
        ensures modulus { result.modulus ≡ self.modulus }
        ensures value { (x y : ℤ) → IsResidueOf self x → IsResidueOf other y → IsResidueOf result (x +ℤ y) }
    {
        Residue {
            modulus: self.modulus,
            value: ((u32::from(self.value) + u32::from(other.value))
                % u32::from(self.modulus)) as u16,
        }
    }

    /// The residue of a product, from those of its factors.
    pub fn times(self, other: Residue) -> Residue
        requires { self.modulus ≡ other.modulus }
        ensures modulus { result.modulus ≡ self.modulus }
        ensures value { (x y : ℤ) → IsResidueOf self x → IsResidueOf other y → IsResidueOf result (x *ℤ y) }
    {
        Residue {
            modulus: self.modulus,
            value: (u32::from(self.value) * u32::from(other.value)
                % u32::from(self.modulus)) as u16,
        }
    }

    /// The residue of the numbers added to a total, from that of the total.
    pub fn plus_all(self, numbers: &[i128]) -> Residue
        ensures modulus { result.modulus ≡ self.modulus }
        ensures value { (x : ℤ) → IsResidueOf self x → IsResidueOf result (sum_from x numbers.now) }
    {
        let mut sum = self;
        'numbers: for number in numbers {
            sum = sum.plus(Residue::of(*number, self.modulus));
        }
        sum
    }

    /// Whether the modulus divides the numbers that have this residue.
    pub fn is_zero(self) -> bool
        ensures zero { IsTrue result ↔ (self.value ≡ 0) }
        ensures divides { (x : ℤ) → IsResidueOf self x → IsTrue result ↔ Divides (pos self.modulus) x }
    {
        self.value == 0
    }
}
