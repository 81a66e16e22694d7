ghost use Rattle.drg_quadratic.specs.ZeroLaws.{ZeroByParts, ZeroByNorm};
ghost use Rattle.std.specs.Prelude.{ℕ};
ghost use Rattle.drg_fraction.specs.Rationals.{rational_operations};
ghost use Rattle.drg_quadratic.specs.Values.{IsRoot};
ghost use Rattle.drg_quadratic.specs.Operations.{value_operations};
ghost use Rattle.drg_quadratic.specs.Eigenvalue.{OrderOfEigenvalues, OneEigenvalue, TwiceEigenvalue};
ghost use Rattle.drg_quadratic.specs.EigenvalueFields.{ValuesDescend, ComparisonsFit};

use drg_fraction::Field;

/// Over a root, `a + b√root` is 0 exactly where a and b are, and `a² - root b²` is 0 only there.
pub fn zero_by_parts()
    ensures parts { ZeroByParts }
    ensures norm { ZeroByNorm }
{}

/// Eigenvalues are ordered by root, and over one root by value. Over one root, a value has one pair of
/// s and f, and twice the value is `s + f√root`.
pub fn eigenvalues_are_ordered()
    ensures order { OrderOfEigenvalues }
    ensures one { OneEigenvalue }
    ensures twice { TwiceEigenvalue }
{}

/// In each exact field the values of eigenvalues over one root descend where the eigenvalues do.
pub fn values_descend<F: Field>()
    ensures { (root : ℕ) → F.HasRoot root → ValuesDescend (F.operations root) root }
{}

/// Two eigenvalues over one root can always be compared by the sign of their difference: neither is
/// ever `Wide`.
pub fn comparisons_fit()
    ensures fractions { ComparisonsFit rational_operations 0 }
    ensures quadratics { (root : ℕ) → IsRoot root → ComparisonsFit (value_operations root) root }
{}
