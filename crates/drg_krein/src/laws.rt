//! Laws of the formula of Krein parameters and of the faults.

ghost use Rattle.std.specs.Prelude.{ℕ};
ghost use Rattle.drg_krein.specs.Laws.{FaultsDontFit, FormulaGivesKrein, FormulaIsSymmetric, NoFaultWhereAllFit, OneFault};

use drg_fraction::Field;
use drg_matrix::right_inverse_is_left;

/// In a frame of an array the weighted sums over the products of three cosines are the Krein parameters,
/// and q^h_ij = q^h_ji.
pub fn formula_law<F: Field>()
    ensures gives { (root : ℕ) → F.HasRoot root → FormulaGivesKrein (F.operations root) root }
    ensures symmetric { (root : ℕ) → F.HasRoot root
        → FormulaIsSymmetric (F.operations root) root }
{
    right_inverse_is_left::<F>();
}

/// The Krein parameters of a frame have one fault at most, apart from want of memory, and none where
/// the formulas of all quantities fit. The formula of the quantity that a fault names doesn't fit.
pub fn fault_law<F: Field>()
    ensures one { (root : ℕ) → OneFault (F.operations root) }
    ensures none { (root : ℕ) → NoFaultWhereAllFit (F.operations root) }
    ensures cause { (root : ℕ) → FaultsDontFit (F.operations root) }
{}
