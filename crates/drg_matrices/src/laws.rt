//! Laws of frames and of their faults.

ghost use Rattle.std.specs.Prelude.{ℕ};
ghost use Rattle.drg_matrices.specs.Frame.{OneFrame};
ghost use Rattle.drg_matrices.specs.Laws.{FaultsDontFit, NoFaultWhereAllFit, OneFault};

use drg_fraction::Field;

/// An array has at most one frame over a root.
pub fn one_frame<F: Field>()
    ensures { (root : ℕ) → F.HasRoot root → OneFrame (F.operations root) root }
{}

/// An array has one fault at most, apart from want of memory, and none where the formulas of all
/// quantities fit. The formula of the quantity that a fault names doesn't fit.
pub fn fault_law<F: Field>()
    ensures one { (root : ℕ) → OneFault (F.operations root) }
    ensures none { (root : ℕ) → NoFaultWhereAllFit (F.operations root) }
    ensures cause { (root : ℕ) → FaultsDontFit (F.operations root) }
{}
