//! Laws of the values of every exact field, at each of its roots.

ghost use Rattle.std.specs.Prelude.{ℕ};
ghost use Rattle.drg_matrix.specs.Laws.{CellsAreOver, OneKreinFamily, ProductIsSum, RightInverseIsLeft};
ghost use Rattle.drg_matrix.specs.Examples.{CompleteFrame, CompleteKrein, CompleteMultiplicities};

use drg_fraction::Field;

/// The values of a table are over its root, and a cell of a product of tables is the sum over l of the
/// products of cell l of a row and cell l of a column.
pub fn table_law<F: Field>()
    ensures over { CellsAreOver F.value F.operations F.root_of }
    ensures product { (root : ℕ) → F.HasRoot root
        → ProductIsSum F.value F.operations root }
{}

/// For square tables of values over a root, `P·Q = xI` with x not 0 gives `Q·P = xI`.
pub fn right_inverse_is_left<F: Field>()
    ensures { (root : ℕ) → F.HasRoot root → RightInverseIsLeft (F.operations root) }
{}

/// A frame of an array has at most one family of Krein numbers.
pub fn krein_law<F: Field>()
    ensures { (root : ℕ) → F.HasRoot root → OneKreinFamily (F.operations root) }
{}

/// The frame and the Krein numbers of the complete graph with 4 vertices, by hand.
pub fn example_law<F: Field>()
    ensures frame { (root : ℕ) → F.HasRoot root → CompleteFrame (F.operations root) }
    ensures multiplicities { (root : ℕ) → CompleteMultiplicities (F.operations root) }
    ensures krein { (root : ℕ) → F.HasRoot root → CompleteKrein (F.operations root) }
{}
