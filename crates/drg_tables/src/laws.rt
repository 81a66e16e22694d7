//! Laws of tables, for callers that need them.

ghost use Rattle.drg_tables.specs.Laws.{NotBoth, OneFirstFault, OneListing, OneTable, RowsOrFault};

use drg_array::text_law;

/// A table has one list of rows, or one first record that is no row, and never both.
pub fn row_law()
    ensures one_table { OneTable }
    ensures one_fault { OneFirstFault }
    ensures either { RowsOrFault }
    ensures not_both { NotBoth }
{
    text_law();
}

/// A list of arrays has one list of its distinct arrays, and each array of the list one place there.
pub fn distinct_law()
    ensures { OneListing }
{}
