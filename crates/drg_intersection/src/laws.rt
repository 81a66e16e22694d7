//! Laws of the numbers and the faults.

ghost use Rattle.drg_intersection.specs.Laws.{NoFaultWhereAllPass, OneFault, OneTable};

/// An array has one fault at most, apart from want of memory, and none where all its numbers pass.
pub fn fault_law()
    ensures one { OneFault }
    ensures none { NoFaultWhereAllPass }
{}

/// The numbers of an array are one.
pub fn table_law()
    ensures { OneTable }
{}
