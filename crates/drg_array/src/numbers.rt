//! Laws of the numbers of an array and of the conditions on them.

ghost use Rattle.drg_array.specs.NumberLaws.{NumbersExist, OneNumber, SizesMeet};
ghost use Rattle.drg_array.specs.Examples.{NumberOfFourOne, PetersenNumbers, PetersenSizes, SizeOfFiveFour};
ghost use Rattle.drg_array.specs.ConditionLaws.{FailsWhereFalse, HoldsWhereNoneFails};

/// Every array has intersection numbers for each upper index, whole or not, and no other ones; its
/// sizes meet `k_(i+1) c_(i+1) = k_i b_i`.
pub fn number_law()
    ensures sizes { SizesMeet }
    ensures exist { NumbersExist }
    ensures unique { OneNumber }
{}

/// The condition of a test holds of an array exactly where no claim of the test fails.
pub fn condition_law()
    ensures fails { FailsWhereFalse }
    ensures holds { HoldsWhereNoneFails }
{}

/// The Petersen graph's numbers, counted by hand, are those of its array; and two arrays fail size
/// and intersect at numbers found by hand.
pub fn example_law()
    ensures sizes { PetersenSizes }
    ensures numbers { PetersenNumbers }
    ensures size { SizeOfFiveFour }
    ensures number { NumberOfFourOne }
{}
