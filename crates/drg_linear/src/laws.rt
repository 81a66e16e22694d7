//! Laws of the definitions.
ghost use Rattle.drg_linear.specs.Laws.{CeilingIsLeast, FloorIsGreatest, SumsBoundValue};
ghost use Rattle.drg_linear.specs.Triples.{EquationsBound};

/// The quotient rounded up is the least whole number that reaches it, and the one rounded down the
/// greatest that doesn't pass it, for numbers and divisors of either sign.
pub fn rounding_law()
    ensures ceiling { CeilingIsLeast }
    ensures floor { FloorIsGreatest }
{}

/// In a room the value of the terms lies between their least and their greatest sum.
pub fn range_law()
    ensures { SumsBoundValue }
{}

/// Numbers from 0 that meet all counting equations of a type stay within the high bounds.
pub fn bounds_law()
    ensures { EquationsBound }
{}
