//! The laws of the lines.
ghost use Rattle.drg_rooms.specs.Laws.{AnswerOfTheRoom, ClosedHoldsNone, CombinationIsEquation, EffectOnTheRoom, KeepsSolutions, NoSolutionLeft};

/// A line that is met keeps every solution of the equations in an open branch, and makes no
/// equation that a solution doesn't meet.
pub fn keeping_law()
    ensures { KeepsSolutions }
{}

/// Lines that are met and close every branch leave no solution in the room of the beginning.
pub fn closing_law()
    ensures { NoSolutionLeft }
{}

/// A room that closes in one step holds no solution.
pub fn one_step_law()
    ensures { ClosedHoldsNone }
{}

/// What a line comes to, and what it makes, depends on the equations and on the room in hand alone;
/// the branches kept for later stay as they are. So a line can be tried on that room before it is
/// written.
pub fn hand_law()
    ensures answer { AnswerOfTheRoom }
    ensures effect { EffectOnTheRoom }
{}

/// A combination whose work numbers are in range is an equation.
pub fn combination_law()
    ensures { CombinationIsEquation }
{}
