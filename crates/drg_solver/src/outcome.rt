//! The answers of a search.

use drg_derivation::Line;
use drg_linear::{Assignment, Branching};

/// The answer of a search.
#[derive(Debug, Drop)]
pub enum Outcome {
    /// These numbers solve the system.
    Solution(Assignment),
    /// The system has no solution. The lines name equations of the system by `eq` and `keq` lines,
    /// and then close every branch.
    Closed(Vec<Line>),
    /// So many branches were opened, as many as the budget, and a further one is wanted. These splits
    /// were made, in this order.
    Spent {
        branches: u32,
        splits: Vec<Branching>,
    },
}
