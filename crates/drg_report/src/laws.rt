//! A law of the texts, for callers' proofs. The function does nothing when it runs.

ghost use Rattle.drg_report.specs.Laws.{TextTellsKind};

/// The text of a report tells whether its verdict is infeasible, undecided, refused or a survivor.
pub fn kind_law()
    ensures { TextTellsKind }
{}
