//! Laws of samples, for callers that need them.

ghost use Rattle.drg_sample.specs.Laws.{AsManyGenerated, CountsAddUp, DrawnIsArray, OneKind};

/// What is drawn is an array, and as many are generated as are asked for. Each number of a summary counts
/// one kind, and together they are the number of arrays.
pub fn sample_law()
    ensures drawn { DrawnIsArray }
    ensures as_many { AsManyGenerated }
    ensures one_kind { OneKind }
    ensures add_up { CountsAddUp }
{}
