//! Laws of texts and answers.

ghost use Rattle.drg_edges.specs.Laws.{ArrayLaw, NoFault, OneAnswer, OneFault, OneGraph};

/// A text is that of one graph, or has one fault; want of memory may come besides.
pub fn edge_text_law()
    ensures one { OneGraph }
    ensures one_fault { OneFault }
    ensures no_fault { NoFault }
{}

/// A graph has one answer, and this is an array exactly where the graph is distance-regular with
/// it.
pub fn answer_law()
    ensures one { OneAnswer }
    ensures array { ArrayLaw }
{}
