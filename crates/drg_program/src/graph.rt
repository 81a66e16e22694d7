ghost use Rattle.std.specs.Prelude.{◌≡◌, ℕ, List, Some, IfOk};
ghost use Rattle.drg_program.specs.Graph.{IsRightAnswer, graph_status};
ghost use Rattle.drg_program.specs.Input.{AreBytesOf, HasCauses};
ghost use Rattle.drg_program.specs.Run.{Ends, Finds};
ghost use Rattle.drg_words.specs.declared.command.Command.TheVariants.{Graph as GraphCommand};

use crate::Status;
use crate::graph_text::graph_line;
use crate::input::read_input;
use crate::output::{EarlyRefusal, Output};
use drg_edges::{Graph, GraphAnswer, GraphFault, answer_law, array_of, edge_text_law, read_graph};
use drg_outside::Inputs;
use drg_words::FileName;
use std::alloc::{AllocError, Global};

/// Answers on the graph whose edges the file lists.
pub fn graph_file<I: Inputs>(
    alloc: Global,
    inputs: &mut I,
    file: &FileName<'_>,
) -> Result<Output, EarlyRefusal>
    ensures output { (bytes : List ℕ) × AreBytesOf (I.files inputs.old) file.now bytes
        × Ends (GraphCommand file.now) bytes result }
    ensures causes { HasCauses (Some file.now) (I.files inputs.old)
        (I.open_faults inputs.old) (I.open_faults inputs.new)
        (I.read_faults inputs.old) (I.read_faults inputs.new) result }
    ensures same_files { I.files inputs.new ≡ I.files inputs.old }
{
    let bytes = read_input(alloc, inputs, file.as_str())?;
    answer_edges(alloc, &bytes)
}

/// Answers on the graph whose edges these bytes list.
fn answer_edges(alloc: Global, bytes: &[u8]) -> Result<Output, EarlyRefusal>
    ensures { (file : List ℕ) → Finds (GraphCommand file) bytes.now result }
{
    edge_text_law();
    let graph = match read_graph(alloc, bytes) {
        Ok(graph) => graph,
        Err(GraphFault::Bad { line }) => return Err(EarlyRefusal::BadInput { line, at: 0 }),
        Err(GraphFault::Memory) => return Err(EarlyRefusal::Memory),
    };
    let answer = right_answer(alloc, &graph)?;
    let text = graph_line(alloc, &answer)?;
    Ok(Output {
        status: status_of(&answer),
        text,
    })
}

/// The one answer on the graph.
fn right_answer(alloc: Global, graph: &Graph) -> Result<GraphAnswer, AllocError>
    ensures { IfOk result (IsRightAnswer graph.now) }
{
    answer_law();
    array_of(alloc, graph)
}

/// The status with which an answer is told.
fn status_of(answer: &GraphAnswer) -> Status
    ensures { result ≡ graph_status answer.now }
{
    match answer {
        GraphAnswer::Array(_) => Status::Accepted,
        GraphAnswer::Single
        | GraphAnswer::Apart { .. }
        | GraphAnswer::Differ { .. }
        | GraphAnswer::Far { .. } => Status::Rejected,
    }
}
