//! The program as one call, over whatever inputs and sink are handed in.
//!
//! [`run`] reads the words of a command and its file, and writes what the command finds. Its contract
//! says what each [`Status`] means of the input, when each refusal comes, and which bytes were written.
//! The words that ask for a command stand in `specs/Words.antt`, the input and why it can't be had in
//! `specs/Input.antt`, what `check` finds of an array in `specs/Check.antt`, what `replay` finds of a
//! derivation in `specs/Replay.antt` with its line in `specs/AnswerText.antt`, what `graph` finds of a
//! graph in `specs/Graph.antt` with its line in `specs/GraphText.antt`, what `census` finds in
//! `specs/Census.antt`, what `classical` finds in `specs/Classical.antt`, what `table` finds in
//! `specs/Table.antt`, what `sample` finds in `specs/Sample.antt`, and how these make the answer of a run in
//! `specs/Run.antt`. The verdicts on an array are those of `drg_engine`, their texts those of
//! `drg_report` and `drg_json`, and the answers on a graph those of `drg_edges`.
//!
//! A command is one variant of `Command` in `drg_words`, which reads the words, and one case in each
//! definition by commands. It reads its file itself, whole or in pieces, and ends with an output or a
//! refusal.
#![tactic(auto)]

mod answer_text;
mod census;
mod check;
mod classical;
mod graph;
mod graph_text;
mod input;
mod output;
mod replay;
mod sample;
mod status;
mod table;

ghost use Rattle.std.specs.Prelude.{◌≡◌, ◌≢◌, ◌≤◌, ◌⊎◌, ◌↔◌, ℕ, List};
ghost use Rattle.drg_outside.specs.Causes.{Rose};
ghost use Rattle.drg_program.specs.Input.{AreInputOf, HasCauses, IsFileMissing, IsToldInput};
ghost use Rattle.drg_program.specs.Run.{Answers, Decides, Ends, ReadsFile};
ghost use Rattle.drg_program.specs.Statuses.{IsEarly};
ghost use Rattle.drg_program.specs.Words.{Asks, HasWords, IsAsked, file_of};
ghost use Rattle.drg_words.specs.Commands.{words_of};

use census::arrays_of;
use check::check;
use classical::classical_file;
use drg_outside::{Inputs, Sink, write_all};
use drg_words::{Command, WordsFault, read, words_law};
use graph::graph_file;
use output::{EarlyRefusal, Output};
use replay::replay_file;
use sample::sample;
pub use status::Status;
use std::alloc::Global;
use table::table;

/// The longest input in bytes: 64 MiB.
pub const INPUT_LIMIT: usize = 67_108_864;

/// Runs the command of these words, which are those after the program's name.
///
/// The clause `answer` says what the status and the written bytes mean.
///
/// After `check` they are those of a right verdict on the array of the input, by the tests that always run
/// and those that are selected. The report is one of lines, or JSON where the words ask for it; a budget of
/// branches changes nothing, since no test that is built opens branches. `infeasible` says that the array fails the claim that is written and no
/// claim of its test before it, and that the derivation that is written is accepted with its class. Where
/// the class is counting, no finite graph is distance-regular with the array; where it is spectral, the
/// eigenvalues and matrices that are written are those of the array, and that graphs meet the condition
/// which they fail is taken from the literature. `survivor` says that each test that ran holds.
/// `refused-spectrum` and `undecided` say that each of them that is decided holds: the one with the factors
/// that show that no one quadratic field holds the eigenvalues, the other with a number that is too wide.
///
/// After `table` the status is `done`, and there is a record for each row of the input, in the order of
/// the rows: the name of the row, the text of its array, and the words of a right verdict on it. Rows with
/// equal arrays have equal words. Of an infeasible array, too, there is a derivation that is accepted. A
/// record that is no row is told in place of a line, counted from 1; place 0 says that it hasn't two
/// fields. After `sample` the status is `done`, and the numbers that are written count the right verdicts
/// on the arrays that the seed generates; no file is opened.
///
/// After `replay` they are the answer of the derivation at the front of the input: `accepted` by counting
/// says of its array, too, that no such graph has it, and `accepted` with a frame that the written numbers
/// are a frame of its array that fails the claim. After `graph` they are the answer on the graph whose
/// edges the input lists: `accepted` says that it is distance-regular with the array that is written, and
/// `rejected` that it is so with no array, as the vertices that are written show.
///
/// After `census` the arrays that are written are exactly those of its diameter, valency and number of
/// vertices that meet the conditions of tests 1 to 9, ascending; no file is opened. After `classical` the
/// rows that are written are exactly the classical parameters of the array of the input, to whole bases up
/// to its valency, ascending; a base that 128 bits don't decide is named, and `undecided` is answered then.
pub fn run<I: Inputs, K: Sink>(
    alloc: Global,
    words: &[String],
    inputs: &mut I,
    sink: &mut K,
) -> Status
    // Where memory suffices, exactly words that ask for no command are refused as such. Nothing is opened
    // but for a command that reads a file.
    ensures usage { result ≢ Status.Memory
        → ((result ≡ Status.Usage) ↔ (IsAsked (words_of words.now) → ⊥)) }
    ensures command { result ≢ Status.Memory → result ≢ Status.Usage
        → IsAsked (words_of words.now) }
    ensures unopened { ((command : Command) → Asks (words_of words.now) command
        → ReadsFile command → ⊥) → inputs.new ≡ inputs.old }

    // Each fault has its cause, and no count of faults falls.
    ensures open { result ≡ Status.OpenFault
        → Rose (I.open_faults inputs.old) (I.open_faults inputs.new)
        ⊎ ((command : Command) × Asks (words_of words.now) command
        × IsFileMissing (I.files inputs.old) (file_of command)) }
    ensures missing { (command : Command) → Asks (words_of words.now) command
        → IsFileMissing (I.files inputs.old) (file_of command)
        → (result ≡ Status.OpenFault) ⊎ (result ≡ Status.Memory) }
    ensures read { result ≡ Status.ReadFault
        → Rose (I.read_faults inputs.old) (I.read_faults inputs.new) }
    ensures write { result ≡ Status.WriteFault → Rose (K.faults sink.old) (K.faults sink.new) }
    ensures later_open { I.open_faults inputs.old ≤ I.open_faults inputs.new }
    ensures later_read { I.read_faults inputs.old ≤ I.read_faults inputs.new }
    ensures later_write { K.faults sink.old ≤ K.faults sink.new }
    ensures same_files { I.files inputs.new ≡ I.files inputs.old }

    // Nothing is written before the whole text stands.
    ensures unwritten { IsEarly result → sink.new ≡ sink.old }

    // What the status says of the bytes of the input, and of what was written. Where the files are
    // told, the bytes are those of the file; a command that reads no file has none.
    ensures answer { (command : Command) → Asks (words_of words.now) command
        → (bytes : List ℕ) × AreInputOf (I.files inputs.old) (file_of command) bytes
        × Answers command bytes result (K.bytes sink.old) (K.bytes sink.new) }

    // Where the bytes are told and no count rose, they decide the status, up to want of memory.
    ensures complete { (command : Command) (bytes : List ℕ)
        → Asks (words_of words.now) command
        → IsToldInput (I.files inputs.old) (file_of command) bytes
        → (Rose (I.open_faults inputs.old) (I.open_faults inputs.new) → ⊥)
        → (Rose (I.read_faults inputs.old) (I.read_faults inputs.new) → ⊥)
        → (Rose (K.faults sink.old) (K.faults sink.new) → ⊥)
        → result ≢ Status.Memory → Decides command bytes result }
{
    words_law();
    match read(alloc, words) {
        Ok(command) => carry_out(alloc, &command, inputs, sink),
        Err(WordsFault::Usage) => Status::Usage,
        Err(WordsFault::Memory) => Status::Memory,
    }
}

/// Carries the command out, and writes its text.
fn carry_out<I: Inputs, K: Sink>(
    alloc: Global,
    command: &Command<'_>,
    inputs: &mut I,
    sink: &mut K,
) -> Status
    requires { HasWords command.now }
    ensures usage { result ≢ Status.Usage }
    ensures unopened { (ReadsFile command.now → ⊥) → inputs.new ≡ inputs.old }
    ensures open { result ≡ Status.OpenFault
        → Rose (I.open_faults inputs.old) (I.open_faults inputs.new)
        ⊎ IsFileMissing (I.files inputs.old) (file_of command.now) }
    ensures missing { IsFileMissing (I.files inputs.old) (file_of command.now)
        → (result ≡ Status.OpenFault) ⊎ (result ≡ Status.Memory) }
    ensures read { result ≡ Status.ReadFault
        → Rose (I.read_faults inputs.old) (I.read_faults inputs.new) }
    ensures write { result ≡ Status.WriteFault → Rose (K.faults sink.old) (K.faults sink.new) }
    ensures later_open { I.open_faults inputs.old ≤ I.open_faults inputs.new }
    ensures later_read { I.read_faults inputs.old ≤ I.read_faults inputs.new }
    ensures later_write { K.faults sink.old ≤ K.faults sink.new }
    ensures same_files { I.files inputs.new ≡ I.files inputs.old }
    ensures unwritten { IsEarly result → sink.new ≡ sink.old }
    ensures answer { (bytes : List ℕ) × AreInputOf (I.files inputs.old) (file_of command.now) bytes
        × Answers command.now bytes result (K.bytes sink.old) (K.bytes sink.new) }
{
    let output = match output_of(alloc, command, inputs) {
        Ok(output) => output,
        Err(EarlyRefusal::BadInput { line, at }) => return Status::BadInput { line, at },
        Err(EarlyRefusal::TooLong) => return Status::TooLong,
        Err(EarlyRefusal::OpenFault) => return Status::OpenFault,
        Err(EarlyRefusal::ReadFault) => return Status::ReadFault,
        Err(EarlyRefusal::Memory) => return Status::Memory,
    };
    match write_all(sink, &output.text) {
        Ok(()) => output.status,
        Err(_) => Status::WriteFault,
    }
}

/// The command's status and text, over the inputs.
fn output_of<I: Inputs>(
    alloc: Global,
    command: &Command<'_>,
    inputs: &mut I,
) -> Result<Output, EarlyRefusal>
    requires { HasWords command.now }
    ensures output { (bytes : List ℕ)
        × AreInputOf (I.files inputs.old) (file_of command.now) bytes
        × Ends command.now bytes result }
    ensures causes { HasCauses (file_of command.now) (I.files inputs.old)
        (I.open_faults inputs.old) (I.open_faults inputs.new)
        (I.read_faults inputs.old) (I.read_faults inputs.new) result }
    ensures unopened { (ReadsFile command.now → ⊥) → inputs.new ≡ inputs.old }
    ensures same_files { I.files inputs.new ≡ I.files inputs.old }
{
    match command {
        Command::Check {
            tests,
            budget: _,
            json,
            file,
        } => check(alloc, inputs, file, tests, *json),
        Command::Replay { file } => replay_file(alloc, inputs, file),
        Command::Table {
            tests,
            budget: _,
            file,
        } => table(alloc, inputs, file, tests),
        Command::Sample { seed, count } => sample(alloc, *seed, *count),
        Command::Graph { file } => graph_file(alloc, inputs, file),
        Command::Census { d, k, n } => arrays_of(alloc, *d, *k, *n),
        Command::Classical { file } => classical_file(alloc, inputs, file),
    }
}

#[cfg(test)]
mod census_tests;
#[cfg(test)]
mod graph_tests;
#[cfg(test)]
mod table_tests;
#[cfg(test)]
mod tests;
#[cfg(test)]
mod triple_tests;
#[cfg(test)]
mod word_tests;
