ghost use Rattle.std.specs.Prelude.{◌≡◌, ◌↔◌, IsTrue, Some};
ghost use Rattle.drg_program.specs.Statuses.{IsRefusal, exit_of, status_text};

use std::fmt;

/// How a run ended.
#[derive(Clone, Copy, Debug, PartialEq, Eq)]
pub enum Status {
    /// The array passes every test that ran.
    Survivor,
    /// The array fails a test, and the report derives it.
    Infeasible,
    /// A test can't be decided, since the eigenvalues don't lie in one quadratic field, and no other
    /// test is found false.
    RefusedSpectrum,
    /// A number on which the answer rests is too wide to be computed: a number of the array, on the way
    /// to its eigenvalues and matrices, of a line of the derivation, or on the way to classical
    /// parameters.
    Undecided,
    /// Each line of the derivation is met, and it closes its claim; or the graph is distance-regular.
    Accepted,
    /// A line of the derivation isn't met, or its claim isn't closed at the end; or the graph isn't
    /// distance-regular with any array.
    Rejected,
    /// What was asked for is written whole, and there is no one verdict to tell: the rows of a table, the
    /// summary of a sample, the arrays of a census, or classical parameters.
    Done,
    /// The words are no command.
    Usage,
    /// The input isn't in the grammar. Line and place are counted from 1; place 0 is the whole line. The
    /// lines of a table are its records.
    BadInput { line: u64, at: u64 },
    /// The input has more than [`crate::INPUT_LIMIT`] bytes.
    TooLong,
    /// The file could not be opened.
    OpenFault,
    /// The file could not be read to its end.
    ReadFault,
    /// The report could not be written to its end.
    WriteFault,
    /// There was not enough memory.
    Memory,
}

impl Status {
    /// The number with which the program ends.
    pub fn exit(self) -> u8
        ensures { result ≡ exit_of self }
    {
        match self {
            Status::Survivor | Status::Accepted | Status::Done => 0,
            Status::Infeasible => 1,
            Status::RefusedSpectrum => 2,
            Status::Undecided => 3,
            Status::Rejected => 5,
            Status::Usage => 64,
            Status::BadInput { .. } => 65,
            Status::TooLong => 66,
            Status::OpenFault => 67,
            Status::ReadFault => 68,
            Status::WriteFault => 69,
            Status::Memory => 71,
        }
    }

    /// Whether the run ended without a whole report.
    pub fn is_refusal(self) -> bool
        ensures { IsTrue result ↔ IsRefusal self }
    {
        matches!(
            self,
            Status::Usage
                | Status::BadInput { .. }
                | Status::TooLong
                | Status::OpenFault
                | Status::ReadFault
                | Status::WriteFault
                | Status::Memory
        )
    }
}

impl fmt::Display for Status {
    ghost output = { λ status. Some (status_text status) };

    fn fmt<W: fmt::Write>(&self, f: &mut fmt::Formatter<W>) -> fmt::Result {
        match self {
            Status::Survivor => f.write_str("survivor"),
            Status::Infeasible => f.write_str("infeasible"),
            Status::RefusedSpectrum => f.write_str("refused-spectrum"),
            Status::Undecided => f.write_str("undecided"),
            Status::Accepted => f.write_str("accepted"),
            Status::Rejected => f.write_str("rejected"),
            Status::Done => f.write_str("done"),
            Status::Usage => f.write_str("usage"),
            Status::BadInput { line, at } => write!(f, "bad input, line {line}, place {at}"),
            Status::TooLong => f.write_str("input too long"),
            Status::OpenFault => f.write_str("cannot open"),
            Status::ReadFault => f.write_str("cannot read"),
            Status::WriteFault => f.write_str("cannot write"),
            Status::Memory => f.write_str("no memory"),
        }
    }
}
