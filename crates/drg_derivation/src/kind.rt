//! The kinds of evidence lines, each with its shape.

ghost use Rattle.std.specs.Prelude.{◌≡◌};
ghost use Rattle.drg_derivation.specs.Shapes.{form, form_of};

/// What an evidence line says, by its word.
#[derive(Clone, Copy, Debug, PartialEq, Eq)]
pub enum Kind {
    K,
    P,
    Frame,
    Theta,
    Prow,
    Qrow,
    Krein,
    Eq,
    Keq,
    Comb,
    Low,
    High,
    Split,
    Miss,
    Mod,
    Void,
}

/// What follows the leading numbers of a line.
#[derive(Clone, Copy, Debug, PartialEq, Eq)]
pub enum Tail {
    /// No more numbers.
    Nothing,
    /// From one to d+1 numbers.
    Sizes,
    /// d+1 numbers.
    Row,
    /// One field number.
    FieldNumber,
    /// d+1 field numbers.
    FieldRow,
    /// As many pairs of numbers as the first number of the line says, at least one.
    Pairs,
}

/// How the lines of one kind are written.
#[derive(Clone, Copy, Debug)]
pub struct Shape {
    /// The word, in lowercase letters.
    pub word: &'static str,
    /// The version of the text that the kind comes with.
    pub since: u8,
    /// How many numbers lead, each a field of its own in [`crate::Line`].
    pub leading: usize,
    /// What follows them, in [`crate::Line`] one list.
    pub tail: Tail,
}

/// The kinds, those first of which a derivation has the most lines.
pub const KINDS: [Kind; 16] = [
    Kind::Comb,
    Kind::Low,
    Kind::High,
    Kind::Eq,
    Kind::Miss,
    Kind::Split,
    Kind::Mod,
    Kind::Void,
    Kind::P,
    Kind::K,
    Kind::Prow,
    Kind::Qrow,
    Kind::Krein,
    Kind::Keq,
    Kind::Theta,
    Kind::Frame,
];

impl Kind {
    /// How its lines are written.
    pub fn shape(self) -> Shape
        ensures { form result ≡ form_of self }
    {
        match self {
            Kind::K => row("k", 1, 0, Tail::Sizes),
            Kind::P => row("p", 1, 2, Tail::Row),
            Kind::Frame => row("frame", 1, 1, Tail::Nothing),
            Kind::Theta => row("theta", 1, 1, Tail::FieldNumber),
            Kind::Prow => row("prow", 1, 1, Tail::FieldRow),
            Kind::Qrow => row("qrow", 1, 1, Tail::FieldRow),
            Kind::Krein => row("krein", 1, 2, Tail::FieldRow),
            Kind::Eq => row("eq", 1, 3, Tail::Nothing),
            Kind::Keq => row("keq", 1, 4, Tail::Nothing),
            Kind::Comb => row("comb", 1, 1, Tail::Pairs),
            Kind::Low => row("low", 1, 5, Tail::Nothing),
            Kind::High => row("high", 1, 5, Tail::Nothing),
            Kind::Split => row("split", 1, 4, Tail::Nothing),
            Kind::Miss => row("miss", 1, 1, Tail::Nothing),
            Kind::Mod => row("mod", 1, 2, Tail::Nothing),
            Kind::Void => row("void", 1, 3, Tail::Nothing),
        }
    }

    /// The word, in lowercase letters.
    pub fn name(self) -> &'static str
        ensures { result.now ≡ (form_of self).word }
    {
        self.shape().word
    }
}

/// A row of the table of shapes.
fn row(word: &'static str, since: u8, leading: usize, tail: Tail) -> Shape
    ensures { form result
        ≡ record { word = word.now; since = since; leading = leading; tail = tail } }
{
    Shape {
        word,
        since,
        leading,
        tail,
    }
}
