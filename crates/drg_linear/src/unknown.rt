//! The unknowns of a triple system.
ghost use Rattle.std.specs.Prelude.{◌≡◌, ◌<◌, ◌≤◌, ◌+◌, ◌*◌, ◌-◌, ◌^◌};
ghost use Rattle.drg_linear.specs.Unknowns.{is_same as the_is_same, precedes as the_precedes, place as the_place};

/// The number `[r s t]` of vertices at distances r, s and t from the three vertices of a triple.
#[derive(Clone, Copy, Debug, PartialEq, Eq, Hash)]
pub struct Unknown {
    pub r: u8,
    pub s: u8,
    pub t: u8,
}

/// The place of the next of an unknown's numbers, after the place of those before it.
fn next_place(before: usize, d: usize, n: u8) -> usize
    requires before { before < 2 ^ 20 }
    requires d { d < 2 ^ 8 }
    ensures { result ≡ before * d + (n - 1) }
{
    before * d + usize::from(n).saturating_sub(1)
}

impl Unknown {
    /// The place of the unknown among those whose numbers are from 1 to d, in their order, from 0.
    #[tactic(auto, unfolding(crate::specs::Unknowns::place))]
    pub fn place(self, d: usize) -> usize
        requires { d < 2 ^ 8 }
        ensures { result ≡ the_place d self }
    {
        let first = usize::from(self.r).saturating_sub(1);
        let second = next_place(first, d, self.s);
        next_place(second, d, self.t)
    }

    /// Whether both are the same unknown.
    pub fn is_same(self, other: Unknown) -> bool
        ensures { result ≡ the_is_same self other }
    {
        self.r == other.r && self.s == other.s && self.t == other.t
    }

    /// Whether this unknown stands before the other one.
    pub fn precedes(self, other: Unknown) -> bool
        ensures { result ≡ the_precedes self other }
    {
        self.r < other.r
            || self.r == other.r && (self.s < other.s || self.s == other.s && self.t < other.t)
    }
}
