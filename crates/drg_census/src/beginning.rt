//! The first entries of an array: `b_0`, .., `b_(d-1)`, then `c_1`, .., `c_d`.

ghost use Rattle.std.specs.Prelude.{◌≡◌, ◌+◌, ◌*◌, ◌<◌, ◌≤◌, ◌++◌, [], ◌∷◌, ℕ, false, length, slice_index, MatchOption};
ghost use Rattle.drg_census.specs.Begins.{IsBeginning, NoneBegins};

use crate::search::Sought;
use arrayvec::ArrayVec;
use std::marker::Model;

/// Twice the greatest diameter of a census.
const MOST_ENTRIES: usize = 8;

/// The first entries of an array, one or more, seen as their list.
#[derive(Drop)]
pub struct Beginning {
    entries: ArrayVec<u16, MOST_ENTRIES>,
}

impl Model for Beginning {
    ghost use Rattle.std.specs.Prelude.{List, ℕ};

    ghost Value = { List ℕ };

    ghost view = { λ b. b.entries.items };
}

impl Beginning {
    /// The valency alone.
    pub fn of(k: u16) -> Beginning
        ensures { result ≡ k ∷ [] }
    {
        let mut entries = ArrayVec::new();
        entries.push(k);
        Beginning { entries }
    }

    /// One entry more.
    pub fn followed_by(&self, entry: u16) -> Beginning
        requires { length self.now < 8 }
        ensures { result ≡ self.now ++ entry ∷ [] }
    {
        let Ok(mut entries) = ArrayVec::try_from(self.as_slice()) else {
            unreachable!();
        };
        entries.push(entry);
        Beginning { entries }
    }

    /// How many entries there are.
    pub fn len(&self) -> usize
        ensures { result ≡ length self.now }
    {
        self.entries.len()
    }

    /// The entries.
    pub fn as_slice(&self) -> &[u16]
        ensures { result.now ≡ self.now }
    {
        &self.entries
    }
}

/// Whether an array can begin with these entries, as far as their order, the sizes and the number of
/// vertices tell. Where it can't, no array of the census does.
pub fn may_begin(sought: Sought, beginning: &[u16]) -> bool
    requires { IsBeginning sought.d sought.k sought.n beginning.now }
    ensures { (result ≡ false) → NoneBegins sought.d sought.k sought.n beginning.now }
{
    last_follows(sought, beginning) && sizes_allow(sought, beginning)
}

/// Whether the last entry can follow those before it: b descends, c_1 is 1, c ascends, and c_i and b_i
/// are at most k together.
fn last_follows(sought: Sought, beginning: &[u16]) -> bool
    requires { IsBeginning sought.d sought.k sought.n beginning.now }
    ensures { (result ≡ false) → NoneBegins sought.d sought.k sought.n beginning.now }
{
    let last = beginning.len() - 1;
    if last == 0 {
        return true;
    }
    if last < sought.d {
        return beginning[last] <= beginning[last - 1];
    }
    if last == sought.d {
        return beginning[last] == 1;
    }
    beginning[last - 1] <= beginning[last] && leaves_room(sought, beginning, last + 1 - sought.d)
}

/// Whether c_i and b_i are at most k together, where c_i is the last entry and i is above 1.
fn leaves_room(sought: Sought, beginning: &[u16], i: usize) -> bool
    requires some { IsBeginning sought.d sought.k sought.n beginning.now }
    requires later { 2 ≤ i }
    requires last { length beginning.now ≡ sought.d + i }
    ensures { (result ≡ false) → NoneBegins sought.d sought.k sought.n beginning.now }
{
    let b = if i < sought.d { beginning[i] } else { 0 };
    u32::from(b) + u32::from(beginning[sought.d + i - 1]) <= u32::from(sought.k)
}

/// Whether the sizes that the entries give are whole and come to no more vertices than there are, and
/// all sizes to exactly as many.
fn sizes_allow(sought: Sought, beginning: &[u16]) -> bool
    requires { IsBeginning sought.d sought.k sought.n beginning.now }
    ensures { (result ≡ false) → NoneBegins sought.d sought.k sought.n beginning.now }
{
    if beginning.len() <= sought.d {
        return true;
    }
    let sizes = beginning.len() - sought.d;
    let mut size = 1;
    let mut sum = 1;
    'sizes: for i in 0..sizes {
        let Some(next) = next_size(size, beginning[i], beginning[sought.d + i]) else {
            return false;
        };
        if next > sought.n - sum {
            return false;
        }
        size = next;
        sum += next;
    }
    sizes < sought.d || sum == sought.n
}

/// The size `k_i b_i / c_(i+1)`, where it is whole.
fn next_size(size: u32, b: u16, c: u16) -> Option<u32>
    requires { size ≤ 2000 }
    ensures { MatchOption result
        ((m : ℕ) → 1 ≤ c → c * m ≡ size * b → ⊥)
        (λ next. c * next ≡ size * b) }
{
    let pairs = size * u32::from(b);
    match pairs.checked_rem(u32::from(c)) {
        Some(0) => Some(pairs / u32::from(c)),
        _ => None,
    }
}
