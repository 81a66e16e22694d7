//! Sets of vertices, as bits.

ghost use Rattle.std.specs.Prelude.{◌≡◌, ℕ, ◌≤◌, ◌<◌, ◌↔◌, Bool, true, false, not, ◌==◌, ◌&&◌, ◌||◌, IsTrue, IfSome, IfNone};
ghost use Rattle.drg_algebra.specs.Sums.{below, count_of};
ghost use Rattle.drg_edges.specs.VertexSets.{holds};

/// So many words have a bit for each of 2,000 vertices.
const WORDS: usize = 32;

/// The bits of a word.
const BITS: usize = 64;

/// A set of numbers below 2,048.
#[derive(Clone, Copy)]
pub struct VertexSet {
    words: [u64; WORDS],
}

impl VertexSet {
    /// No number.
    pub fn empty() -> VertexSet
        ensures { (v : ℕ) → holds result v ≡ false }
    {
        VertexSet { words: [0; WORDS] }
    }

    /// Adds a number.
    pub fn insert(&mut self, v: usize)
        requires { v < 2048 }
        ensures { (u : ℕ) → holds self.new u ≡ (v == u || holds self.old u) }
    {
        self.words[v / BITS] |= 1 << (v % BITS);
    }

    /// Adds the members of another set.
    pub fn unite(&mut self, other: &VertexSet)
        ensures { (v : ℕ) → holds self.new v ≡ (holds self.old v || holds other.now v) }
    {
        'words: for place in 0..WORDS {
            self.words[place] |= other.words[place];
        }
    }

    /// Takes the members of another set away.
    pub fn remove(&mut self, other: &VertexSet)
        ensures { (v : ℕ) → holds self.new v ≡ (holds self.old v && not (holds other.now v)) }
    {
        'words: for place in 0..WORDS {
            self.words[place] = (self.words[place] | other.words[place]) ^ other.words[place];
        }
    }

    /// How many members the two sets have in common.
    pub fn common(&self, other: &VertexSet) -> u16
        ensures { (n : ℕ) → ((v : ℕ) → n ≤ v → holds self.now v ≡ false) →
            result ≡ count_of (λ v. holds self.now v && holds other.now v) (below n) }
    {
        let mut count = 0;
        'words: for place in 0..WORDS {
            count += (self.words[place] & other.words[place]).count_ones();
        }
        count as u16
    }

    /// The least member from this number on.
    pub fn next_member(&self, from: usize) -> Option<usize>
        requires { from ≤ 2048 }
        ensures member { IfSome result (λ v. (from ≤ v) × (v < 2048) × (holds self.now v ≡ true)) }
        ensures least { IfSome result (λ v. (u : ℕ) → from ≤ u → u < v → holds self.now u ≡ false) }
        ensures none { IfNone result ((u : ℕ) → from ≤ u → holds self.now u ≡ false) }
    {
        let mut v = from;
        'words: while v < WORDS * BITS {
            let word = self.words[v / BITS] >> (v % BITS);
            if word != 0 {
                return Some(v + word.trailing_zeros() as usize);
            }
            v += BITS - v % BITS;
        }
        None
    }
}
