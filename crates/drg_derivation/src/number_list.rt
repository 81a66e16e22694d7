//! The numbers of a list in a line.
ghost use Rattle.std.specs.Prelude.{◌≡◌, length};

use std::marker::Model;

/// A list of whole numbers in a line of a derivation.
#[derive(Debug, Drop)]
pub struct NumberList {
    items: Vec<i128>,
}

impl Model for NumberList {
    ghost use Rattle.std.specs.Prelude.{List, ℤ};

    ghost Value = { List ℤ };

    ghost view = { λ n. n.items.items };
}

impl NumberList {
    /// The numbers of this vector, in their order. Takes no memory.
    pub fn new(items: Vec<i128>) -> NumberList
        ensures { result ≡ items.items }
    {
        NumberList { items }
    }

    /// The numbers as a slice.
    pub fn as_slice(&self) -> &[i128]
        ensures { result.now ≡ self.now }
    {
        &self.items
    }

    /// How many numbers there are.
    pub fn len(&self) -> usize
        ensures { result ≡ length self.now }
    {
        self.items.len()
    }

    /// The numbers as a vector. Takes no memory.
    pub fn into_vec(self) -> Vec<i128>
        ensures { result.items ≡ self }
    {
        let NumberList { items } = self;
        items
    }
}
