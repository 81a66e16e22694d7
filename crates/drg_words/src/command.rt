//! What the program can be asked to do.

ghost use Rattle.std.specs.Prelude.{◌≡◌};

use drg_array::TestSet;
use std::marker::Model;

/// The name of a file, as it stands among the words.
#[derive(Drop)]
pub struct FileName<'a> {
    name: &'a str,
}

// Contracts see the bytes of the name.
impl<'a> Model for FileName<'a> {
    ghost use Rattle.std.specs.Prelude.{List, ℕ};

    ghost Value = { List ℕ };

    ghost view = { λ file. file.name.now };
}

impl<'a> FileName<'a> {
    /// The file of this name.
    pub(crate) fn new(name: &'a str) -> FileName<'a>
        ensures { result ≡ name.now }
    {
        FileName { name }
    }

    /// The name as a text.
    pub fn as_str(&self) -> &str
        ensures { result.now ≡ self.now }
    {
        self.name
    }
}

/// What the program can be asked to do, with its options, its numbers and its file.
///
/// A budget is from 1 to 100,000.
#[derive(Drop)]
pub enum Command<'a> {
    /// `check [--tests LIST] [--budget N] [--json] FILE`: judge the array in the file, by the tests
    /// that always run and those that are selected, with as many branches a search, and report it as
    /// text or as JSON.
    Check {
        tests: TestSet,
        budget: u32,
        json: bool,
        file: FileName<'a>,
    },
    /// `replay FILE`: answer the derivation at the front of the file.
    Replay {
        file: FileName<'a>,
    },
    /// `table [--tests LIST] [--budget N] FILE`: judge the arrays in the rows of the file.
    Table {
        tests: TestSet,
        budget: u32,
        file: FileName<'a>,
    },
    /// `sample SEED COUNT`: judge as many arrays, generated from a seed. The seed is at most
    /// 2,147,483,647, and the count at most 100,000.
    Sample {
        seed: u32,
        count: u32,
    },
    /// `graph FILE`: tell the array of the graph whose edges the file lists, or why it has none.
    Graph {
        file: FileName<'a>,
    },
    /// `census D K N`: write all arrays of this diameter (1 to 4), this valency (1 to 32) and this
    /// number of vertices (2 to 2,000) that pass tests 1 to 9.
    Census {
        d: u8,
        k: u16,
        n: u32,
    },
    /// `classical FILE`: tell the classical parameters of the array in the file.
    Classical {
        file: FileName<'a>,
    },
}
