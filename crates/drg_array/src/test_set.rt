//! Which tests run.

ghost use Rattle.std.specs.Prelude.{◌≡◌, ◌⊎◌, ◌↔◌, List, Contains, find, bytes_eq, IsTrue, IfSome, IfNone, OnSome};
ghost use Rattle.drg_array.specs.Claims.{test_name};
ghost use Rattle.drg_array.specs.TestLists.{IsSelection, IsTestList, IsAlwaysRun, IsNext};
ghost use Rattle.drg_array.specs.declared.test.Test.{Test};

use crate::Test;
use arrayvec::ArrayVec;
use std::marker::Model;

/// The tests from handshake on that are built, in their order.
pub const BUILT: [Test; 4] = [Test::Handshake, Test::Induced, Test::Triangles, Test::Mult];

/// How many tests there are.
const TESTS: usize = 14;

/// The tests that run: the first six, and those that are selected.
#[derive(Drop)]
pub struct TestSet {
    selected: ArrayVec<Test, TESTS>,
}

impl Model for TestSet {
    ghost use Rattle.std.specs.Prelude.{List};
    ghost use Rattle.drg_array.specs.declared.test.Test.{Test};

    ghost Value = { List Test };

    ghost view = { λ s. s.selected.items };

    ghost use Rattle.drg_array.specs.TestLists.{IsSelection};

    ghost invariant = { λ s. IsSelection s.selected.items };
}

impl TestSet {
    /// Selects all built tests.
    pub fn all() -> TestSet
        ensures { result ≡ BUILT }
    {
        let mut selected = ArrayVec::new();
        'tests: for test in BUILT {
            selected.push(test);
        }
        TestSet { selected }
    }

    /// Reads `none`, or the names of one or more built tests with one comma between two, each at
    /// most once. Every other text is refused.
    pub fn read(text: &str) -> Option<TestSet>
        ensures some { IfSome result (λ set. IsTestList text.now set) }
        ensures none { IfNone result ((tests : List Test) → IsTestList text.now tests → ⊥) }
    {
        let mut selected = ArrayVec::new();
        if text == "none" {
            return Some(TestSet { selected });
        }
        let mut rest = text;
        'names: while let Some((name, more)) = rest.split_once(',') {
            select(&mut selected, name)?;
            rest = more;
        }
        select(&mut selected, rest)?;
        Some(TestSet { selected })
    }

    /// Does nothing. A caller's proof has it at hand then that the selected tests are built, and
    /// none of them is there twice.
    pub fn known_valid(&self)
        ensures { IsSelection self.now }
    {
        let _read = &self.selected;
    }

    /// Whether the test runs.
    pub fn has(&self, test: Test) -> bool
        ensures selection { IsSelection self.now }
        ensures runs { IsTrue result ↔ (IsAlwaysRun test ⊎ Contains self.now test) }
    {
        test.always_runs() || self.selected.contains(&test)
    }
}

/// Selects the built test of this name. There is none where no built test has the name, or where it
/// is selected already.
fn select(selected: &mut ArrayVec<Test, TESTS>, name: &str) -> Option<()>
    requires { IsSelection selected.old.items }
    ensures some { OnSome result (IsNext selected.old.items name.now selected.new.items) }
    ensures none { IfNone result ((tests : List Test) →
        IsNext selected.old.items name.now tests → ⊥) }
{
    let test = built(name)?;
    if selected.contains(&test) {
        return None;
    }
    selected.push(test);
    Some(())
}

/// The built test of this name.
fn built(name: &str) -> Option<Test>
    ensures { result ≡ find (λ t. bytes_eq (test_name t) name.now) BUILT }
{
    BUILT.iter().copied().find(|test| test.name() == name)
}
