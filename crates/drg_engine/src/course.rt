//! What the tests of an array found so far.

ghost use Rattle.std.specs.Prelude.{◌≡◌, ◌≤◌, List, OnOk};
ghost use Rattle.drg_array.specs.ClaimOrder.{test_number};
ghost use Rattle.drg_array.specs.declared.test.Test.{Test as TheTest};
ghost use Rattle.drg_engine.specs.Courses.{IsCourse};

use drg_array::{Test, TestSet};
use drg_report::{PassedTests, PendingTests};
use std::alloc::{AllocError, Global};

/// The tests that are decided so far, in their order.
#[derive(Drop)]
pub struct Course {
    /// The tests that ran and hold.
    pub passed: PassedTests,
    /// The tests that ran and can't be decided.
    pub pending: PendingTests,
    /// How many tests are decided, those that don't run among them.
    pub decided: usize,
}

impl Course {
    /// No test is decided. Takes no memory.
    pub fn new(alloc: Global) -> Course
        ensures course { (tests : List TheTest) → IsCourse tests result }
        ensures decided { result.decided ≡ 0 }
    {
        Course {
            passed: PassedTests::new(Vec::new(alloc)),
            pending: PendingTests::new(Vec::new(alloc)),
            decided: 0,
        }
    }

    /// Notes that the tests up to this one are decided, and that those of them that run hold. After
    /// an error some of them are noted.
    pub fn pass_up_to(&mut self, last: Test, tests: &TestSet) -> Result<(), AllocError>
        requires course { IsCourse tests.now self.old }
        requires later { self.old.decided ≤ test_number last }
        ensures course { OnOk result (IsCourse tests.now self.new) }
        ensures decided { OnOk result (self.new.decided ≡ test_number last) }
    {
        let end = usize::from(last.number());
        'tests: for test in &Test::ALL[self.decided..end] {
            if tests.has(*test) {
                self.passed.push(*test)?;
            }
        }
        self.decided = end;
        Ok(())
    }
}
