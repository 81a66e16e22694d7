//! Numbers for the unknowns.
ghost use Rattle.std.specs.Prelude.{◌≡◌, true};
ghost use Rattle.drg_linear.specs.Unknowns.{is_unknown, place};
ghost use Rattle.drg_linear.specs.Assignments.{IsAssignment, number_at as the_number_at};

use crate::unknown::Unknown;
use std::marker::Model;

/// A number for each unknown whose numbers are from 1 to d.
#[derive(Debug, Drop)]
pub struct Assignment {
    d: usize,
    values: Vec<i128>,
}

impl Model for Assignment {
    ghost use Rattle.drg_linear.specs.Assignments.{AssignmentContent, IsAssignment};

    ghost Value = { AssignmentContent };

    ghost view = { λ a. record { d = a.d; values = a.values.items } };

    ghost invariant = { λ a. IsAssignment (record { d = a.d; values = a.values.items }) };
}

/// The number at a place, and 0 outside the assignment.
pub fn number_at(values: &[i128], place: usize) -> i128
    ensures { result ≡ the_number_at values.now place }
{
    if place < values.len() {
        values[place]
    } else {
        0
    }
}

impl Assignment {
    /// These numbers, in the order of the unknowns. Takes no memory.
    pub fn make(d: usize, values: Vec<i128>) -> Assignment
        requires { IsAssignment (record { d = d; values = values.items }) }
        ensures { result ≡ record { d = d; values = values.items } }
    {
        Assignment { d, values }
    }

    /// The greatest of an unknown's numbers.
    pub fn d(&self) -> usize
        ensures value { result ≡ self.now.d }
        ensures assignment { IsAssignment self.now }
    {
        self.d
    }

    /// The numbers, in the order of the unknowns.
    pub fn as_slice(&self) -> &[i128]
        ensures value { result.now ≡ self.now.values }
        ensures assignment { IsAssignment self.now }
    {
        &self.values
    }

    /// The number of an unknown.
    pub fn value(&self, x: Unknown) -> i128
        requires { is_unknown self.now.d x ≡ true }
        ensures { result ≡ the_number_at self.now.values (place self.now.d x) }
    {
        number_at(&self.values, x.place(self.d))
    }
}
