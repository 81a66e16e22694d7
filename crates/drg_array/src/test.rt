//! The names of the fourteen tests.

ghost use Rattle.std.specs.Prelude.{◌≡◌, ◌↔◌, ◌++◌, IsTrue, OnOk, OnErr};
ghost use Rattle.drg_array.specs.Claims.{class_of_test, index_count_of_test, test_name};
ghost use Rattle.drg_array.specs.ClaimOrder.{test_number};
ghost use Rattle.drg_array.specs.TestLists.{IsAlwaysRun};

use crate::Class;
use std::alloc::AllocError;

/// A feasibility condition, in the order in which the conditions are tested: each holds where its
/// line says. Tests 1 to 6 and 10 to 12 are those of Brouwer, Cohen and Neumaier 1989; 7 to 9 are
/// elementary counting; 13 and 14 are after Vidali 2018.
#[derive(Clone, Copy, Debug, Default, PartialEq, Eq)]
pub enum Test {
    /// `c_1 = 1`.
    #[default]
    First,
    /// `a_i >= 0` for i from 1 to d.
    Degree,
    /// `b_i >= b_(i+1)` and `c_i <= c_(i+1)` for i from 1 to d - 1.
    Order,
    /// `c_i <= b_j` for i from 1 and i + j up to d.
    Cross,
    /// The size `k_i` is whole for i from 1 to d.
    Size,
    /// `p^h_ij` is whole and not negative for all h, i, j.
    Intersect,
    /// `n k_i` is even for i from 1 to d.
    Handshake,
    /// `k_i p^i_ij` is even for i and j from 1 to d.
    Induced,
    /// 6 divides `n k_i p^i_ii` for i from 1 to d.
    Triangles,
    /// The multiplicity `m_i` is a positive whole number for i from 1 to d.
    Mult,
    /// `q^h_ij >= 0` for `1 <= i <= j <= h <= d`.
    Krein,
    /// The absolute bound holds for `1 <= i <= j <= d`.
    Absolute,
    /// The counting system of each live type of triples has a solution.
    Triple,
    /// The same with the equations from vanishing Krein parameters.
    Ktriple,
}

impl Test {
    /// The tests, in their order.
    pub const ALL: [Test; 14] = [
        Test::First,
        Test::Degree,
        Test::Order,
        Test::Cross,
        Test::Size,
        Test::Intersect,
        Test::Handshake,
        Test::Induced,
        Test::Triangles,
        Test::Mult,
        Test::Krein,
        Test::Absolute,
        Test::Triple,
        Test::Ktriple,
    ];

    /// Its place in their order, from 1.
    pub fn number(&self) -> u8
        ensures { result ≡ test_number self.now }
    {
        *self as u8 + 1
    }

    /// Whether it runs whatever is selected, as the first six do.
    pub fn always_runs(&self) -> bool
        ensures { IsTrue result ↔ IsAlwaysRun self.now }
    {
        self.number() <= 6
    }

    /// The name, in lowercase letters.
    pub fn name(&self) -> &'static str
        ensures { result.now ≡ test_name self.now }
    {
        match self {
            Test::First => "first",
            Test::Degree => "degree",
            Test::Order => "order",
            Test::Cross => "cross",
            Test::Size => "size",
            Test::Intersect => "intersect",
            Test::Handshake => "handshake",
            Test::Induced => "induced",
            Test::Triangles => "triangles",
            Test::Mult => "mult",
            Test::Krein => "krein",
            Test::Absolute => "absolute",
            Test::Triple => "triple",
            Test::Ktriple => "ktriple",
        }
    }

    /// The class of the claims that an array fails it.
    pub fn class(&self) -> Class
        ensures { result ≡ class_of_test self.now }
    {
        match self {
            Test::Mult | Test::Krein | Test::Absolute | Test::Ktriple => Class::Spectral,
            _ => Class::Counting,
        }
    }

    /// How many indices say where its condition is false.
    pub(crate) fn index_count(&self) -> usize
        ensures { result ≡ index_count_of_test self.now }
    {
        match self {
            Test::First => 0,
            Test::Degree
            | Test::Order
            | Test::Size
            | Test::Handshake
            | Test::Triangles
            | Test::Mult => 1,
            Test::Cross | Test::Induced | Test::Absolute => 2,
            Test::Intersect | Test::Krein | Test::Triple | Test::Ktriple => 3,
        }
    }

    /// Appends the name.
    pub fn write_text(&self, out: &mut Vec<u8>) -> Result<(), AllocError>
        ensures ok { OnOk result (out.new.items ≡ out.old.items ++ test_name self.now) }
        ensures err { OnErr result (out.new.items ≡ out.old.items) }
    {
        out.extend_from_slice(self.name().as_bytes())
    }
}
