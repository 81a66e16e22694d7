//! What the tests found in an array.

ghost use Rattle.std.specs.Prelude.{◌≡◌, [], ◌∷◌, ◌++◌, OnOk, OnErr};

use drg_array::{Claim, Class, Node, Test};
use drg_derivation::Derivation;
use drg_eigen::OtherSpectrum;
use drg_fraction::{Field, Fraction};
use drg_intersection::Numbers;
use drg_krein::Krein;
use drg_matrices::Frame;
use drg_orderings::Orderings;
use drg_quadratic::Quadratic;
use std::alloc::AllocError;
use std::marker::Model;

/// Why a test can't be decided.
#[derive(Debug, PartialEq, Eq, Drop)]
pub enum Cause {
    /// The formula of this number has a work number above 2^127 - 1 in magnitude.
    Wide(Node),
    /// No one quadratic field holds all eigenvalues.
    Spectrum,
}

/// A test that isn't decided.
#[derive(Debug, PartialEq, Eq, Drop)]
pub struct Pending {
    pub test: Test,
    pub cause: Cause,
}

/// The tests that ran and hold, in the order in which they ran.
#[derive(Debug, Drop)]
pub struct PassedTests {
    items: Vec<Test>,
}

impl Model for PassedTests {
    ghost use Rattle.std.specs.Prelude.{List};
    ghost use Rattle.drg_array.specs.declared.test.Test.{Test};

    ghost Value = { List Test };

    ghost view = { λ t. t.items.items };
}

impl PassedTests {
    /// The tests of this vector, in their order. Takes no memory.
    pub fn new(items: Vec<Test>) -> PassedTests
        ensures { result ≡ items.items }
    {
        PassedTests { items }
    }

    /// Appends a test. After an error the tests are as they were.
    pub fn push(&mut self, test: Test) -> Result<(), AllocError>
        ensures ok { OnOk result (self.new ≡ self.old ++ test ∷ []) }
        ensures err { OnErr result (self.new ≡ self.old) }
    {
        self.items.push(test)?;
        Ok(())
    }

    /// The tests as a slice.
    pub fn as_slice(&self) -> &[Test]
        ensures { result.now ≡ self.now }
    {
        &self.items
    }
}

/// The tests that aren't decided, in the order in which they ran. A test can have more than one
/// entry.
#[derive(Debug, Drop)]
pub struct PendingTests {
    items: Vec<Pending>,
}

impl Model for PendingTests {
    ghost use Rattle.std.specs.Prelude.{List};
    ghost use Rattle.drg_report.specs.declared.verdict.Pending.{Pending};

    ghost Value = { List Pending };

    ghost view = { λ t. t.items.items };
}

impl PendingTests {
    /// The entries of this vector, in their order. Takes no memory.
    pub fn new(items: Vec<Pending>) -> PendingTests
        ensures { result ≡ items.items }
    {
        PendingTests { items }
    }

    /// Appends an entry. After an error the entries are as they were.
    pub fn push(&mut self, entry: Pending) -> Result<(), AllocError>
        ensures ok { OnOk result (self.new ≡ self.old ++ entry ∷ []) }
        ensures err { OnErr result (self.new ≡ self.old) }
    {
        self.items.push(entry)?;
        Ok(())
    }

    /// The entries as a slice.
    pub fn as_slice(&self) -> &[Pending]
        ensures { result.now ≡ self.now }
    {
        &self.items
    }
}

/// The tables of an array over an exact field that holds its eigenvalues.
#[derive(Drop)]
pub struct SpectralTables<F: Field> {
    /// The eigenvalues with the matrices P and Q.
    pub frame: Frame<F>,
    /// The Krein parameters of the frame, where a test that ran asks for them.
    pub krein: Option<Krein<F>>,
}

/// The tables of an array, over the field of its eigenvalues.
#[derive(Drop)]
pub enum Spectra {
    /// All eigenvalues are rational.
    Rational(SpectralTables<Fraction>),
    /// All eigenvalues lie in one quadratic field, and not all are rational.
    Quadratic(SpectralTables<Quadratic>),
}

/// The array fails the claim, and the derivation shows it.
#[derive(Drop)]
pub struct Infeasible {
    pub claim: Claim,
    pub class: Class,
    pub derivation: Derivation,
    /// The tests before that of the claim that aren't decided.
    pub pending: PendingTests,
    /// Why no one quadratic field holds the eigenvalues, where an entry has this cause.
    pub other: Option<OtherSpectrum>,
}

/// No test is found false, and a number is too wide for one to be decided.
#[derive(Drop)]
pub struct Undecided {
    pub passed: PassedTests,
    pub pending: PendingTests,
    /// Why no one quadratic field holds the eigenvalues, where an entry has this cause.
    pub other: Option<OtherSpectrum>,
}

/// No test is found false, and those that can't be decided are just those that ask for all
/// eigenvalues in one quadratic field, which doesn't exist.
#[derive(Drop)]
pub struct RefusedSpectrum {
    pub passed: PassedTests,
    pub pending: PendingTests,
    /// Why no one quadratic field holds the eigenvalues.
    pub other: OtherSpectrum,
}

/// Every test that ran holds. It isn't said that the array has a graph.
#[derive(Drop)]
pub struct Survivor {
    pub passed: PassedTests,
    pub numbers: Numbers,
    /// The tables that the report prints, where a test that ran asks for them.
    pub spectra: Option<Spectra>,
    /// The P-polynomial orderings of the numbers.
    pub p_orderings: Orderings,
    /// The Q-polynomial orderings of the Krein parameters, where the tables have these.
    pub q_orderings: Option<Orderings>,
}

/// What the tests found in an array.
#[derive(Drop)]
pub enum Verdict {
    Infeasible(Infeasible),
    Undecided(Undecided),
    RefusedSpectrum(RefusedSpectrum),
    Survivor(Survivor),
}
