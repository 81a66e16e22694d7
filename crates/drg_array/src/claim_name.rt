//! The names of claims.

ghost use Rattle.std.specs.Prelude.{◌≡◌, bytes_eq, find, IfSome, IfNone};
ghost use Rattle.drg_array.specs.Claims.{class_of_name, index_count, name_text, test_name, test_named};
ghost use Rattle.drg_array.specs.declared.claim_name.ClaimName.{ClaimName as TheName};
ghost use Rattle.drg_array.specs.declared.test.TheConstants.Test.{ALL};

use crate::{Class, Test};

/// What a claim says, without its indices.
#[derive(Clone, Copy, Debug, PartialEq, Eq)]
pub enum ClaimName {
    /// That an array fails this test. The claim has the test's name.
    OfTest(Test),
}

/// The claims that a replay knows. Their tests needn't be built yet.
pub const REPLAYED: [ClaimName; 11] = [
    ClaimName::OfTest(Test::First),
    ClaimName::OfTest(Test::Degree),
    ClaimName::OfTest(Test::Order),
    ClaimName::OfTest(Test::Cross),
    ClaimName::OfTest(Test::Size),
    ClaimName::OfTest(Test::Intersect),
    ClaimName::OfTest(Test::Handshake),
    ClaimName::OfTest(Test::Induced),
    ClaimName::OfTest(Test::Triangles),
    ClaimName::OfTest(Test::Mult),
    ClaimName::OfTest(Test::Triple),
];

impl ClaimName {
    /// The name that these bytes are.
    pub fn read(text: &[u8]) -> Option<ClaimName>
        ensures some { IfSome result (λ name. name_text name ≡ text.now) }
        ensures none { IfNone result ((name : TheName) → name_text name ≡ text.now → ⊥) }
    {
        Some(ClaimName::OfTest(test_of_name(text)?))
    }

    /// The name as it is written, in lowercase letters.
    pub fn text(&self) -> &'static str
        ensures { result.now ≡ name_text self.now }
    {
        match self {
            ClaimName::OfTest(test) => test.name(),
        }
    }

    /// The test that an array fails which meets a claim of this name. There can be none.
    pub fn test(&self) -> Option<Test>
        ensures { result ≡ test_named self.now }
    {
        match self {
            ClaimName::OfTest(test) => Some(*test),
        }
    }

    /// The class of the claims of this name.
    pub fn class(&self) -> Class
        ensures { result ≡ class_of_name self.now }
    {
        match self {
            ClaimName::OfTest(test) => test.class(),
        }
    }

    /// How many indices a claim of this name has.
    pub fn index_count(&self) -> usize
        ensures { result ≡ index_count self.now }
    {
        match self {
            ClaimName::OfTest(test) => test.index_count(),
        }
    }
}

/// The test of this name.
fn test_of_name(text: &[u8]) -> Option<Test>
    ensures { result ≡ find (λ t. bytes_eq (test_name t) text.now) ALL }
{
    Test::ALL
        .iter()
        .copied()
        .find(|test| test.name().as_bytes() == text)
}
