//! What an array fails, and how it is written.

ghost use Rattle.std.specs.Prelude.{◌≡◌, ◌≤◌, ◌↔◌, [], ◌∷◌, ◌++◌, length, Some, OnOk, OnErr};
ghost use Rattle.std.specs.List.{AllByRecursion};
ghost use Rattle.drg_algebra.specs.Beginnings.{BeginsWith};
ghost use Rattle.drg_array.specs.ClaimOrder.{IsClaimOf};
ghost use Rattle.drg_array.specs.Claims.{class_name, class_of, claim_of, claim_text, indices_of, name_of, spaced};
ghost use Rattle.drg_array.specs.declared.test.Test.{Test as TheTest};

use crate::{ClaimName, MAX_INDICES, Test};
use arrayvec::ArrayVec;
use itoa::Buffer;
use std::alloc::AllocError;

/// What the derivation of a claim rests on: counts alone, or also the eigenvalues.
#[derive(Clone, Copy, Debug, PartialEq, Eq)]
pub enum Class {
    Counting,
    Spectral,
}

impl Class {
    /// The name, in lowercase letters.
    pub fn name(&self) -> &'static str
        ensures { result.now ≡ class_name self.now }
    {
        match self {
            Class::Counting => "counting",
            Class::Spectral => "spectral",
        }
    }
}

/// A test that an array fails, with the indices at which its condition is false.
#[derive(Clone, Copy, Debug, PartialEq, Eq)]
pub enum Claim {
    First,
    Degree { i: u8 },
    Order { i: u8 },
    Cross { i: u8, j: u8 },
    Size { i: u8 },
    Intersect { h: u8, i: u8, j: u8 },
    Handshake { i: u8 },
    Induced { i: u8, j: u8 },
    Triangles { i: u8 },
    Mult { i: u8 },
    Krein { i: u8, j: u8, h: u8 },
    Absolute { i: u8, j: u8 },
    Triple { u: u8, v: u8, w: u8 },
    Ktriple { u: u8, v: u8, w: u8 },
}

impl Claim {
    /// The claim of this name with these indices, where they are as many as it has.
    pub fn of(name: ClaimName, indices: &[u8]) -> Option<Claim>
        ensures { result ≡ claim_of name indices.now }
    {
        match *indices {
            [] => claim_of_none(name),
            [i] => claim_of_one(name, i),
            [i, j] => claim_of_two(name, i, j),
            [i, j, h] => claim_of_three(name, i, j, h),
            _ => None,
        }
    }

    /// The name.
    pub fn name(&self) -> ClaimName
        ensures { result ≡ name_of self.now }
    {
        match self {
            Claim::First => ClaimName::OfTest(Test::First),
            Claim::Degree { .. } => ClaimName::OfTest(Test::Degree),
            Claim::Order { .. } => ClaimName::OfTest(Test::Order),
            Claim::Cross { .. } => ClaimName::OfTest(Test::Cross),
            Claim::Size { .. } => ClaimName::OfTest(Test::Size),
            Claim::Intersect { .. } => ClaimName::OfTest(Test::Intersect),
            Claim::Handshake { .. } => ClaimName::OfTest(Test::Handshake),
            Claim::Induced { .. } => ClaimName::OfTest(Test::Induced),
            Claim::Triangles { .. } => ClaimName::OfTest(Test::Triangles),
            Claim::Mult { .. } => ClaimName::OfTest(Test::Mult),
            Claim::Krein { .. } => ClaimName::OfTest(Test::Krein),
            Claim::Absolute { .. } => ClaimName::OfTest(Test::Absolute),
            Claim::Triple { .. } => ClaimName::OfTest(Test::Triple),
            Claim::Ktriple { .. } => ClaimName::OfTest(Test::Ktriple),
        }
    }

    /// The indices, in the order in which they are written. Takes no memory.
    pub fn indices(&self) -> ArrayVec<u8, MAX_INDICES>
        ensures indices { result.items ≡ indices_of self.now }
        ensures bytes { AllByRecursion (λ n. n ≤ 255) (indices_of self.now) }
    {
        match self {
            Claim::First => few(&[]),
            Claim::Degree { i }
            | Claim::Order { i }
            | Claim::Size { i }
            | Claim::Handshake { i }
            | Claim::Triangles { i }
            | Claim::Mult { i } => few(&[*i]),
            Claim::Cross { i, j } | Claim::Induced { i, j } | Claim::Absolute { i, j } => {
                few(&[*i, *j])
            }
            Claim::Intersect { h, i, j } => few(&[*h, *i, *j]),
            Claim::Krein { i, j, h } => few(&[*i, *j, *h]),
            Claim::Triple { u, v, w } | Claim::Ktriple { u, v, w } => few(&[*u, *v, *w]),
        }
    }

    /// The test that an array fails which meets the claim. There can be none.
    pub fn test(&self) -> Option<Test>
        ensures { (t : TheTest) → (result ≡ Some t) ↔ IsClaimOf t self.now }
    {
        self.name().test()
    }

    /// The class of the claim.
    pub fn class(&self) -> Class
        ensures { result ≡ class_of self.now }
    {
        self.name().class()
    }

    /// Appends the name and the indices, with one space before each.
    pub fn write_text(&self, out: &mut Vec<u8>) -> Result<(), AllocError>
        ensures ok { OnOk result (out.new.items ≡ out.old.items ++ claim_text self.now) }
        ensures err { OnErr result (BeginsWith (claim_text self.now) out.old.items out.new.items) }
    {
        out.extend_from_slice(self.name().text().as_bytes())?;
        write_spaced(&self.indices(), out)
    }
}

/// The claim of this name without indices.
fn claim_of_none(name: ClaimName) -> Option<Claim>
    ensures { result ≡ claim_of name [] }
{
    match name {
        ClaimName::OfTest(Test::First) => Some(Claim::First),
        _ => None,
    }
}

/// The claim of this name with one index.
fn claim_of_one(name: ClaimName, i: u8) -> Option<Claim>
    ensures { result ≡ claim_of name (i ∷ []) }
{
    match name {
        ClaimName::OfTest(Test::Degree) => Some(Claim::Degree { i }),
        ClaimName::OfTest(Test::Order) => Some(Claim::Order { i }),
        ClaimName::OfTest(Test::Size) => Some(Claim::Size { i }),
        ClaimName::OfTest(Test::Handshake) => Some(Claim::Handshake { i }),
        ClaimName::OfTest(Test::Triangles) => Some(Claim::Triangles { i }),
        ClaimName::OfTest(Test::Mult) => Some(Claim::Mult { i }),
        _ => None,
    }
}

/// The claim of this name with two indices.
fn claim_of_two(name: ClaimName, i: u8, j: u8) -> Option<Claim>
    ensures { result ≡ claim_of name (i ∷ j ∷ []) }
{
    match name {
        ClaimName::OfTest(Test::Cross) => Some(Claim::Cross { i, j }),
        ClaimName::OfTest(Test::Induced) => Some(Claim::Induced { i, j }),
        ClaimName::OfTest(Test::Absolute) => Some(Claim::Absolute { i, j }),
        _ => None,
    }
}

/// The claim of this name with three indices, in the order in which they are written.
fn claim_of_three(name: ClaimName, first: u8, second: u8, third: u8) -> Option<Claim>
    ensures { result ≡ claim_of name (first ∷ second ∷ third ∷ []) }
{
    match name {
        ClaimName::OfTest(Test::Intersect) => Some(Claim::Intersect {
            h: first,
            i: second,
            j: third,
        }),
        ClaimName::OfTest(Test::Krein) => Some(Claim::Krein {
            i: first,
            j: second,
            h: third,
        }),
        ClaimName::OfTest(Test::Triple) => Some(Claim::Triple {
            u: first,
            v: second,
            w: third,
        }),
        ClaimName::OfTest(Test::Ktriple) => Some(Claim::Ktriple {
            u: first,
            v: second,
            w: third,
        }),
        _ => None,
    }
}

/// At most three indices.
fn few(indices: &[u8]) -> ArrayVec<u8, MAX_INDICES>
    requires { length indices.now ≤ 3 }
    ensures { result.items ≡ indices.now }
{
    let mut all = ArrayVec::new();
    'indices: for index in indices {
        all.push(*index);
    }
    all
}

/// Appends the numbers, with one space before each.
pub fn write_spaced(numbers: &[u8], out: &mut Vec<u8>) -> Result<(), AllocError>
    ensures ok { OnOk result (out.new.items ≡ out.old.items ++ spaced numbers.now) }
    ensures err { OnErr result (BeginsWith (spaced numbers.now) out.old.items out.new.items) }
{
    let mut buffer = Buffer::new();
    'numbers: for number in numbers {
        out.push(b' ')?;
        out.extend_from_slice(buffer.format(*number).as_bytes())?;
    }
    Ok(())
}
