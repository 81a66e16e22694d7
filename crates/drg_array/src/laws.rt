//! Laws for callers that need them: of texts, each a fact about a grammar alone, of the limits, and
//! of the catalogue of tests and claims.

ghost use Rattle.std.specs.Prelude.{◌≡◌};
ghost use Rattle.drg_array.specs.CatalogueLaws.{AllInOrder, AreBuilt, AreReplayed, BuiltAreReplayed, ClaimByName, ClaimNamesInOrder, ClaimOfParts, ClaimsInOrder, OneClaimName, OneTestName, OneTestNumber};
ghost use Rattle.drg_array.specs.Laws.{OneArray, OneFault, ArrayOrFault, NotBoth, CanonicalIsText, OneTestList};

use crate::{BUILT, MAX_DIAMETER, MAX_ENTRY, MAX_INDICES, REPLAYED};

/// Each text is the text of one array, or has one fault, and never both. The canonical text of an
/// array is a text of that array, so that it is read again as the same array.
pub fn text_law()
    ensures one_array { OneArray }
    ensures one_fault { OneFault }
    ensures either { ArrayOrFault }
    ensures not_both { NotBoth }
    ensures canonical { CanonicalIsText }
{}

/// Each text is the text of one list of tests at most.
pub fn test_list_law()
    ensures { OneTestList }
{}

/// The limits are these numbers.
pub fn limit_law()
    ensures diameter { MAX_DIAMETER ≡ 12 }
    ensures entry { MAX_ENTRY ≡ 4095 }
    ensures indices { MAX_INDICES ≡ 3 }
{}

/// The list of all tests has each of them at its number, and each has one name. The tests from
/// handshake on that are built, and the claims that a replay knows, are these.
pub fn test_law()
    ensures all { AllInOrder }
    ensures one_name { OneTestName }
    ensures one_number { OneTestNumber }
    ensures built { AreBuilt BUILT }
    ensures replayed { AreReplayed REPLAYED }
    ensures both { BuiltAreReplayed }
{}

/// The names of claims are all on one list, and each is known by its text. A claim is the one that
/// is made of its name and its indices, and of a name and as many indices as it has, exactly one is
/// made, which has them. The order of claims is a strict one, in which any two are comparable.
pub fn claim_law()
    ensures names { ClaimNamesInOrder }
    ensures one_name { OneClaimName }
    ensures by_name { ClaimByName }
    ensures of_parts { ClaimOfParts }
    ensures order { ClaimsInOrder }
{}
