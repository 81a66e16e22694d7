//! Algebra that knows nothing of arrays or graphs, stated and proved once for all crates above.
//!
//! Here stand commutative rings and fields, the whole numbers and the rationals, greatest common
//! divisors, the values `a + b√D` and their order, sums over places and over lists, counts and parity,
//! and linear dependence. There is no code: each function below promises a group of laws, and the check
//! proves them.
//!
//! The definitions stand in `specs/`, one topic a file: `Ring`, `Maps`, `Integer`, `Rational`, `Gcd`,
//! `Ratio`, `Reduced`, `Root`, `Pairs`, `Fields`, `Order`, `Tables`, `Sums` and `Steps`. The laws are
//! stated in `RingLaws`, `DivisorLaws`, `RationalLaws`, `OrderLaws`, `TableLaws` and `CountLaws`, and
//! small cases in `Examples`. A clause cannot range over all rings, so it ranges over names of rings
//! (`Kind`, `FieldKind`, `OrderedKind`); the lemmas in `proofs/` whose names end in `_hold` or `_holds`
//! take any ring or field, and crates above cite those.
#![tactic(auto)]

ghost use Rattle.std.specs.Prelude.{ℕ, ◌<◌};
ghost use Rattle.drg_algebra.specs.Ring.{IsFieldOf, IsRingOf};
ghost use Rattle.drg_algebra.specs.Integer.{whole_numbers};
ghost use Rattle.drg_algebra.specs.Rational.{rational_numbers};
ghost use Rattle.drg_algebra.specs.Pairs.{root_values};
ghost use Rattle.drg_algebra.specs.Root.{IsSquarefree};
ghost use Rattle.drg_algebra.specs.Fields.{FieldKind, field_of};
ghost use Rattle.drg_algebra.specs.Order.{IsAbove, IsLinearOrder, IsOrdered, IsPositive, IsWholeAbove, Less};
ghost use Rattle.drg_algebra.specs.Kinds.{Kind, ring_of};
ghost use Rattle.drg_algebra.specs.RingLaws.{EquationsByComputation, FieldLaws, NormIsZeroByParts, PairLaws, PairsAreField, ProductOfValues, SquareOfRoot, ValueIsItsParts, ValuesAreField, WholesAreRationals, WholesAreValues};
ghost use Rattle.drg_algebra.specs.DivisorLaws.{CoprimeToProduct, EuclidsLemma, GcdCommutes, GcdIsGreatest, GcdScales, NoSquareOfQuotient, OneSquarefreePart, SquarefreeIsNoSquare};
ghost use Rattle.drg_algebra.specs.RationalLaws.{DivisionReduces, EqualByCrossProducts, InverseOfRatio, InverseOfRational, NegativeOfRatio, OneReducedPair, PartsAreReduced, ProductOfRatios, SignOfDenominator, SumOfRatios};
ghost use Rattle.drg_algebra.specs.OrderLaws.{IsAboveNil, LessByCrossProducts, OrderedKind, OrderedRingLaws, SignOfEmbedded, SignOfRatio, SignOfWhole, TwoCasesAreThree, ordered_ring};
ghost use Rattle.drg_algebra.specs.TableLaws.{Dependence, ListSumLaws, RightInverseIsLeft, SumLaws};
ghost use Rattle.drg_algebra.specs.CountLaws.{BelowIsDistinct, BelowIsLess, CountByClasses, CountFindsMember, CountOfOne, CountsAgree, CountsAreMonotone, CountsExchange, DisjointCounts, EdgesFromBothSides, FirstOfSum, MemberCounts, MemberOfSum, MemberOfWholeSum, MultipleLeavesNoRest, OneMember, PairsAreEven, SumByClasses, SumOfConstant, SumOfSteps, SumsAdd, SumsAgree, SumsAreMonotone, SumsExchange, SumsScale, TrianglesAreSixfold, WholeSumOfNaturals, WholeSumsAdd};
ghost use Rattle.drg_algebra.specs.Examples.{FiveIsSquarefree, GoldenRatio, RootOfTwoIsAboveOne, SquareOfSum, SquareOfTable, ThreePoints};

/// An equation of polynomials holds in every commutative ring where both sides have one normal form,
/// which is computed.
pub fn equations()
    ensures { (k : Kind) → EquationsByComputation (ring_of k) }
{}

/// The whole numbers are a ring and the rationals a field, and the whole numbers stand among the
/// rationals.
pub fn number_rings()
    ensures integers { IsRingOf whole_numbers }
    ensures rationals { IsFieldOf rational_numbers }
    ensures wholes { WholesAreRationals }
    ensures inverse { InverseOfRational }
{}

/// In a field each quotient is there and unique, and a product is nil only where a factor is.
pub fn fields()
    ensures { (k : FieldKind) → FieldLaws (field_of k) }
{}

/// Ratios are equal by cross products, and are added, multiplied, negated and inverted as fractions
/// are.
pub fn ratios()
    ensures equal { EqualByCrossProducts }
    ensures sum { SumOfRatios }
    ensures product { ProductOfRatios }
    ensures negative { NegativeOfRatio }
    ensures inverse { InverseOfRatio }
    ensures sign { SignOfDenominator }
{}

/// The greatest common divisor, Euclid's lemma, and squarefree numbers: the squarefree part is unique,
/// and a number that is no square is no square of a quotient.
pub fn greatest_common_divisors()
    ensures greatest { GcdIsGreatest }
    ensures commutes { GcdCommutes }
    ensures scales { GcdScales }
    ensures euclid { EuclidsLemma }
    ensures product { CoprimeToProduct }
    ensures squarefree { OneSquarefreePart }
    ensures no_square { SquarefreeIsNoSquare }
    ensures quotient { NoSquareOfQuotient }
{}

/// Each rational has one reduced pair of numerator and denominator, and division by the greatest common
/// divisor gives it.
pub fn reduced_pairs()
    ensures parts { PartsAreReduced }
    ensures division { DivisionReduces }
    ensures unique { OneReducedPair }
{}

/// The extension of a ring by a root of `x² - sx + t` is a ring with conjugates, norms and traces, and
/// over a field it is a field where only nil has the norm nil. The values `a + b√D`, remainders modulo
/// a quadratic and dual numbers are instances.
pub fn extensions()
    ensures laws { (k : Kind) (s t : (ring_of k).Of) → PairLaws (ring_of k) s t }
    ensures field { (k : FieldKind) → PairsAreField (field_of k) }
{}

/// The values `a + b√D` are a ring for each D, and a field for a squarefree D above 1.
pub fn values()
    ensures ring { (root : ℕ) → IsRingOf (root_values root) }
    ensures product { ProductOfValues }
    ensures root { SquareOfRoot }
    ensures wholes { WholesAreValues }
    ensures field { ValuesAreField }
{}

/// A value is 0 exactly where both its parts are, and for a squarefree D above 1 `a² - D b²` is 0 only
/// there.
pub fn zero_by_parts()
    ensures parts { ValueIsItsParts }
    ensures norm { NormIsZeroByParts }
{}

/// Whole numbers, rationals and values are ordered. A ratio has its numerator's sign; a value is
/// positive in three cases of its parts, which are two cases of `a² - D b²`.
pub fn orders()
    ensures integers { IsOrdered whole_numbers IsWholeAbove }
    ensures rationals { IsOrdered rational_numbers IsAbove }
    ensures values { (root : ℕ) → IsSquarefree root → 1 < root → IsOrdered (root_values root) (IsPositive root) }
    ensures sign { SignOfRatio }
    ensures less { LessByCrossProducts }
    ensures wholes { SignOfWhole }
    ensures embedded { SignOfEmbedded }
    ensures two_cases { TwoCasesAreThree }
{}

/// In an ordered ring, differences above nil are a strict linear order that sums keep, and products
/// with members above nil; squares are not negative, and a sum of members that are not negative is
/// above nil where its first one is.
pub fn ordered_rings()
    ensures linear { (k : OrderedKind) → IsLinearOrder (ordered_ring k) (Less (ordered_ring k) (IsAboveNil k)) }
    ensures laws { (k : OrderedKind) → OrderedRingLaws (ordered_ring k) (IsAboveNil k) }
{}

/// Sums over the places `0 .. n - 1` in a ring, with the exchange of two sums, and sums over lists as
/// sums over their places.
pub fn sums_over_places()
    ensures places { (k : Kind) → SumLaws (ring_of k) }
    ensures lists { (k : Kind) → ListSumLaws (ring_of k) }
{}

/// Over a field, n + 1 vectors of n places are dependent.
pub fn dependence()
    ensures { (k : FieldKind) → Dependence (field_of k) }
{}

/// Over a field, `P·Q = xI` with x not 0 gives `Q·P = xI`, for square tables.
pub fn right_inverse_is_left()
    ensures { (k : FieldKind) → RightInverseIsLeft (field_of k) }
{}

/// Sums of `f x` over the members x of a list of numbers: monotony, the exchange of two sums, sums by
/// classes, and single members.
pub fn sums_over_lists()
    ensures agree { SumsAgree }
    ensures monotone { SumsAreMonotone }
    ensures add { SumsAdd }
    ensures scale { SumsScale }
    ensures exchange { SumsExchange }
    ensures classes { SumByClasses }
    ensures member { MemberOfSum }
    ensures one_member { OneMember }
    ensures below { BelowIsLess }
    ensures distinct { BelowIsDistinct }
    ensures first { FirstOfSum }
{}

/// Counts of the members of a list that pass a test: monotony, exchange, classes, disjoint tests,
/// single members, and edges counted from both sides.
pub fn counts_over_lists()
    ensures agree { CountsAgree }
    ensures monotone { CountsAreMonotone }
    ensures exchange { CountsExchange }
    ensures classes { CountByClasses }
    ensures disjoint { DisjointCounts }
    ensures found { CountFindsMember }
    ensures member { MemberCounts }
    ensures one { CountOfOne }
    ensures constant { SumOfConstant }
    ensures edges { EdgesFromBothSides }
{}

/// A symmetric relation without loops has an even number of ordered pairs, and a multiple of 6 of
/// ordered triangles.
pub fn pairs_and_triangles()
    ensures pairs { PairsAreEven }
    ensures triangles { TrianglesAreSixfold }
{}

/// A sum with the weights of steps by one is a sum of three terms.
pub fn steps_by_one()
    ensures { SumOfSteps }
{}

/// Sums of whole numbers with a sign over lists, and multiples.
pub fn whole_sums()
    ensures naturals { WholeSumOfNaturals }
    ensures member { MemberOfWholeSum }
    ensures add { WholeSumsAdd }
    ensures multiple { MultipleLeavesNoRest }
{}

/// Small cases by hand: no definition of this crate is empty. The square of a sum, the golden ratio,
/// `√2 - 1`, a table whose square is `2I`, and three points.
pub fn examples()
    ensures square { (k : Kind) → SquareOfSum (ring_of k) }
    ensures squarefree { FiveIsSquarefree }
    ensures golden { GoldenRatio }
    ensures positive { RootOfTwoIsAboveOne }
    ensures table { SquareOfTable }
    ensures points { ThreePoints }
{}
