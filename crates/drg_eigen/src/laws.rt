//! Laws of the polynomials of a recurrence, and of their factors.

ghost use Rattle.drg_algebra.specs.Kinds.{Kind, ring_of};
ghost use Rattle.drg_eigen.specs.Examples.{PentagonFactors, PetersenFactors};
ghost use Rattle.drg_eigen.specs.FullExamples.{AllPentagonFactors, AllPetersenFactors, HeptagonQuotient};
ghost use Rattle.drg_eigen.specs.FaultLaws.{NoFaultWhereAllFit, OneFault};
ghost use Rattle.drg_eigen.specs.SplitLaws.{FewerDivisions, NoSplitFaultWhereAllFit, OneSplit, OneSplitFault, ProductsAreSimple};
ghost use Rattle.drg_eigen.specs.RecurrenceLaws.{AtDual, ChainGivesValues, ChristoffelDarboux, Confluent, ConfluentQuotientForm, QuotientForm};
ghost use Rattle.drg_eigen.specs.FactorLaws.{DegreesAdd, DividesOrNot, FactorsCommute, FactorsDivide, FactorsOfFullProduct, FactorsOfProduct, IrreduciblesArePrime, NoDoubleFactorOfChain, NoDoubleLinear, NoDoubleQuadratic, QuadraticsAreReal, QuadraticsOfChainAreReal};

/// The coefficients of the polynomials F_j of a recurrence give their values, which obey the
/// identity of Christoffel and Darboux: without divisions, with quotients, and its confluent form.
/// The slopes in that form are the derivatives, by the value at a dual number.
pub fn recurrence_law()
    ensures values { (k : Kind) → ChainGivesValues (ring_of k) }
    ensures division_free { (k : Kind) → ChristoffelDarboux (ring_of k) }
    ensures quotients { (k : Kind) → QuotientForm (ring_of k) }
    ensures confluent { (k : Kind) → Confluent (ring_of k) }
    ensures confluent_quotients { (k : Kind) → ConfluentQuotientForm (ring_of k) }
    ensures at_dual { (k : Kind) → AtDual (ring_of k) }
{}

/// No `x - r` and no `x² - sx + t` divides the characteristic polynomial of an array twice, and
/// each irreducible `x² - sx + t` that divides it has `s² > 4t`. The same holds of each recurrence
/// with positive weights.
pub fn has_simple_factors()
    ensures linear { NoDoubleLinear }
    ensures quadratic { NoDoubleQuadratic }
    ensures real { QuadraticsAreReal }
    ensures recurrence { NoDoubleFactorOfChain }
    ensures recurrence_real { QuadraticsOfChainAreReal }
{}

/// Whether a factor divides can be told. An irreducible factor that divides a product of
/// irreducible ones and a polynomial is one of them or divides the polynomial. One that divides a
/// product of irreducible ones is among them.
pub fn factor_law()
    ensures told { DividesOrNot }
    ensures prime { IrreduciblesArePrime }
    ensures commute { FactorsCommute }
    ensures degrees { DegreesAdd }
    ensures of_product { FactorsOfProduct }
    ensures of_full_product { FactorsOfFullProduct }
    ensures divide { FactorsDivide }
{}

/// An array has one fault at most, apart from want of memory, and none where the formulas of all
/// its polynomials fit.
pub fn fault_law()
    ensures one { OneFault }
    ensures none { NoFaultWhereAllFit }
{}

/// A monic polynomial has one answer of `split_of` and one fault at most, apart from want of
/// memory. It has none where the divisions that are asked for fit, or those by all candidates. What
/// `split_of` asks of a polynomial is met by each product of different irreducible factors with
/// real roots.
pub fn split_law()
    ensures one { OneSplit }
    ensures one_fault { OneSplitFault }
    ensures no_fault { NoSplitFaultWhereAllFit }
    ensures fewer { FewerDivisions }
    ensures products { ProductsAreSimple }
{}

/// The characteristic polynomials of the Petersen graph and of the pentagon, with all their
/// factors, and a factor of that of the heptagon, by hand.
pub fn example_law()
    ensures petersen { PetersenFactors }
    ensures pentagon { PentagonFactors }
    ensures all_petersen { AllPetersenFactors }
    ensures all_pentagon { AllPentagonFactors }
    ensures heptagon { HeptagonQuotient }
{}
