//! Equations.
ghost use Rattle.std.specs.Prelude.{◌≡◌};
ghost use Rattle.drg_linear.specs.Equations.{coefficient_of as the_coefficient_of};

use crate::unknown::Unknown;
use drg_whole::Whole;
use std::hash::{Hash, Hasher};
use std::marker::Model;

/// Some unknowns, each with its coefficient.
#[derive(Debug, Drop)]
pub struct Terms {
    items: Vec<(Unknown, i128)>,
}

impl Model for Terms {
    ghost use Rattle.std.specs.Prelude.{List};
    ghost use Rattle.drg_linear.specs.Equations.{Term};

    ghost Value = { List Term };

    ghost view = { λ t. t.items.items };
}

impl Terms {
    /// These terms, in their order. Takes no memory.
    pub fn new(items: Vec<(Unknown, i128)>) -> Terms
        ensures { result ≡ items.items }
    {
        Terms { items }
    }

    /// The terms as a slice.
    pub fn as_slice(&self) -> &[(Unknown, i128)]
        ensures { result.now ≡ self.now }
    {
        &self.items
    }
}

/// A sum of terms and the number that it equals. The terms stand in the order of their unknowns,
/// each unknown once. No coefficient is 0, and no number is `i128::MIN`.
#[derive(Debug, Drop)]
pub struct Equation {
    pub terms: Terms,
    pub right: i128,
}

impl Model for Equation {
    ghost use Rattle.std.specs.Prelude.{◌≡◌, true};
    ghost use Rattle.drg_linear.specs.Equations.{EquationContent, is_equation};

    ghost Value = { EquationContent };

    ghost view = { λ e. record { terms = e.terms; right = e.right } };

    ghost invariant = { λ e. is_equation (record { terms = e.terms; right = e.right }) ≡ true };
}

impl PartialEq for Equation {
    ghost use Rattle.std.specs.Cmp.{partial_equiv_from_equiv};
    ghost use Rattle.drg_linear.specs.Sameness.{same_equation};
    ghost use Rattle.drg_linear.specs.SamenessLaws.{equation_equivalence};

    ghost eq = { same_equation };

    ghost laws = { partial_equiv_from_equiv equation_equivalence };

    fn eq(&self, other: &Self) -> bool {
        self.terms.items == other.terms.items && self.right == other.right
    }
}

impl Eq for Equation {
    ghost use Rattle.drg_linear.specs.SamenessLaws.{equation_equivalence};

    ghost laws = { equation_equivalence };
}

impl Hash for Equation {
    ghost use Rattle.std.specs.Hash.{same_Alike};
    ghost use Rattle.drg_linear.specs.Sameness.{equation_writes};
    ghost use Rattle.drg_linear.specs.SamenessLaws.{same_Decides};

    ghost hash_input = { equation_writes };

    ghost respects_eq = { (same_Alike equation_writes same_Decides).fed };

    fn hash<H: Hasher>(&self, state: &mut H) {
        self.terms.items.hash(state);
        self.right.hash(state);
    }
}

/// The coefficient of the unknown, and 0 where there is no term of it.
fn coefficient_of(terms: &[(Unknown, i128)], unknown: Unknown) -> i128
    ensures { result ≡ the_coefficient_of unknown terms.now }
{
    'terms: for term in terms {
        if term.0.is_same(unknown) {
            return term.1;
        }
    }
    0
}

impl Equation {
    /// The coefficient of the unknown, and 0 where there is no term of it.
    pub fn coefficient(&self, unknown: Unknown) -> Whole
        ensures { result.value ≡ the_coefficient_of unknown self.now.terms }
    {
        Whole::new(coefficient_of(self.terms.as_slice(), unknown))
    }

    /// The right side.
    pub fn right_side(&self) -> Whole
        ensures { result.value ≡ self.now.right }
    {
        Whole::new(self.right)
    }
}
