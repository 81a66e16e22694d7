//! The Krein parameters of a frame.

ghost use Rattle.std.specs.Prelude.{◌≡◌, ◌≤◌, suc, true, IfOk, IfErr, OnOk};
ghost use Rattle.drg_fraction.specs.Field.{HasSign};
ghost use Rattle.drg_matrix.specs.Krein.{AreKreinNumbers};
ghost use Rattle.drg_matrices.specs.Tables.{diameter_of, dual_in, root_of_tables};
ghost use Rattle.drg_krein.specs.Values.{IsFrameOfNumbers, values_in};
ghost use Rattle.drg_krein.specs.Faults.{AllFit, IsFault};
ghost use Rattle.drg_krein.specs.Tables.{krein_in};
ghost use Rattle.drg_krein.specs.Vanishing.{AreVanishing};

use crate::checks::{products, signs};
use crate::copies::{Matrix, copy_of};
use crate::fault::KreinFault;
use crate::laws::formula_law;
use crate::numbers::tables_of;
use crate::vanishing::vanishing_of;
use drg_array::MAX_DIAMETER;
use drg_fraction::Field;
use drg_intersection::Numbers;
use drg_matrices::Frame;
use drg_matrix::Table;
use std::alloc::{AllocError, Global};
use std::cmp::Ordering;
use std::marker::Model;

/// The Krein parameters q^h_ij of a frame of diameter d, with their signs. All indices are from 0
/// to d, and q^h_ij = q^h_ji.
#[derive(Drop)]
pub struct Krein<F: Field> {
    d: usize,
    root: u32,
    // Table i has q^h_ij in row j and column h, for i ≤ j.
    tables: Vec<Table<F>>,
}

impl<F: Field> Model for Krein<F> {
    ghost use Rattle.drg_krein.specs.Tables.{KreinTables, AreTables};

    ghost Value = { KreinTables F };

    ghost view = { λ t. record { d = t.d; root = t.root; tables = t.tables.items } };

    ghost invariant = { λ t. AreTables F.value F.operations
        (record { d = t.d; root = t.root; tables = t.tables.items }) };
}

impl<F: Field> Krein<F> {
    /// The diameter.
    pub fn d(&self) -> usize
        ensures value { result ≡ self.now.d }
        ensures short { result ≤ MAX_DIAMETER }
    {
        self.d
    }

    /// The parameter q^h_ij.
    pub fn q(&self, i: usize, j: usize, h: usize) -> F
        requires i { i ≤ self.now.d }
        requires j { j ≤ self.now.d }
        requires h { h ≤ self.now.d }
        ensures value { F.value result ≡ krein_in F.value F.operations self.now h i j }
        ensures root { F.root_of result ≡ self.now.root }
        ensures sign { (F.operations self.now.root).sign_fits (F.value result) ≡ true }
    {
        if i <= j {
            self.tables[i].get(j, h)
        } else {
            self.tables[j].get(i, h)
        }
    }

    /// How the parameter q^h_ij stands to 0.
    pub fn sign(&self, i: usize, j: usize, h: usize) -> Ordering
        requires i { i ≤ self.now.d }
        requires j { j ≤ self.now.d }
        requires h { h ≤ self.now.d }
        ensures { HasSign (F.operations self.now.root)
            (krein_in F.value F.operations self.now h i j) result }
    {
        sign_of(self.q(i, j, h))
    }

    /// The indices i, j and h of the parameters q^h_ij that are 0, each from 1 to d, in lexicographic
    /// order. Want of memory is the one error.
    pub fn vanishing(&self, alloc: Global) -> Result<Vec<(u8, u8, u8)>, AllocError>
        ensures { IfOk result (λ found.
            AreVanishing F.value F.operations self.now found.items) }
    {
        vanishing_of(alloc, self)
    }
}

/// The Krein parameters of the frame of an array with these numbers, as weighted sums over the products
/// of three cosines. A fault names the first quantity with a work number above 2^127 - 1 in
/// magnitude, in the order of the parameters, their equations, and their signs.
pub fn krein_of<F: Field>(
    alloc: Global,
    numbers: &Numbers,
    frame: &Frame<F>,
) -> Result<Krein<F>, KreinFault>
    requires { IsFrameOfNumbers F.value F.operations numbers.now frame.now }
    ensures krein { let o = F.operations (root_of_tables frame.now) in
        IfOk result (λ k. AreKreinNumbers o (diameter_of frame.now)
        (dual_in F.value F.operations frame.now) (krein_in F.value F.operations k)) }
    ensures diameter { IfOk result (λ k. k.d ≡ diameter_of frame.now) }
    ensures root { IfOk result (λ k. k.root ≡ root_of_tables frame.now) }
    ensures fit { let o = F.operations (root_of_tables frame.now) in
        OnOk result (AllFit o (values_in F.value F.operations numbers.now frame.now)) }
    ensures fault { let o = F.operations (root_of_tables frame.now) in
        IfErr result (IsFault o (values_in F.value F.operations numbers.now frame.now)) }
{
    formula_law::<F>();
    let cosines = copy_of(alloc, frame, Matrix::Cosines)?;
    let dual = copy_of(alloc, frame, Matrix::Dual)?;
    let tables = tables_of(alloc, numbers, frame, &cosines)?;
    products(numbers, frame, &dual, &tables)?;
    signs(numbers, frame, &tables)?;
    Ok(Krein {
        d: frame.d(),
        root: frame.m(0).root(),
        tables,
    })
}

/// How a value whose sign fits stands to 0.
fn sign_of<F: Field>(value: F) -> Ordering
    requires { (F.operations (F.root_of value)).sign_fits (F.value value) ≡ true }
    ensures { HasSign (F.operations (F.root_of value)) (F.value value) result }
{
    match value.sign() {
        Ok(sign) => sign,
        Err(_) => unreachable!(),
    }
}
