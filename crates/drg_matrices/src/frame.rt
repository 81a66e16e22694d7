//! The frame of an array.

ghost use Rattle.std.specs.Prelude.{◌≡◌, ◌≤◌, suc, IfOk, IfErr, All, length};
ghost use Rattle.drg_array.specs.Conditions.{CountsHold};
ghost use Rattle.drg_array.specs.Entries.{b_at, diameter};
ghost use Rattle.drg_array.specs.declared.test.Test.TheVariants as test;
ghost use Rattle.drg_eigen.specs.Characteristic.{characteristic};
ghost use Rattle.drg_intersection.specs.Numbers.{AreNumbersOf};
ghost use Rattle.drg_matrix.specs.Frame.{multiplicity};
ghost use Rattle.drg_eigen.specs.Spectrum.{IsSpectrum};
ghost use Rattle.drg_matrices.specs.Values.{item_at, theta_at};
ghost use Rattle.drg_matrices.specs.Filling.{HasFormulas};
ghost use Rattle.drg_matrices.specs.Faults.{AllFit, IsFault};
ghost use Rattle.drg_matrices.specs.Tables.{cosine_in, diameter_of, dual_in, eigen_in, root_of_tables, theta_in};
ghost use Rattle.drg_matrices.specs.Frame.{IsFrameOf};

use crate::checks::{product, recurrences};
use crate::cosines::cosines;
use crate::dual::dual;
use crate::eigen::eigen;
use crate::fault::FrameFault;
use crate::terms::thetas_of;
use drg_array::{Array, MAX_DIAMETER};
use drg_eigen::Spectrum;
use drg_fraction::Field;
use drg_intersection::Numbers;
use drg_matrix::Table;
use drg_quadratic::Eigenvalue;
use std::alloc::Global;
use std::marker::Model;

/// The frame of an array of diameter d: the eigenvalues θ_0 to θ_d, descending, with their cosines
/// and multiplicities and the matrices P and Q, over one root. All indices are from 0 to d.
#[derive(Drop)]
pub struct Frame<F: Field> {
    cosines: Table<F>,
    eigen: Table<F>,
    dual: Table<F>,
}

impl<F: Field> Model for Frame<F> {
    ghost use Rattle.drg_matrices.specs.Tables.{FrameTables, AreTables};

    ghost Value = { FrameTables F };

    ghost view = { λ t. record { cosines = t.cosines; eigen = t.eigen; dual = t.dual } };

    ghost invariant = { λ t. AreTables
        (record { cosines = t.cosines; eigen = t.eigen; dual = t.dual }) };
}

impl<F: Field> Frame<F> {
    /// The diameter of the array.
    pub fn d(&self) -> usize
        ensures value { result ≡ diameter_of self.now }
        ensures short { result ≤ MAX_DIAMETER }
    {
        self.eigen.side() - 1
    }

    /// The root of all values.
    pub fn root(&self) -> u32
        ensures { result ≡ root_of_tables self.now }
    {
        self.eigen.get(0, 0).root()
    }

    /// The eigenvalue θ_i.
    pub fn theta(&self, i: usize) -> F
        requires { i ≤ diameter_of self.now }
        ensures value { F.value result ≡ theta_in F.value F.operations self.now i }
        ensures root { F.root_of result ≡ root_of_tables self.now }
    {
        self.eigen.get(i, 1)
    }

    /// The cosine u_r of the eigenvalue θ_i.
    pub fn cosine(&self, i: usize, r: usize) -> F
        requires i { i ≤ diameter_of self.now }
        requires r { r ≤ diameter_of self.now }
        ensures value { F.value result ≡ cosine_in F.value F.operations self.now i r }
        ensures root { F.root_of result ≡ root_of_tables self.now }
    {
        self.cosines.get(i, r)
    }

    /// The multiplicity m_i of the eigenvalue θ_i.
    pub fn m(&self, i: usize) -> F
        requires { i ≤ diameter_of self.now }
        ensures value { F.value result
            ≡ multiplicity (dual_in F.value F.operations self.now) i }
        ensures root { F.root_of result ≡ root_of_tables self.now }
    {
        self.dual.get(0, i)
    }

    /// The entry P_ir of the eigenmatrix.
    pub fn eigen(&self, i: usize, r: usize) -> F
        requires i { i ≤ diameter_of self.now }
        requires r { r ≤ diameter_of self.now }
        ensures value { F.value result ≡ eigen_in F.value F.operations self.now i r }
        ensures root { F.root_of result ≡ root_of_tables self.now }
    {
        self.eigen.get(i, r)
    }

    /// The entry Q_ri of the dual eigenmatrix.
    pub fn dual(&self, r: usize, i: usize) -> F
        requires r { r ≤ diameter_of self.now }
        requires i { i ≤ diameter_of self.now }
        ensures value { F.value result ≡ dual_in F.value F.operations self.now r i }
        ensures root { F.root_of result ≡ root_of_tables self.now }
    {
        self.dual.get(r, i)
    }
}

/// The frame of the array, from its numbers and its spectrum, over a field that has the root. A fault
/// names the first quantity with a work number above 2^127 - 1 in magnitude, in the order of the
/// cosines, the multiplicities, the entries of Q, the recurrences of the rows of P, and the cells of
/// P·Q.
pub fn frame_of<F: Field>(
    alloc: Global,
    array: &Array,
    numbers: &Numbers,
    spectrum: &Spectrum,
) -> Result<Frame<F>, FrameFault>
    requires allowed { F.HasRoot spectrum.now.root }
    requires first { CountsHold array.now test.First }
    requires numbers { AreNumbersOf array.now numbers.now }
    requires spectrum { IsSpectrum (b_at array.now 0) (characteristic array.now)
        spectrum.now.root spectrum.now.thetas }
    ensures frame { let root = spectrum.now.root in
        IfOk result (λ f. IsFrameOf (F.operations root) root array.now
        (theta_in F.value F.operations f) (cosine_in F.value F.operations f)
        (eigen_in F.value F.operations f) (dual_in F.value F.operations f)) }
    ensures diameter { IfOk result (λ f. diameter_of f ≡ diameter array.now) }
    ensures root { IfOk result (λ f. root_of_tables f ≡ spectrum.now.root) }
    ensures fit { let o = F.operations spectrum.now.root in
        IfOk result (λ f. AllFit o array.now (theta_at o spectrum.now.thetas)) }
    ensures fault { let o = F.operations spectrum.now.root in
        IfErr result (IsFault o array.now (theta_at o spectrum.now.thetas)) }
{
    let thetas = spectrum.thetas.as_slice();
    frame_over(alloc, array, numbers, spectrum.root, thetas)
}

/// The frame of the array over a root, from its eigenvalues.
fn frame_over<F: Field>(
    alloc: Global,
    array: &Array,
    numbers: &Numbers,
    root: u32,
    thetas: &[Eigenvalue],
) -> Result<Frame<F>, FrameFault>
    requires allowed { F.HasRoot root }
    requires first { CountsHold array.now test.First }
    requires numbers { AreNumbersOf array.now numbers.now }
    requires spectrum { IsSpectrum (b_at array.now 0) (characteristic array.now) root thetas.now }
    ensures frame { IfOk result (λ f. IsFrameOf (F.operations root) root array.now
        (theta_in F.value F.operations f) (cosine_in F.value F.operations f)
        (eigen_in F.value F.operations f) (dual_in F.value F.operations f)) }
    ensures diameter { IfOk result (λ f. diameter_of f ≡ diameter array.now) }
    ensures root { IfOk result (λ f. root_of_tables f ≡ root) }
    ensures fit { let o = F.operations root in
        IfOk result (λ f. AllFit o array.now (theta_at o thetas.now)) }
    ensures fault { let o = F.operations root in
        IfErr result (IsFault o array.now (theta_at o thetas.now)) }
{
    array.known_valid();
    let thetas = thetas_of::<F>(alloc, root, thetas)?;
    tables_of(alloc, array, numbers, root, &thetas)
}

/// The tables of a frame by their formulas, from the values of the eigenvalues.
pub(crate) fn tables_of<F: Field>(
    alloc: Global,
    array: &Array,
    numbers: &Numbers,
    root: u32,
    thetas: &[F],
) -> Result<Frame<F>, FrameFault>
    requires numbers { AreNumbersOf array.now numbers.now }
    requires length { length thetas.now ≡ suc (diameter array.now) }
    requires roots { All (λ x. F.root_of x ≡ root) thetas.now }
    ensures tables { let theta = item_at (F.operations root) F.value thetas.now in
        IfOk result (HasFormulas F.value F.operations F.root_of root array.now theta) }
    ensures fit { let theta = item_at (F.operations root) F.value thetas.now in
        IfOk result (λ f. AllFit (F.operations root) array.now theta) }
    ensures fault { let theta = item_at (F.operations root) F.value thetas.now in
        IfErr result (IsFault (F.operations root) array.now theta) }
{
    array.known_valid();
    let cosines = cosines(alloc, array, root, thetas)?;
    let mut ms = Vec::new(alloc);
    let eigen = eigen(alloc, array, numbers, root, thetas, &cosines, &mut ms)?;
    let dual = dual(alloc, array, root, thetas, &cosines, &ms)?;
    recurrences(array, root, thetas, &eigen)?;
    product(alloc, array, root, thetas, &eigen, &dual)?;
    Ok(Frame {
        cosines,
        eigen,
        dual,
    })
}
