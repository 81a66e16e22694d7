//! The vanishing Krein parameters, in lexicographic order.

ghost use Rattle.std.specs.Prelude.{◌≡◌, ◌≤◌, suc, IfOk, OnOk};
ghost use Rattle.drg_krein.specs.Vanishing.{AreVanishing, AreVanishingBefore};

use crate::krein::Krein;
use drg_array::MAX_DIAMETER;
use drg_fraction::Field;
use std::alloc::{AllocError, Global};

/// The indices of all vanishing parameters.
pub(crate) fn vanishing_of<F: Field>(
    alloc: Global,
    krein: &Krein<F>,
) -> Result<Vec<(u8, u8, u8)>, AllocError>
    ensures { IfOk result (λ found.
        AreVanishing F.value F.operations krein.now found.items) }
{
    let mut found = Vec::new(alloc);
    'firsts: for i in 1..krein.d() + 1 {
        add_first(krein, i, &mut found)?;
    }
    Ok(found)
}

/// Appends those with this i.
fn add_first<F: Field>(
    krein: &Krein<F>,
    i: usize,
    found: &mut Vec<(u8, u8, u8)>,
) -> Result<(), AllocError>
    requires some { 1 ≤ i }
    requires inside { i ≤ krein.now.d }
    requires before { AreVanishingBefore F.value F.operations krein.now i 0 0 found.old.items }
    ensures { OnOk result
        (AreVanishingBefore F.value F.operations krein.now (suc i) 0 0 found.new.items) }
{
    'seconds: for j in 1..krein.d() + 1 {
        add_pair(krein, i, j, found)?;
    }
    Ok(())
}

/// Those with this i and j.
fn add_pair<F: Field>(
    krein: &Krein<F>,
    i: usize,
    j: usize,
    found: &mut Vec<(u8, u8, u8)>,
) -> Result<(), AllocError>
    requires first { 1 ≤ i }
    requires first_inside { i ≤ krein.now.d }
    requires second { 1 ≤ j }
    requires second_inside { j ≤ krein.now.d }
    requires before { AreVanishingBefore F.value F.operations krein.now i j 0 found.old.items }
    ensures { OnOk result
        (AreVanishingBefore F.value F.operations krein.now i (suc j) 0 found.new.items) }
{
    'thirds: for h in 1..krein.d() + 1 {
        add_if_vanishing(krein, i, j, h, found)?;
    }
    Ok(())
}

/// Appends i, j and h if q^h_ij is 0.
fn add_if_vanishing<F: Field>(
    krein: &Krein<F>,
    i: usize,
    j: usize,
    h: usize,
    found: &mut Vec<(u8, u8, u8)>,
) -> Result<(), AllocError>
    requires first { 1 ≤ i }
    requires first_inside { i ≤ krein.now.d }
    requires second { 1 ≤ j }
    requires second_inside { j ≤ krein.now.d }
    requires third { 1 ≤ h }
    requires third_inside { h ≤ krein.now.d }
    requires short { krein.now.d ≤ MAX_DIAMETER }
    requires before { AreVanishingBefore F.value F.operations krein.now i j h found.old.items }
    ensures { OnOk result
        (AreVanishingBefore F.value F.operations krein.now i j (suc h) found.new.items) }
{
    if krein.q(i, j, h).is_zero() {
        found.push(triple(i, j, h))?;
    }
    Ok(())
}

/// The indices as they stand in a list.
fn triple(i: usize, j: usize, h: usize) -> (u8, u8, u8)
    requires i { i ≤ MAX_DIAMETER }
    requires j { j ≤ MAX_DIAMETER }
    requires h { h ≤ MAX_DIAMETER }
    ensures { result ≡ (i, j, h) }
{
    (i as u8, j as u8, h as u8)
}
