//! The Krein parameters of an array.

ghost use Rattle.std.specs.Prelude.{◌≡◌, ◌≤◌, ◌++◌, ◌-◌, map, suc, codes, IfOk, OnOk};
ghost use Rattle.serde_json.specs.View.{members_view, view};
ghost use Rattle.drg_json.specs.Pieces.{list as data_of_list};
ghost use Rattle.drg_json.specs.Putting.{put_if};
ghost use Rattle.drg_json.specs.Tables.{krein_data, krein_if, pair_data, pairs_of_index, parameter_items};

use crate::tables::field_value;
use drg_fraction::Field;
use drg_krein::Krein;
use serde_json::{Map, Value, put};
use std::alloc::{AllocError, Global};

/// Puts in the Krein parameters, where there are any.
pub(crate) fn put_krein<F: Field>(
    object: &mut Map<String, Value>,
    alloc: Global,
    krein: &Option<Krein<F>>,
) -> Result<(), AllocError>
    ensures { OnOk result (members_view object.new.entries
        ≡ put_if (codes "krein") (krein_if F.value F.operations krein.now)
        (members_view object.old.entries)) }
{
    match krein {
        None => Ok(()),
        Some(krein) => put(object, alloc, "krein", pairs(alloc, krein)?),
    }
}

/// An object for all i and j with `1 <= i <= j <= d`.
fn pairs<F: Field>(alloc: Global, krein: &Krein<F>) -> Result<Value, AllocError>
    ensures { IfOk result (λ v. view v ≡ krein_data F.value F.operations krein.now) }
{
    let mut list = Vec::new(alloc);
    'firsts: for i in 1..krein.d() + 1 {
        push_pairs(&mut list, alloc, krein, i)?;
    }
    Ok(Value::Array(list))
}

/// Appends the objects of i, for each j from i to d.
fn push_pairs<F: Field>(
    list: &mut Vec<Value>,
    alloc: Global,
    krein: &Krein<F>,
    i: usize,
) -> Result<(), AllocError>
    requires { i ≤ krein.now.d }
    ensures { OnOk result (map view list.new.items ≡ map view list.old.items
        ++ pairs_of_index F.value F.operations krein.now i (suc krein.now.d - i)) }
{
    'seconds: for j in i..krein.d() + 1 {
        list.push(pair(alloc, krein, i, j)?)?;
    }
    Ok(())
}

/// The object of i and j.
fn pair<F: Field>(alloc: Global, krein: &Krein<F>, i: usize, j: usize) -> Result<Value, AllocError>
    requires i { i ≤ krein.now.d }
    requires j { j ≤ krein.now.d }
    ensures { IfOk result (λ v. view v ≡ pair_data F.value F.operations krein.now i j) }
{
    let mut object = Map::new(alloc);
    put(&mut object, alloc, "i", Value::from(i))?;
    put(&mut object, alloc, "j", Value::from(j))?;
    put(&mut object, alloc, "q", parameters(alloc, krein, i, j)?)?;
    Ok(Value::Object(object))
}

/// The parameters q^0_ij to q^d_ij.
fn parameters<F: Field>(
    alloc: Global,
    krein: &Krein<F>,
    i: usize,
    j: usize,
) -> Result<Value, AllocError>
    requires i { i ≤ krein.now.d }
    requires j { j ≤ krein.now.d }
    ensures { IfOk result (λ v. view v ≡ data_of_list
        (parameter_items F.value F.operations krein.now i j (suc krein.now.d))) }
{
    let mut list = Vec::new(alloc);
    'thirds: for h in 0..krein.d() + 1 {
        list.push(field_value(alloc, krein.q(i, j, h))?)?;
    }
    Ok(Value::Array(list))
}
