//! The distinct arrays of a list, and the place of each array of the list among them.

ghost use Rattle.std.specs.Prelude.{◌≡◌, ◌++◌, ◌∷◌, [], List, IfOk, OnOk, length, map};
ghost use Rattle.drg_array.specs.Entries.{Entries};
ghost use Rattle.drg_tables.specs.Distinct.{AreDistinct, AreSpread};

use crate::Row;
use drg_array::Array;
use indexmap::IndexSet;
use std::alloc::{AllocError, Global};
use std::marker::Model;

/// The distinct arrays of a list, in the order in which the list has them first, and for each place of
/// the list the place among them of the array there. Places count from 0.
#[derive(Drop)]
pub struct DistinctArrays {
    arrays: IndexSet<Array>,
    places: Vec<usize>,
}

impl Model for DistinctArrays {
    ghost use Rattle.drg_tables.specs.Distinct.{Listing};

    ghost Value = { Listing };

    ghost view = { λ found. record { arrays = found.arrays.keys; places = found.places.items } };
}

/// The distinct arrays of the rows of a table.
pub fn distinct(alloc: Global, rows: &[Row]) -> Result<DistinctArrays, AllocError>
    ensures { IfOk result (AreDistinct (map (λ row. row.array) rows.now)) }
{
    let mut found = DistinctArrays::new(alloc);
    'rows: for row in rows {
        found.note(&row.array)?;
    }
    Ok(found)
}

/// The distinct arrays of a list.
pub fn distinct_arrays(alloc: Global, list: &[Array]) -> Result<DistinctArrays, AllocError>
    ensures { IfOk result (AreDistinct list.now) }
{
    let mut found = DistinctArrays::new(alloc);
    'list: for array in list {
        found.note(array)?;
    }
    Ok(found)
}

impl DistinctArrays {
    /// Those of a list without an array.
    fn new(alloc: Global) -> DistinctArrays
        ensures { AreDistinct [] result }
    {
        DistinctArrays {
            arrays: IndexSet::new(alloc),
            places: Vec::new(alloc),
        }
    }

    /// Takes the next array of the list. After an error these aren't used again.
    fn note(&mut self, array: &Array) -> Result<(), AllocError>
        ensures { OnOk result ((list : List Entries) → AreDistinct list self.old
            → AreDistinct (list ++ array.now ∷ []) self.new) }
    {
        let (place, _) = self.arrays.insert_full(array.copied())?;
        self.places.push(place)?;
        Ok(())
    }

    /// The distinct arrays.
    pub fn arrays(&self) -> &[Array]
        ensures { result.now ≡ self.now.arrays }
    {
        self.arrays.as_slice()
    }

    /// The places, one for each array of the list.
    pub fn places(&self) -> &[usize]
        ensures { result.now ≡ self.now.places }
    {
        &self.places
    }

    /// A value for each array of the list, from one for each distinct array.
    pub fn spread<T: Copy>(&self, alloc: Global, values: &[T]) -> Result<Vec<T>, AllocError>
        requires some_list { (list : List Entries) × AreDistinct list self.now }
        requires one_each { length values.now ≡ length self.now.arrays }
        ensures { IfOk result (λ each. (list : List Entries) → AreDistinct list self.now
            → AreSpread list self.now.arrays values.now each.items) }
    {
        let mut each = Vec::new(alloc);
        'places: for place in self.places.iter() {
            each.push(values[*place])?;
        }
        Ok(each)
    }
}
