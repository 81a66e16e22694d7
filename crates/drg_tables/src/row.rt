//! Rows of a table.

ghost use Rattle.std.specs.Prelude.{◌≡◌, IfOk};

use drg_array::Array;
use std::alloc::{AllocError, Global};
use std::marker::Model;

/// The name of a row: any bytes, also none, as they stand in the table without their quotes.
#[derive(Debug, Drop)]
pub struct RowName {
    bytes: Vec<u8>,
}

// Contracts see the bytes of the name.
impl Model for RowName {
    ghost use Rattle.std.specs.Prelude.{List, ℕ};

    ghost Value = { List ℕ };

    ghost view = { λ name. name.bytes.items };
}

impl RowName {
    /// The name of these bytes, in memory of its own.
    pub(crate) fn copied(alloc: Global, bytes: &[u8]) -> Result<RowName, AllocError>
        ensures { IfOk result (λ name. name ≡ bytes.now) }
    {
        let mut copy = Vec::new(alloc);
        copy.extend_from_slice(bytes)?;
        Ok(RowName { bytes: copy })
    }

    /// The bytes of the name.
    pub fn as_bytes(&self) -> &[u8]
        ensures { result.now ≡ self.now }
    {
        &self.bytes
    }
}

/// A row of a table.
#[derive(Debug, Drop)]
pub struct Row {
    /// What the table calls the array.
    pub name: RowName,
    pub array: Array,
}
