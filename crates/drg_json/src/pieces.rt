//! The pieces of which a report is made.

ghost use Rattle.std.specs.Prelude.{◌≡◌, IfOk, IsAscii, map};
ghost use Rattle.std.specs.Fmt.{signed_decimal};
ghost use Rattle.serde_json.specs.Data.{string};
ghost use Rattle.serde_json.specs.View.{view};
ghost use Rattle.drg_json.specs.Pieces.{indices as data_of_indices, texts};

use itoa::Buffer;
use serde_json::Value;
use std::alloc::{AllocError, Global};

/// These bytes as a text. They have to be ASCII. Takes no memory.
pub(crate) fn text_of(bytes: Vec<u8>) -> Value
    requires { IsAscii bytes.items }
    ensures { view result ≡ string bytes.items }
{
    let Ok(text) = String::from_utf8(bytes) else {
        unreachable!();
    };
    Value::String(text)
}

/// The number as a text.
pub(crate) fn integer(alloc: Global, number: i128) -> Result<Value, AllocError>
    ensures { IfOk result (λ v. view v ≡ string (signed_decimal number)) }
{
    Value::try_from_str(alloc, Buffer::new().format(number))
}

/// A list of such texts.
pub(crate) fn integers(alloc: Global, numbers: &[i128]) -> Result<Value, AllocError>
    ensures { IfOk result (λ v. view v ≡ texts (map signed_decimal numbers.now)) }
{
    let mut list = Vec::new(alloc);
    'numbers: for number in numbers {
        list.push(integer(alloc, *number)?)?;
    }
    Ok(Value::Array(list))
}

/// A list of indices, as JSON numbers.
pub(crate) fn indices(alloc: Global, indices: &[u8]) -> Result<Value, AllocError>
    ensures { IfOk result (λ v. view v ≡ data_of_indices indices.now) }
{
    let mut list = Vec::new(alloc);
    'indices: for index in indices {
        list.push(Value::from(*index))?;
    }
    Ok(Value::Array(list))
}
