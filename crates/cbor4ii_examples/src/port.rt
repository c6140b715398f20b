//! A setting that is looked for in a value, or in the bytes of one, with no type of one's own.
ghost use Rattle.std.specs.Prelude.{◌≡◌, ℕ, [], Some, Err, codes, option_and_then, IfOk, IfErr};
ghost use Rattle.cbor4ii_rw.specs.declared.error.DecodeError.TheVariants.{OutOfMemory};
ghost use Rattle.cbor4ii_rw.specs.declared.error.WholeError.TheVariants.{Decode};
ghost use Rattle.cbor4ii_tree.specs.Calls.Access.{as_integer, as_map, find_text};
ghost use Rattle.cbor4ii_tree.specs.Basis.Encodings.{DecodesTo, Encodes};
ghost use Rattle.cbor4ii_tree.specs.Basis.Item.{Item};
ghost use Rattle.cbor4ii_items.specs.Whole.{DecodesWhole};
ghost use Rattle.cbor4ii_tree.specs.Calls.Raw.{raw_content, raw_format};
ghost use Rattle.cbor4ii_tree.specs.Calls.RawParts.{Agrees, KeepsEncoding};

use cbor4ii::error::{DecodeError, Never, WholeError};
use cbor4ii::{RawValue, Value};
use std::alloc::Global;

/// The integer under the first key "port" of the map that `input` encodes. None where there is no
/// such key, where its value is no integer, and where `input` encodes no map.
///
/// # Errors
///
/// - `Decode` of an error of `Value`: no value that is read with 256 steps begins the input. Of
///   `OutOfMemory`: there is no memory for the value
/// - `Trailing`: such a value begins the input, and so many bytes follow it
pub fn port(alloc: Global, input: &[u8]) -> Result<Option<i128>, WholeError<DecodeError<Never>>>
    ensures found { IfOk result (λ port. (v : Item) × DecodesTo input.now (Some 256) v [] ×
        (port ≡ option_and_then as_integer
        (option_and_then (find_text (codes "port")) (as_map v)))) }
    ensures all { (v : Item) → DecodesTo input.now (Some 256) v [] →
        IfErr result (λ e. e ≡ Decode OutOfMemory) }
{
    let value = Value::from_slice_whole(alloc, input)?;
    match value.get("port") {
        Some(port) => Ok(port.as_integer()),
        None => Ok(None),
    }
}

/// The item under the first key "port" of the map that `input` encodes, lent as it stands there:
/// no value is built, and no memory is taken. None where there is no such key, and where `input`
/// encodes no map.
///
/// # Errors
///
/// - `Decode` of an error of `IgnoredAny`: no item that is skipped with 256 steps begins the input
/// - `Trailing`: such an item begins the input, and so many bytes follow it
pub fn kept_port(input: &[u8]) -> Result<Option<RawValue<'_>>, WholeError<DecodeError<Never>>>
    ensures found { (v : Item) (steps : ℕ) → Encodes input.now v steps →
        IfOk result (λ port. Agrees (KeepsEncoding steps)
        (option_and_then (find_text (codes "port")) (as_map v)) port) }
    ensures rejects { IfErr result (λ error.
        DecodesWhole (raw_format raw_content) input.now (Err error)) }
{
    let map = RawValue::new(input)?;
    Ok(map.get("port"))
}

#[cfg(test)]
mod tests;
