//! What a content-addressed store checks: that bytes are one item, in its canonical encoding.
//!
//! Canonical is one encoding of each value of the tree: shortest heads, lengths that are given, and
//! null as `f6`. A tag with bytes is such a value, and its bytes stay as they are. So of the same
//! integer as a bignum (RFC 8949 section 3.4.3), `c2 41 05` and `c2 42 00 05` have two addresses,
//! and `05` has a third. Floats keep their width, pairs their order, and equal keys stay.
ghost use Rattle.std.specs.Prelude.{◌≡◌, [], Some, IfOk, IfErr};
ghost use Rattle.cbor4ii_tree.specs.Basis.Canonical.{canonical_encoding};
ghost use Rattle.cbor4ii_tree.specs.Calls.Canonically.{canonical_format};
ghost use Rattle.cbor4ii_tree.specs.Basis.Item.{Item};
ghost use Rattle.cbor4ii_tree.specs.Basis.Encodings.{DecodesTo};
ghost use Rattle.cbor4ii_tree.specs.Calls.Promises.{value_format};
ghost use Rattle.cbor4ii_tree.specs.Basis.View.{view};
ghost use Rattle.cbor4ii_examples.specs.Store.{IsEncoding, IsCanonicalEncoding, NotStored};

use cbor4ii::dec::decode_whole;
use cbor4ii::enc::Encode;
use cbor4ii::error::{DecodeError, Never, WholeError};
use cbor4ii::utils::BufWriter;
use cbor4ii::{Canonical, Value};
use cbor4ii_tree::laws::whole_inputs_are_encodings;
use std::alloc::Global;

/// Why a store rejects bytes: they do not begin with an item that is read, or bytes follow it.
pub type StoreError = WholeError<DecodeError<Never>>;

/// The canonical encoding of the one item that `input` is: what the store hashes and keeps.
///
/// # Errors
///
/// - `Decode` of an error of `Value`: the input begins with no item that is read with 256 steps. Of
///   `OutOfMemory`: there is no memory for the value, or for what is written
/// - `Trailing`: the input begins with such an item, and so many bytes follow it
pub fn canonical_bytes(alloc: Global, input: &[u8]) -> Result<Vec<u8>, StoreError>
    ensures encodes { IfOk result (λ bytes. (v : Item) ×
        DecodesTo input.now (Some 256) v [] × (bytes.items ≡ canonical_encoding v)) }
    ensures rejects { IfErr result (NotStored value_format IsEncoding input.now) }
{
    whole_inputs_are_encodings();
    let value: Value = decode_whole(alloc, input)?;
    let mut writer = BufWriter::new(Vec::new(alloc));
    match value.encode(&mut writer) {
        Ok(()) => Ok(writer.into_inner()),
        Err(_) => Err(WholeError::Decode(DecodeError::OutOfMemory)),
    }
}

/// The value that the store keeps as `input`: one item, in its canonical encoding and no other.
///
/// # Errors
///
/// - `Decode` of an error of `Canonical`: the input begins with no canonical encoding that is read
///   with 256 steps, as `NotCanonical` for another encoding. Of `OutOfMemory`: there is no memory
///   for the value
/// - `Trailing`: the input begins with a canonical encoding, and so many bytes follow it
pub fn stored_value(alloc: Global, input: &[u8]) -> Result<Value, StoreError>
    ensures equal { IfOk result (λ value. input.now ≡ canonical_encoding (view value)) }
    ensures rejects { IfErr result (NotStored canonical_format IsCanonicalEncoding input.now) }
{
    whole_inputs_are_encodings();
    let Canonical(value) = decode_whole(alloc, input)?;
    Ok(value)
}

#[cfg(test)]
mod tests;
