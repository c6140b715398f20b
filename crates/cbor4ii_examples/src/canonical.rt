//! Any item, read, and written in its canonical encoding.
ghost use Rattle.std.specs.Prelude.{◌≡◌, IfOk, Some};
ghost use Rattle.cbor4ii_tree.specs.Basis.Canonical.{canonical_encoding};
ghost use Rattle.cbor4ii_tree.specs.Basis.Item.{Item};
ghost use Rattle.cbor4ii_tree.specs.Basis.Encodings.{DecodesTo};

use cbor4ii::Value;
use cbor4ii::dec::Decode;
use cbor4ii::enc::Encode;
use cbor4ii::error::{DecodeError, Never};
use cbor4ii::utils::{BufWriter, SliceReader};
use std::alloc::Global;

/// The canonical encoding of the item at the beginning of `input`, and what follows that item.
pub fn canonical(alloc: Global, input: &[u8]) -> Result<(Vec<u8>, &[u8]), DecodeError<Never>>
    ensures { IfOk result (λ parts. (v : Item) ×
        DecodesTo input.now (Some 256) v parts.1.now × (parts.0.items ≡ canonical_encoding v)) }
{
    let mut reader = SliceReader::new(input);
    let value = Value::decode(alloc, &mut reader)?;
    let mut writer = BufWriter::new(Vec::new(alloc));
    match value.encode(&mut writer) {
        Ok(()) => Ok((writer.into_inner(), reader.remaining())),
        Err(_) => Err(DecodeError::OutOfMemory),
    }
}

#[cfg(test)]
mod tests;
