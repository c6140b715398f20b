//! Maps of two pairs, one written and one read by hand.
ghost use Rattle.std.specs.Prelude.{◌≡◌, ◌+◌, ◌≤◌, IfOk, OnOk};
ghost use Rattle.cbor4ii_items.specs.Decoding.{Sound};
ghost use Rattle.cbor4ii_items.specs.Moves.{Moves};
ghost use Rattle.cbor4ii_examples.specs.ByHand.{written_record, ReadsRecord};

use cbor4ii::dec::{Decode, Source, is_break};
use cbor4ii::enc::Encode;
use cbor4ii::error::{DecodeError, EncodeError};
use cbor4ii::types::{Bytes, Map, Tag};
use cbor4ii::utils::{BufWriter, TryReserveError};
use std::alloc::Global;

/// Writes a map of two pairs, by hand: the number under "id", and under "key" the bytes with the
/// tag 42.
///
/// # Errors
///
/// `Write`: there is no memory for the bytes.
pub fn write_record(
    alloc: Global,
    id: u64,
    key: &[u8],
) -> Result<Vec<u8>, EncodeError<TryReserveError>>
    ensures { IfOk result (λ bytes. bytes.items ≡ written_record id key.now) }
{
    let mut writer = BufWriter::new(Vec::new(alloc));
    Map::bounded(2, &mut writer)?;
    "id".encode(&mut writer)?;
    id.encode(&mut writer)?;
    "key".encode(&mut writer)?;
    Tag(42, Bytes(key)).encode(&mut writer)?;
    Ok(writer.into_inner())
}

/// A number and a name.
#[derive(Drop)]
pub struct Record {
    /// The number, under the key "id".
    pub id: u64,
    /// The name, under the key "name".
    pub name: String,
}

/// A record out of a map of indefinite length, its pairs in any order, of which the last number and
/// the last name count. The name has a tag, which is not looked at.
///
/// None is answered where the map's head counts its pairs, which are left; where a pair has another
/// key, whose value is left; and where a whole map lacks the number or the name.
///
/// Whatever the answer is, the budget is as before, and the bytes that are left are an end of those
/// that were there. A byte was taken where no error comes, also where there is no record.
///
/// # Errors
///
/// Those of the map's head, of a key and of what stands under it. Where the input ends in the place
/// of a key, those of `is_break`.
pub fn decode_record<S: Source>(
    alloc: Global,
    reader: &mut S,
) -> Result<Option<Record>, DecodeError<S::Error>>
    ensures moves { Moves (S.view reader.old) (S.view reader.new) result }
    ensures progress { OnOk result ((S.view reader.new).bound + 1 ≤ (S.view reader.old).bound) }
    ensures sound { IfOk result (Sound ReadsRecord (S.view reader.old) (S.view reader.new)) }
{
    let mut id = None;
    let mut name = None;
    if Map::len(reader)?.is_some() {
        return Ok(None);
    }
    while !is_break(reader)? {
        match String::decode(alloc, reader)?.as_str() {
            "id" => id = Some(u64::decode(alloc, reader)?),
            "name" => name = Some(<Tag<String>>::decode(alloc, reader)?.1),
            _ => return Ok(None),
        }
    }
    match (id, name) {
        (Some(id), Some(name)) => Ok(Some(Record { id, name })),
        _ => Ok(None),
    }
}

#[cfg(test)]
mod tests;
