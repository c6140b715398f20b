//! Arrays and maps, written.
ghost use Rattle.cbor4ii_items.specs.SequenceBytes.{items_bytes, array_bytes, pair_bytes};
ghost use Rattle.cbor4ii_items.specs.SequenceBytes.{map_bytes};
ghost use Rattle.cbor4ii_items.specs.Writing.{Writes};

use crate::encode::Encode;
use crate::major;
use crate::push::push_head;
use crate::types::Map;
use cbor4ii_rw::error::EncodeError;
use cbor4ii_rw::write::Write;

/// An array: its shortest head in one push, and then each item, in order.
impl<'a, T: Encode> Encode for &'a [T] {
    ghost bytes = { λ v. array_bytes T.bytes v.now };

    fn encode<W: Write>(&self, writer: &mut W) -> Result<(), EncodeError<W::Error>> {
        push_array(writer, self)
    }
}

/// An array: its shortest head in one push, and then each item, in order.
impl<T: Encode> Encode for Vec<T> {
    ghost bytes = { λ v. array_bytes T.bytes v.items };

    fn encode<W: Write>(&self, writer: &mut W) -> Result<(), EncodeError<W::Error>> {
        push_array(writer, self.as_slice())
    }
}

/// A map: its shortest head in one push, and then each key with its value after it, in the order
/// of the slice.
impl<'a, K: Encode, V: Encode> Encode for Map<&'a [(K, V)]> {
    ghost bytes = { λ v. map_bytes K.bytes V.bytes v.0.now };

    fn encode<W: Write>(&self, writer: &mut W) -> Result<(), EncodeError<W::Error>> {
        push_map(writer, self.0)
    }
}

fn push_array<W: Write, T: Encode>(writer: &mut W, items: &[T]) -> Result<(), EncodeError<W::Error>>
    ensures { Writes W.atomic (array_bytes T.bytes items.now)
        (W.view writer.old) (W.view writer.new) result }
{
    push_head(writer, major::ARRAY, items.len() as u64)?;
    push_items(writer, items)
}

fn push_map<W: Write, K: Encode, V: Encode>(
    writer: &mut W,
    pairs: &[(K, V)],
) -> Result<(), EncodeError<W::Error>>
    ensures { Writes W.atomic (map_bytes K.bytes V.bytes pairs.now)
        (W.view writer.old) (W.view writer.new) result }
{
    push_head(writer, major::MAP, pairs.len() as u64)?;
    push_pairs(writer, pairs)
}

fn push_items<W: Write, T: Encode>(writer: &mut W, items: &[T]) -> Result<(), EncodeError<W::Error>>
    ensures { Writes W.atomic (items_bytes T.bytes items.now)
        (W.view writer.old) (W.view writer.new) result }
{
    for item in items {
        item.encode(writer)?;
    }
    Ok(())
}

fn push_pairs<W: Write, K: Encode, V: Encode>(
    writer: &mut W,
    pairs: &[(K, V)],
) -> Result<(), EncodeError<W::Error>>
    ensures { Writes W.atomic (items_bytes (pair_bytes K.bytes V.bytes) pairs.now)
        (W.view writer.old) (W.view writer.new) result }
{
    for pair in pairs {
        push_pair(writer, pair)?;
    }
    Ok(())
}

fn push_pair<W: Write, K: Encode, V: Encode>(
    writer: &mut W,
    pair: &(K, V),
) -> Result<(), EncodeError<W::Error>>
    ensures { Writes W.atomic (pair_bytes K.bytes V.bytes pair.now)
        (W.view writer.old) (W.view writer.new) result }
{
    pair.0.encode(writer)?;
    pair.1.encode(writer)
}
