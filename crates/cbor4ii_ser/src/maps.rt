//! Maps that are there as a whole.
ghost use Rattle.cbor4ii_ser.specs.Item.{each_encoding, pair_encoding, map_encoding};
ghost use Rattle.cbor4ii_ser.specs.Pushing.{PushesInTurn};
ghost use Rattle.cbor4ii_ser.specs.Serializing.{Serializes, output};

use crate::error::EncodeError;
use crate::serialize::Serialize;
use crate::serializer::Serializer;
use crate::slot::{push_parts_head, put_both};
use cbor4ii_items::major;
use cbor4ii_rw::write::Write;
use std::collections::BTreeMap;

/// A map of the pairs, in the order of the keys.
impl<K: Serialize + Ord, V: Serialize> Serialize for BTreeMap<K, V> {
    ghost encoding = { λ m. map_encoding K.encoding V.encoding m.entries };

    #[inline]
    fn serialize<W: Write>(&self, ser: &mut Serializer<W>) -> Result<(), EncodeError<W::Error>> {
        put_map(ser, self)
    }
}

#[inline]
fn put_map<W: Write, K: Serialize + Ord, V: Serialize>(
    ser: &mut Serializer<W>,
    map: &BTreeMap<K, V>,
) -> Result<(), EncodeError<W::Error>>
    ensures { Serializes W.atomic (map_encoding K.encoding V.encoding map.now.entries)
        (output W.view ser.old) (output W.view ser.new) result }
{
    let mut answer = Ok(());
    put_map_in_turn(ser, map, &mut answer);
    answer
}

#[inline(always)]
fn put_map_in_turn<W: Write, K: Serialize + Ord, V: Serialize>(
    ser: &mut Serializer<W>,
    map: &BTreeMap<K, V>,
    answer: &mut Result<(), EncodeError<W::Error>>,
) -> Option<()>
    ensures { PushesInTurn W.atomic (map_encoding K.encoding V.encoding map.now.entries)
        (output W.view ser.old) (output W.view ser.new) result answer.old answer.new }
{
    push_parts_head(&mut ser.writer, major::MAP, map.len(), answer)?;
    put_entries_in_turn(ser, map, answer)
}

#[inline(always)]
fn put_entries_in_turn<W: Write, K: Serialize + Ord, V: Serialize>(
    ser: &mut Serializer<W>,
    map: &BTreeMap<K, V>,
    answer: &mut Result<(), EncodeError<W::Error>>,
) -> Option<()>
    ensures { PushesInTurn W.atomic (each_encoding (pair_encoding K.encoding V.encoding)
        map.now.entries)
        (output W.view ser.old) (output W.view ser.new) result answer.old answer.new }
{
    for (key, value) in map {
        put_both(ser, key, value, answer)?;
    }
    Some(())
}
