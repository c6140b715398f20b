//! Maps, read (RFC 8949 sections 3.1 and 3.2.2).
ghost use Rattle.cbor4ii_items.specs.Sequences.{pair_format, map_format};
ghost use Rattle.cbor4ii_items.specs.Laws.Sequences.{pair_lawful, map_lawful};

use crate::decode::{Decodable, Decode};
use crate::major;
use crate::sequences::parts::{Sequence, take_sequence};
use crate::types::Map;
use cbor4ii_rw::error::DecodeError;
use cbor4ii_rw::read::Source;
use std::alloc::Global;

impl<K: Decodable, V: Decodable> Decodable for Map<Vec<(K, V)>> {
    ghost format = { map_format K.format V.format };

    fn is_never_empty() -> bool {
        true
    }

    ghost lawful = { map_lawful K.format V.format K.lawful V.lawful };
}

impl<S: Source, K: Decode<S> + Drop, V: Decode<S> + Drop> Sequence<S> for Map<Vec<(K, V)>> {
    type Part = (K, V);

    ghost part = { pair_format K.format V.format };

    fn is_part_never_empty() -> bool {
        K::is_never_empty() || V::is_never_empty()
    }

    #[inline(always)]
    fn take_part(alloc: Global, reader: &mut S) -> Result<(K, V), DecodeError<S::Error>> {
        let key = K::decode(alloc, reader)?;
        let value = V::decode(alloc, reader)?;
        Ok((key, value))
    }

    ghost lawful = { pair_lawful K.format V.format K.lawful V.lawful };
}

/// A map of pairs, read as an array is, each element being a key and its value (RFC 8949 sections
/// 3.1 and 3.2.2). The pairs keep their order, and equal keys are kept. No break is looked for
/// between a key and its value. At most 256 pairs have their place reserved before any of them
/// came.
///
/// A pair may read nothing where both of its types may. A definite-length map of pairs that read no
/// byte takes as many turns as its head says, whatever follows: a map of `Nothing` to `Nothing`
/// takes 2^64 - 1 of them for the nine bytes `bb ff ff ff ff ff ff ff ff`.
///
/// # Errors
///
/// Those of an array, by "map" in the place of "array". In the place of an item's errors come those
/// of a key, or after a whole key those of its value.
impl<S: Source, K: Decode<S> + Drop, V: Decode<S> + Drop> Decode<S> for Map<Vec<(K, V)>> {
    #[inline(always)]
    fn decode(alloc: Global, reader: &mut S) -> Result<Map<Vec<(K, V)>>, DecodeError<S::Error>> {
        Ok(Map(take_sequence::<S, Map<Vec<(K, V)>>>(alloc, reader, "map", major::MAP)?))
    }
}
