//! Maps, read as ordered maps.
ghost use Rattle.std.specs.Prelude.{◌≡◌, ◌&&◌, codes, IfOk, OnOk};
ghost use Rattle.std.proofs.Common.{refl};
ghost use Rattle.std.specs.BTreeMap.{insert_entry};
ghost use Rattle.cbor4ii.specs.Built.{built_pairs};
ghost use Rattle.cbor4ii.specs.Sequence.{five_small};
ghost use Rattle.cbor4ii.specs.TypedParts.{two_of, two_lawful, typed_map};

use crate::serde::de::deserialize::{Deserialize, Typed};
use crate::serde::de::deserializer::Deserializer;
use crate::serde::de::error::DecodeError;
use crate::serde::de::parts::{Sequence, take_sequence};
use crate::serde::de::tuples::two_parts;
use cbor4ii_items::types::Map;
use cbor4ii_rw::error as core_error;
use cbor4ii_rw::read::Source;
use std::alloc::{AllocError, Global};
use std::collections::BTreeMap;

impl<K: Typed + Ord, V: Typed> Typed for BTreeMap<K, V> {
    ghost promise = { typed_map (λ m. m.entries) K.cmp K.promise V.promise };
}

impl<S: Source, K: Deserialize<S> + Ord + Drop, V: Deserialize<S> + Drop> Sequence<S>
    for BTreeMap<K, V> {
    type Part = (K, V);

    ghost part = { two_of K.promise V.promise };

    ghost exact = { K.promise.exact && V.promise.exact };

    ghost major = { 5 };

    ghost name = { codes "map" };

    #[inline(always)]
    fn take_length(reader: &mut S) -> Result<Option<usize>, core_error::DecodeError<S::Error>> {
        Map::<()>::len(reader)
    }

    #[inline(always)]
    fn take_part(alloc: Global, de: &mut Deserializer<S>) -> Result<(K, V), DecodeError<S::Error>> {
        two_parts::<S, K, V>(alloc, de)
    }

    #[inline(always)]
    fn has_leaves() -> bool {
        K::is_leaf() && V::is_leaf()
    }

    #[inline(always)]
    fn shown_part(shown: &[u8], steps: u8) -> Option<((K, V), usize)> {
        let (key, size) = K::shown_leaf(shown, steps)?;
        let (value, more) = V::shown_leaf(&shown[size..], steps)?;
        Some(((key, value), size + more))
    }

    ghost some = { refl };

    ghost lawful = { two_lawful K.promise V.promise };

    ghost small = { five_small };
}

/// A map, of definite or indefinite length, under one step of the budget, which is given back
/// whatever the answer is. Of equal keys the first stays, with the last value. No break is looked
/// for between a key and its value.
///
/// # Errors
///
/// - those of `deserialize_map`, at the head
/// - `Core` of `Eof` by "break" with 1: the length is indefinite, and no byte is left before a key
/// - those of a key and of a value, with what they leave
/// - `Core` of `OutOfMemory`: there is no memory for the map
impl<S: Source, K: Deserialize<S> + Ord + Drop, V: Deserialize<S> + Drop> Deserialize<S>
    for BTreeMap<K, V> {
    #[inline(always)]
    fn deserialize(
        alloc: Global,
        de: &mut Deserializer<S>,
    ) -> Result<BTreeMap<K, V>, DecodeError<S::Error>> {
        match take_sequence::<S, BTreeMap<K, V>>(alloc, de, "map") {
            Ok(pairs) => match put_all(alloc, pairs) {
                Ok(map) => Ok(map),
                Err(_) => Err(DecodeError::Core(core_error::DecodeError::OutOfMemory)),
            },
            Err(error) => Err(error),
        }
    }
}

#[inline(always)]
fn put_all<K: Ord + Drop, V: Drop>(
    alloc: Global,
    pairs: Vec<(K, V)>,
) -> Result<BTreeMap<K, V>, AllocError>
    ensures { IfOk result (λ m. m.entries ≡ built_pairs K.cmp pairs.items) }
{
    let mut map = BTreeMap::new(alloc);
    for (key, value) in pairs {
        put(&mut map, key, value)?;
    }
    Ok(map)
}

#[inline(always)]
fn put<K: Ord + Drop, V: Drop>(map: &mut BTreeMap<K, V>, key: K, value: V) -> Result<(), AllocError>
    ensures { OnOk result (map.new.entries ≡ insert_entry K.cmp map.old.entries key value) }
{
    match map.insert(key, value) {
        Ok(_) => Ok(()),
        Err(_) => Err(AllocError),
    }
}
