//! What an item is read as alone, and what is made of a whole item once it is read: one that is
//! encoded in one way, a copy, its bytes, and a vector that holds what is written. Or whether keys
//! of its maps are equal.
use crate::items::Item;
use crate::named::{read_fields, read_variant};
use crate::own::Own;
use crate::read::{Calls, Told, as_core};
use crate::typed::Typed;
use cbor4ii::serde::{Deserializer, to_vec};
use cbor4ii_items::decode::Decode;
use cbor4ii_items::sequence::next_item;
use cbor4ii_rw::error::DecodeError;
use cbor4ii_rw::read::Source;
use cbor4ii_tree::{BoxedRawValue, Canonical, Value};
use std::alloc::Global;

/// Reads the item as these words say, if they do. The answer has no text that is meant.
pub fn read_as<S: Source>(alloc: Global, way: &str, reader: &mut S) -> Option<Told<S>> {
    Some(match way {
        "value" => Item::call("Value", alloc, reader, &[]),
        "canonical" => Item::call("Canonical", alloc, reader, &[]),
        "numbers" => Typed::call("typed Vec", alloc, reader, &[]),
        "elements" => Own::call("deserialize_elements", alloc, reader, &[]),
        "keyed" => Own::call("deserialize_fields by integers", alloc, reader, &[]),
        "named" => Own::call("deserialize_fields", alloc, reader, &[]),
        "tagged" => Own::call("deserialize_tagged", alloc, reader, &[]),
        "checked" => Own::call("deserialize_checked", alloc, reader, &[]),
        "next" => done(next_item::<_, Value>(alloc, reader)),
        "item" => {
            let de = &mut Deserializer::new(reader);
            done(as_core(de.deserialize_item::<Value>(alloc)))
        }
        "fields" => as_core(read_fields(alloc, &mut Deserializer::new(reader))),
        "variant" => as_core(read_variant(alloc, &mut Deserializer::new(reader))),
        "made canonical" | "copied" | "kept" | "written" => made(alloc, way, reader),
        "equal keys" | "equal keys at any level" => made(alloc, way, reader),
        _ => return None,
    })
}

/// That the call was accepted.
pub fn done<T: Drop, E>(got: Result<T, E>) -> Result<bool, E> {
    match got {
        Ok(_) => Ok(true),
        Err(error) => Err(error),
    }
}

fn made<S: Source>(alloc: Global, way: &str, reader: &mut S) -> Told<S> {
    let value = Value::decode(alloc, reader)?;
    let is_made = match way {
        "made canonical" => Canonical::try_from_value(alloc, value).is_ok(),
        "copied" => value.try_clone().is_ok(),
        "kept" => match BoxedRawValue::from_value(alloc, &value) {
            Ok(kept) => kept.try_clone().is_ok(),
            Err(_) => false,
        },
        "written" => to_vec(Vec::new(alloc), &value).is_ok(),
        "equal keys" => value.try_has_equal_keys().is_ok(),
        _ => value.try_has_equal_keys_at_any_level().is_ok(),
    };
    if is_made {
        return Ok(true);
    }
    Err(DecodeError::OutOfMemory)
}
