//! Values that may be absent.
ghost use Rattle.cbor4ii.specs.TypedParts.{typed_option};

use crate::serde::de::deserialize::{Deserialize, Typed};
use crate::serde::de::deserializer::Deserializer;
use crate::serde::de::error::DecodeError;
use crate::serde::de::stepped::under_step;
use cbor4ii_items::initial::peek;
use cbor4ii_items::marker;
use cbor4ii_rw::read::Source;
use std::alloc::Global;

impl<T: Typed> Typed for Option<T> {
    ghost promise = { typed_option T.promise };

    #[inline(always)]
    fn is_leaf() -> bool {
        T::is_leaf() && !T::leaf_takes_step()
    }

    #[inline(always)]
    fn leaf_takes_step() -> bool {
        true
    }

    #[inline(always)]
    fn shown_leaf(shown: &[u8], steps: u8) -> Option<(Option<T>, usize)> {
        let [first, ..] = shown else {
            return None;
        };
        if *first == marker::NULL || *first == marker::UNDEFINED {
            return Some((None, 1));
        }
        if steps == 0 {
            return None;
        }
        let (value, size) = T::shown_leaf(shown, steps - 1)?;
        Some((Some(value), size))
    }
}

/// Null and undefined are none, and take no step. Before any other byte a value is read, under a
/// step more.
///
/// # Errors
///
/// Those of `deserialize_option`, and those of the value, with what they leave.
impl<S: Source, T: Deserialize<S>> Deserialize<S> for Option<T> {
    #[inline(always)]
    fn deserialize(
        alloc: Global,
        de: &mut Deserializer<S>,
    ) -> Result<Option<T>, DecodeError<S::Error>> {
        match peek(&mut de.reader, "option") {
            Ok(first) => {
                if first == marker::NULL || first == marker::UNDEFINED {
                    de.reader.advance(1);
                    return Ok(None);
                }
                match under_step::<S, T>(alloc, de, "option") {
                    Ok(value) => Ok(Some(value)),
                    Err(error) => Err(error),
                }
            }
            Err(error) => Err(DecodeError::Core(error)),
        }
    }
}
