//! Arrays, read as vectors.
ghost use Rattle.std.specs.Prelude.{codes};
ghost use Rattle.std.proofs.Common.{refl};
ghost use Rattle.cbor4ii.specs.Sequence.{four_small};
ghost use Rattle.cbor4ii.specs.TypedParts.{part_of, part_lawful, typed_vector};

use crate::serde::de::deserialize::{Deserialize, Typed};
use crate::serde::de::deserializer::Deserializer;
use crate::serde::de::error::DecodeError;
use crate::serde::de::parts::{Sequence, take_sequence};
use cbor4ii_items::types::Array;
use cbor4ii_rw::error as core_error;
use cbor4ii_rw::read::Source;
use std::alloc::Global;

impl<T: Typed> Typed for Vec<T> {
    ghost promise = { typed_vector T.promise };
}

impl<S: Source, T: Deserialize<S> + Drop> Sequence<S> for Vec<T> {
    type Part = T;

    ghost part = { part_of T.promise };

    ghost exact = { T.promise.exact };

    ghost major = { 4 };

    ghost name = { codes "array" };

    #[inline(always)]
    fn take_length(reader: &mut S) -> Result<Option<usize>, core_error::DecodeError<S::Error>> {
        Array::<()>::len(reader)
    }

    #[inline(always)]
    fn take_part(alloc: Global, de: &mut Deserializer<S>) -> Result<T, DecodeError<S::Error>> {
        T::deserialize(alloc, de)
    }

    #[inline(always)]
    fn has_leaves() -> bool {
        T::is_leaf()
    }

    #[inline(always)]
    fn shown_part(shown: &[u8], steps: u8) -> Option<(T, usize)> {
        T::shown_leaf(shown, steps)
    }

    ghost some = { refl };

    ghost lawful = { part_lawful T.promise };

    ghost small = { four_small };
}

/// An array of values, of definite or indefinite length (RFC 8949 sections 3.1 and 3.2.2), under
/// one step of the budget, which is given back whatever the answer is. At most 256 values have
/// their place reserved before any of them came.
///
/// # Errors
///
/// They come in this order:
///
/// - those of `deserialize_seq`, at the step and the head
/// - `Core` of `Eof` by "break" with 1: the length is indefinite, and no byte is left in the place
///   of a value or a break
/// - those of a value, with what they leave
///
/// `Core` of `OutOfMemory` is described at `Deserialize::deserialize`.
impl<S: Source, T: Deserialize<S> + Drop> Deserialize<S> for Vec<T> {
    #[inline(always)]
    fn deserialize(
        alloc: Global,
        de: &mut Deserializer<S>,
    ) -> Result<Vec<T>, DecodeError<S::Error>> {
        take_sequence::<S, Vec<T>>(alloc, de, "seq")
    }
}
