//! Arrays, read (RFC 8949 sections 3.1 and 3.2.2).
ghost use Rattle.cbor4ii_items.specs.Sequences.{array_format};
ghost use Rattle.cbor4ii_items.specs.Laws.Sequences.{array_lawful};

use crate::decode::{Decodable, Decode};
use crate::major;
use crate::sequences::parts::{Sequence, take_sequence};
use cbor4ii_rw::error::DecodeError;
use cbor4ii_rw::read::Source;
use std::alloc::Global;

impl<T: Decodable> Decodable for Vec<T> {
    ghost format = { array_format T.format };

    fn is_never_empty() -> bool {
        true
    }

    ghost lawful = { array_lawful T.format T.lawful };
}

impl<S: Source, T: Decode<S> + Drop> Sequence<S> for Vec<T> {
    type Part = T;

    ghost part = { T.format };

    fn is_part_never_empty() -> bool {
        T::is_never_empty()
    }

    #[inline(always)]
    fn take_part(alloc: Global, reader: &mut S) -> Result<T, DecodeError<S::Error>> {
        T::decode(alloc, reader)
    }

    ghost lawful = { T.lawful };
}

/// An array of items, of definite or indefinite length (RFC 8949 sections 3.1 and 3.2.2), under one
/// step of the reader's budget, which is given back whatever the answer is. At most 256 items have
/// their place reserved before any of them came.
///
/// Of a type that may read nothing, an array of indefinite length is read only where its break
/// comes at once, since no reading of it would end. A definite-length one ends, but where its items
/// read no byte it takes as many turns as its head says, whatever follows: `Vec<Nothing>` takes
/// 2^64 - 1 of them for the nine bytes `9b ff ff ff ff ff ff ff ff`.
///
/// # Errors
///
/// `Read` and `OutOfMemory` are described at `Decode::decode`. The others come in this order, by
/// "array" where no other name is said:
///
/// - `DepthOverflow`: no step is left. Nothing is taken then
/// - `Eof` with 1: no byte is left
/// - `Eof` with k: the argument of the head has k bytes and fewer are left. Nothing is left then
/// - `Mismatch` with the first byte, which is taken: it begins no array
/// - `Eof` by "break" with 1: the length is indefinite, and no byte is left in the place of an item
///   or a break
/// - `RequireLength` with `Indefinite`: of a type that may read nothing, another byte than a break
///   comes there. The byte is left
/// - those of an item, which leave what they leave
impl<S: Source, T: Decode<S> + Drop> Decode<S> for Vec<T> {
    #[inline(always)]
    fn decode(alloc: Global, reader: &mut S) -> Result<Vec<T>, DecodeError<S::Error>> {
        take_sequence::<S, Vec<T>>(alloc, reader, "array", major::ARRAY)
    }
}
