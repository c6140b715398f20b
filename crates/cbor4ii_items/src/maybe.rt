//! Optional items as arrays of no item or one.
ghost use Rattle.std.specs.Prelude.{◌≡◌, ◌+◌, ◌≤◌, OnOk, IfErr, false};
ghost use Rattle.cbor4ii_items.specs.Decoding.{Decodes};
ghost use Rattle.cbor4ii_items.specs.Maybe.{few_at, few_format, maybe_bytes};
ghost use Rattle.cbor4ii_items.specs.Laws.Maybe.{maybe_format, maybe_lawful};
ghost use Rattle.cbor4ii_items.specs.Reading.{Runs};
ghost use Rattle.cbor4ii_items.specs.InputError.{is_out_of_memory};
ghost use Rattle.cbor4ii_items.specs.Writing.{Writes};

use crate::decode::{Decodable, Decode};
use crate::encode::Encode;
use crate::head::length;
use crate::major;
use crate::push::{push_head, push_headed_item};
use crate::types::Maybe;
use cbor4ii_rw::error::{DecodeError, EncodeError, Len};
use cbor4ii_rw::read::Source;
use cbor4ii_rw::write::Write;
use std::alloc::Global;

impl<T: Decodable> Decodable for Maybe<Option<T>> {
    ghost format = { maybe_format T.format };

    fn is_never_empty() -> bool {
        true
    }

    ghost lawful = { maybe_lawful T.format T.lawful };
}

/// None is an array of no item, and some item an array of it alone, of definite length (RFC 8949
/// section 3.1). No step is taken for the array.
///
/// # Errors
///
/// - those of `Array::len`, by "array", which leave the same
/// - `RequireLength` by "maybe" with the length: it is neither 0 nor 1. What follows the head is
///   left
/// - `RequireLength` by "maybe" with `Indefinite`: the length is indefinite. What follows the first
///   byte is left
/// - those of the item, which leave what they leave
impl<S: Source, T: Decode<S>> Decode<S> for Maybe<Option<T>> {
    #[inline(always)]
    fn decode(alloc: Global, reader: &mut S) -> Result<Maybe<Option<T>>, DecodeError<S::Error>> {
        if !take_maybe_head(reader)? {
            return Ok(Maybe(None));
        }
        match T::decode(alloc, reader) {
            Ok(value) => Ok(Maybe(Some(value))),
            Err(error) => Err(error),
        }
    }
}

fn take_maybe_head<S: Source>(reader: &mut S) -> Result<bool, DecodeError<S::Error>>
    ensures { Decodes few_format (S.view reader.old) (S.view reader.new) result }
{
    take_few(reader)
}

fn take_few<S: Source>(reader: &mut S) -> Result<bool, DecodeError<S::Error>>
    ensures runs { Runs few_at (S.view reader.old) (S.view reader.new) result }
    ensures memory { IfErr result (λ error. is_out_of_memory error ≡ false) }
    ensures progress { OnOk result ((S.view reader.new).bound + 1 ≤ (S.view reader.old).bound) }
{
    match length(reader, "array", major::ARRAY)? {
        Some(0) => Ok(false),
        Some(1) => Ok(true),
        Some(count) => Err(DecodeError::RequireLength {
            name: "maybe",
            found: Len::new(count as usize),
        }),
        None => Err(DecodeError::RequireLength {
            name: "maybe",
            found: Len::Indefinite,
        }),
    }
}

/// An array of no item for none, in one push; for some item the head of an array of one, in one
/// push, and then the item.
impl<'a, T: Encode> Encode for Maybe<&'a Option<T>> {
    ghost bytes = { λ v. maybe_bytes T.bytes v.0.now };

    fn encode<W: Write>(&self, writer: &mut W) -> Result<(), EncodeError<W::Error>> {
        push_maybe(writer, self.0)
    }
}

fn push_maybe<W: Write, T: Encode>(
    writer: &mut W,
    value: &Option<T>,
) -> Result<(), EncodeError<W::Error>>
    ensures { Writes W.atomic (maybe_bytes T.bytes value.now)
        (W.view writer.old) (W.view writer.new) result }
{
    match value {
        None => push_head(writer, major::ARRAY, 0),
        Some(item) => push_headed_item(writer, major::ARRAY, 1, item),
    }
}
