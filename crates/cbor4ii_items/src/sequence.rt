//! A sequence of items, one after another with nothing between them (RFC 8742), read an item a
//! call. It is written by `encode` of one item after another.
ghost use Rattle.std.specs.Prelude.{◌≡◌, ◌+◌, ◌≤◌, [], IfOk, IfErr, IfNone, IsTrue, OnSome, false};
ghost use Rattle.cbor4ii_rw.specs.View.{IfKnown};
ghost use Rattle.cbor4ii_items.specs.Decoding.{Decodes};
ghost use Rattle.cbor4ii_items.specs.InputError.{is_out_of_memory};
ghost use Rattle.cbor4ii_items.specs.ItemOrEnd.{item_or_end, end_at};
ghost use Rattle.cbor4ii_items.specs.Reading.{Runs};

use crate::decode::Decode;
use cbor4ii_rw::ask::look;
use cbor4ii_rw::error::DecodeError;
use cbor4ii_rw::read::Source;
use std::alloc::Global;

/// The next item of a sequence; none where the input ends between two items, and nowhere else.
///
/// # Errors
///
/// - `Read`: the reader failed
/// - those of the item, which leave what they leave
pub fn next_item<S: Source, T: Decode<S>>(
    alloc: Global,
    reader: &mut S,
) -> Result<Option<T>, DecodeError<S::Error>>
    ensures end { IfOk result (λ next. IfNone next
        (IfKnown (S.view reader.old).known (λ xs. xs ≡ []))) }
    ensures decodes { Decodes (item_or_end T.format)
        (S.view reader.old) (S.view reader.new) result }
    ensures progress { IsTrue T.format.never_empty → IfOk result (λ next. OnSome next
        ((S.view reader.new).bound + 1 ≤ (S.view reader.old).bound)) }
{
    if is_at_end(reader)? {
        return Ok(None);
    }
    match T::decode(alloc, reader) {
        Ok(item) => Ok(Some(item)),
        Err(error) => Err(error),
    }
}

/// Whether no byte is left. None is taken.
///
/// # Errors
///
/// `Read`: the reader failed.
pub fn is_at_end<S: Source>(reader: &mut S) -> Result<bool, DecodeError<S::Error>>
    ensures runs { Runs end_at (S.view reader.old) (S.view reader.new) result }
    ensures memory { IfErr result (λ error. is_out_of_memory error ≡ false) }
{
    let mut failure = None;
    match look(reader, 1, &mut failure) {
        Some(shown) => Ok(shown.is_empty()),
        None => Err(DecodeError::Read(failure.unwrap())),
    }
}
