//! Strings that are borrowed from the input. Each reader of `cbor4ii_rw` has them by name.
ghost use Rattle.std.specs.Prelude.{◌≡◌, codes, IfOk, IsErr, IsOkAnd};
ghost use Rattle.std.specs.Cow.{IsBorrowedStr, IsOwnedStr};
ghost use Rattle.std.specs.declared.borrow.CowSlice.TheVariants.{Borrowed};
ghost use Rattle.cbor4ii_rw.specs.Slice.{slice_view};
ghost use Rattle.cbor4ii_items.specs.Cow.{cow_text, cow_bytes, IsBorrowedBytes, IsOwnedBytes};
ghost use Rattle.cbor4ii_items.specs.Lent.{IsOfInput, lent_str, lent_bytes};
ghost use Rattle.cbor4ii.specs.Borrowed.{Borrows, RejectsCopy, unlent_bytes, unlent_text};
ghost use Rattle.cbor4ii.specs.Typed.{input, answer_of, Deserializes};

use crate::serde::de::deserialize::{Deserialize, Typed};
use crate::serde::de::deserializer::Deserializer;
use crate::serde::de::error::DecodeError;
use cbor4ii_items::decode::Decode;
use cbor4ii_items::types::Bytes;
use cbor4ii_rw::error as core_error;
use cbor4ii_rw::error::{Never, StaticStr};
use cbor4ii_rw::io_reader::IoReader;
use cbor4ii_rw::read::Source;
use cbor4ii_rw::segment_reader::SegmentReader;
use cbor4ii_rw::slice_reader::SliceReader;
use std::alloc::Global;
use std::borrow::{CowSlice, CowStr};
use std::io;
use std::io::BufRead;

impl<'de> Typed for &'de str {
    ghost promise = { unlent_text };
}

/// A text of definite length, as it stands in the input, with no copy. It is read as a `CowStr` is.
///
/// # Errors
///
/// Those of `CowStr`, and `Core` of `RequireBorrowed` by "str": the text was copied, since its
/// length is indefinite or the reader does not lend it. It was taken then.
impl<'de> Deserialize<SliceReader<'de>> for &'de str {
    fn deserialize(
        alloc: Global,
        de: &mut Deserializer<SliceReader<'de>>,
    ) -> Result<&'de str, DecodeError<Never>> {
        let found = CowStr::decode(alloc, &mut de.reader);
        lent_text(found)
    }
}

/// A text of definite length that stands in one segment, with no copy. Its errors are those over a
/// slice. A text of which no segment holds the whole content was copied too, and is
/// `RequireBorrowed`.
impl<'de> Deserialize<SegmentReader<'de>> for &'de str {
    fn deserialize(
        alloc: Global,
        de: &mut Deserializer<SegmentReader<'de>>,
    ) -> Result<&'de str, DecodeError<Never>> {
        let found = CowStr::decode(alloc, &mut de.reader);
        lent_text(found)
    }
}

/// A stream lends nothing, so no text is read. An error comes always: those over a slice, or `Core`
/// of `Read` where the stream failed. Every whole text was copied, and so is `RequireBorrowed`.
impl<'de, R: BufRead + Drop> Deserialize<IoReader<R>> for &'de str {
    fn deserialize(
        alloc: Global,
        de: &mut Deserializer<IoReader<R>>,
    ) -> Result<&'de str, DecodeError<io::Error>>
        ensures item { Deserializes unlent_text
            (input ⟦<IoReader<R> as Source>⟧.view de.old)
            (input ⟦<IoReader<R> as Source>⟧.view de.new) (answer_of result) }
        ensures rejected { IsErr result }
    {
        let found = de.deserialize_str(alloc);
        reject_copy("str", found)
    }
}

fn lent_text<'de, E>(
    found: Result<CowStr<'de, Global>, core_error::DecodeError<E>>,
) -> Result<&'de str, DecodeError<E>>
    ensures { Borrows cow_text lent_str IsBorrowedStr IsOwnedStr (codes "str") found.entry result }
{
    match found {
        Ok(CowStr::Borrowed(text)) => Ok(text),
        Ok(CowStr::Owned(_)) => Err(DecodeError::Core(core_error::DecodeError::RequireBorrowed {
            name: "str",
        })),
        Err(error) => Err(DecodeError::Core(error)),
    }
}

impl<'de> Typed for Bytes<&'de [u8]> {
    ghost promise = { unlent_bytes };
}

/// A byte string of definite length, as it stands in the input, read as a borrowed text is. It is
/// the input's own part: what is left begins right after it.
///
/// # Errors
///
/// Those of a `&str`, by "bytes", at a byte string in the place of a text, without `RequireUtf8`.
impl<'de> Deserialize<SliceReader<'de>> for Bytes<&'de [u8]> {
    fn deserialize(
        alloc: Global,
        de: &mut Deserializer<SliceReader<'de>>,
    ) -> Result<Bytes<&'de [u8]>, DecodeError<Never>>
        ensures place { IfOk result
            (λ v. IsOfInput v.0 (input slice_view de.old) (input slice_view de.new)) }
        ensures item { Deserializes unlent_bytes
            (input slice_view de.old) (input slice_view de.new) (answer_of result) }
    {
        let found = <Bytes<CowSlice<'de, u8, Global>>>::decode(alloc, &mut de.reader);
        lent_slice(found)
    }
}

/// A byte string of definite length that stands in one segment, as a `&str` over segments.
impl<'de> Deserialize<SegmentReader<'de>> for Bytes<&'de [u8]> {
    fn deserialize(
        alloc: Global,
        de: &mut Deserializer<SegmentReader<'de>>,
    ) -> Result<Bytes<&'de [u8]>, DecodeError<Never>> {
        let found = <Bytes<CowSlice<'de, u8, Global>>>::decode(alloc, &mut de.reader);
        lent_slice(found)
    }
}

/// A stream lends nothing, so no byte string is read, as no `&str` is.
impl<'de, R: BufRead + Drop> Deserialize<IoReader<R>> for Bytes<&'de [u8]> {
    fn deserialize(
        alloc: Global,
        de: &mut Deserializer<IoReader<R>>,
    ) -> Result<Bytes<&'de [u8]>, DecodeError<io::Error>>
        ensures item { Deserializes unlent_bytes
            (input ⟦<IoReader<R> as Source>⟧.view de.old)
            (input ⟦<IoReader<R> as Source>⟧.view de.new) (answer_of result) }
        ensures rejected { IsErr result }
    {
        let found = <Bytes<CowSlice<'de, u8, Global>>>::deserialize(alloc, de);
        reject_copy("bytes", found)
    }
}

fn lent_slice<'de, E>(
    found: Result<Bytes<CowSlice<'de, u8, Global>>, core_error::DecodeError<E>>,
) -> Result<Bytes<&'de [u8]>, DecodeError<E>>
    ensures borrows { Borrows cow_bytes lent_bytes IsBorrowedBytes IsOwnedBytes (codes "bytes")
        found.entry result }
    ensures part { IfOk result (λ w. IsOkAnd found.entry (λ v. v.0 ≡ Borrowed w.0)) }
{
    match found {
        Ok(Bytes(CowSlice::Borrowed(bytes))) => Ok(Bytes(bytes)),
        Ok(Bytes(CowSlice::Owned(_))) => Err(DecodeError::Core(
            core_error::DecodeError::RequireBorrowed { name: "bytes" },
        )),
        Err(error) => Err(DecodeError::Core(error)),
    }
}

/// A copy does not stand for what is to be lent.
fn reject_copy<V: Drop, W, E>(
    name: StaticStr,
    found: Result<V, DecodeError<E>>,
) -> Result<W, DecodeError<E>>
    ensures { RejectsCopy name.now found result }
{
    match found {
        Ok(_) => Err(DecodeError::Core(core_error::DecodeError::RequireBorrowed { name })),
        Err(error) => Err(error),
    }
}
