//! Strings that are borrowed from the input where the reader lends them, and owned otherwise. Each
//! reader of `cbor4ii_rw` has them by name.
ghost use Rattle.std.specs.Prelude.{codes, IfOk};
ghost use Rattle.std.proofs.Common.{refl};
ghost use Rattle.std.specs.Cow.{IsBorrowedStr, IsOwnedStr};
ghost use Rattle.cbor4ii_items.specs.Cow.{BorrowsWhereDefinite, cow_text, cow_bytes};
ghost use Rattle.cbor4ii_items.specs.Cow.{IsBorrowedBytes, IsOwnedBytes};
ghost use Rattle.cbor4ii_items.specs.Laws.Strings.{two_small, text_lawful, as_lawful};
ghost use Rattle.cbor4ii.specs.Typed.{input, answer_of, exact_promise, Deserializes};

use crate::serde::de::deserialize::{Deserialize, Typed};
use crate::serde::de::deserializer::Deserializer;
use crate::serde::de::error::{DecodeError, typed};
use cbor4ii_items::decode::Decode;
use cbor4ii_items::types::Bytes;
use cbor4ii_rw::error::Never;
use cbor4ii_rw::io_reader::IoReader;
use cbor4ii_rw::read::Source;
use cbor4ii_rw::segment_reader::SegmentReader;
use cbor4ii_rw::slice_reader::SliceReader;
use std::alloc::Global;
use std::borrow::{CowSlice, CowStr};
use std::io;
use std::io::BufRead;

impl<'de> Typed for CowStr<'de, Global> {
    ghost promise = { exact_promise refl (text_lawful (codes "str") cow_text) };
}

/// A text: a slice of the input where its length is definite, a copy of its chunks where it is not.
/// Its errors are those of `CowStr` as an item of the codec, each as `Core`.
impl<'de> Deserialize<SliceReader<'de>> for CowStr<'de, Global> {
    fn deserialize(
        alloc: Global,
        de: &mut Deserializer<SliceReader<'de>>,
    ) -> Result<CowStr<'de, Global>, DecodeError<Never>>
        ensures item { Deserializes ⟦<CowStr<'de, Global> as Typed>⟧.promise
            (input ⟦<SliceReader<'de> as Source>⟧.view de.old)
            (input ⟦<SliceReader<'de> as Source>⟧.view de.new) (answer_of result) }
        ensures borrows { IfOk result (BorrowsWhereDefinite 3 IsBorrowedStr IsOwnedStr
            (input ⟦<SliceReader<'de> as Source>⟧.view de.old)) }
    {
        typed(CowStr::decode(alloc, &mut de.reader))
    }
}

/// A slice of the input where the text has a definite length and stands in one segment, and a copy
/// elsewhere. Its errors are those over a slice.
impl<'de> Deserialize<SegmentReader<'de>> for CowStr<'de, Global> {
    fn deserialize(
        alloc: Global,
        de: &mut Deserializer<SegmentReader<'de>>,
    ) -> Result<CowStr<'de, Global>, DecodeError<Never>>
        ensures item { Deserializes ⟦<CowStr<'de, Global> as Typed>⟧.promise
            (input ⟦<SegmentReader<'de> as Source>⟧.view de.old)
            (input ⟦<SegmentReader<'de> as Source>⟧.view de.new) (answer_of result) }
        ensures borrows { IfOk result (BorrowsWhereDefinite 3 IsBorrowedStr IsOwnedStr
            (input ⟦<SegmentReader<'de> as Source>⟧.view de.old)) }
    {
        typed(CowStr::decode(alloc, &mut de.reader))
    }
}

/// Always a copy, since a stream lends nothing. Its errors are those over a slice, and `Core` of
/// `Read` where the stream failed.
impl<'de, R: BufRead + Drop> Deserialize<IoReader<R>> for CowStr<'de, Global> {
    fn deserialize(
        alloc: Global,
        de: &mut Deserializer<IoReader<R>>,
    ) -> Result<CowStr<'de, Global>, DecodeError<io::Error>>
        ensures item { Deserializes ⟦<CowStr<'de, Global> as Typed>⟧.promise
            (input ⟦<IoReader<R> as Source>⟧.view de.old)
            (input ⟦<IoReader<R> as Source>⟧.view de.new) (answer_of result) }
        ensures copied { IfOk result IsOwnedStr }
    {
        de.deserialize_str(alloc)
    }
}

impl<'de> Typed for Bytes<CowSlice<'de, u8, Global>> {
    ghost promise = { exact_promise refl (as_lawful (codes "bytes") 2 two_small cow_bytes) };
}

/// A byte string: a slice of the input where its length is definite, a copy of its chunks where it
/// is not. Its errors are those of `Bytes<CowSlice<u8>>` as an item of the codec, each as `Core`.
impl<'de> Deserialize<SliceReader<'de>> for Bytes<CowSlice<'de, u8, Global>> {
    fn deserialize(
        alloc: Global,
        de: &mut Deserializer<SliceReader<'de>>,
    ) -> Result<Bytes<CowSlice<'de, u8, Global>>, DecodeError<Never>>
        ensures item { Deserializes
            ⟦<Bytes<CowSlice<'de, u8, Global>> as Typed>⟧.promise
            (input ⟦<SliceReader<'de> as Source>⟧.view de.old)
            (input ⟦<SliceReader<'de> as Source>⟧.view de.new) (answer_of result) }
        ensures borrows { IfOk result (BorrowsWhereDefinite 2 IsBorrowedBytes IsOwnedBytes
            (input ⟦<SliceReader<'de> as Source>⟧.view de.old)) }
    {
        typed(<Bytes<CowSlice<'de, u8, Global>>>::decode(alloc, &mut de.reader))
    }
}

/// A slice of the input where the string has a definite length and stands in one segment, and a
/// copy elsewhere. Its errors are those over a slice.
impl<'de> Deserialize<SegmentReader<'de>> for Bytes<CowSlice<'de, u8, Global>> {
    fn deserialize(
        alloc: Global,
        de: &mut Deserializer<SegmentReader<'de>>,
    ) -> Result<Bytes<CowSlice<'de, u8, Global>>, DecodeError<Never>>
        ensures item { Deserializes
            ⟦<Bytes<CowSlice<'de, u8, Global>> as Typed>⟧.promise
            (input ⟦<SegmentReader<'de> as Source>⟧.view de.old)
            (input ⟦<SegmentReader<'de> as Source>⟧.view de.new) (answer_of result) }
        ensures borrows { IfOk result (BorrowsWhereDefinite 2 IsBorrowedBytes IsOwnedBytes
            (input ⟦<SegmentReader<'de> as Source>⟧.view de.old)) }
    {
        typed(<Bytes<CowSlice<'de, u8, Global>>>::decode(alloc, &mut de.reader))
    }
}

/// Always a copy, since a stream lends nothing. Its errors are those over a slice, and `Core` of
/// `Read` where the stream failed.
impl<'de, R: BufRead + Drop> Deserialize<IoReader<R>> for Bytes<CowSlice<'de, u8, Global>> {
    fn deserialize(
        alloc: Global,
        de: &mut Deserializer<IoReader<R>>,
    ) -> Result<Bytes<CowSlice<'de, u8, Global>>, DecodeError<io::Error>>
        ensures item { Deserializes
            ⟦<Bytes<CowSlice<'de, u8, Global>> as Typed>⟧.promise
            (input ⟦<IoReader<R> as Source>⟧.view de.old)
            (input ⟦<IoReader<R> as Source>⟧.view de.new) (answer_of result) }
        ensures copied { IfOk result IsOwnedBytes }
    {
        match de.deserialize_bytes(alloc) {
            Ok(content) => Ok(Bytes(content)),
            Err(error) => Err(error),
        }
    }
}
