//! What a deserializer reads as texts and byte strings by name. Those that may be borrowed are
//! there for each reader of `cbor4ii_rw` by name.
ghost use Rattle.std.specs.Prelude.{codes, IfOk};
ghost use Rattle.std.specs.Cow.{IsBorrowedStr, IsOwnedStr, cow_slice_items, IsBorrowedSlice};
ghost use Rattle.std.specs.Cow.{IsOwnedSlice};
ghost use Rattle.cbor4ii_items.specs.Cow.{BorrowsWhereDefinite, cow_text, cow_bytes};
ghost use Rattle.cbor4ii_items.specs.Strings.{as_format, text_format};
ghost use Rattle.cbor4ii_items.specs.Decoding.{Decodes};
ghost use Rattle.cbor4ii.specs.Borrowed.{Copies, Unwraps};
ghost use Rattle.cbor4ii.specs.Typed.{input, answer_of};

use crate::serde::de::deserializer::{Deserializer, take_item};
use crate::serde::de::error::{DecodeError, typed};
use cbor4ii_items::decode::Decode;
use cbor4ii_items::types::Bytes;
use cbor4ii_rw::error as core_error;
use cbor4ii_rw::error::Never;
use cbor4ii_rw::io_reader::IoReader;
use cbor4ii_rw::read::Source;
use cbor4ii_rw::segment_reader::SegmentReader;
use cbor4ii_rw::slice_reader::SliceReader;
use std::alloc::Global;
use std::borrow::{CowSlice, CowStr};
use std::io;
use std::io::BufRead;

impl<S: Source> Deserializer<S> {
    /// A byte string, of definite or indefinite length; one of indefinite length needs a step for
    /// its chunks.
    ///
    /// # Errors
    ///
    /// Those of `Bytes<Vec<u8>>`, each as `Core`, by "bytes" where no other name is said.
    pub fn deserialize_byte_buf(&mut self, alloc: Global) -> Result<Vec<u8>, DecodeError<S::Error>>
        ensures { Decodes (as_format (codes "bytes") 2 (λ v. v.items))
            (input S.view self.old) (input S.view self.new) (answer_of result) }
    {
        unwrapped(<Bytes<Vec<u8>>>::decode(alloc, &mut self.reader))
    }
}

fn unwrapped<T, E>(found: Result<Bytes<T>, core_error::DecodeError<E>>) -> Result<T, DecodeError<E>>
    ensures { Unwraps found result }
{
    match found {
        Ok(Bytes(content)) => Ok(content),
        Err(error) => Err(DecodeError::Core(error)),
    }
}

impl<'de> Deserializer<SliceReader<'de>> {
    /// A text. Where its length is definite it is a slice of the input, with no copy. Where it is
    /// not it is a copy of its chunks, for which it needs a step.
    ///
    /// # Errors
    ///
    /// Those of `CowStr`, each as `Core`, by "str" where no other name is said.
    pub fn deserialize_str(
        &mut self,
        alloc: Global,
    ) -> Result<CowStr<'de, Global>, DecodeError<Never>>
        ensures item { Decodes (text_format (codes "str") cow_text)
            (input ⟦<SliceReader<'de> as Source>⟧.view self.old)
            (input ⟦<SliceReader<'de> as Source>⟧.view self.new) (answer_of result) }
        ensures borrows { IfOk result (BorrowsWhereDefinite 3 IsBorrowedStr IsOwnedStr
            (input ⟦<SliceReader<'de> as Source>⟧.view self.old)) }
    {
        typed(CowStr::decode(alloc, &mut self.reader))
    }

    /// A name of a field or a variant, read by `deserialize_str`.
    ///
    /// # Errors
    ///
    /// Those of `deserialize_str`.
    pub fn deserialize_identifier(
        &mut self,
        alloc: Global,
    ) -> Result<CowStr<'de, Global>, DecodeError<Never>>
        ensures item { Decodes (text_format (codes "str") cow_text)
            (input ⟦<SliceReader<'de> as Source>⟧.view self.old)
            (input ⟦<SliceReader<'de> as Source>⟧.view self.new) (answer_of result) }
        ensures borrows { IfOk result (BorrowsWhereDefinite 3 IsBorrowedStr IsOwnedStr
            (input ⟦<SliceReader<'de> as Source>⟧.view self.old)) }
    {
        self.deserialize_str(alloc)
    }

    /// A byte string. Where its length is definite it is a slice of the input, with no copy. Where
    /// it is not it is a copy of its chunks, for which it needs a step.
    ///
    /// # Errors
    ///
    /// Those of `Bytes<CowSlice<u8>>`, each as `Core`, by "bytes" where no other name is said.
    pub fn deserialize_bytes(
        &mut self,
        alloc: Global,
    ) -> Result<CowSlice<'de, u8, Global>, DecodeError<Never>>
        ensures item { Decodes (as_format (codes "bytes") 2 cow_slice_items)
            (input ⟦<SliceReader<'de> as Source>⟧.view self.old)
            (input ⟦<SliceReader<'de> as Source>⟧.view self.new) (answer_of result) }
        ensures borrows { IfOk result (BorrowsWhereDefinite 2 IsBorrowedSlice IsOwnedSlice
            (input ⟦<SliceReader<'de> as Source>⟧.view self.old)) }
    {
        unwrapped(<Bytes<CowSlice<'de, u8, Global>>>::decode(alloc, &mut self.reader))
    }
}

impl<'de> Deserializer<SegmentReader<'de>> {
    /// A text. Where its length is definite and it stands in one segment it is a slice of the
    /// input, with no copy. It is a copy elsewhere. One of indefinite length needs a step for its
    /// chunks.
    ///
    /// # Errors
    ///
    /// Those of `CowStr`, each as `Core`, by "str" where no other name is said.
    pub fn deserialize_str(
        &mut self,
        alloc: Global,
    ) -> Result<CowStr<'de, Global>, DecodeError<Never>>
        ensures item { Decodes (text_format (codes "str") cow_text)
            (input ⟦<SegmentReader<'de> as Source>⟧.view self.old)
            (input ⟦<SegmentReader<'de> as Source>⟧.view self.new) (answer_of result) }
        ensures borrows { IfOk result (BorrowsWhereDefinite 3 IsBorrowedStr IsOwnedStr
            (input ⟦<SegmentReader<'de> as Source>⟧.view self.old)) }
    {
        typed(CowStr::decode(alloc, &mut self.reader))
    }

    /// A name of a field or a variant, read by `deserialize_str`.
    ///
    /// # Errors
    ///
    /// Those of `deserialize_str`.
    pub fn deserialize_identifier(
        &mut self,
        alloc: Global,
    ) -> Result<CowStr<'de, Global>, DecodeError<Never>>
        ensures item { Decodes (text_format (codes "str") cow_text)
            (input ⟦<SegmentReader<'de> as Source>⟧.view self.old)
            (input ⟦<SegmentReader<'de> as Source>⟧.view self.new) (answer_of result) }
        ensures borrows { IfOk result (BorrowsWhereDefinite 3 IsBorrowedStr IsOwnedStr
            (input ⟦<SegmentReader<'de> as Source>⟧.view self.old)) }
    {
        self.deserialize_str(alloc)
    }

    /// A byte string: borrowed and copied as a text is.
    ///
    /// # Errors
    ///
    /// Those of `Bytes<CowSlice<u8>>`, each as `Core`, by "bytes" where no other name is said.
    pub fn deserialize_bytes(
        &mut self,
        alloc: Global,
    ) -> Result<CowSlice<'de, u8, Global>, DecodeError<Never>>
        ensures item { Decodes (as_format (codes "bytes") 2 cow_slice_items)
            (input ⟦<SegmentReader<'de> as Source>⟧.view self.old)
            (input ⟦<SegmentReader<'de> as Source>⟧.view self.new) (answer_of result) }
        ensures borrows { IfOk result (BorrowsWhereDefinite 2 IsBorrowedSlice IsOwnedSlice
            (input ⟦<SegmentReader<'de> as Source>⟧.view self.old)) }
    {
        unwrapped(<Bytes<CowSlice<'de, u8, Global>>>::decode(alloc, &mut self.reader))
    }
}

impl<R: BufRead + Drop> Deserializer<IoReader<R>> {
    /// A text, always a copy, since a stream lends nothing; one of indefinite length needs a step
    /// for its chunks.
    ///
    /// # Errors
    ///
    /// Those of `CowStr`, each as `Core`, by "str" where no other name is said.
    pub fn deserialize_str<'de>(
        &mut self,
        alloc: Global,
    ) -> Result<CowStr<'de, Global>, DecodeError<io::Error>>
        ensures item { Decodes (text_format (codes "str") cow_text)
            (input ⟦<IoReader<R> as Source>⟧.view self.old)
            (input ⟦<IoReader<R> as Source>⟧.view self.new) (answer_of result) }
        ensures copied { IfOk result IsOwnedStr }
    {
        let found = take_item::<IoReader<R>, CowStr<'de, Global>>(alloc, self);
        copied_text(alloc, found)
    }

    /// A name of a field or a variant, read by `deserialize_str`.
    ///
    /// # Errors
    ///
    /// Those of `deserialize_str`.
    pub fn deserialize_identifier<'de>(
        &mut self,
        alloc: Global,
    ) -> Result<CowStr<'de, Global>, DecodeError<io::Error>>
        ensures item { Decodes (text_format (codes "str") cow_text)
            (input ⟦<IoReader<R> as Source>⟧.view self.old)
            (input ⟦<IoReader<R> as Source>⟧.view self.new) (answer_of result) }
        ensures copied { IfOk result IsOwnedStr }
    {
        self.deserialize_str(alloc)
    }

    /// A byte string, always a copy.
    ///
    /// # Errors
    ///
    /// Those of `Bytes<CowSlice<u8>>`, each as `Core`, by "bytes" where no other name is said.
    pub fn deserialize_bytes<'de>(
        &mut self,
        alloc: Global,
    ) -> Result<CowSlice<'de, u8, Global>, DecodeError<io::Error>>
        ensures item { Decodes (as_format (codes "bytes") 2 cow_slice_items)
            (input ⟦<IoReader<R> as Source>⟧.view self.old)
            (input ⟦<IoReader<R> as Source>⟧.view self.new) (answer_of result) }
        ensures copied { IfOk result IsOwnedSlice }
    {
        let found = take_item::<IoReader<R>, Bytes<CowSlice<'de, u8, Global>>>(alloc, self);
        copied_bytes(alloc, found)
    }
}

/// What is owned stays where it is, and over a stream all is, so that nothing is copied twice.
fn copied_text<'de, E>(
    alloc: Global,
    found: Result<CowStr<'de, Global>, DecodeError<E>>,
) -> Result<CowStr<'de, Global>, DecodeError<E>>
    ensures { Copies cow_text cow_text IsOwnedStr found.entry result }
{
    match found {
        Ok(text) => match text.into_owned(alloc) {
            Ok(copy) => Ok(CowStr::Owned(copy)),
            Err(_) => Err(DecodeError::Core(core_error::DecodeError::OutOfMemory)),
        },
        Err(error) => Err(error),
    }
}

fn copied_bytes<'de, E>(
    alloc: Global,
    found: Result<Bytes<CowSlice<'de, u8, Global>>, DecodeError<E>>,
) -> Result<CowSlice<'de, u8, Global>, DecodeError<E>>
    ensures { Copies cow_bytes cow_slice_items IsOwnedSlice found.entry result }
{
    match found {
        Ok(Bytes(content)) => match content.into_owned(alloc) {
            Ok(copy) => Ok(CowSlice::Owned(copy)),
            Err(_) => Err(DecodeError::Core(core_error::DecodeError::OutOfMemory)),
        },
        Err(error) => Err(error),
    }
}
