//! Arrays and maps that are written in elements, and their lengths alone (RFC 8949 sections 3.1 and
//! 3.2.2).
ghost use Rattle.std.specs.Prelude.{codes};
ghost use Rattle.cbor4ii_items.specs.Numbers.{shortest_head};
ghost use Rattle.cbor4ii_items.specs.Strings.{open_head, break_bytes};
ghost use Rattle.cbor4ii_items.specs.Writing.{WritesAtomically};
ghost use Rattle.cbor4ii_items.specs.Decoding.{Decodes};
ghost use Rattle.cbor4ii_items.specs.Lengths.{length_format};

use crate::head::lone_length;
use crate::major;
use crate::push::{push_end, push_head, push_indefinite};
use crate::types::{Array, Map};
use cbor4ii_rw::error::{DecodeError, EncodeError};
use cbor4ii_rw::read::Source;
use cbor4ii_rw::write::Write;

impl Array<()> {
    /// Takes the head of an array and answers how many items are to follow: none where the length
    /// is indefinite, and then items follow up to a break (RFC 8949 section 3.2.2).
    ///
    /// # Errors
    ///
    /// The budget stays.
    ///
    /// - `Read`: the reader failed. An element of the head may be taken then
    /// - `Eof` by "array" with 1: no byte is left
    /// - `Eof` by "array" with k: the argument has k bytes and fewer are left. Nothing is left then
    /// - `Mismatch` by "array" with the first byte, which is taken: it begins no array
    pub fn len<S: Source>(reader: &mut S) -> Result<Option<usize>, DecodeError<S::Error>>
        ensures { Decodes (length_format (codes "array") 4)
            (S.view reader.old) (S.view reader.new) result }
    {
        lone_length(reader, "array", major::ARRAY)
    }

    /// Writes the shortest head of an array of `len` items, in one push. The items are to follow.
    ///
    /// # Errors
    ///
    /// `Write`: the writer failed. An atomic writer then holds what it held before.
    pub fn bounded<W: Write>(len: usize, writer: &mut W) -> Result<(), EncodeError<W::Error>>
        ensures { WritesAtomically W.atomic (shortest_head 4 len)
            (W.view writer.old) (W.view writer.new) result }
    {
        push_head(writer, major::ARRAY, len as u64)
    }

    /// Writes the first byte of an array of indefinite length, in one push. Items and an end are
    /// to follow (RFC 8949 section 3.2.2).
    ///
    /// # Errors
    ///
    /// `Write`: the writer failed. An atomic writer then holds what it held before.
    pub fn unbounded<W: Write>(writer: &mut W) -> Result<(), EncodeError<W::Error>>
        ensures { WritesAtomically W.atomic (open_head 4) (W.view writer.old) (W.view writer.new)
            result }
    {
        push_indefinite(writer, major::ARRAY)
    }

    /// Writes the end of an indefinite length, one byte, in one push.
    ///
    /// # Errors
    ///
    /// `Write`: the writer failed. An atomic writer then holds what it held before.
    pub fn end<W: Write>(writer: &mut W) -> Result<(), EncodeError<W::Error>>
        ensures { WritesAtomically W.atomic break_bytes (W.view writer.old)
            (W.view writer.new) result }
    {
        push_end(writer)
    }
}

impl Map<()> {
    /// Takes the head of a map and answers how many pairs are to follow: none where the length is
    /// indefinite, and then pairs follow up to a break (RFC 8949 section 3.2.2).
    ///
    /// # Errors
    ///
    /// Those of `Array::len`, by "map", at a map in the place of an array. The budget stays.
    pub fn len<S: Source>(reader: &mut S) -> Result<Option<usize>, DecodeError<S::Error>>
        ensures { Decodes (length_format (codes "map") 5)
            (S.view reader.old) (S.view reader.new) result }
    {
        lone_length(reader, "map", major::MAP)
    }

    /// Writes the shortest head of a map of `len` pairs, in one push. The pairs are to follow.
    ///
    /// # Errors
    ///
    /// `Write`: the writer failed. An atomic writer then holds what it held before.
    pub fn bounded<W: Write>(len: usize, writer: &mut W) -> Result<(), EncodeError<W::Error>>
        ensures { WritesAtomically W.atomic (shortest_head 5 len)
            (W.view writer.old) (W.view writer.new) result }
    {
        push_head(writer, major::MAP, len as u64)
    }

    /// Writes the first byte of a map of indefinite length, in one push. Pairs and an end are to
    /// follow (RFC 8949 section 3.2.2).
    ///
    /// # Errors
    ///
    /// `Write`: the writer failed. An atomic writer then holds what it held before.
    pub fn unbounded<W: Write>(writer: &mut W) -> Result<(), EncodeError<W::Error>>
        ensures { WritesAtomically W.atomic (open_head 5) (W.view writer.old) (W.view writer.new)
            result }
    {
        push_indefinite(writer, major::MAP)
    }

    /// Writes the end of an indefinite length, one byte, in one push.
    ///
    /// # Errors
    ///
    /// `Write`: the writer failed. An atomic writer then holds what it held before.
    pub fn end<W: Write>(writer: &mut W) -> Result<(), EncodeError<W::Error>>
        ensures { WritesAtomically W.atomic break_bytes (W.view writer.old)
            (W.view writer.new) result }
    {
        push_end(writer)
    }
}
