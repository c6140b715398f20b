//! Strings that are written in parts: their heads and their ends (RFC 8949 sections 3.1 and 3.2.3).
ghost use Rattle.cbor4ii_items.specs.Writing.{WritesAtomically};
ghost use Rattle.cbor4ii_items.specs.Numbers.{shortest_head};
ghost use Rattle.cbor4ii_items.specs.Strings.{open_head, break_bytes};

use crate::major;
use crate::push::{push_end, push_head, push_indefinite};
use crate::types::{Bytes, UncheckedStr};
use cbor4ii_rw::error::EncodeError;
use cbor4ii_rw::write::Write;

impl Bytes<()> {
    /// Writes the shortest head of a byte string of `len` bytes, in one push. The bytes are to
    /// follow.
    ///
    /// # Errors
    ///
    /// `Write`: the writer failed. An atomic writer then holds what it held before.
    pub fn bounded<W: Write>(len: usize, writer: &mut W) -> Result<(), EncodeError<W::Error>>
        ensures { WritesAtomically W.atomic (shortest_head 2 len)
            (W.view writer.old) (W.view writer.new) result }
    {
        push_head(writer, major::BYTES, len as u64)
    }

    /// Writes the first byte of a byte string of indefinite length, in one push. Byte strings of a
    /// definite length and an end are to follow (RFC 8949 section 3.2.3).
    ///
    /// # Errors
    ///
    /// `Write`: the writer failed. An atomic writer then holds what it held before.
    pub fn unbounded<W: Write>(writer: &mut W) -> Result<(), EncodeError<W::Error>>
        ensures { WritesAtomically W.atomic (open_head 2) (W.view writer.old) (W.view writer.new)
            result }
    {
        push_indefinite(writer, major::BYTES)
    }

    /// Writes the end of an indefinite length, one byte, in one push.
    ///
    /// # Errors
    ///
    /// `Write`: the writer failed. An atomic writer then holds what it held before.
    pub fn end<W: Write>(writer: &mut W) -> Result<(), EncodeError<W::Error>>
        ensures { WritesAtomically W.atomic break_bytes (W.view writer.old)
            (W.view writer.new) result }
    {
        push_end(writer)
    }
}

impl UncheckedStr<()> {
    /// Writes the shortest head of a text string of `len` bytes, in one push. The bytes are to
    /// follow.
    ///
    /// # Errors
    ///
    /// `Write`: the writer failed. An atomic writer then holds what it held before.
    pub fn bounded<W: Write>(len: usize, writer: &mut W) -> Result<(), EncodeError<W::Error>>
        ensures { WritesAtomically W.atomic (shortest_head 3 len)
            (W.view writer.old) (W.view writer.new) result }
    {
        push_head(writer, major::STRING, len as u64)
    }

    /// Writes the first byte of a text string of indefinite length, in one push. Text strings of a
    /// definite length and an end are to follow (RFC 8949 section 3.2.3).
    ///
    /// # Errors
    ///
    /// `Write`: the writer failed. An atomic writer then holds what it held before.
    pub fn unbounded<W: Write>(writer: &mut W) -> Result<(), EncodeError<W::Error>>
        ensures { WritesAtomically W.atomic (open_head 3) (W.view writer.old) (W.view writer.new)
            result }
    {
        push_indefinite(writer, major::STRING)
    }

    /// Writes the end of an indefinite length, one byte, in one push.
    ///
    /// # Errors
    ///
    /// `Write`: the writer failed. An atomic writer then holds what it held before.
    pub fn end<W: Write>(writer: &mut W) -> Result<(), EncodeError<W::Error>>
        ensures { WritesAtomically W.atomic break_bytes (W.view writer.old)
            (W.view writer.new) result }
    {
        push_end(writer)
    }
}
