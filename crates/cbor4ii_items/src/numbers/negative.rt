//! Negative integers of at most eight bytes, as -1 - n for the unsigned n.
ghost use Rattle.std.specs.Prelude.{codes};
ghost use Rattle.cbor4ii_items.specs.Writing.{WritesAtomically};
ghost use Rattle.cbor4ii_items.specs.Numbers.{negative_format, shortest_head};
ghost use Rattle.cbor4ii_items.specs.Laws.Arguments.{negative_lawful};

use crate::decode::{Decodable, Decode};
use crate::encode::Encode;
use crate::head::lone_head;
use crate::major;
use crate::push::push_head;
use crate::types::Negative;
use cbor4ii_rw::error::{DecodeError, EncodeError};
use cbor4ii_rw::read::Source;
use cbor4ii_rw::write::Write;
use std::alloc::Global;

impl Decodable for Negative<u8> {
    ghost format = { negative_format (codes "-u8") 1 };

    fn is_never_empty() -> bool {
        true
    }

    ghost lawful = { negative_lawful (codes "-u8") 1 };
}

/// A negative integer whose argument has at most one byte, whether or not in its shortest head (RFC
/// 8949 section 3.1).
///
/// # Errors
///
/// Those of a `u8`, by "-u8", at major type 1 in the place of 0.
impl<S: Source> Decode<S> for Negative<u8> {
    #[inline(always)]
    fn decode(alloc: Global, reader: &mut S) -> Result<Negative<u8>, DecodeError<S::Error>> {
        Ok(Negative(lone_head(reader, "-u8", major::NEGATIVE, 1)? as u8))
    }
}

/// The shortest head of major type 1 with the number that it holds as its argument (RFC 8949
/// sections 3.1 and 4.1), in one push.
impl Encode for Negative<u8> {
    ghost bytes = { λ v. shortest_head 1 v.0 };

    #[inline(always)]
    fn encode<W: Write>(&self, writer: &mut W) -> Result<(), EncodeError<W::Error>>
        ensures { WritesAtomically W.atomic (shortest_head 1 self.now.0)
            (W.view writer.old) (W.view writer.new) result }
    {
        push_head(writer, major::NEGATIVE, self.0 as u64)
    }
}

impl Decodable for Negative<u16> {
    ghost format = { negative_format (codes "-u16") 2 };

    fn is_never_empty() -> bool {
        true
    }

    ghost lawful = { negative_lawful (codes "-u16") 2 };
}

/// A negative integer whose argument has at most two bytes, read as a `Negative<u8>` is.
///
/// # Errors
///
/// Those of a `Negative<u8>`, by "-u16", with two bytes of argument in the place of one.
impl<S: Source> Decode<S> for Negative<u16> {
    #[inline(always)]
    fn decode(alloc: Global, reader: &mut S) -> Result<Negative<u16>, DecodeError<S::Error>> {
        Ok(Negative(lone_head(reader, "-u16", major::NEGATIVE, 2)? as u16))
    }
}

/// Written as a `Negative<u8>` is.
impl Encode for Negative<u16> {
    ghost bytes = { λ v. shortest_head 1 v.0 };

    #[inline(always)]
    fn encode<W: Write>(&self, writer: &mut W) -> Result<(), EncodeError<W::Error>>
        ensures { WritesAtomically W.atomic (shortest_head 1 self.now.0)
            (W.view writer.old) (W.view writer.new) result }
    {
        push_head(writer, major::NEGATIVE, self.0 as u64)
    }
}

impl Decodable for Negative<u32> {
    ghost format = { negative_format (codes "-u32") 4 };

    fn is_never_empty() -> bool {
        true
    }

    ghost lawful = { negative_lawful (codes "-u32") 4 };
}

/// A negative integer whose argument has at most four bytes, read as a `Negative<u8>` is.
///
/// # Errors
///
/// Those of a `Negative<u8>`, by "-u32", with four bytes of argument in the place of one.
impl<S: Source> Decode<S> for Negative<u32> {
    #[inline(always)]
    fn decode(alloc: Global, reader: &mut S) -> Result<Negative<u32>, DecodeError<S::Error>> {
        Ok(Negative(lone_head(reader, "-u32", major::NEGATIVE, 4)? as u32))
    }
}

/// Written as a `Negative<u8>` is.
impl Encode for Negative<u32> {
    ghost bytes = { λ v. shortest_head 1 v.0 };

    #[inline(always)]
    fn encode<W: Write>(&self, writer: &mut W) -> Result<(), EncodeError<W::Error>>
        ensures { WritesAtomically W.atomic (shortest_head 1 self.now.0)
            (W.view writer.old) (W.view writer.new) result }
    {
        push_head(writer, major::NEGATIVE, self.0 as u64)
    }
}

impl Decodable for Negative<u64> {
    ghost format = { negative_format (codes "-u64") 8 };

    fn is_never_empty() -> bool {
        true
    }

    ghost lawful = { negative_lawful (codes "-u64") 8 };
}

/// A negative integer whose argument has at most eight bytes, read as a `Negative<u8>` is.
///
/// # Errors
///
/// Those of a `Negative<u8>`, by "-u64", with eight bytes of argument in the place of one.
impl<S: Source> Decode<S> for Negative<u64> {
    #[inline(always)]
    fn decode(alloc: Global, reader: &mut S) -> Result<Negative<u64>, DecodeError<S::Error>> {
        Ok(Negative(lone_head(reader, "-u64", major::NEGATIVE, 8)?))
    }
}

/// Written as a `Negative<u8>` is.
impl Encode for Negative<u64> {
    ghost bytes = { λ v. shortest_head 1 v.0 };

    #[inline(always)]
    fn encode<W: Write>(&self, writer: &mut W) -> Result<(), EncodeError<W::Error>>
        ensures { WritesAtomically W.atomic (shortest_head 1 self.now.0)
            (W.view writer.old) (W.view writer.new) result }
    {
        push_head(writer, major::NEGATIVE, self.0)
    }
}
