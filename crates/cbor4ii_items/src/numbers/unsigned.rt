//! Unsigned integers of at most eight bytes.
ghost use Rattle.std.specs.Prelude.{codes};
ghost use Rattle.cbor4ii_items.specs.Writing.{WritesAtomically};
ghost use Rattle.cbor4ii_items.specs.Numbers.{argument_format, shortest_head};
ghost use Rattle.cbor4ii_items.specs.Laws.Arguments.{argument_lawful, zero_small};

use crate::decode::{Decodable, Decode};
use crate::encode::Encode;
use crate::head::lone_head;
use crate::leaf::DecodeLeaf;
use crate::major;
use crate::prefix::seen_head;
use crate::push::push_head;
use cbor4ii_rw::error::{DecodeError, EncodeError};
use cbor4ii_rw::read::Source;
use cbor4ii_rw::write::Write;
use std::alloc::Global;

impl Decodable for u8 {
    ghost format = { argument_format (codes "u8") 0 1 };

    fn is_never_empty() -> bool {
        true
    }

    ghost lawful = { argument_lawful (codes "u8") 0 1 zero_small };
}

impl DecodeLeaf for u8 {
    #[inline(always)]
    fn shown_leaf(shown: &[u8], steps: u8) -> Option<(u8, usize)> {
        let (argument, size) = seen_head(shown, major::UNSIGNED, 1)?;
        Some((argument as u8, size))
    }
}

/// An unsigned integer whose argument has at most one byte, whether or not in its shortest head
/// (RFC 8949 section 3.1).
///
/// # Errors
///
/// `Read` is described at `Decode::decode`. The others have the name "u8":
///
/// - `Eof` with 1: no byte is left
/// - `Eof` with k: the argument has k bytes and fewer are left. Nothing is left then
/// - `Mismatch` with the first byte, which is taken: it begins no head of major type 0 with at most
///   one byte of argument
impl<S: Source> Decode<S> for u8 {
    #[tactic(auto, using(crate::proofs::Passed::decodes_passed))]
    #[inline(always)]
    fn decode(alloc: Global, reader: &mut S) -> Result<u8, DecodeError<S::Error>> {
        Ok(lone_head(reader, "u8", major::UNSIGNED, 1)? as u8)
    }
}

/// The shortest head of major type 0 with this argument (RFC 8949 sections 3.1 and 4.1), in one
/// push.
impl Encode for u8 {
    ghost bytes = { shortest_head 0 };

    #[inline(always)]
    fn encode<W: Write>(&self, writer: &mut W) -> Result<(), EncodeError<W::Error>>
        ensures { WritesAtomically W.atomic (shortest_head 0 self.now)
            (W.view writer.old) (W.view writer.new) result }
    {
        push_head(writer, major::UNSIGNED, *self as u64)
    }
}

impl Decodable for u16 {
    ghost format = { argument_format (codes "u16") 0 2 };

    fn is_never_empty() -> bool {
        true
    }

    ghost lawful = { argument_lawful (codes "u16") 0 2 zero_small };
}

impl DecodeLeaf for u16 {
    #[inline(always)]
    fn shown_leaf(shown: &[u8], steps: u8) -> Option<(u16, usize)> {
        let (argument, size) = seen_head(shown, major::UNSIGNED, 2)?;
        Some((argument as u16, size))
    }
}

/// An unsigned integer whose argument has at most two bytes, read as a `u8` is.
///
/// # Errors
///
/// Those of a `u8`, by "u16", with two bytes of argument in the place of one.
impl<S: Source> Decode<S> for u16 {
    #[tactic(auto, using(crate::proofs::Passed::decodes_passed))]
    #[inline(always)]
    fn decode(alloc: Global, reader: &mut S) -> Result<u16, DecodeError<S::Error>> {
        Ok(lone_head(reader, "u16", major::UNSIGNED, 2)? as u16)
    }
}

/// Written as a `u8` is.
impl Encode for u16 {
    ghost bytes = { shortest_head 0 };

    #[inline(always)]
    fn encode<W: Write>(&self, writer: &mut W) -> Result<(), EncodeError<W::Error>>
        ensures { WritesAtomically W.atomic (shortest_head 0 self.now)
            (W.view writer.old) (W.view writer.new) result }
    {
        push_head(writer, major::UNSIGNED, *self as u64)
    }
}

impl Decodable for u32 {
    ghost format = { argument_format (codes "u32") 0 4 };

    fn is_never_empty() -> bool {
        true
    }

    ghost lawful = { argument_lawful (codes "u32") 0 4 zero_small };
}

impl DecodeLeaf for u32 {
    #[inline(always)]
    fn shown_leaf(shown: &[u8], steps: u8) -> Option<(u32, usize)> {
        let (argument, size) = seen_head(shown, major::UNSIGNED, 4)?;
        Some((argument as u32, size))
    }
}

/// An unsigned integer whose argument has at most four bytes, read as a `u8` is.
///
/// # Errors
///
/// Those of a `u8`, by "u32", with four bytes of argument in the place of one.
impl<S: Source> Decode<S> for u32 {
    #[tactic(auto, using(crate::proofs::Passed::decodes_passed))]
    #[inline(always)]
    fn decode(alloc: Global, reader: &mut S) -> Result<u32, DecodeError<S::Error>> {
        Ok(lone_head(reader, "u32", major::UNSIGNED, 4)? as u32)
    }
}

/// Written as a `u8` is.
impl Encode for u32 {
    ghost bytes = { shortest_head 0 };

    #[inline(always)]
    fn encode<W: Write>(&self, writer: &mut W) -> Result<(), EncodeError<W::Error>>
        ensures { WritesAtomically W.atomic (shortest_head 0 self.now)
            (W.view writer.old) (W.view writer.new) result }
    {
        push_head(writer, major::UNSIGNED, *self as u64)
    }
}

impl Decodable for u64 {
    ghost format = { argument_format (codes "u64") 0 8 };

    fn is_never_empty() -> bool {
        true
    }

    ghost lawful = { argument_lawful (codes "u64") 0 8 zero_small };
}

impl DecodeLeaf for u64 {
    #[inline(always)]
    fn shown_leaf(shown: &[u8], steps: u8) -> Option<(u64, usize)> {
        seen_head(shown, major::UNSIGNED, 8)
    }
}

/// An unsigned integer whose argument has at most eight bytes, read as a `u8` is.
///
/// # Errors
///
/// Those of a `u8`, by "u64", with eight bytes of argument in the place of one.
impl<S: Source> Decode<S> for u64 {
    #[inline(always)]
    fn decode(alloc: Global, reader: &mut S) -> Result<u64, DecodeError<S::Error>> {
        lone_head(reader, "u64", major::UNSIGNED, 8)
    }
}

/// Written as a `u8` is.
impl Encode for u64 {
    ghost bytes = { shortest_head 0 };

    #[inline(always)]
    fn encode<W: Write>(&self, writer: &mut W) -> Result<(), EncodeError<W::Error>>
        ensures { WritesAtomically W.atomic (shortest_head 0 self.now)
            (W.view writer.old) (W.view writer.new) result }
    {
        push_head(writer, major::UNSIGNED, *self)
    }
}
