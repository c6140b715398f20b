//! Simple values (RFC 8949 section 3.3).
ghost use Rattle.std.specs.Prelude.{◌≡◌, ◌+◌, ◌≤◌, ◌∷◌, [], true, false, OnOk, IfErr};
ghost use Rattle.cbor4ii_items.specs.Reading.{Runs};
ghost use Rattle.cbor4ii_items.specs.InputError.{is_out_of_memory};
ghost use Rattle.cbor4ii_items.specs.Numbers.{shortest_head};
ghost use Rattle.cbor4ii_items.specs.Initial.{simple_byte, simple_null, simple_undefined};
ghost use Rattle.cbor4ii_items.specs.Simple.{simple_format, simple_lawful, bool_byte, bool_at};
ghost use Rattle.cbor4ii_items.specs.Simple.{bool_format, bool_lawful};
ghost use Rattle.cbor4ii_items.specs.Writing.{WritesAtomically};

use crate::decode::{Decodable, Decode};
use crate::encode::Encode;
use crate::head::{lone_head, marked};
use crate::leaf::DecodeLeaf;
use crate::push::{push_bytes, push_head};
use crate::types::{Null, Simple, Undefined};
use crate::{major, marker};
use cbor4ii_rw::error::{DecodeError, EncodeError};
use cbor4ii_rw::read::Source;
use cbor4ii_rw::write::Write;
use std::alloc::Global;

impl Decodable for Simple {
    ghost format = { simple_format };

    fn is_never_empty() -> bool {
        true
    }

    ghost lawful = { simple_lawful };
}

/// A simple value by its number, in the first byte or the one after it; there the numbers below 32
/// too, which RFC 8949 section 3.3 calls not well-formed.
///
/// # Errors
///
/// Those of a `u8`, by "simple", at major type 7 in the place of 0.
impl<S: Source> Decode<S> for Simple {
    #[inline(always)]
    fn decode(alloc: Global, reader: &mut S) -> Result<Simple, DecodeError<S::Error>> {
        Ok(Simple(lone_head(reader, "simple", major::SIMPLE, 1)? as u8))
    }
}

/// The shortest head of major type 7 with its number (RFC 8949 section 3.3), in one push. From 24
/// on it is `f8` and the number, also of 24 to 31, which section 3.3 calls not well-formed.
impl Encode for Simple {
    ghost bytes = { λ v. shortest_head 7 v.0 };

    #[inline(always)]
    fn encode<W: Write>(&self, writer: &mut W) -> Result<(), EncodeError<W::Error>>
        ensures { WritesAtomically W.atomic (shortest_head 7 self.now.0)
            (W.view writer.old) (W.view writer.new) result }
    {
        push_head(writer, major::SIMPLE, self.0 as u64)
    }
}

impl Decodable for bool {
    ghost format = { bool_format };

    fn is_never_empty() -> bool {
        true
    }

    ghost lawful = { bool_lawful };
}

impl DecodeLeaf for bool {
    #[inline(always)]
    fn shown_leaf(shown: &[u8], steps: u8) -> Option<(bool, usize)> {
        let [first, ..] = shown else {
            return None;
        };
        if *first != marker::FALSE && *first != marker::TRUE {
            return None;
        }
        Some((*first == marker::TRUE, 1))
    }
}

/// False or true, in one byte (RFC 8949 section 3.3).
///
/// # Errors
///
/// `Read` is described at `Decode::decode`. The others have the name "bool", and nothing is taken
/// then:
///
/// - `Eof` with 1: no byte is left
/// - `Mismatch` with the next byte: it is neither false nor true
impl<S: Source> Decode<S> for bool {
    #[inline(always)]
    fn decode(alloc: Global, reader: &mut S) -> Result<bool, DecodeError<S::Error>> {
        take_bool(reader)
    }
}

fn take_bool<S: Source>(reader: &mut S) -> Result<bool, DecodeError<S::Error>>
    ensures runs { Runs bool_at (S.view reader.old) (S.view reader.new) result }
    ensures memory { IfErr result (λ error. is_out_of_memory error ≡ false) }
    ensures progress { OnOk result ((S.view reader.new).bound + 1 ≤ (S.view reader.old).bound) }
{
    let byte = marked(reader, "bool", marker::FALSE, marker::TRUE)?;
    Ok(byte == marker::TRUE)
}

/// `f4` for false and `f5` for true (RFC 8949 section 3.3), in one push.
impl Encode for bool {
    ghost bytes = { λ v. bool_byte v ∷ [] };

    #[inline(always)]
    fn encode<W: Write>(&self, writer: &mut W) -> Result<(), EncodeError<W::Error>>
        ensures { WritesAtomically W.atomic (bool_byte self.now ∷ [])
            (W.view writer.old) (W.view writer.new) result }
    {
        let byte = if *self { marker::TRUE } else { marker::FALSE };
        push_bytes(writer, &[byte])
    }
}

/// `f6` (RFC 8949 section 3.3), in one push.
impl Encode for Null {
    ghost bytes = { λ _. simple_byte simple_null ∷ [] };

    #[inline(always)]
    fn encode<W: Write>(&self, writer: &mut W) -> Result<(), EncodeError<W::Error>>
        ensures { WritesAtomically W.atomic (simple_byte simple_null ∷ [])
            (W.view writer.old) (W.view writer.new) result }
    {
        push_bytes(writer, &[marker::NULL])
    }
}

/// `f7` (RFC 8949 section 3.3), in one push.
impl Encode for Undefined {
    ghost bytes = { λ _. simple_byte simple_undefined ∷ [] };

    #[inline(always)]
    fn encode<W: Write>(&self, writer: &mut W) -> Result<(), EncodeError<W::Error>>
        ensures { WritesAtomically W.atomic (simple_byte simple_undefined ∷ [])
            (W.view writer.old) (W.view writer.new) result }
    {
        push_bytes(writer, &[marker::UNDEFINED])
    }
}
