//! The first byte of a head, its two parts, and the argument after it (RFC 8949 section 3).
ghost use Rattle.std.specs.Prelude.{◌≡◌, ◌+◌, ◌/◌, ◌%◌, ◌≤◌, OnOk, IfSome, None};
ghost use Rattle.cbor4ii_rw.specs.Reader.{ReaderFails};
ghost use Rattle.cbor4ii_items.specs.Head.{ArgumentAfter, LacksArgument};
ghost use Rattle.cbor4ii_items.specs.Decoding.{Decodes};
ghost use Rattle.cbor4ii_items.specs.Moves.{OnRead};
ghost use Rattle.cbor4ii_items.specs.Next.{next_format};

use crate::head;
use crate::prefix::shown_argument;
use cbor4ii_rw::error::{DecodeError, StaticStr};
use cbor4ii_rw::read::Source;

/// The next byte, which stays: with what an item begins, where it stands before one. The reader
/// may then be advanced over it.
///
/// # Errors
///
/// Nothing is taken then, and the budget stays.
///
/// - `Read`: the reader failed
/// - `Eof` by `name` with 1: no byte is left
#[inline(always)]
pub fn peek<S: Source>(reader: &mut S, name: StaticStr) -> Result<u8, DecodeError<S::Error>>
    ensures can { OnOk result (1 ≤ (S.view reader.new).advanceable) }
    ensures failed { OnRead result (ReaderFails (S.view reader.old) (S.view reader.new)) }
    ensures decodes { Decodes (next_format name.now)
        (S.view reader.old) (S.view reader.new) result }
{
    head::peek(reader, name, 1)
}

/// The major type that a head's first byte says: its high three bits, as a number below 8.
pub fn if_major(byte: u8) -> u8
    ensures { result ≡ byte / 32 }
{
    byte >> 5
}

/// A head's first byte without its additional information.
pub fn high(byte: u8) -> u8
    ensures { byte ≡ result + byte % 32 }
{
    byte & 0b1110_0000
}

/// The additional information of a head's first byte: its low five bits.
pub fn low(byte: u8) -> u8
    ensures { result ≡ byte % 32 }
{
    byte & 0b0001_1111
}

/// The argument of a head, by its additional information and the bytes after its first byte, and
/// in how many of these it stands: 0, 1, 2, 4 or 8 (RFC 8949 section 3). What follows the
/// argument is not looked at. None where the additional information is over 27, which has no
/// argument, and where the argument does not stand whole in those bytes.
#[inline(always)]
pub fn argument(info: u8, trailing: &[u8]) -> Option<(u64, usize)>
    ensures some { IfSome result (λ found. ArgumentAfter info trailing.now found.0 found.1) }
    ensures none { result ≡ None → LacksArgument info trailing.now }
{
    if info < 24 {
        return Some((info as u64, 0));
    }
    if info > 27 {
        return None;
    }
    shown_argument(info, trailing)
}
