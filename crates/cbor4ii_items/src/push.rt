//! Heads and numbers, written.
ghost use Rattle.std.specs.Prelude.{◌≡◌, ◌<◌, ◌^◌, ◌<ℤ◌, ◌≤ℤ◌, ◌++◌, length, pos, negsuc};
ghost use Rattle.cbor4ii_items.specs.Writing.{InTwoPushes, Writes, WritesAtomically};
ghost use Rattle.cbor4ii_items.specs.Strings.{break_bytes, definite_string, open_head};
ghost use Rattle.cbor4ii_items.specs.Numbers.{shortest_head, signed_head, bignum_bytes, IsWithin};
ghost use Rattle.cbor4ii_items.specs.Numbers.{integer_bytes, unsigned_bytes, signed_bytes};

use crate::bignum::{NEGATIVE_BIGNUM, POSITIVE_BIGNUM, without_leading_zeros};
use crate::encode::Encode;
use crate::shortest_head::push_shortest_head;
use crate::{major, marker};
use cbor4ii_rw::error::EncodeError;
use cbor4ii_rw::write::Write;

#[inline(always)]
pub(crate) fn push_bytes<W: Write>(
    writer: &mut W,
    bytes: &[u8],
) -> Result<(), EncodeError<W::Error>>
    ensures { WritesAtomically W.atomic bytes.now (W.view writer.old) (W.view writer.new) result }
{
    match writer.push(bytes) {
        Ok(()) => Ok(()),
        Err(error) => Err(EncodeError::Write(error)),
    }
}

#[inline(always)]
pub(crate) fn push_head<W: Write>(
    writer: &mut W,
    major: u8,
    argument: u64,
) -> Result<(), EncodeError<W::Error>>
    requires { major < 8 }
    ensures { WritesAtomically W.atomic (shortest_head major argument)
        (W.view writer.old) (W.view writer.new) result }
{
    match push_shortest_head(writer, major, argument) {
        Ok(()) => Ok(()),
        Err(error) => Err(EncodeError::Write(error)),
    }
}

#[inline(always)]
pub(crate) fn push_indefinite<W: Write>(
    writer: &mut W,
    major: u8,
) -> Result<(), EncodeError<W::Error>>
    requires { major < 8 }
    ensures { WritesAtomically W.atomic (open_head major) (W.view writer.old) (W.view writer.new)
        result }
{
    push_bytes(writer, &[32 * major + marker::START])
}

#[inline(always)]
pub(crate) fn push_end<W: Write>(writer: &mut W) -> Result<(), EncodeError<W::Error>>
    ensures { WritesAtomically W.atomic break_bytes (W.view writer.old) (W.view writer.new) result }
{
    push_bytes(writer, &[marker::BREAK])
}

#[inline(always)]
pub(crate) fn push_signed<W: Write>(writer: &mut W, value: i64) -> Result<(), EncodeError<W::Error>>
    ensures { WritesAtomically W.atomic (signed_head value)
        (W.view writer.old) (W.view writer.new) result }
{
    if value >= 0 {
        push_head(writer, major::UNSIGNED, value as u64)
    } else {
        push_head(writer, major::NEGATIVE, (-1 - value) as u64)
    }
}

/// Below 2^64 it is one push.
pub(crate) fn push_unsigned_integer<W: Write>(
    writer: &mut W,
    value: u128,
) -> Result<(), EncodeError<W::Error>>
    ensures writes { Writes W.atomic (unsigned_bytes value)
        (W.view writer.old) (W.view writer.new) result }
    ensures whole { value < 2 ^ 64 → WritesAtomically W.atomic (unsigned_bytes value)
        (W.view writer.old) (W.view writer.new) result }
{
    push_integer(writer, major::UNSIGNED, POSITIVE_BIGNUM, value)
}

/// It is one push where the number from 0 on, or the n of -1 - n, is below 2^64.
pub(crate) fn push_signed_integer<W: Write>(
    writer: &mut W,
    value: i128,
) -> Result<(), EncodeError<W::Error>>
    ensures writes { Writes W.atomic (signed_bytes value)
        (W.view writer.old) (W.view writer.new) result }
    ensures whole { IsWithin (2 ^ 64) value → WritesAtomically W.atomic (signed_bytes value)
        (W.view writer.old) (W.view writer.new) result }
{
    if value >= 0 {
        push_integer(writer, major::UNSIGNED, POSITIVE_BIGNUM, nonnegative(value))
    } else {
        push_integer(writer, major::NEGATIVE, NEGATIVE_BIGNUM, beyond(value))
    }
}

#[inline(always)]
pub(crate) fn nonnegative(value: i128) -> u128
    requires { pos 0 ≤ℤ value }
    ensures { value ≡ pos result }
{
    value as u128
}

/// The n of the negative integer -1 - n.
#[inline(always)]
pub(crate) fn beyond(value: i128) -> u128
    requires { value <ℤ pos 0 }
    ensures { value ≡ negsuc result }
{
    (-1 - value) as u128
}

/// Writes the argument of a head where it fits, in one push, else a bignum with this tag.
fn push_integer<W: Write>(
    writer: &mut W,
    major: u8,
    tag: u8,
    value: u128,
) -> Result<(), EncodeError<W::Error>>
    requires { major < 8 }
    ensures writes { Writes W.atomic (integer_bytes major tag value)
        (W.view writer.old) (W.view writer.new) result }
    ensures whole { value < 2 ^ 64 → WritesAtomically W.atomic (integer_bytes major tag value)
        (W.view writer.old) (W.view writer.new) result }
{
    match u64::try_from(value) {
        Ok(argument) => push_head(writer, major, argument),
        Err(_) => push_bignum(writer, tag, value),
    }
}

fn push_bignum<W: Write>(writer: &mut W, tag: u8, value: u128) -> Result<(), EncodeError<W::Error>>
    ensures { Writes W.atomic (bignum_bytes tag value)
        (W.view writer.old) (W.view writer.new) result }
{
    push_head(writer, major::TAG, tag as u64)?;
    push_string(
        writer,
        major::BYTES,
        without_leading_zeros(&value.to_be_bytes()),
    )
}

/// Its head in one push, and its content in another.
#[inline(always)]
pub(crate) fn push_string<W: Write>(
    writer: &mut W,
    major: u8,
    content: &[u8],
) -> Result<(), EncodeError<W::Error>>
    requires { major < 8 }
    ensures writes { Writes W.atomic (definite_string major content.now)
        (W.view writer.old) (W.view writer.new) result }
    ensures pushes { InTwoPushes W.atomic (shortest_head major (length content.now))
        (W.view writer.old) (W.view writer.new) result }
{
    push_head(writer, major, content.len() as u64)?;
    push_bytes(writer, content)
}

/// Writes the shortest head of this major type with this argument, and an item after it.
#[inline(always)]
pub(crate) fn push_headed_item<W: Write, T: Encode>(
    writer: &mut W,
    major: u8,
    argument: u64,
    item: &T,
) -> Result<(), EncodeError<W::Error>>
    requires { major < 8 }
    ensures { Writes W.atomic (shortest_head major argument ++ T.bytes item.now)
        (W.view writer.old) (W.view writer.new) result }
{
    push_head(writer, major, argument)?;
    item.encode(writer)
}
