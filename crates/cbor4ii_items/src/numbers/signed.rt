//! Signed integers of at most eight bytes.
ghost use Rattle.std.specs.Prelude.{◌≡◌, ◌+◌, ◌<◌, ◌≤◌, ◌^◌, OnOk, IfOk, IfErr, IfSome, true};
ghost use Rattle.std.specs.Prelude.{false, codes};
ghost use Rattle.std.specs.Prelude.{pos, negsuc};
ghost use Rattle.cbor4ii_items.specs.Reading.{Runs};
ghost use Rattle.cbor4ii_items.specs.InputError.{is_out_of_memory};
ghost use Rattle.cbor4ii_items.specs.ReadNumber.{head_below_at, signed_at};
ghost use Rattle.cbor4ii_items.specs.Writing.{WritesAtomically};
ghost use Rattle.cbor4ii_items.specs.Decoding.{Decodes};
ghost use Rattle.cbor4ii_items.specs.Numbers.{IsWithin, ReadsSigned, signed_head, signed_format};
ghost use Rattle.cbor4ii_items.specs.ShownLeaf.{IsShownLeaf};
ghost use Rattle.cbor4ii_items.specs.Laws.Signed.{signed_lawful};

use crate::decode::{Decodable, Decode};
use crate::encode::Encode;
use crate::head::{head_by_bytes, peek};
use crate::initial::if_major;
use crate::leaf::DecodeLeaf;
use crate::major;
use crate::prefix::{seen_head, take_head};
use crate::push::push_signed;
use cbor4ii_rw::error::{DecodeError, EncodeError, StaticStr};
use cbor4ii_rw::read::Source;
use cbor4ii_rw::write::Write;
use std::alloc::Global;

/// A head with an argument below `limit`, one byte at a time.
fn head_below<S: Source>(
    reader: &mut S,
    name: StaticStr,
    major: u8,
    width: u8,
    limit: u64,
) -> Result<u64, DecodeError<S::Error>>
    ensures runs { Runs (head_below_at name.now major width limit)
        (S.view reader.old) (S.view reader.new) result }
    ensures memory { IfErr result (λ error. is_out_of_memory error ≡ false) }
    ensures below { IfOk result (λ v. v < limit) }
    ensures progress { OnOk result ((S.view reader.new).bound + 1 ≤ (S.view reader.old).bound) }
{
    let argument = head_by_bytes(reader, name, major, width)?;
    if argument >= limit {
        return Err(DecodeError::CastOverflow { name });
    }
    Ok(argument)
}

/// A number from 0 on, or -1 - n, with an argument below `limit`.
#[inline(always)]
fn signed<S: Source>(
    reader: &mut S,
    name: StaticStr,
    plus: StaticStr,
    minus: StaticStr,
    width: u8,
    limit: u64,
) -> Result<i64, DecodeError<S::Error>>
    requires { limit ≤ 2 ^ 63 }
    ensures runs { Runs (signed_at name.now plus.now minus.now width limit)
        (S.view reader.old) (S.view reader.new) result }
    ensures memory { IfErr result (λ error. is_out_of_memory error ≡ false) }
    ensures range { IfOk result (IsWithin limit) }
    ensures progress { OnOk result ((S.view reader.new).bound + 1 ≤ (S.view reader.old).bound) }
{
    match take_head(reader, major::UNSIGNED, width) {
        Ok(Some(argument)) => {
            if argument >= limit {
                return Err(DecodeError::CastOverflow { name: plus });
            }
            Ok(positive(argument))
        }
        Ok(None) => signed_below_zero(reader, name, plus, minus, width, limit),
        Err(error) => Err(DecodeError::Read(error)),
    }
}

/// Takes the number of `signed` where no number from 0 on stands whole in what is shown.
#[inline(always)]
fn signed_below_zero<S: Source>(
    reader: &mut S,
    name: StaticStr,
    plus: StaticStr,
    minus: StaticStr,
    width: u8,
    limit: u64,
) -> Result<i64, DecodeError<S::Error>>
    requires { limit ≤ 2 ^ 63 }
    ensures runs { Runs (signed_at name.now plus.now minus.now width limit)
        (S.view reader.old) (S.view reader.new) result }
    ensures memory { IfErr result (λ error. is_out_of_memory error ≡ false) }
    ensures range { IfOk result (IsWithin limit) }
    ensures progress { OnOk result ((S.view reader.new).bound + 1 ≤ (S.view reader.old).bound) }
{
    match take_head(reader, major::NEGATIVE, width) {
        Ok(Some(argument)) => {
            if argument >= limit {
                return Err(DecodeError::CastOverflow { name: minus });
            }
            Ok(negative(argument))
        }
        Ok(None) => signed_by_bytes(reader, name, plus, minus, width, limit),
        Err(error) => Err(DecodeError::Read(error)),
    }
}

/// Takes the number of `signed` one byte at a time.
#[cold]
#[inline(never)]
fn signed_by_bytes<S: Source>(
    reader: &mut S,
    name: StaticStr,
    plus: StaticStr,
    minus: StaticStr,
    width: u8,
    limit: u64,
) -> Result<i64, DecodeError<S::Error>>
    requires { limit ≤ 2 ^ 63 }
    ensures runs { Runs (signed_at name.now plus.now minus.now width limit)
        (S.view reader.old) (S.view reader.new) result }
    ensures memory { IfErr result (λ error. is_out_of_memory error ≡ false) }
    ensures range { IfOk result (IsWithin limit) }
    ensures progress { OnOk result ((S.view reader.new).bound + 1 ≤ (S.view reader.old).bound) }
{
    let first = peek(reader, name, 1)?;
    match if_major(first) {
        major::UNSIGNED => {
            let argument = head_below(reader, plus, major::UNSIGNED, width, limit)?;
            Ok(positive(argument))
        }
        major::NEGATIVE => {
            let argument = head_below(reader, minus, major::NEGATIVE, width, limit)?;
            Ok(negative(argument))
        }
        _ => Err(DecodeError::Mismatch { name, found: first }),
    }
}

/// A number from 0 on, or -1 - n, with an argument below `limit`, that stands whole in `shown`, and
/// how many bytes it has.
#[inline(always)]
fn seen_signed(shown: &[u8], width: u8, limit: u64) -> Option<(i64, usize)>
    requires { limit ≤ 2 ^ 63 }
    ensures stands { IfSome result (IsShownLeaf (ReadsSigned width limit) shown.now 0) }
    ensures range { IfSome result (λ found. IsWithin limit found.0) }
{
    let [first, ..] = shown else {
        return None;
    };
    let major = if_major(*first);
    if major > major::NEGATIVE {
        return None;
    }
    let (argument, size) = seen_head(shown, major, width)?;
    if argument >= limit {
        return None;
    }
    let number = if major == major::UNSIGNED {
        positive(argument)
    } else {
        negative(argument)
    };
    Some((number, size))
}

fn positive(number: u64) -> i64
    requires { number < 2 ^ 63 }
    ensures { result ≡ pos number }
{
    number as i64
}

fn negative(n: u64) -> i64
    requires { n < 2 ^ 63 }
    ensures { result ≡ negsuc n }
{
    -1 - n as i64
}

/// A signed number that is a whole item: what is read, and how it is rejected.
#[inline(always)]
fn lone_signed<S: Source>(
    reader: &mut S,
    name: StaticStr,
    plus: StaticStr,
    minus: StaticStr,
    width: u8,
    limit: u64,
) -> Result<i64, DecodeError<S::Error>>
    requires { limit ≤ 2 ^ 63 }
    ensures range { IfOk result (IsWithin limit) }
    ensures decodes { Decodes (signed_format name.now plus.now minus.now width limit)
        (S.view reader.old) (S.view reader.new) result }
{
    signed(reader, name, plus, minus, width, limit)
}

impl Decodable for i8 {
    ghost format = { signed_format (codes "i8") (codes "+i8") (codes "-i8") 1
        (2 ^ 7) };

    fn is_never_empty() -> bool {
        true
    }

    ghost lawful = { signed_lawful (codes "i8") (codes "+i8") (codes "-i8") 1
        (2 ^ 7) };
}

impl DecodeLeaf for i8 {
    #[inline(always)]
    fn shown_leaf(shown: &[u8], steps: u8) -> Option<(i8, usize)> {
        let (number, size) = seen_signed(shown, 1, 0x80)?;
        Some((number as i8, size))
    }
}

/// An integer of major type 0, or a negative one of major type 1, whose argument has at most one
/// byte and is below 2^7 (RFC 8949 section 3.1).
///
/// # Errors
///
/// `Read` is described at `Decode::decode`. Of a head of major type 0 the name is "+i8", of one of
/// major type 1 it is "-i8":
///
/// - `Eof` by "i8" with 1: no byte is left
/// - `Mismatch` by "i8" with the next byte, which stays: it is of another major type
/// - `Eof` by "+i8" or "-i8" with k: the argument has k bytes and fewer are left. Nothing is left
///   then
/// - `Mismatch` by "+i8" or "-i8" with the first byte, which is taken: it begins no head with at
///   most one byte of argument
/// - `CastOverflow` by "+i8" or "-i8": the argument is 2^7 or greater. What follows the head is
///   left
impl<S: Source> Decode<S> for i8 {
    #[tactic(auto, using(crate::proofs::Passed::decodes_passed))]
    #[inline(always)]
    fn decode(alloc: Global, reader: &mut S) -> Result<i8, DecodeError<S::Error>> {
        Ok(lone_signed(reader, "i8", "+i8", "-i8", 1, 0x80)? as i8)
    }
}

/// From 0 on the shortest head of major type 0 with this argument. Of -1 - n it is that of major
/// type 1 with the argument n (RFC 8949 sections 3.1 and 4.1). Either is written in one push.
impl Encode for i8 {
    ghost bytes = { signed_head };

    #[inline(always)]
    fn encode<W: Write>(&self, writer: &mut W) -> Result<(), EncodeError<W::Error>>
        ensures { WritesAtomically W.atomic (signed_head self.now)
            (W.view writer.old) (W.view writer.new) result }
    {
        push_signed(writer, *self as i64)
    }
}

impl Decodable for i16 {
    ghost format = { signed_format (codes "i16") (codes "+i16") (codes "-i16") 2
        (2 ^ 15) };

    fn is_never_empty() -> bool {
        true
    }

    ghost lawful = { signed_lawful (codes "i16") (codes "+i16") (codes "-i16") 2
        (2 ^ 15) };
}

impl DecodeLeaf for i16 {
    #[inline(always)]
    fn shown_leaf(shown: &[u8], steps: u8) -> Option<(i16, usize)> {
        let (number, size) = seen_signed(shown, 2, 0x8000)?;
        Some((number as i16, size))
    }
}

/// An integer whose argument has at most two bytes and is below 2^15, read as an `i8` is.
///
/// # Errors
///
/// Those of an `i8`, by "i16", "+i16" and "-i16", and with these numbers in the place of one byte
/// and 2^7.
impl<S: Source> Decode<S> for i16 {
    #[tactic(auto, using(crate::proofs::Passed::decodes_passed))]
    #[inline(always)]
    fn decode(alloc: Global, reader: &mut S) -> Result<i16, DecodeError<S::Error>> {
        Ok(lone_signed(reader, "i16", "+i16", "-i16", 2, 0x8000)? as i16)
    }
}

/// Written as an `i8` is.
impl Encode for i16 {
    ghost bytes = { signed_head };

    #[inline(always)]
    fn encode<W: Write>(&self, writer: &mut W) -> Result<(), EncodeError<W::Error>>
        ensures { WritesAtomically W.atomic (signed_head self.now)
            (W.view writer.old) (W.view writer.new) result }
    {
        push_signed(writer, *self as i64)
    }
}

impl Decodable for i32 {
    ghost format = { signed_format (codes "i32") (codes "+i32") (codes "-i32") 4
        (2 ^ 31) };

    fn is_never_empty() -> bool {
        true
    }

    ghost lawful = { signed_lawful (codes "i32") (codes "+i32") (codes "-i32") 4
        (2 ^ 31) };
}

impl DecodeLeaf for i32 {
    #[inline(always)]
    fn shown_leaf(shown: &[u8], steps: u8) -> Option<(i32, usize)> {
        let (number, size) = seen_signed(shown, 4, 0x8000_0000)?;
        Some((number as i32, size))
    }
}

/// An integer whose argument has at most four bytes and is below 2^31, read as an `i8` is.
///
/// # Errors
///
/// Those of an `i8`, by "i32", "+i32" and "-i32", and with these numbers in the place of one byte
/// and 2^7.
impl<S: Source> Decode<S> for i32 {
    #[tactic(auto, using(crate::proofs::Passed::decodes_passed))]
    #[inline(always)]
    fn decode(alloc: Global, reader: &mut S) -> Result<i32, DecodeError<S::Error>> {
        Ok(lone_signed(reader, "i32", "+i32", "-i32", 4, 0x8000_0000)? as i32)
    }
}

/// Written as an `i8` is.
impl Encode for i32 {
    ghost bytes = { signed_head };

    #[inline(always)]
    fn encode<W: Write>(&self, writer: &mut W) -> Result<(), EncodeError<W::Error>>
        ensures { WritesAtomically W.atomic (signed_head self.now)
            (W.view writer.old) (W.view writer.new) result }
    {
        push_signed(writer, *self as i64)
    }
}

impl Decodable for i64 {
    ghost format = { signed_format (codes "i64") (codes "+i64") (codes "-i64") 8
        (2 ^ 63) };

    fn is_never_empty() -> bool {
        true
    }

    ghost lawful = { signed_lawful (codes "i64") (codes "+i64") (codes "-i64") 8
        (2 ^ 63) };
}

impl DecodeLeaf for i64 {
    #[inline(always)]
    fn shown_leaf(shown: &[u8], steps: u8) -> Option<(i64, usize)> {
        seen_signed(shown, 8, 0x8000_0000_0000_0000)
    }
}

/// An integer whose argument has at most eight bytes and is below 2^63, read as an `i8` is.
///
/// # Errors
///
/// Those of an `i8`, by "i64", "+i64" and "-i64", and with these numbers in the place of one byte
/// and 2^7.
impl<S: Source> Decode<S> for i64 {
    #[inline(always)]
    fn decode(alloc: Global, reader: &mut S) -> Result<i64, DecodeError<S::Error>> {
        lone_signed(reader, "i64", "+i64", "-i64", 8, 0x8000_0000_0000_0000)
    }
}

/// Written as an `i8` is.
impl Encode for i64 {
    ghost bytes = { signed_head };

    #[inline(always)]
    fn encode<W: Write>(&self, writer: &mut W) -> Result<(), EncodeError<W::Error>>
        ensures { WritesAtomically W.atomic (signed_head self.now)
            (W.view writer.old) (W.view writer.new) result }
    {
        push_signed(writer, *self)
    }
}
