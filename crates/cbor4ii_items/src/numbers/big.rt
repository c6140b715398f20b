//! Integers of sixteen bytes: those that are no argument of a head are bignums.
ghost use Rattle.std.specs.Prelude.{◌≡◌, ◌+◌, ◌<◌, ◌≤◌, ◌^◌, OnOk, IfOk, true, false, pos, negsuc};
ghost use Rattle.std.specs.Prelude.{IfErr};
ghost use Rattle.cbor4ii_items.specs.Reading.{Runs};
ghost use Rattle.cbor4ii_items.specs.InputError.{is_out_of_memory};
ghost use Rattle.cbor4ii_items.specs.ReadNumber.{magnitude_at, small_magnitude_at};
ghost use Rattle.cbor4ii_items.specs.ReadNumber.{unsigned_bignum_at, u128_at, signed_bignum_at};
ghost use Rattle.cbor4ii_items.specs.ReadNumber.{i128_at};
ghost use Rattle.cbor4ii_items.specs.Numbers.{ReadsU128, RejectsU128, ReadsI128, RejectsI128};
ghost use Rattle.cbor4ii_items.specs.Numbers.{unsigned_bytes, signed_bytes, IsWithin};
ghost use Rattle.cbor4ii_items.specs.Writing.{Writes, WritesAtomically};
ghost use Rattle.cbor4ii_items.specs.Laws.Bignums.{u128_one, u128_within, u128_positive};
ghost use Rattle.cbor4ii_items.specs.Laws.Bignums.{u128_alone, i128_one, i128_within};
ghost use Rattle.cbor4ii_items.specs.Laws.Bignums.{i128_positive, i128_alone};
ghost use Rattle.cbor4ii_items.specs.Decoding.{leaf_format};

use crate::bignum::{NEGATIVE_BIGNUM, POSITIVE_BIGNUM};
use crate::decode::{Decodable, Decode};
use crate::encode::Encode;
use crate::head::{head, head_by_bytes, length, number, peek};
use crate::initial::if_major;
use crate::major;
use crate::prefix::take_head;
use crate::push::{push_signed_integer, push_unsigned_integer};
use cbor4ii_rw::error::{DecodeError, EncodeError, Len, StaticStr};
use cbor4ii_rw::read::Source;
use cbor4ii_rw::write::Write;
use std::alloc::Global;

/// A definite-length byte string of at most sixteen bytes, as a number.
fn magnitude<S: Source>(reader: &mut S, name: StaticStr) -> Result<u128, DecodeError<S::Error>>
    ensures runs { Runs (magnitude_at name.now) (S.view reader.old) (S.view reader.new) result }
    ensures memory { IfErr result (λ error. is_out_of_memory error ≡ false) }
{
    match length(reader, name, major::BYTES)? {
        Some(count) => {
            if count > 16 {
                return Err(DecodeError::LengthOverflow {
                    name,
                    found: Len::new(count as usize),
                });
            }
            number(reader, name, count as u8)
        }
        None => Err(DecodeError::RequireLength {
            name,
            found: Len::Indefinite,
        }),
    }
}

fn small_magnitude<S: Source>(
    reader: &mut S,
    name: StaticStr,
) -> Result<u128, DecodeError<S::Error>>
    ensures runs { Runs (small_magnitude_at name.now)
        (S.view reader.old) (S.view reader.new) result }
    ensures memory { IfErr result (λ error. is_out_of_memory error ≡ false) }
    ensures small { IfOk result (λ v. v < 2 ^ 127) }
{
    let number = magnitude(reader, name)?;
    if number > i128::MAX as u128 {
        return Err(DecodeError::CastOverflow { name: "i128" });
    }
    Ok(number)
}

fn unsigned_bignum<S: Source>(reader: &mut S, tag: u8) -> Result<u128, DecodeError<S::Error>>
    ensures runs { Runs (unsigned_bignum_at tag) (S.view reader.old) (S.view reader.new) result }
    ensures memory { IfErr result (λ error. is_out_of_memory error ≡ false) }
{
    if tag != POSITIVE_BIGNUM {
        return Err(DecodeError::Mismatch {
            name: "u128::tag",
            found: tag,
        });
    }
    magnitude(reader, "u128::bytes")
}

#[inline(always)]
fn take_u128<S: Source>(reader: &mut S) -> Result<u128, DecodeError<S::Error>>
    ensures runs { Runs u128_at (S.view reader.old) (S.view reader.new) result }
    ensures memory { IfErr result (λ error. is_out_of_memory error ≡ false) }
    ensures progress { OnOk result ((S.view reader.new).bound + 1 ≤ (S.view reader.old).bound) }
{
    match take_head(reader, major::UNSIGNED, 8) {
        Ok(Some(argument)) => Ok(argument as u128),
        Ok(None) => u128_by_bytes(reader),
        Err(error) => Err(DecodeError::Read(error)),
    }
}

/// Takes the number of `take_u128` where no unsigned integer stands whole in what is shown.
fn u128_by_bytes<S: Source>(reader: &mut S) -> Result<u128, DecodeError<S::Error>>
    ensures runs { Runs u128_at (S.view reader.old) (S.view reader.new) result }
    ensures memory { IfErr result (λ error. is_out_of_memory error ≡ false) }
    ensures progress { OnOk result ((S.view reader.new).bound + 1 ≤ (S.view reader.old).bound) }
{
    if if_major(peek(reader, "u128", 1)?) == major::UNSIGNED {
        let argument = head_by_bytes(reader, "u64", major::UNSIGNED, 8)?;
        return Ok(argument as u128);
    }
    let tag = head(reader, "u128", major::TAG, 1)?;
    unsigned_bignum(reader, tag as u8)
}

fn signed_bignum<S: Source>(reader: &mut S, tag: u8) -> Result<i128, DecodeError<S::Error>>
    ensures runs { Runs (signed_bignum_at tag) (S.view reader.old) (S.view reader.new) result }
    ensures memory { IfErr result (λ error. is_out_of_memory error ≡ false) }
{
    if tag == POSITIVE_BIGNUM {
        let number = small_magnitude(reader, "+i128::bytes")?;
        return Ok(positive(number));
    }
    if tag == NEGATIVE_BIGNUM {
        let number = small_magnitude(reader, "-i128::bytes")?;
        return Ok(negative(number));
    }
    Err(DecodeError::Mismatch {
        name: "i128::tag",
        found: tag,
    })
}

#[inline(always)]
fn take_i128<S: Source>(reader: &mut S) -> Result<i128, DecodeError<S::Error>>
    ensures runs { Runs i128_at (S.view reader.old) (S.view reader.new) result }
    ensures memory { IfErr result (λ error. is_out_of_memory error ≡ false) }
    ensures progress { OnOk result ((S.view reader.new).bound + 1 ≤ (S.view reader.old).bound) }
{
    match take_head(reader, major::UNSIGNED, 8) {
        Ok(Some(argument)) => Ok(positive(argument as u128)),
        Ok(None) => i128_below_zero(reader),
        Err(error) => Err(DecodeError::Read(error)),
    }
}

/// Takes the number of `take_i128` where no unsigned integer stands whole in what is shown.
fn i128_below_zero<S: Source>(reader: &mut S) -> Result<i128, DecodeError<S::Error>>
    ensures runs { Runs i128_at (S.view reader.old) (S.view reader.new) result }
    ensures memory { IfErr result (λ error. is_out_of_memory error ≡ false) }
    ensures progress { OnOk result ((S.view reader.new).bound + 1 ≤ (S.view reader.old).bound) }
{
    match take_head(reader, major::NEGATIVE, 8) {
        Ok(Some(argument)) => Ok(negative(argument as u128)),
        Ok(None) => i128_by_bytes(reader),
        Err(error) => Err(DecodeError::Read(error)),
    }
}

/// Takes the number of `take_i128` where no integer stands whole in what is shown.
fn i128_by_bytes<S: Source>(reader: &mut S) -> Result<i128, DecodeError<S::Error>>
    ensures runs { Runs i128_at (S.view reader.old) (S.view reader.new) result }
    ensures memory { IfErr result (λ error. is_out_of_memory error ≡ false) }
    ensures progress { OnOk result ((S.view reader.new).bound + 1 ≤ (S.view reader.old).bound) }
{
    let major = if_major(peek(reader, "i128", 1)?);
    if major == major::UNSIGNED {
        let argument = head_by_bytes(reader, "u64", major::UNSIGNED, 8)?;
        return Ok(positive(argument as u128));
    }
    if major == major::NEGATIVE {
        let argument = head_by_bytes(reader, "i128", major::NEGATIVE, 8)?;
        return Ok(negative(argument as u128));
    }
    let tag = head(reader, "i128", major::TAG, 1)?;
    signed_bignum(reader, tag as u8)
}

fn positive(number: u128) -> i128
    requires { number < 2 ^ 127 }
    ensures { result ≡ pos number }
{
    number as i128
}

fn negative(n: u128) -> i128
    requires { n < 2 ^ 127 }
    ensures { result ≡ negsuc n }
{
    -1 - n as i128
}

impl Decodable for u128 {
    ghost format = { leaf_format ReadsU128 (λ xs budget. RejectsU128 xs) };

    fn is_never_empty() -> bool {
        true
    }

    ghost lawful = { record {
      one = u128_one;
      within = u128_within;
      positive = λ _. u128_positive;
      alone = λ _. u128_alone;
    } };
}

/// An unsigned integer of any head, or a bignum of tag 2 (RFC 8949 sections 3.1 and 3.4.3). The
/// bignum is a byte string of definite length, of at most 16 bytes, with leading zeros or none.
///
/// # Errors
///
/// `Read` is described at `Decode::decode`. The others:
///
/// - `Eof` by "u128" with 1: no byte is left, or none for the number of a tag that takes a byte.
///   Nothing is left then
/// - `Eof` by "u64" with k: the argument of a head of major type 0 has k bytes and fewer are left.
///   Nothing is left then
/// - `Mismatch` by "u64" with the first byte, which is taken: it is of major type 0, and its
///   additional information says no argument
/// - `Mismatch` by "u128" with the first byte, which is taken: it is not of major type 0. It begins
///   no tag with at most one byte of argument
/// - `Mismatch` by "u128::tag" with the number of the tag: it is not 2. What follows the tag is
///   left
/// - `Eof` by "u128::bytes" with 1: no byte follows the tag
/// - `Eof` by "u128::bytes" with k: the argument of the byte string's head has k bytes and fewer
///   are left. Nothing is left then
/// - `Mismatch` by "u128::bytes" with the byte after the tag, which is taken: it begins no byte
///   string
/// - `RequireLength` by "u128::bytes" with `Indefinite`: the byte string has an indefinite length.
///   What follows its first byte is left
/// - `LengthOverflow` by "u128::bytes" with the length: the byte string has more than 16 bytes.
///   What follows its head is left
/// - `Eof` by "u128::bytes" with the length: fewer bytes follow the head. Nothing is left then
impl<S: Source> Decode<S> for u128 {
    #[inline(always)]
    fn decode(alloc: Global, reader: &mut S) -> Result<u128, DecodeError<S::Error>> {
        take_u128(reader)
    }
}

/// Below 2^64 the shortest head of major type 0 with this argument (RFC 8949 sections 3.1 and 4.1),
/// in one push. From 2^64 on a bignum (section 3.4.3): the head of tag 2, that of a byte string,
/// and the number's bytes without leading zeros, each in a push.
impl Encode for u128 {
    ghost bytes = { unsigned_bytes };

    fn encode<W: Write>(&self, writer: &mut W) -> Result<(), EncodeError<W::Error>>
        ensures writes { Writes W.atomic (unsigned_bytes self.now)
            (W.view writer.old) (W.view writer.new) result }
        ensures whole { self.now < 2 ^ 64 → WritesAtomically W.atomic (unsigned_bytes self.now)
            (W.view writer.old) (W.view writer.new) result }
    {
        push_unsigned_integer(writer, *self)
    }
}

impl Decodable for i128 {
    ghost format = { leaf_format ReadsI128 (λ xs budget. RejectsI128 xs) };

    fn is_never_empty() -> bool {
        true
    }

    ghost lawful = { record {
      one = i128_one;
      within = i128_within;
      positive = λ _. i128_positive;
      alone = λ _. i128_alone;
    } };
}

/// An integer of any head, or a bignum of tag 2, or of tag 3 for a negative one (RFC 8949 sections
/// 3.1 and 3.4.3). The bignum is a byte string of definite length, of at most 16 bytes, whose
/// number is below 2^127.
///
/// # Errors
///
/// `Read` is described at `Decode::decode`. The others:
///
/// - `Eof` by "i128" with 1: no byte is left, or none for the number of a tag that takes a byte.
///   Nothing is left then
/// - those of a `u128` by "u64", which leave the same
/// - `Eof` by "i128" with k: the argument of a head of major type 1 has k bytes and fewer are left.
///   Nothing is left then
/// - `Mismatch` by "i128" with the first byte, which is taken: it is not of major type 0. It begins
///   neither a head of major type 1 nor a tag with at most one byte of argument
/// - `Mismatch` by "i128::tag" with the number of the tag: it is neither 2 nor 3. What follows the
///   tag is left
/// - those of the byte string of a `u128`, by "+i128::bytes" after tag 2 and by "-i128::bytes"
///   after tag 3, which leave the same
/// - `CastOverflow` by "i128": the number of the byte string is 2^127 or greater. The whole item is
///   taken then
impl<S: Source> Decode<S> for i128 {
    #[inline(always)]
    fn decode(alloc: Global, reader: &mut S) -> Result<i128, DecodeError<S::Error>> {
        take_i128(reader)
    }
}

/// From 0 on as a `u128`. Of -1 - n the shortest head of major type 1 with the argument n where n
/// is below 2^64 (RFC 8949 sections 3.1 and 4.1), and else a bignum of tag 3 and n (section 3.4.3),
/// in as many pushes as of a `u128`.
impl Encode for i128 {
    ghost bytes = { signed_bytes };

    fn encode<W: Write>(&self, writer: &mut W) -> Result<(), EncodeError<W::Error>>
        ensures writes { Writes W.atomic (signed_bytes self.now)
            (W.view writer.old) (W.view writer.new) result }
        ensures whole { IsWithin (2 ^ 64) self.now → WritesAtomically W.atomic
            (signed_bytes self.now) (W.view writer.old) (W.view writer.new) result }
    {
        push_signed_integer(writer, *self)
    }
}
