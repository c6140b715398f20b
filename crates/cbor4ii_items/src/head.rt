//! Heads, read.
ghost use Rattle.std.specs.Prelude.{◌≡◌, ◌+◌, ◌≤◌, ◌<◌, ◌^◌, OnOk, IfOk, IfErr, false};
ghost use Rattle.cbor4ii_rw.specs.Reader.{ReaderFails};
ghost use Rattle.cbor4ii_items.specs.Decoding.{Decodes};
ghost use Rattle.cbor4ii_items.specs.Lengths.{length_format};
ghost use Rattle.cbor4ii_items.specs.Moves.{OnRead};
ghost use Rattle.cbor4ii_items.specs.Numbers.{argument_format};
ghost use Rattle.cbor4ii_items.specs.Reading.{Runs, peek_at, byte_at};
ghost use Rattle.cbor4ii_items.specs.InputError.{is_out_of_memory};
ghost use Rattle.cbor4ii_items.specs.Marked.{marked_at};
ghost use Rattle.cbor4ii_items.specs.ReadHead.{number_on, argument_at, head_at, length_at};

use crate::additional::{allowed, following};
use crate::prefix::take_head;
use cbor4ii_rw::ask::look;
use cbor4ii_rw::error::{DecodeError, Len, StaticStr};
use cbor4ii_rw::read::Source;

/// The next byte, which stays. At the end of the input the error has `expect`.
#[inline(always)]
pub(crate) fn peek<S: Source>(
    reader: &mut S,
    name: StaticStr,
    expect: u16,
) -> Result<u8, DecodeError<S::Error>>
    ensures runs { Runs (peek_at name.now expect) (S.view reader.old) (S.view reader.new) result }
    ensures memory { IfErr result (λ error. is_out_of_memory error ≡ false) }
    ensures byte { IfOk result (λ b. b < 256) }
    ensures can { OnOk result (1 ≤ (S.view reader.new).advanceable) }
    ensures failed { OnRead result (ReaderFails (S.view reader.old) (S.view reader.new)) }
{
    let mut failure = None;
    match look(reader, 1, &mut failure) {
        Some(shown) => {
            if shown.len() == 0 {
                return Err(DecodeError::Eof {
                    name,
                    expect: Len::Small(expect),
                });
            }
            Ok(shown[0])
        }
        None => Err(DecodeError::Read(failure.unwrap())),
    }
}

/// The next byte, taken. At the end of the input the error has `expect`.
#[inline(always)]
pub(crate) fn take_byte<S: Source>(
    reader: &mut S,
    name: StaticStr,
    expect: u16,
) -> Result<u8, DecodeError<S::Error>>
    ensures runs { Runs (byte_at name.now expect) (S.view reader.old) (S.view reader.new) result }
    ensures memory { IfErr result (λ error. is_out_of_memory error ≡ false) }
    ensures byte { IfOk result (λ b. b < 256) }
    ensures progress { OnOk result ((S.view reader.new).bound + 1 ≤ (S.view reader.old).bound) }
{
    let byte = peek(reader, name, expect)?;
    reader.advance(1);
    Ok(byte)
}

/// The next byte, taken where it is one from `least` to `greatest`. Another byte stays.
pub(crate) fn marked<S: Source>(
    reader: &mut S,
    name: StaticStr,
    least: u8,
    greatest: u8,
) -> Result<u8, DecodeError<S::Error>>
    ensures runs { Runs (marked_at name.now least greatest)
        (S.view reader.old) (S.view reader.new) result }
    ensures memory { IfErr result (λ error. is_out_of_memory error ≡ false) }
    ensures progress { OnOk result ((S.view reader.new).bound + 1 ≤ (S.view reader.old).bound) }
{
    let byte = peek(reader, name, 1)?;
    if byte < least || greatest < byte {
        return Err(DecodeError::Mismatch { name, found: byte });
    }
    reader.advance(1);
    Ok(byte)
}

/// So many bytes, most significant first.
pub(crate) fn number<S: Source>(
    reader: &mut S,
    name: StaticStr,
    bytes: u8,
) -> Result<u128, DecodeError<S::Error>>
    requires { bytes ≤ 16 }
    ensures runs { Runs (number_on name.now bytes bytes 0)
        (S.view reader.old) (S.view reader.new) result }
    ensures memory { IfErr result (λ error. is_out_of_memory error ≡ false) }
    ensures fits { IfOk result (λ v. v < 256 ^ bytes) }
{
    let mut value = 0;
    for i in 0..bytes {
        let byte = take_byte(reader, name, bytes as u16)?;
        value = value * 256 + byte as u128;
    }
    Ok(value)
}

#[cold]
#[inline(never)]
fn argument<S: Source>(
    reader: &mut S,
    name: StaticStr,
    width: u8,
    first: u8,
) -> Result<u64, DecodeError<S::Error>>
    ensures runs { Runs (argument_at name.now width first)
        (S.view reader.old) (S.view reader.new) result }
    ensures memory { IfErr result (λ error. is_out_of_memory error ≡ false) }
    ensures fits { 1 ≤ width → IfOk result (λ v. v < 256 ^ width) }
{
    let info = first % 32;
    if info < 24 {
        return Ok(info as u64);
    }
    if !allowed(width, info) {
        return Err(DecodeError::Mismatch { name, found: first });
    }
    Ok(number(reader, name, following(info))? as u64)
}

/// A head of this major type, with an argument of at most so many bytes.
#[inline(always)]
pub(crate) fn head<S: Source>(
    reader: &mut S,
    name: StaticStr,
    major: u8,
    width: u8,
) -> Result<u64, DecodeError<S::Error>>
    ensures runs { Runs (head_at name.now major width)
        (S.view reader.old) (S.view reader.new) result }
    ensures memory { IfErr result (λ error. is_out_of_memory error ≡ false) }
    ensures fits { 1 ≤ width → IfOk result (λ v. v < 256 ^ width) }
    ensures progress { OnOk result ((S.view reader.new).bound + 1 ≤ (S.view reader.old).bound) }
{
    match take_head(reader, major, width) {
        Ok(Some(argument)) => Ok(argument),
        Ok(None) => head_by_bytes(reader, name, major, width),
        Err(error) => Err(DecodeError::Read(error)),
    }
}

/// Takes one byte at a time a head that does not stand whole in what is shown, or is rejected.
#[cold]
#[inline(never)]
pub(crate) fn head_by_bytes<S: Source>(
    reader: &mut S,
    name: StaticStr,
    major: u8,
    width: u8,
) -> Result<u64, DecodeError<S::Error>>
    ensures runs { Runs (head_at name.now major width)
        (S.view reader.old) (S.view reader.new) result }
    ensures memory { IfErr result (λ error. is_out_of_memory error ≡ false) }
    ensures fits { 1 ≤ width → IfOk result (λ v. v < 256 ^ width) }
    ensures progress { OnOk result ((S.view reader.new).bound + 1 ≤ (S.view reader.old).bound) }
{
    let first = take_byte(reader, name, 1)?;
    if first / 32 != major {
        return Err(DecodeError::Mismatch { name, found: first });
    }
    argument(reader, name, width, first)
}

/// A head that is a whole item: what is read, and how it is rejected.
#[inline(always)]
pub(crate) fn lone_head<S: Source>(
    reader: &mut S,
    name: StaticStr,
    major: u8,
    width: u8,
) -> Result<u64, DecodeError<S::Error>>
    requires { major < 8 }
    ensures fits { 1 ≤ width → IfOk result (λ v. v < 256 ^ width) }
    ensures decodes { Decodes (argument_format name.now major width)
        (S.view reader.old) (S.view reader.new) result }
{
    head(reader, name, major, width)
}

/// The length that a head of this major type has: none where it is indefinite.
#[inline(always)]
pub(crate) fn length<S: Source>(
    reader: &mut S,
    name: StaticStr,
    major: u8,
) -> Result<Option<u64>, DecodeError<S::Error>>
    requires { major < 8 }
    ensures runs { Runs (length_at name.now major) (S.view reader.old) (S.view reader.new) result }
    ensures memory { IfErr result (λ error. is_out_of_memory error ≡ false) }
    ensures progress { OnOk result ((S.view reader.new).bound + 1 ≤ (S.view reader.old).bound) }
{
    match take_head(reader, major, 8) {
        Ok(Some(count)) => Ok(Some(count)),
        Ok(None) => length_by_bytes(reader, name, major),
        Err(error) => Err(DecodeError::Read(error)),
    }
}

#[cold]
#[inline(never)]
fn length_by_bytes<S: Source>(
    reader: &mut S,
    name: StaticStr,
    major: u8,
) -> Result<Option<u64>, DecodeError<S::Error>>
    requires { major < 8 }
    ensures runs { Runs (length_at name.now major) (S.view reader.old) (S.view reader.new) result }
    ensures memory { IfErr result (λ error. is_out_of_memory error ≡ false) }
    ensures progress { OnOk result ((S.view reader.new).bound + 1 ≤ (S.view reader.old).bound) }
{
    let first = take_byte(reader, name, 1)?;
    if first == 32 * major + 31 {
        return Ok(None);
    }
    if first / 32 != major {
        return Err(DecodeError::Mismatch { name, found: first });
    }
    Ok(Some(argument(reader, name, 8, first)?))
}

/// The length that an array or a map begins with, none where it is indefinite: what is read, and
/// how it is rejected.
#[inline(always)]
pub(crate) fn lone_length<S: Source>(
    reader: &mut S,
    name: StaticStr,
    major: u8,
) -> Result<Option<usize>, DecodeError<S::Error>>
    requires { major < 8 }
    ensures { Decodes (length_format name.now major)
        (S.view reader.old) (S.view reader.new) result }
{
    usize_length(length(reader, name, major))
}

#[inline(always)]
fn usize_length<E>(length: Result<Option<u64>, E>) -> Result<Option<usize>, E>
    ensures { result ≡ length }
{
    match length {
        Ok(Some(count)) => Ok(Some(count as usize)),
        Ok(None) => Ok(None),
        Err(error) => Err(error),
    }
}
