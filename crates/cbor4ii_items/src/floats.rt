//! Floats, as their bits (RFC 8949 section 3.3).
ghost use Rattle.std.specs.Prelude.{◌≡◌, ◌+◌, ◌≤◌, ◌<◌, ◌^◌, length, true, false, codes, OnOk};
ghost use Rattle.std.specs.Prelude.{IfOk, IfErr, IfSome};
ghost use Rattle.cbor4ii_items.specs.Head.{IsBytes};
ghost use Rattle.cbor4ii_items.specs.Magnitude.{number_of};
ghost use Rattle.cbor4ii_items.specs.Decoding.{Decodes, format_by};
ghost use Rattle.cbor4ii_items.specs.Reading.{Runs};
ghost use Rattle.cbor4ii_items.specs.InputError.{is_out_of_memory};
ghost use Rattle.cbor4ii_items.specs.Floats.{float_bytes, ReadsFloat, SeesFloat, float_at};
ghost use Rattle.cbor4ii_items.specs.Floats.{float_format};
ghost use Rattle.cbor4ii_items.specs.ShownLeaf.{IsShownLeaf};
ghost use Rattle.cbor4ii_items.specs.Prefix.{TakesSeen};
ghost use Rattle.cbor4ii_items.specs.Floats.{float_lawful};
ghost use Rattle.cbor4ii_items.specs.Laws.Formats.{lawful_by};
ghost use Rattle.cbor4ii_items.specs.Writing.{WritesAtomically};

use crate::decode::{Decodable, Decode};
use crate::encode::Encode;
use crate::head::{marked, number};
use crate::leaf::DecodeLeaf;
use crate::marker;
use crate::prefix::Shown;
use crate::push::push_bytes;
use crate::types::{F16, F32, F64};
use cbor4ii_rw::ask::{at_most, look};
use cbor4ii_rw::error::{DecodeError, EncodeError, StaticStr};
use cbor4ii_rw::read::Source;
use cbor4ii_rw::write::Write;
use std::alloc::Global;

/// The bits of a float: its first byte, and so many bytes after it.
#[inline(always)]
fn lone_float<S: Source>(
    reader: &mut S,
    name: StaticStr,
    marker: u8,
    bytes: u8,
) -> Result<u64, DecodeError<S::Error>>
    requires { bytes ≤ 8 }
    ensures fits { IfOk result (λ v. v < 256 ^ bytes) }
    ensures decodes { Decodes (float_format name.now marker bytes)
        (S.view reader.old) (S.view reader.new) result }
{
    take_float(reader, name, marker, bytes)
}

/// A float that stands whole in what the reader shows, with one advance.
#[inline(always)]
fn take_float<S: Source>(
    reader: &mut S,
    name: StaticStr,
    marker: u8,
    bytes: u8,
) -> Result<u64, DecodeError<S::Error>>
    requires { bytes ≤ 8 }
    ensures runs { Runs (float_at name.now marker bytes)
        (S.view reader.old) (S.view reader.new) result }
    ensures memory { IfErr result (λ error. is_out_of_memory error ≡ false) }
    ensures fits { IfOk result (λ v. v < 256 ^ bytes) }
    ensures progress { OnOk result ((S.view reader.new).bound + 1 ≤ (S.view reader.old).bound) }
{
    let want = at_most(reader, 1 + bytes as usize);
    match take_shown_float(reader, marker, bytes, want) {
        Ok(Shown::Whole(value, _)) => Ok(value),
        Ok(Shown::Cut(size)) if want < size => { take_longer_float(reader, name, marker, bytes) }
        Ok(Shown::Cut(_)) => float_by_bytes(reader, name, marker, bytes),
        Ok(Shown::Other) => float_by_bytes(reader, name, marker, bytes),
        Err(error) => Err(DecodeError::Read(error)),
    }
}

/// Takes a float whose first byte was seen: it is looked at whole.
#[cold]
#[inline(never)]
fn take_longer_float<S: Source>(
    reader: &mut S,
    name: StaticStr,
    marker: u8,
    bytes: u8,
) -> Result<u64, DecodeError<S::Error>>
    requires { bytes ≤ 8 }
    ensures runs { Runs (float_at name.now marker bytes)
        (S.view reader.old) (S.view reader.new) result }
    ensures memory { IfErr result (λ error. is_out_of_memory error ≡ false) }
    ensures fits { IfOk result (λ v. v < 256 ^ bytes) }
    ensures progress { OnOk result ((S.view reader.new).bound + 1 ≤ (S.view reader.old).bound) }
{
    match take_shown_float(reader, marker, bytes, 1 + bytes as usize) {
        Ok(Shown::Whole(value, _)) => Ok(value),
        Ok(Shown::Cut(_)) => float_by_bytes(reader, name, marker, bytes),
        Ok(Shown::Other) => float_by_bytes(reader, name, marker, bytes),
        Err(error) => Err(DecodeError::Read(error)),
    }
}

/// Looks at `want` bytes, and takes a float that stands whole in what is shown.
#[inline(always)]
fn take_shown_float<S: Source>(
    reader: &mut S,
    marker: u8,
    bytes: u8,
    want: usize,
) -> Result<Shown, S::Error>
    requires { bytes ≤ 8 }
    ensures { TakesSeen (λ name. float_at name marker bytes) (λ v. v < 256 ^ bytes)
        (S.view reader.old) (S.view reader.new) result }
{
    let mut failure = None;
    let float = match look(reader, want, &mut failure) {
        Some(shown) => float_in(shown, marker, bytes),
        None => return Err(failure.unwrap()),
    };
    match float {
        Shown::Whole(value, size) => {
            reader.advance(size);
            Ok(Shown::Whole(value, size))
        }
        Shown::Cut(size) => Ok(Shown::Cut(size)),
        Shown::Other => Ok(Shown::Other),
    }
}

#[inline(always)]
fn float_in(prefix: &[u8], marker: u8, bytes: u8) -> Shown
    requires { bytes ≤ 8 }
    ensures { SeesFloat marker bytes prefix.now result }
{
    if prefix.len() == 0 || prefix[0] != marker {
        return Shown::Other;
    }
    let size = 1 + bytes as usize;
    if prefix.len() < size {
        return Shown::Cut(size);
    }
    Shown::Whole(bits_of(&prefix[1..size]), size)
}

/// The bits of a float that stands whole in `shown`, and how many bytes it has.
#[inline(always)]
fn seen_float(shown: &[u8], marker: u8, bytes: u8) -> Option<(u64, usize)>
    requires { bytes ≤ 8 }
    ensures stands { IfSome result (IsShownLeaf (ReadsFloat marker bytes) shown.now 0) }
    ensures fits { IfSome result (λ found. found.0 < 256 ^ bytes) }
{
    match float_in(shown, marker, bytes) {
        Shown::Whole(bits, size) => Some((bits, size)),
        Shown::Cut(_) => None,
        Shown::Other => None,
    }
}

/// The number that the bytes are, most significant first. Those of a float are read at once.
#[inline(always)]
fn bits_of(bytes: &[u8]) -> u64
    requires { length bytes.now ≤ 8 }
    ensures value { result ≡ number_of bytes.now }
    ensures bytes { IsBytes bytes.now }
{
    match bytes {
        [a, b] => u16::from_be_bytes([*a, *b]) as u64,
        [a, b, c, d] => u32::from_be_bytes([*a, *b, *c, *d]) as u64,
        [a, b, c, d, e, f, g, h] => u64::from_be_bytes([*a, *b, *c, *d, *e, *f, *g, *h]),
        _ => number_of(bytes),
    }
}

#[inline(always)]
fn number_of(bytes: &[u8]) -> u64
    requires { length bytes.now ≤ 8 }
    ensures value { result ≡ number_of bytes.now }
    ensures bytes { IsBytes bytes.now }
{
    let mut number = 0;
    for &byte in bytes {
        number = number * 256 + byte as u64;
    }
    number
}

#[cold]
#[inline(never)]
fn float_by_bytes<S: Source>(
    reader: &mut S,
    name: StaticStr,
    marker: u8,
    bytes: u8,
) -> Result<u64, DecodeError<S::Error>>
    requires { bytes ≤ 8 }
    ensures runs { Runs (float_at name.now marker bytes)
        (S.view reader.old) (S.view reader.new) result }
    ensures memory { IfErr result (λ error. is_out_of_memory error ≡ false) }
    ensures fits { IfOk result (λ v. v < 256 ^ bytes) }
    ensures progress { OnOk result ((S.view reader.new).bound + 1 ≤ (S.view reader.old).bound) }
{
    marked(reader, name, marker, marker)?;
    Ok(number(reader, name, bytes)? as u64)
}

impl Decodable for F16 {
    ghost format = { format_by (λ v. v.0) (float_format (codes "f16") 0xf9 2) };

    fn is_never_empty() -> bool {
        true
    }

    ghost lawful = { lawful_by (λ v. v.0) (float_format (codes "f16") 0xf9 2)
        (float_lawful (codes "f16") 0xf9 2) };
}

impl DecodeLeaf for F16 {
    #[inline(always)]
    fn shown_leaf(shown: &[u8], steps: u8) -> Option<(F16, usize)> {
        let (bits, size) = seen_float(shown, marker::F16, 2)?;
        Some((F16(bits as u16), size))
    }
}

/// A float of two bytes, as its bits (RFC 8949 section 3.3).
///
/// # Errors
///
/// `Read` is described at `Decode::decode`. The others have the name "f16":
///
/// - `Eof` with 1: no byte is left
/// - `Mismatch` with the next byte, which stays: it begins no float of two bytes
/// - `Eof` with 2: fewer than two bytes follow it. Nothing is left then
impl<S: Source> Decode<S> for F16 {
    #[inline(always)]
    fn decode(alloc: Global, reader: &mut S) -> Result<F16, DecodeError<S::Error>> {
        Ok(F16(lone_float(reader, "f16", marker::F16, 2)? as u16))
    }
}

/// `f9`, and the bits in two bytes, most significant first (RFC 8949 section 3.3), in one push.
impl Encode for F16 {
    ghost bytes = { λ v. float_bytes 0xf9 2 v.0 };

    #[inline(always)]
    fn encode<W: Write>(&self, writer: &mut W) -> Result<(), EncodeError<W::Error>>
        ensures { WritesAtomically W.atomic (float_bytes 0xf9 2 self.now.0)
            (W.view writer.old) (W.view writer.new) result }
    {
        let [a, b] = self.0.to_be_bytes();
        push_bytes(writer, &[marker::F16, a, b])
    }
}

impl Decodable for F32 {
    ghost format = { format_by (λ v. v.0) (float_format (codes "f32") 0xfa 4) };

    fn is_never_empty() -> bool {
        true
    }

    ghost lawful = { lawful_by (λ v. v.0) (float_format (codes "f32") 0xfa 4)
        (float_lawful (codes "f32") 0xfa 4) };
}

impl DecodeLeaf for F32 {
    #[inline(always)]
    fn shown_leaf(shown: &[u8], steps: u8) -> Option<(F32, usize)> {
        let (bits, size) = seen_float(shown, marker::F32, 4)?;
        Some((F32(bits as u32), size))
    }
}

/// A float of four bytes, as its bits (RFC 8949 section 3.3).
///
/// # Errors
///
/// Those of an `F16`, by "f32", with four bytes in the place of two.
impl<S: Source> Decode<S> for F32 {
    #[inline(always)]
    fn decode(alloc: Global, reader: &mut S) -> Result<F32, DecodeError<S::Error>> {
        Ok(F32(lone_float(reader, "f32", marker::F32, 4)? as u32))
    }
}

/// `fa`, and the bits in four bytes, most significant first (RFC 8949 section 3.3), in one push.
impl Encode for F32 {
    ghost bytes = { λ v. float_bytes 0xfa 4 v.0 };

    #[inline(always)]
    fn encode<W: Write>(&self, writer: &mut W) -> Result<(), EncodeError<W::Error>>
        ensures { WritesAtomically W.atomic (float_bytes 0xfa 4 self.now.0)
            (W.view writer.old) (W.view writer.new) result }
    {
        let mut bytes = [marker::F32, 0, 0, 0, 0];
        bytes[1..].copy_from_slice(&self.0.to_be_bytes());
        push_bytes(writer, &bytes)
    }
}

impl Decodable for F64 {
    ghost format = { format_by (λ v. v.0) (float_format (codes "f64") 0xfb 8) };

    fn is_never_empty() -> bool {
        true
    }

    ghost lawful = { lawful_by (λ v. v.0) (float_format (codes "f64") 0xfb 8)
        (float_lawful (codes "f64") 0xfb 8) };
}

impl DecodeLeaf for F64 {
    #[inline(always)]
    fn shown_leaf(shown: &[u8], steps: u8) -> Option<(F64, usize)> {
        let (bits, size) = seen_float(shown, marker::F64, 8)?;
        Some((F64(bits), size))
    }
}

/// A float of eight bytes, as its bits (RFC 8949 section 3.3).
///
/// # Errors
///
/// Those of an `F16`, by "f64", with eight bytes in the place of two.
impl<S: Source> Decode<S> for F64 {
    #[inline(always)]
    fn decode(alloc: Global, reader: &mut S) -> Result<F64, DecodeError<S::Error>> {
        Ok(F64(lone_float(reader, "f64", marker::F64, 8)?))
    }
}

/// `fb`, and the bits in eight bytes, most significant first (RFC 8949 section 3.3), in one push.
impl Encode for F64 {
    ghost bytes = { λ v. float_bytes 0xfb 8 v.0 };

    #[inline(always)]
    fn encode<W: Write>(&self, writer: &mut W) -> Result<(), EncodeError<W::Error>>
        ensures { WritesAtomically W.atomic (float_bytes 0xfb 8 self.now.0)
            (W.view writer.old) (W.view writer.new) result }
    {
        let mut bytes = [marker::F64, 0, 0, 0, 0, 0, 0, 0, 0];
        bytes[1..].copy_from_slice(&self.0.to_be_bytes());
        push_bytes(writer, &bytes)
    }
}
