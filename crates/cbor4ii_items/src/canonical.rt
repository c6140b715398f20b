//! Heads and strings that are encoded in one way: by the shortest head (RFC 8949 section 4.1).
ghost use Rattle.std.specs.Prelude.{◌≡◌, ◌+◌, ◌≤◌, ◌<◌, OnOk, IfErr, false};
ghost use Rattle.cbor4ii_items.specs.Contents.{items_answer};
ghost use Rattle.cbor4ii_items.specs.Head.{additional, shortest_width};
ghost use Rattle.cbor4ii_items.specs.ReadShortest.{is_indefinite_head, shortest_at};
ghost use Rattle.cbor4ii_items.specs.ReadShortest.{shortest_string_at};
ghost use Rattle.cbor4ii_items.specs.Reading.{Runs};
ghost use Rattle.cbor4ii_items.specs.InputError.{is_out_of_memory};
ghost use Rattle.cbor4ii_items.specs.Decoding.{Decodes};
ghost use Rattle.cbor4ii_items.specs.Shortest.{shortest_format, shortest_string_format};

use crate::head::{head, peek};
use crate::strings::content::take_known;
use crate::{major, marker};
use cbor4ii_rw::error::{DecodeError, StaticStr};
use cbor4ii_rw::read::Source;
use std::alloc::Global;

/// Takes a head of the major type `major` whose argument stands in the fewest bytes (RFC 8949
/// section 4.1), and answers the argument. The budget stays.
///
/// Of major type 7 the head alone is judged, as of the others: its argument is a simple value, or
/// the bits of a float, which section 3.3 binds to a width of their own. A `major` of 8 and more is
/// no major type, and no byte begins a head of it.
///
/// # Errors
///
/// - `Read`: the reader failed. A part of the head may be taken then
/// - `Eof` by `name` with 1: no byte is left
/// - `Eof` by `name` with k: the argument has k bytes and fewer are left. Nothing is left then
/// - `Mismatch` by `name` with the first byte, which is taken: it begins no head of this major type
/// - `NotCanonical` by "canonical": a whole head is longer than needed, and is taken; or the first
///   byte, which is taken, says an indefinite length (major types 2 to 5, section 3.2)
pub fn canonical_head<S: Source>(
    name: StaticStr,
    major: u8,
    reader: &mut S,
) -> Result<u64, DecodeError<S::Error>>
    ensures { Decodes (shortest_format name.now major)
        (S.view reader.old) (S.view reader.new) result }
{
    take_shortest(reader, name, major)
}

/// Takes a string of the major type `major`, its length in a head as `canonical_head` takes it, and
/// answers its content. Of 2 and 3 it is a string of RFC 8949 section 3.1; of another major type it
/// is the head, and as many bytes after it as its argument says. At most 16384 bytes are reserved
/// before any came. The budget stays.
///
/// # Errors
///
/// - those of `canonical_head`, which leave the same
/// - `Read`: the reader failed. A part of the string may be taken then
/// - `Eof` by `name` with the number of bytes that are missing: fewer are left than the head says.
///   Nothing is left then
/// - `OutOfMemory`: a growth was refused. A part of the string may be taken then
pub fn canonical_buf<S: Source>(
    alloc: Global,
    name: StaticStr,
    major: u8,
    reader: &mut S,
) -> Result<Vec<u8>, DecodeError<S::Error>>
    ensures { Decodes (shortest_string_format name.now major)
        (S.view reader.old) (S.view reader.new) (items_answer result) }
{
    take_shortest_string(alloc, reader, name, major)
}

fn take_shortest_string<S: Source>(
    alloc: Global,
    reader: &mut S,
    name: StaticStr,
    major: u8,
) -> Result<Vec<u8>, DecodeError<S::Error>>
    ensures runs { Runs (shortest_string_at name.now major)
        (S.view reader.old) (S.view reader.new) (items_answer result) }
    ensures progress { OnOk result ((S.view reader.new).bound + 1 ≤ (S.view reader.old).bound) }
{
    let count = take_shortest(reader, name, major)?;
    take_known(alloc, reader, name, count)
}

#[inline(always)]
fn take_shortest<S: Source>(
    reader: &mut S,
    name: StaticStr,
    major: u8,
) -> Result<u64, DecodeError<S::Error>>
    ensures runs { Runs (shortest_at name.now major)
        (S.view reader.old) (S.view reader.new) result }
    ensures memory { IfErr result (λ error. is_out_of_memory error ≡ false) }
    ensures progress { OnOk result ((S.view reader.new).bound + 1 ≤ (S.view reader.old).bound) }
{
    let first = peek(reader, name, 1)?;
    if is_indefinite(major, first) {
        reader.advance(1);
        return Err(DecodeError::NotCanonical { name: "canonical" });
    }
    let argument = head(reader, name, major, 8)?;
    if first % 32 != shortest_info(argument) {
        return Err(DecodeError::NotCanonical { name: "canonical" });
    }
    Ok(argument)
}

fn is_indefinite(major: u8, first: u8) -> bool
    ensures { result ≡ is_indefinite_head major first }
{
    major::BYTES <= major && major <= major::MAP && first == 32 * major + marker::START
}

fn shortest_info(argument: u64) -> u8
    ensures { result ≡ additional (shortest_width argument) argument }
{
    if argument < 24 {
        argument as u8
    } else if argument < 0x100 {
        24
    } else if argument < 0x1_0000 {
        25
    } else if argument < 0x1_0000_0000 {
        26
    } else {
        27
    }
}
