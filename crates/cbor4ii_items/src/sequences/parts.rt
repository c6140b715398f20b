//! What arrays and maps share: a head that counts elements, or elements up to a break (RFC 8949
//! sections 3.1 and 3.2.2). An element of an array is an item, and one of a map a key and its
//! value.
ghost use Rattle.std.specs.Prelude.{◌≡◌, ◌<◌};
ghost use Rattle.cbor4ii_items.specs.Decoding.{Format, IsLawful, Decodes};
ghost use Rattle.cbor4ii_items.specs.Sequences.{count_format, indefinite_format, inside_format};
ghost use Rattle.cbor4ii_items.specs.Sequences.{sequence_format};

use crate::head::length;
use crate::indefinite::take_break;
use crate::reserve::items_ahead;
use cbor4ii_rw::error::{DecodeError, Len, StaticStr};
use cbor4ii_rw::read::Source;
use std::alloc::Global;

/// A type of arrays or of maps, by its elements.
pub(crate) trait Sequence<S: Source>: Sized {
    /// An item, or a key and its value.
    type Part: Drop;

    // How an element is encoded.
    ghost part: { Format Self.Part };

    fn is_part_never_empty() -> bool
        ensures { result ≡ part.never_empty };

    fn take_part(alloc: Global, reader: &mut S) -> Result<Self::Part, DecodeError<S::Error>>
        ensures { Decodes Self.part (S.view reader.old) (S.view reader.new) result };

    ghost lawful: { IsLawful part };
}

pub(crate) fn take_sequence<S: Source, Q: Sequence<S>>(
    alloc: Global,
    reader: &mut S,
    name: StaticStr,
    major: u8,
) -> Result<Vec<Q::Part>, DecodeError<S::Error>>
    requires { major < 8 }
    ensures { Decodes (sequence_format name.now major Q.part)
        (S.view reader.old) (S.view reader.new) result }
{
    if !reader.step_in() {
        return Err(DecodeError::DepthOverflow { name });
    }
    let outcome = take_inside::<S, Q>(alloc, reader, name, major);
    reader.step_out();
    outcome
}

/// Reads a sequence whose step was taken.
fn take_inside<S: Source, Q: Sequence<S>>(
    alloc: Global,
    reader: &mut S,
    name: StaticStr,
    major: u8,
) -> Result<Vec<Q::Part>, DecodeError<S::Error>>
    requires { major < 8 }
    ensures { Decodes (inside_format name.now major Q.part)
        (S.view reader.old) (S.view reader.new) result }
{
    match length(reader, name, major)? {
        Some(count) => take_definite::<S, Q>(alloc, reader, count),
        None => take_indefinite::<S, Q>(alloc, reader, name),
    }
}

/// Reads so many elements. A count alone takes little memory: more is taken as the elements come.
fn take_definite<S: Source, Q: Sequence<S>>(
    alloc: Global,
    reader: &mut S,
    count: u64,
) -> Result<Vec<Q::Part>, DecodeError<S::Error>>
    ensures { Decodes (count_format Q.part count)
        (S.view reader.old) (S.view reader.new) result }
{
    let mut parts = Vec::new(alloc);
    if parts.reserve(items_ahead(count as usize)).is_err() {
        return Err(DecodeError::OutOfMemory);
    }
    for i in 0..count {
        let part = Q::take_part(alloc, reader)?;
        match parts.push(part) {
            Ok(()) => {}
            Err(_) => return Err(DecodeError::OutOfMemory),
        }
    }
    Ok(parts)
}

fn take_indefinite<S: Source, Q: Sequence<S>>(
    alloc: Global,
    reader: &mut S,
    name: StaticStr,
) -> Result<Vec<Q::Part>, DecodeError<S::Error>>
    ensures { Decodes (indefinite_format name.now Q.part)
        (S.view reader.old) (S.view reader.new) result }
{
    let mut parts = Vec::new(alloc);
    while !take_break(reader)? {
        if !Q::is_part_never_empty() {
            return Err(DecodeError::RequireLength {
                name,
                found: Len::Indefinite,
            });
        }
        let part = Q::take_part(alloc, reader)?;
        match parts.push(part) {
            Ok(()) => {}
            Err(_) => return Err(DecodeError::OutOfMemory),
        }
    }
    Ok(parts)
}
