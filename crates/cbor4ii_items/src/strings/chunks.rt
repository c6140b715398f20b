//! Strings of indefinite length: chunks up to a break (RFC 8949 section 3.2.3).
ghost use Rattle.std.specs.Prelude.{◌+◌, ◌≤◌, ◌<◌, OnOk, []};
ghost use Rattle.cbor4ii_items.specs.Contents.{items_answer, filled_answer};
ghost use Rattle.cbor4ii_items.specs.Reading.{Runs};
ghost use Rattle.cbor4ii_items.specs.ReadStrings.{chunk_inside_at, chunk_at, chunks_at};

use crate::head::length;
use crate::indefinite::take_break;
use crate::strings::definite::take_content;
use cbor4ii_rw::error::{DecodeError, Len, StaticStr};
use cbor4ii_rw::read::Source;
use std::alloc::Global;

/// The contents of the chunks up to a break, joined.
pub(crate) fn take_chunks<S: Source>(
    alloc: Global,
    reader: &mut S,
    name: StaticStr,
    major: u8,
) -> Result<Vec<u8>, DecodeError<S::Error>>
    requires { major < 8 }
    ensures { Runs (chunks_at name.now major (S.view reader.old).budget [])
        (S.view reader.old) (S.view reader.new) (items_answer result) }
{
    let mut content = Vec::new(alloc);
    while !take_break(reader)? {
        take_chunk(reader, name, major, &mut content)?;
    }
    Ok(content)
}

/// A chunk is taken under one step.
fn take_chunk<S: Source>(
    reader: &mut S,
    name: StaticStr,
    major: u8,
    content: &mut Vec<u8>,
) -> Result<(), DecodeError<S::Error>>
    requires { major < 8 }
    ensures runs { Runs (chunk_at name.now major (S.view reader.old).budget content.old.items)
        (S.view reader.old) (S.view reader.new) (filled_answer content.new.items result) }
    ensures progress { OnOk result ((S.view reader.new).bound + 1 ≤ (S.view reader.old).bound) }
{
    if !reader.step_in() {
        return Err(DecodeError::DepthOverflow { name });
    }
    let outcome = take_chunk_inside(reader, name, major, content);
    reader.step_out();
    outcome
}

fn take_chunk_inside<S: Source>(
    reader: &mut S,
    name: StaticStr,
    major: u8,
    content: &mut Vec<u8>,
) -> Result<(), DecodeError<S::Error>>
    requires { major < 8 }
    ensures runs { Runs (chunk_inside_at name.now major content.old.items)
        (S.view reader.old) (S.view reader.new) (filled_answer content.new.items result) }
    ensures progress { OnOk result ((S.view reader.new).bound + 1 ≤ (S.view reader.old).bound) }
{
    match length(reader, name, major)? {
        Some(count) => take_content(reader, name, count, content),
        None => Err(DecodeError::RequireLength {
            name,
            found: Len::Indefinite,
        }),
    }
}
