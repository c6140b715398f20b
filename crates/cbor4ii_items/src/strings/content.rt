//! The content of strings of definite or of indefinite length, taken off a reader.
ghost use Rattle.std.specs.Prelude.{◌+◌, ◌≤◌, ◌<◌, OnOk, []};
ghost use Rattle.cbor4ii_items.specs.Contents.{items_answer};
ghost use Rattle.cbor4ii_items.specs.Reading.{Runs};
ghost use Rattle.cbor4ii_items.specs.ReadStrings.{content_on, string_at};
ghost use Rattle.cbor4ii_items.specs.Decoding.{Decodes};
ghost use Rattle.cbor4ii_items.specs.Strings.{string_format, text_format, text_content};

use crate::head::length;
use crate::major;
use crate::strings::chunks::take_chunks;
use crate::strings::definite::take_content;
use cbor4ii_rw::error::{DecodeError, StaticStr};
use cbor4ii_rw::read::Source;
use std::alloc::Global;

/// A text string of definite or of indefinite length, which is to be UTF-8.
#[inline(always)]
pub(crate) fn take_text<S: Source>(
    alloc: Global,
    reader: &mut S,
    name: StaticStr,
) -> Result<String, DecodeError<S::Error>>
    ensures { Decodes (text_format name.now text_content)
        (S.view reader.old) (S.view reader.new) result }
{
    match String::from_utf8(lone_string(alloc, reader, name, major::STRING)?) {
        Ok(text) => Ok(text),
        Err(_) => Err(DecodeError::RequireUtf8 { name }),
    }
}

#[inline(always)]
pub(crate) fn lone_string<S: Source>(
    alloc: Global,
    reader: &mut S,
    name: StaticStr,
    major: u8,
) -> Result<Vec<u8>, DecodeError<S::Error>>
    requires { major < 8 }
    ensures { Decodes (string_format name.now major)
        (S.view reader.old) (S.view reader.new) (items_answer result) }
{
    take_string(alloc, reader, name, major)
}

#[inline(always)]
fn take_string<S: Source>(
    alloc: Global,
    reader: &mut S,
    name: StaticStr,
    major: u8,
) -> Result<Vec<u8>, DecodeError<S::Error>>
    requires { major < 8 }
    ensures runs { Runs (string_at name.now major (S.view reader.old).budget)
        (S.view reader.old) (S.view reader.new) (items_answer result) }
    ensures progress { OnOk result ((S.view reader.new).bound + 1 ≤ (S.view reader.old).bound) }
{
    match length(reader, name, major)? {
        Some(count) => take_known(alloc, reader, name, count),
        None => take_chunks(alloc, reader, name, major),
    }
}

#[inline(always)]
pub(crate) fn take_known<S: Source>(
    alloc: Global,
    reader: &mut S,
    name: StaticStr,
    count: u64,
) -> Result<Vec<u8>, DecodeError<S::Error>>
    ensures { Runs (content_on name.now count [])
        (S.view reader.old) (S.view reader.new) (items_answer result) }
{
    let mut content = Vec::new(alloc);
    take_content(reader, name, count, &mut content)?;
    Ok(content)
}
