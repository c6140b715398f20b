//! Names of fields, read and found among some names. No memory is taken for one of at most 255
//! bytes that stands whole in what the reader shows, after a head of one or two bytes.
ghost use Rattle.std.specs.Prelude.{◌≡◌, ◌≢◌, ◌≤◌, ◌<◌, length, true, false, IsUtf8};
ghost use Rattle.cbor4ii.specs.Answered.{typed_value_or_error};
ghost use Rattle.cbor4ii.specs.FieldKey.{text_key};
ghost use Rattle.cbor4ii.specs.Names.{StandsAt, IfWhole, IfWholeAfter, TakesKey, TakesShown};
ghost use Rattle.cbor4ii.specs.Typed.{input, answer_of};

use crate::serde::de::deserialize::Deserialize;
use crate::serde::de::deserializer::Deserializer;
use crate::serde::de::error::DecodeError;
use crate::serde::de::slot::leave;
use cbor4ii_items::major;
use cbor4ii_rw::ask::look;
use cbor4ii_rw::error::StaticStr;
use cbor4ii_rw::read::Source;
use std::alloc::Global;
use std::str;

/// How many bytes a look asks for: a name of up to 255 bytes with its head.
const LOOK: usize = 257;

/// How many bytes a look asks for at most where it may ask for fewer than `LOOK`.
const AGAIN: usize = 256;

/// The first byte of a text whose length stands in the next byte (RFC 8949 section 3).
const LONG_NAME: u8 = 0x78;

/// What a reader shows of a name.
#[derive(Clone, Copy)]
pub(crate) enum Seen {
    /// All of it: its place among the names, and the number of bytes with its head.
    Whole { at: usize, size: usize },
    /// Less than these bytes, which it has with its head, or which its head has.
    Cut(usize),
    /// No text of at most 255 bytes in one piece.
    Other,
}

/// Reads a name as a `String`, and answers the place of the first of `names` that it is, or how
/// many there are where it is none of them.
#[inline(always)]
pub(crate) fn take_name<S: Source>(
    alloc: Global,
    de: &mut Deserializer<S>,
    names: &[StaticStr],
    failure: &mut Option<DecodeError<S::Error>>,
) -> Option<usize>
    ensures { TakesKey text_key names.now (input S.view de.old) (input S.view de.new)
        (answer_of (typed_value_or_error result failure.new)) }
{
    if de.reader.window() < LOOK {
        return take_name_narrowly(alloc, de, names, failure);
    }
    match take_shown_name(de, names, LOOK, failure) {
        Some(Seen::Whole { at, .. }) => Some(at),
        Some(Seen::Cut(_)) => take_any_name(alloc, de, names, failure),
        Some(Seen::Other) => take_any_name(alloc, de, names, failure),
        None => None,
    }
}

/// Where fewer bytes than `LOOK` may be asked for: so many at first, and then those that the name
/// has.
#[cold]
#[inline(never)]
fn take_name_narrowly<S: Source>(
    alloc: Global,
    de: &mut Deserializer<S>,
    names: &[StaticStr],
    failure: &mut Option<DecodeError<S::Error>>,
) -> Option<usize>
    ensures { TakesKey text_key names.now (input S.view de.old) (input S.view de.new)
        (answer_of (typed_value_or_error result failure.new)) }
{
    let mut want = de.reader.window();
    while want <= AGAIN {
        match take_shown_name(de, names, want, failure) {
            Some(Seen::Whole { at, .. }) => return Some(at),
            Some(Seen::Cut(size)) if want < size => want = size,
            Some(Seen::Cut(_)) => return take_any_name(alloc, de, names, failure),
            Some(Seen::Other) => return take_any_name(alloc, de, names, failure),
            None => return None,
        }
    }
    take_any_name(alloc, de, names, failure)
}

#[cold]
#[inline(never)]
fn take_any_name<S: Source>(
    alloc: Global,
    de: &mut Deserializer<S>,
    names: &[StaticStr],
    failure: &mut Option<DecodeError<S::Error>>,
) -> Option<usize>
    ensures { TakesKey text_key names.now (input S.view de.old) (input S.view de.new)
        (answer_of (typed_value_or_error result failure.new)) }
{
    match String::deserialize(alloc, de) {
        Ok(name) => Some(place(names, name.as_bytes())),
        Err(error) => {
            leave(error, failure);
            None
        }
    }
}

/// Looks at `want` bytes, and takes a name that stands whole in what is shown, and nothing else.
#[inline(always)]
fn take_shown_name<S: Source>(
    de: &mut Deserializer<S>,
    names: &[StaticStr],
    want: usize,
    failure: &mut Option<DecodeError<S::Error>>,
) -> Option<Seen>
    ensures { TakesShown names.now (input S.view de.old) (input S.view de.new)
        (answer_of (typed_value_or_error result failure.new)) }
{
    let mut failed = None;
    let seen = match look(&mut de.reader, want, &mut failed) {
        Some(shown) => seen_name(shown, names),
        None => {
            leave(DecodeError::read(failed.unwrap()), failure);
            return None;
        }
    };
    match seen {
        Seen::Whole { at, size } => {
            de.reader.advance(size);
            Some(Seen::Whole { at, size })
        }
        Seen::Cut(size) => Some(Seen::Cut(size)),
        Seen::Other => Some(Seen::Other),
    }
}

/// What is seen of the name at the start of `shown`, after a head of one or two bytes.
#[inline(always)]
fn seen_name(shown: &[u8], names: &[StaticStr]) -> Seen
    ensures { IfWhole names.now shown.now result }
{
    if shown.len() == 0 {
        return Seen::Other;
    }
    let first = shown[0];
    if first / 32 != major::STRING {
        return Seen::Other;
    }
    let size = first % 32;
    if size > 23 {
        return seen_long_name(shown, names);
    }
    name_after(shown, 1, size, names)
}

#[inline(always)]
fn seen_long_name(shown: &[u8], names: &[StaticStr]) -> Seen
    ensures { IfWhole names.now shown.now result }
{
    if shown.len() == 0 || shown[0] != LONG_NAME {
        return Seen::Other;
    }
    if shown.len() < 2 {
        return Seen::Cut(2);
    }
    name_after(shown, 2, shown[1], names)
}

/// The name has `size` bytes after the first `before`. One that is not UTF-8 is no name.
#[inline(always)]
fn name_after(shown: &[u8], before: usize, size: u8, names: &[StaticStr]) -> Seen
    requires { before ≤ length shown.now }
    ensures { IfWholeAfter names.now shown.now before size result }
{
    let whole = before + size as usize;
    if shown.len() < whole {
        return Seen::Cut(whole);
    }
    let name = &shown[before..whole];
    let at = place(names, name);
    if at == names.len() && !is_text(name) {
        return Seen::Other;
    }
    Seen::Whole { at, size: whole }
}

/// The place of the first of `names` that is `name`, or how many there are where none is.
#[inline(always)]
fn place(names: &[StaticStr], name: &[u8]) -> usize
    ensures which { StandsAt name.now names.now result }
    ensures within { result ≤ length names.now }
    ensures text { result < length names.now → IsUtf8 name.now }
{
    for at in 0..names.len() {
        if is_same(names[at], name) {
            return at;
        }
    }
    names.len()
}

#[inline(always)]
fn is_same(own: &str, name: &[u8]) -> bool
    ensures same { result ≡ true → (name.now ≡ own.now) × IsUtf8 name.now }
    ensures other { result ≡ false → name.now ≢ own.now }
{
    own.as_bytes() == name
}

fn is_text(name: &[u8]) -> bool
    ensures { result ≡ true → IsUtf8 name.now }
{
    str::from_utf8(name).is_ok()
}
