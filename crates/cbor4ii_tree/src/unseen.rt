//! Items skipped byte by byte, where no look decides them: their heads (RFC 8949 section 3), their
//! bytes, and breaks.
ghost use Rattle.std.specs.Prelude.{◌≡◌, ◌+◌, ◌≤◌, ◌<◌, ◌%◌, OnOk, IfOk, IsTrue, codes};
ghost use Rattle.cbor4ii_rw.specs.Reader.{Advances};
ghost use Rattle.cbor4ii_items.specs.Initial.{info_of};
ghost use Rattle.cbor4ii_tree.specs.Inner.Does.{Does, Spares};
ghost use Rattle.cbor4ii_tree.specs.Inner.Skipping.{RejectsSkippingUnder, HeadLeads, TakesFirst};
ghost use Rattle.cbor4ii_tree.specs.Inner.Skipping.{SaysError};
ghost use Rattle.cbor4ii_tree.specs.Inner.Skipping.{rejection_of, head_name, trailing_of};
ghost use Rattle.cbor4ii_tree.specs.Inner.Ahead.{IsIndefinite, EndsOrNot, RejectsAtEnd};
ghost use Rattle.cbor4ii_tree.specs.Inner.HeadParts.{ArgumentBy, CutBy, DropsBytes, DropsSome};
ghost use Rattle.cbor4ii_tree.specs.Inner.HeadParts.{NoByte, TakesByte, TakesNumber};
ghost use Rattle.cbor4ii_tree.specs.Inner.BytesAhead.{Peeks};
ghost use Rattle.cbor4ii_tree.specs.Calls.Rejections.{Missing, MissingAll};

use crate::ahead::Among;
use crate::bytes_ahead::BytesAhead;
use crate::skip::{Additional, After, Start, pairs_of, parse_info, start_of};
use cbor4ii_items::marker;
use cbor4ii_rw::ask::content_part;
use cbor4ii_rw::error::{DecodeError, Len, StaticStr};
use cbor4ii_rw::read::Source;

pub(crate) fn ends<S: Source, F: BytesAhead<S>>(
    prefix: &mut F,
    reader: &mut S,
    among: Among,
) -> Result<bool, DecodeError<S::Error>>
    ensures does { Does (EndsOrNot among) (RejectsAtEnd among)
        (F.view prefix.old reader.old) (F.view prefix.new reader.new) result }
    ensures spares { Spares result }
    ensures ended { IfOk result (λ ended. IsTrue ended → IsIndefinite among) }
    ensures stays { IsTrue F.apart → S.view reader.new ≡ S.view reader.old }
{
    if !among.is_indefinite() {
        return Ok(false);
    }
    let first = peek(prefix, reader, "break", 1)?;
    if first != marker::BREAK {
        return Ok(false);
    }
    prefix.advance(reader, 1);
    Ok(true)
}

/// Takes the head, with a number's bytes or a float's, byte by byte.
pub(crate) fn skip_head<S: Source, F: BytesAhead<S>>(
    prefix: &mut F,
    reader: &mut S,
) -> Result<After, DecodeError<S::Error>>
    ensures does { Does (HeadLeads (F.view prefix.old reader.old).budget)
        (RejectsSkippingUnder (F.view prefix.old reader.old).budget)
        (F.view prefix.old reader.old) (F.view prefix.new reader.new) result }
    ensures spares { Spares result }
    ensures progress { OnOk result
        ((F.view prefix.new reader.new).bound + 1 ≤ (F.view prefix.old reader.old).bound) }
    ensures stays { IsTrue F.apart → S.view reader.new ≡ S.view reader.old }
{
    let first = peek(prefix, reader, "ignored-any", 1)?;
    let start = start_of(first);
    take_first(prefix, reader, start);
    if let Some(error) = rejection(start, first) {
        return Err(error);
    }
    if let Start::Bytes(count) = start {
        skip_bytes(prefix, reader, count as u64)?;
        return Ok(After::Nothing);
    }
    let argument = argument(prefix, reader, head_name(start), first)?;
    Ok(trailing(start, argument))
}

/// Takes the first byte, where it is taken with what begins so.
fn take_first<S: Source, F: BytesAhead<S>>(prefix: &mut F, reader: &mut S, start: Start)
    requires { 1 ≤ (F.view prefix.old reader.old).advanceable }
    ensures takes { TakesFirst start →
        Advances 1 (F.view prefix.old reader.old) (F.view prefix.new reader.new) }
    ensures leaves { (TakesFirst start → ⊥) →
        F.view prefix.new reader.new ≡ F.view prefix.old reader.old }
    ensures stays { IsTrue F.apart → S.view reader.new ≡ S.view reader.old }
{
    match start {
        Start::Stays => {}
        Start::Unsupported => {}
        _ => prefix.advance(reader, 1),
    }
}

fn rejection<E>(start: Start, first: u8) -> Option<DecodeError<E>>
    ensures { SaysError (rejection_of start first) result }
{
    match start {
        Start::Stays | Start::Taken => Some(DecodeError::Mismatch {
            name: "ignored-any",
            found: first,
        }),
        Start::NoTag => Some(DecodeError::Mismatch {
            name: "tag",
            found: first,
        }),
        Start::Unsupported => Some(DecodeError::Unsupported {
            name: "ignored-any",
            found: first,
        }),
        _ => None,
    }
}

fn head_name(start: Start) -> StaticStr
    ensures { result.now ≡ head_name start }
{
    match start {
        Start::Tag => "tag",
        _ => "ignored-any",
    }
}

fn trailing(start: Start, argument: u64) -> After
    ensures { result ≡ trailing_of start argument }
{
    match start {
        Start::Content => After::Bytes(argument),
        Start::Items => After::Items(argument),
        Start::Pairs => pairs_of(argument),
        Start::Tag => After::Items(1),
        Start::Indefinite => After::Indefinite,
        Start::PairsToBreak => After::PairsToBreak,
        _ => After::Nothing,
    }
}

/// The argument of a head whose first byte, which was taken, is `first`; 0 where it has none.
fn argument<S: Source, F: BytesAhead<S>>(
    prefix: &mut F,
    reader: &mut S,
    name: StaticStr,
    first: u8,
) -> Result<u64, DecodeError<S::Error>>
    ensures does { Does (ArgumentBy (info_of (first % 32)) first)
        (CutBy name.now (info_of (first % 32)))
        (F.view prefix.old reader.old) (F.view prefix.new reader.new) result }
    ensures spares { Spares result }
    ensures stays { IsTrue F.apart → S.view reader.new ≡ S.view reader.old }
{
    match parse_info(first % 32) {
        Additional::Wide(0) => Ok((first % 32) as u64),
        Additional::Wide(count) => number(prefix, reader, name, count),
        _ => Ok(0),
    }
}

fn number<S: Source, F: BytesAhead<S>>(
    prefix: &mut F,
    reader: &mut S,
    name: StaticStr,
    count: u8,
) -> Result<u64, DecodeError<S::Error>>
    requires { count ≤ 8 }
    ensures does { Does (TakesNumber count) (MissingAll name.now count)
        (F.view prefix.old reader.old) (F.view prefix.new reader.new) result }
    ensures spares { Spares result }
    ensures stays { IsTrue F.apart → S.view reader.new ≡ S.view reader.old }
{
    let mut value = 0;
    for i in 0..count {
        let byte = take_byte(prefix, reader, name, count as u16)?;
        value = value * 256 + byte as u64;
    }
    Ok(value)
}

/// The next byte, taken. At the end of the input the error has `expect`.
fn take_byte<S: Source, F: BytesAhead<S>>(
    prefix: &mut F,
    reader: &mut S,
    name: StaticStr,
    expect: u16,
) -> Result<u8, DecodeError<S::Error>>
    ensures does { Does TakesByte (NoByte name.now expect)
        (F.view prefix.old reader.old) (F.view prefix.new reader.new) result }
    ensures spares { Spares result }
    ensures byte { IfOk result (λ b. b < 256) }
    ensures stays { IsTrue F.apart → S.view reader.new ≡ S.view reader.old }
{
    let byte = peek(prefix, reader, name, expect)?;
    prefix.advance(reader, 1);
    Ok(byte)
}

/// The next byte, which stays. At the end of the input the error has `expect`.
fn peek<S: Source, F: BytesAhead<S>>(
    prefix: &mut F,
    reader: &mut S,
    name: StaticStr,
    expect: u16,
) -> Result<u8, DecodeError<S::Error>>
    ensures peeks { Peeks (NoByte name.now expect)
        (F.view prefix.old reader.old) (F.view prefix.new reader.new) result }
    ensures spares { Spares result }
    ensures can { OnOk result (1 ≤ (F.view prefix.new reader.new).advanceable) }
    ensures stays { IsTrue F.apart → S.view reader.new ≡ S.view reader.old }
{
    match prefix.ready(reader, 1) {
        Ok((0, _)) => Err(DecodeError::Eof {
            name,
            expect: Len::Small(expect),
        }),
        Ok((_, first)) => Ok(first),
        Err(error) => Err(DecodeError::Read(error)),
    }
}

pub(crate) fn skip_bytes<S: Source, F: BytesAhead<S>>(
    prefix: &mut F,
    reader: &mut S,
    count: u64,
) -> Result<(), DecodeError<S::Error>>
    ensures does { Does (λ xs _ ys. DropsBytes count xs ys) (Missing (codes "ignored-any") count)
        (F.view prefix.old reader.old) (F.view prefix.new reader.new) result }
    ensures spares { Spares result }
    ensures stays { IsTrue F.apart → S.view reader.new ≡ S.view reader.old }
{
    let mut missing = count as usize;
    while missing > 0 {
        missing -= skip_shown(prefix, reader, missing)?;
    }
    Ok(())
}

/// A reader that may wait for what is wanted is asked for a part of the bytes at a time.
fn skip_shown<S: Source, F: BytesAhead<S>>(
    prefix: &mut F,
    reader: &mut S,
    missing: usize,
) -> Result<usize, DecodeError<S::Error>>
    requires { 1 ≤ missing }
    ensures does { Does (DropsSome missing) (Missing (codes "ignored-any") missing)
        (F.view prefix.old reader.old) (F.view prefix.new reader.new) result }
    ensures spares { Spares result }
    ensures some { IfOk result (λ n. (1 ≤ n) × (n ≤ missing)) }
    ensures stays { IsTrue F.apart → S.view reader.new ≡ S.view reader.old }
{
    let want = content_part(reader, missing);
    match prefix.ready(reader, want) {
        Ok((0, _)) => Err(DecodeError::Eof {
            name: "ignored-any",
            expect: Len::new(missing),
        }),
        Ok((count, _)) => {
            prefix.advance(reader, count);
            Ok(count)
        }
        Err(error) => Err(DecodeError::Read(error)),
    }
}
