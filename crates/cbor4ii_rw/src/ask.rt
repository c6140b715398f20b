//! How generic code asks a reader.
//!
//! `Source::show` and `Read::fill` lend, so a caller that is generic over the error's type learns
//! nothing of the reader afterwards. Here the error goes through a reference of its own, and the
//! caller learns all that the reader keeps. Which error it is, no clause says.
ghost use Rattle.std.specs.Prelude.{◌≡◌, ◌≤◌, [], ◌∷◌, length, IfOk, IfErr, IsTrue, IfSome, IfNone};
ghost use Rattle.std.specs.Prelude.{OnSome, IsSome, MatchOption};
ghost use Rattle.std.specs.Borrow.{sem};
ghost use Rattle.std.specs.Io.BufRead.{Rests};
ghost use Rattle.cbor4ii_rw.specs.View.{IfKnown};
ghost use Rattle.cbor4ii_rw.specs.Reader.{IsPrefix, IsEnough, Shows, ReaderFails, Takes};
ghost use Rattle.cbor4ii_rw.specs.Reader.{AsksWithin};
ghost use Rattle.cbor4ii_rw.specs.Reference.{bytes_of, IsLong, IsSubslice};
ghost use Rattle.cbor4ii_rw.specs.Parted.{PartsAnswer};

use crate::read::{Read, Reference, Source};

/// How many bytes a look asks for where one is sure to be needed and `most` may be of use: so many
/// as `Source::window` allows, and at most `most`.
#[inline(always)]
pub fn at_most<S: Source>(reader: &S, most: usize) -> usize
    ensures most { result ≤ most }
    ensures some { 1 ≤ most → 1 ≤ result }
    ensures within { AsksWithin 1 (S.allows reader.now) most result }
{
    most.min(reader.window())
}

/// How many bytes a look asks for where a content lacks `missing`, which is copied or skipped: so
/// many as `Source::window` allows, or 16384 where that is more, and at most `missing`.
///
/// The length that a head says may be false, and a reader may wait for all that is wanted.
#[inline(always)]
pub fn content_part<S: Source>(reader: &S, missing: usize) -> usize
    ensures most { result ≤ missing }
    ensures some { 1 ≤ missing → 1 ≤ result }
    ensures within { AsksWithin 16384 (S.allows reader.now) missing result }
{
    missing.min(reader.window().max(16384))
}

/// A prefix of what `reader` has left, as `Source::show` shows it. Where the reader fails, none,
/// and the error goes to `failure`, which is left alone otherwise.
#[inline(always)]
pub fn look<'s, S: Source>(
    reader: &'s mut S,
    want: usize,
    failure: &mut Option<S::Error>,
) -> Option<&'s [u8]>
    ensures prefix { IfSome result
        (λ shown. IfKnown (S.view reader.old).known (IsPrefix want shown.now)) }
    ensures bounded { IfSome result (λ shown. length shown.now ≤ (S.view reader.old).bound) }
    ensures enough { IsTrue (S.view reader.old).zero_copy →
        IfSome result (λ shown. IfKnown (S.view reader.old).known (IsEnough want shown.now)) }
    ensures shown { OnSome result (failure.new ≡ failure.old) }
    ensures failed { IfNone result (IsSome failure.new) }
    ensures* after_borrow { sem 𝓛 (Rests S.row reader.entry (λ new. MatchOption result
        (ReaderFails (S.view reader.old) (S.view new))
        (λ shown. Shows shown.now (S.view reader.old) (S.view new)))) }
{
    part(reader.show(want), failure)
}

/// A prefix of what `reader` has left, as `Read::fill` lends it. Where the reader fails, none,
/// and the error goes to `failure`, which is left alone otherwise.
pub fn lend<'de, 's, R: Read<'de>>(
    reader: &'s mut R,
    want: usize,
    failure: &mut Option<R::Error>,
) -> Option<Reference<'de, 's>>
    ensures prefix { IfSome result
        (λ shown. IfKnown (R.view reader.old).known (IsPrefix want (bytes_of shown))) }
    ensures bounded { IfSome result (λ shown. length (bytes_of shown) ≤ (R.view reader.old).bound) }
    ensures enough { IsTrue (R.view reader.old).zero_copy →
        IfSome result (λ shown. IfKnown (R.view reader.old).known
        (IsEnough want (bytes_of shown))) }
    ensures long { IsTrue (R.view reader.old).zero_copy → IfSome result IsLong }
    ensures place { IfSome result (λ shown. IsSubslice shown (R.view reader.old)) }
    ensures shown { OnSome result (failure.new ≡ failure.old) }
    ensures failed { IfNone result (IsSome failure.new) }
    ensures* after_borrow { sem 𝓛 (Rests R.row reader.entry (λ new. MatchOption result
        (ReaderFails (R.view reader.old) (R.view new))
        (λ shown. Shows (bytes_of shown) (R.view reader.old) (R.view new)))) }
{
    part(reader.fill(want), failure)
}

/// The next byte, which is taken; none at the end, where nothing is taken.
///
/// # Errors
///
/// The reader's own error, as `Source::show` reports it. Nothing is taken then.
pub fn next_byte<S: Source>(reader: &mut S) -> Result<Option<u8>, S::Error>
    ensures byte { IfOk result
        (λ next. IfSome next (λ byte. Takes (byte ∷ []) (S.view reader.old) (S.view reader.new))) }
    ensures end { IfOk result (λ next. IfNone next (IfKnown (S.view reader.old).known
        (λ xs. xs ≡ [])
        × Shows [] (S.view reader.old) (S.view reader.new))) }
    ensures failed { IfErr result (λ _. ReaderFails (S.view reader.old) (S.view reader.new)) }
{
    let mut failure = None;
    let byte = match look(reader, 1, &mut failure) {
        Some([]) => return Ok(None),
        Some([byte, ..]) => *byte,
        None => return Err(failure.unwrap()),
    };
    reader.advance(1);
    Ok(Some(byte))
}

// An `Ok` is passed on, and an error goes to `failure`.
#[inline(always)]
fn part<T, E: Drop>(answer: Result<T, E>, failure: &mut Option<E>) -> Option<T>
    ensures { PartsAnswer answer failure.old failure.new result }
{
    match answer {
        Ok(prefix) => Some(prefix),
        Err(error) => {
            *failure = Some(error);
            None
        }
    }
}
