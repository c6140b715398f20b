//! Content that is lent: slices of the input that live as long as it.
ghost use Rattle.std.specs.Prelude.{◌≡◌, ℕ, ◌≤◌, ◌<◌, List, Bool, length, take, IfOk};
ghost use Rattle.std.specs.Prelude.{IfErr, IsTrue, IsUtf8, true, false};
ghost use Rattle.cbor4ii_items.specs.Head.{IsBytes};
ghost use Rattle.cbor4ii_rw.specs.View.{View, IfKnown, place_of};
ghost use Rattle.cbor4ii_items.specs.Decoding.{Decodes};
ghost use Rattle.cbor4ii_items.specs.Lent.{lent_format, Lends, LacksContent, Named, IsOfInput};

use crate::head::lone_head;
use cbor4ii_rw::ask::lend;
use cbor4ii_rw::error::{DecodeError, Len, StaticStr};
use cbor4ii_rw::read::{Read, Reference, Source};
use std::alloc::Global;

/// Why a content is not lent, with no name in it.
pub(crate) enum Lacks<E> {
    Read(E),
    /// The bytes do not live as long as the input.
    Short,
    /// So many bytes are shown, which are too few.
    Few(usize),
    NotUtf8,
}

/// A value that a content is lent to.
///
/// A function whose signature holds a `'static` name cannot fill a reader that names a lifetime,
/// so what is lent knows its name here, and is rejected without it.
pub(crate) trait Lend<S: Source>: Sized {
    ghost content: { Self → List ℕ };

    ghost name: { List ℕ };

    ghost major: { ℕ };

    ghost is_text: { Bool };

    ghost stands: { Self → View → Type 0 };

    fn name() -> StaticStr
        ensures { result.now ≡ name };

    fn major() -> u8
        ensures number { result ≡ major }
        ensures small { result < 8 };

    fn lend_from(reader: &mut S, count: u64) -> Result<Self, Lacks<S::Error>>
        ensures lent { IfOk result
            (λ v. Lends count (content v) (S.view reader.old) (S.view reader.new)) }
        ensures utf8 { IfOk result (λ v. IsTrue is_text → IsUtf8 (content v)) }
        ensures place { IfOk result
            (λ v. IfKnown (S.view reader.old).known (λ _. stands v (S.view reader.new))) }
        ensures lacks { IfErr result
            (LacksContent count is_text (S.view reader.old) (S.view reader.new)) };
}

pub(crate) fn take_lent<T: Lend<S>, S: Source>(
    alloc: Global,
    reader: &mut S,
) -> Result<T, DecodeError<S::Error>>
    ensures place { IfOk result
        (λ v. IfKnown (S.view reader.old).known (λ _. T.stands v (S.view reader.new))) }
    ensures decodes { Decodes (lent_format T.name T.major T.is_text T.content)
        (S.view reader.old) (S.view reader.new) result }
{
    let count = lone_head(reader, T::name(), T::major(), 8)?;
    named(T::lend_from(reader, count), T::name())
}

fn named<T, E>(outcome: Result<T, Lacks<E>>, name: StaticStr) -> Result<T, DecodeError<E>>
    ensures { Named name.now outcome result }
{
    match outcome {
        Ok(value) => Ok(value),
        Err(Lacks::Read(error)) => Err(DecodeError::Read(error)),
        Err(Lacks::Short) => Err(DecodeError::RequireBorrowed { name }),
        Err(Lacks::Few(count)) => Err(DecodeError::RequireLength {
            name,
            found: Len::new(count),
        }),
        Err(Lacks::NotUtf8) => Err(DecodeError::RequireUtf8 { name }),
    }
}

pub(crate) fn lend_content<'de, R: Read<'de>>(
    reader: &mut R,
    count: u64,
) -> Result<&'de [u8], Lacks<R::Error>>
    ensures lent { IfOk result
        (λ content. Lends count content.now (R.view reader.old) (R.view reader.new)) }
    ensures place { IfOk result
        (λ content. IsOfInput content (R.view reader.old) (R.view reader.new)) }
    ensures lacks { IfErr result
        (LacksContent count false (R.view reader.old) (R.view reader.new)) }
{
    let want = count as usize;
    let mut failure = None;
    match lend(reader, want, &mut failure) {
        Some(Reference::Long(shown)) => {
            if shown.len() < want {
                return Err(Lacks::Few(shown.len()));
            }
            reader.advance(want);
            Ok(prefix(shown, want))
        }
        Some(Reference::Short(_)) => Err(Lacks::Short),
        None => Err(Lacks::Read(failure.unwrap())),
    }
}

/// As `lend_content`, of UTF-8.
pub(crate) fn lend_text<'de, R: Read<'de>>(
    reader: &mut R,
    count: u64,
) -> Result<&'de str, Lacks<R::Error>>
    ensures lent { IfOk result
        (λ content. Lends count content.now (R.view reader.old) (R.view reader.new)) }
    ensures utf8 { IfOk result (λ content. IsUtf8 content.now) }
    ensures lacks { IfErr result (LacksContent count true (R.view reader.old) (R.view reader.new)) }
{
    match lend_content(reader, count) {
        Ok(content) => match std::str::from_utf8(content) {
            Ok(text) => Ok(text),
            Err(_) => Err(Lacks::NotUtf8),
        },
        Err(lack) => Err(lack),
    }
}

/// The first bytes. That they are bytes is known where a slice is a parameter.
fn prefix(shown: &[u8], count: usize) -> &[u8]
    requires { count ≤ length shown.now }
    ensures value { result.now ≡ take count shown.now }
    ensures place { place_of result ≡ place_of shown.entry }
    ensures bytes { IsBytes (take count shown.now) }
{
    &shown[..count]
}
