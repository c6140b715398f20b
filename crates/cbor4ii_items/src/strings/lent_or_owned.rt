//! Content that is lent where the reader lends all of it, and copied otherwise.
ghost use Rattle.std.specs.Prelude.{◌≡◌, ℕ, ◌+◌, ◌≤◌, ◌<◌, List, [], Bool, OnOk, IfOk, IfErr};
ghost use Rattle.std.specs.Prelude.{IfSome, IsTrue, IsUtf8};
ghost use Rattle.cbor4ii_items.specs.Lent.{Lends, LacksContent};
ghost use Rattle.cbor4ii_items.specs.ReadStrings.{content_on, string_at};
ghost use Rattle.cbor4ii_rw.specs.View.{View, IfKnown};
ghost use Rattle.cbor4ii_items.specs.Cow.{either_format, TakesContent, BorrowsWhereDefinite};
ghost use Rattle.cbor4ii_items.specs.Cow.{IsBorrowedWhereWhole, Holds};
ghost use Rattle.cbor4ii_items.specs.Decoding.{Decodes};

use crate::head::length;
use crate::strings::chunks::take_chunks;
use crate::strings::content::take_known;
use crate::strings::lent::Lacks;
use cbor4ii_rw::error::{DecodeError, StaticStr};
use cbor4ii_rw::read::Source;
use std::alloc::Global;

/// A value that a content is lent to, or that owns a copy of it.
///
/// It stands beside `Lend` for the same reason: what is lent knows its name here.
pub(crate) trait LendOrOwn<S: Source>: Sized {
    ghost content: { Self → List ℕ };

    // The value is a slice of the input.
    ghost IsBorrowed: { Self → Type 0 };

    // The value has a content of its own.
    ghost IsOwned: { Self → Type 0 };

    // Where a value that is a slice of the input stands: before what a reader has left.
    ghost stands: { Self → View → Type 0 };

    ghost name: { List ℕ };

    ghost major: { ℕ };

    ghost is_text: { Bool };

    fn name() -> StaticStr
        ensures { result.now ≡ name };

    fn major() -> u8
        ensures { result ≡ major };

    fn lend_from(reader: &mut S, count: u64) -> Result<Self, Lacks<S::Error>>
        ensures lent { IfOk result
            (λ v. Lends count (content v) (S.view reader.old) (S.view reader.new)) }
        ensures utf8 { IfOk result (λ v. IsTrue is_text → IsUtf8 (content v)) }
        ensures borrowed { IfOk result IsBorrowed }
        ensures place { IfOk result
            (λ v. IfKnown (S.view reader.old).known (λ _. stands v (S.view reader.new))) }
        ensures lacks { IfErr result
            (LacksContent count is_text (S.view reader.old) (S.view reader.new)) };

    /// None where it is to be UTF-8 and is not.
    fn own(copy: Vec<u8>) -> Option<Self>
        ensures holds { Holds is_text content copy.items result }
        ensures owned { IfSome result IsOwned };

    // Of a value that has a content of its own nothing is owed.
    ghost owned_stands: { (v : Self) (view : View) → IsOwned v → stands v view };

    ghost small: { major < 8 };

    ghost text: { IsTrue is_text → major ≡ 3 };
}

pub(crate) fn take_cow<T: LendOrOwn<S>, S: Source>(
    alloc: Global,
    reader: &mut S,
) -> Result<T, DecodeError<S::Error>>
    ensures place { IfOk result
        (λ v. IfKnown (S.view reader.old).known (λ _. T.stands v (S.view reader.new))) }
    ensures decodes { Decodes (either_format T.is_text T.name T.major T.content)
        (S.view reader.old) (S.view reader.new) result }
    ensures borrows { IfOk result
        (BorrowsWhereDefinite T.major T.IsBorrowed T.IsOwned (S.view reader.old)) }
{
    match take_either(alloc, reader)? {
        Some(value) => Ok(value),
        None => Err(DecodeError::RequireUtf8 { name: T::name() }),
    }
}

fn take_either<T: LendOrOwn<S>, S: Source>(
    alloc: Global,
    reader: &mut S,
) -> Result<Option<T>, DecodeError<S::Error>>
    ensures takes { TakesContent (string_at T.name T.major (S.view reader.old).budget)
        T.is_text T.content
        (S.view reader.old) (S.view reader.new) result }
    ensures progress { OnOk result ((S.view reader.new).bound + 1 ≤ (S.view reader.old).bound) }
    ensures borrows { IfOk result (λ value. IfSome value
        (BorrowsWhereDefinite T.major T.IsBorrowed T.IsOwned (S.view reader.old))) }
    ensures place { IfOk result (λ value. IfSome value
        (λ v. IfKnown (S.view reader.old).known (λ _. T.stands v (S.view reader.new)))) }
{
    match length(reader, T::name(), T::major())? {
        Some(count) => lend_or_copy(alloc, reader, count),
        None => Ok(T::own(take_chunks(alloc, reader, T::name(), T::major())?)),
    }
}

fn lend_or_copy<T: LendOrOwn<S>, S: Source>(
    alloc: Global,
    reader: &mut S,
    count: u64,
) -> Result<Option<T>, DecodeError<S::Error>>
    ensures takes { TakesContent (content_on T.name count []) T.is_text T.content
        (S.view reader.old) (S.view reader.new) result }
    ensures borrows { IfOk result (λ value. IfSome value
        (IsBorrowedWhereWhole T.IsBorrowed (S.view reader.old))) }
    ensures place { IfOk result (λ value. IfSome value
        (λ v. IfKnown (S.view reader.old).known (λ _. T.stands v (S.view reader.new)))) }
{
    match T::lend_from(reader, count) {
        Ok(value) => Ok(Some(value)),
        Err(Lacks::NotUtf8) => Ok(None),
        Err(Lacks::Read(error)) => Err(DecodeError::Read(error)),
        Err(Lacks::Short) => copy(alloc, reader, count),
        Err(Lacks::Few(_)) => copy(alloc, reader, count),
    }
}

fn copy<T: LendOrOwn<S>, S: Source>(
    alloc: Global,
    reader: &mut S,
    count: u64,
) -> Result<Option<T>, DecodeError<S::Error>>
    ensures takes { TakesContent (content_on T.name count []) T.is_text T.content
        (S.view reader.old) (S.view reader.new) result }
    ensures owned { IfOk result (λ value. IfSome value T.IsOwned) }
{
    Ok(T::own(take_known(alloc, reader, T::name(), count)?))
}
