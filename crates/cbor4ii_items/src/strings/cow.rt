//! Strings that are borrowed from the input or owned, read (RFC 8949 sections 3.1 and 3.2.3).
ghost use Rattle.std.specs.Prelude.{◌≡◌, true, false, codes, IfOk};
ghost use mathlib.Core.Path.{refl};
ghost use Rattle.std.specs.Cow.{IsBorrowedStr, IsOwnedStr};
ghost use Rattle.cbor4ii_items.specs.Cow.{BorrowsWhereDefinite, cow_text, cow_bytes, cow_unchecked};
ghost use Rattle.cbor4ii_items.specs.Cow.{IsBorrowedBytes, IsOwnedBytes, IsBorrowedUnchecked};
ghost use Rattle.cbor4ii_items.specs.Cow.{IsOwnedUnchecked, nothing_to_test, cow_bytes_stand};
ghost use Rattle.cbor4ii_items.specs.Cow.{cow_unchecked_stands, owned_stands};
ghost use Rattle.cbor4ii_items.specs.Lent.{stands_anywhere};
ghost use Rattle.cbor4ii_rw.specs.View.{IfKnown};
ghost use Rattle.cbor4ii_items.specs.Decoding.{Decodes};
ghost use Rattle.cbor4ii_items.specs.Strings.{as_format, text_format};
ghost use Rattle.cbor4ii_items.specs.Laws.Strings.{two_small, three_small, as_lawful, text_lawful};

use crate::decode::{Decodable, Decode};
use crate::major;
use crate::strings::lent::{Lacks, lend_content, lend_text};
use crate::strings::lent_or_owned::{LendOrOwn, take_cow};
use crate::types::{Bytes, UncheckedStr};
use cbor4ii_rw::error::{DecodeError, StaticStr};
use cbor4ii_rw::read::Read;
use std::alloc::Global;
use std::borrow::{CowSlice, CowStr};

impl<'de> Decodable for CowStr<'de, Global> {
    ghost format = { text_format (codes "str") cow_text };

    fn is_never_empty() -> bool
        ensures { result ≡ true }
    {
        true
    }

    ghost lawful = { text_lawful (codes "str") cow_text };
}

impl<'de, R: Read<'de>> LendOrOwn<R> for CowStr<'de, Global> {
    ghost content = { cow_text };

    ghost IsBorrowed = { IsBorrowedStr };

    ghost IsOwned = { IsOwnedStr };

    ghost stands = { stands_anywhere };

    ghost name = { codes "str" };

    ghost major = { 3 };

    ghost is_text = { true };

    fn name() -> StaticStr {
        "str"
    }

    fn major() -> u8 {
        major::STRING
    }

    fn lend_from(reader: &mut R, count: u64) -> Result<CowStr<'de, Global>, Lacks<R::Error>> {
        match lend_text(reader, count) {
            Ok(content) => Ok(CowStr::Borrowed(content)),
            Err(lack) => Err(lack),
        }
    }

    fn own(copy: Vec<u8>) -> Option<CowStr<'de, Global>> {
        match String::from_utf8(copy) {
            Ok(text) => Some(CowStr::Owned(text)),
            Err(_) => None,
        }
    }

    ghost owned_stands = { λ v view owned. tt };

    ghost small = { three_small };

    ghost text = { λ _. refl };
}

/// A text string that is UTF-8, of definite or of indefinite length (RFC 8949 sections 3.1 and
/// 3.2.3). One of definite length is a slice of the input where one fill lends all of its bytes as
/// long as the input lives. Elsewhere they are copied. One of indefinite length is always copied,
/// of one chunk too: it is known only after a chunk whether more follow. A copy takes steps and
/// memory as a `String` does.
///
/// # Errors
///
/// Those of a `String`, in the same order, over every reader.
impl<'de, R: Read<'de>> Decode<R> for CowStr<'de, Global> {
    fn decode(alloc: Global, reader: &mut R) -> Result<CowStr<'de, Global>, DecodeError<R::Error>>
        ensures decodes { Decodes (text_format (codes "str") cow_text)
            (R.view reader.old) (R.view reader.new) result }
        ensures borrows { IfOk result
            (BorrowsWhereDefinite 3 IsBorrowedStr IsOwnedStr (R.view reader.old)) }
    {
        take_cow(alloc, reader)
    }
}

impl<'de> Decodable for Bytes<CowSlice<'de, u8, Global>> {
    ghost format = { as_format (codes "bytes") 2 cow_bytes };

    fn is_never_empty() -> bool
        ensures { result ≡ true }
    {
        true
    }

    ghost lawful = { as_lawful (codes "bytes") 2 two_small cow_bytes };
}

impl<'de, R: Read<'de>> LendOrOwn<R> for Bytes<CowSlice<'de, u8, Global>> {
    ghost content = { cow_bytes };

    ghost IsBorrowed = { IsBorrowedBytes };

    ghost IsOwned = { IsOwnedBytes };

    ghost stands = { cow_bytes_stand };

    ghost name = { codes "bytes" };

    ghost major = { 2 };

    ghost is_text = { false };

    fn name() -> StaticStr {
        "bytes"
    }

    fn major() -> u8 {
        major::BYTES
    }

    fn lend_from(
        reader: &mut R,
        count: u64,
    ) -> Result<Bytes<CowSlice<'de, u8, Global>>, Lacks<R::Error>> {
        match lend_content(reader, count) {
            Ok(content) => Ok(Bytes(CowSlice::Borrowed(content))),
            Err(lack) => Err(lack),
        }
    }

    fn own(copy: Vec<u8>) -> Option<Bytes<CowSlice<'de, u8, Global>>> {
        Some(Bytes(CowSlice::Owned(copy)))
    }

    ghost owned_stands = { λ v view owned. owned_stands v.0 view owned };

    ghost small = { two_small };

    ghost text = { nothing_to_test };
}

/// A byte string, of definite or of indefinite length (RFC 8949 sections 3.1 and 3.2.3), borrowed
/// or copied as a `CowStr` is. Any bytes are its content.
///
/// # Errors
///
/// Those of a `CowStr`, by "bytes", at a byte string in the place of a text string, without
/// `RequireUtf8`.
impl<'de, R: Read<'de>> Decode<R> for Bytes<CowSlice<'de, u8, Global>> {
    fn decode(
        alloc: Global,
        reader: &mut R,
    ) -> Result<Bytes<CowSlice<'de, u8, Global>>, DecodeError<R::Error>>
        ensures place { IfOk result (λ v. IfKnown (R.view reader.old).known
            (λ _. cow_bytes_stand v (R.view reader.new))) }
        ensures decodes { Decodes (as_format (codes "bytes") 2 cow_bytes)
            (R.view reader.old) (R.view reader.new) result }
        ensures borrows { IfOk result
            (BorrowsWhereDefinite 2 IsBorrowedBytes IsOwnedBytes (R.view reader.old)) }
    {
        take_cow(alloc, reader)
    }
}

impl<'de> Decodable for UncheckedStr<CowSlice<'de, u8, Global>> {
    ghost format = { as_format (codes "str") 3 cow_unchecked };

    fn is_never_empty() -> bool
        ensures { result ≡ true }
    {
        true
    }

    ghost lawful = { as_lawful (codes "str") 3 three_small cow_unchecked };
}

impl<'de, R: Read<'de>> LendOrOwn<R> for UncheckedStr<CowSlice<'de, u8, Global>> {
    ghost content = { cow_unchecked };

    ghost IsBorrowed = { IsBorrowedUnchecked };

    ghost IsOwned = { IsOwnedUnchecked };

    ghost stands = { cow_unchecked_stands };

    ghost name = { codes "str" };

    ghost major = { 3 };

    ghost is_text = { false };

    fn name() -> StaticStr {
        "str"
    }

    fn major() -> u8 {
        major::STRING
    }

    fn lend_from(
        reader: &mut R,
        count: u64,
    ) -> Result<UncheckedStr<CowSlice<'de, u8, Global>>, Lacks<R::Error>> {
        match lend_content(reader, count) {
            Ok(content) => Ok(UncheckedStr(CowSlice::Borrowed(content))),
            Err(lack) => Err(lack),
        }
    }

    fn own(copy: Vec<u8>) -> Option<UncheckedStr<CowSlice<'de, u8, Global>>> {
        Some(UncheckedStr(CowSlice::Owned(copy)))
    }

    ghost owned_stands = { λ v view owned. owned_stands v.0 view owned };

    ghost small = { three_small };

    ghost text = { λ _. refl };
}

/// A text string, whatever its bytes, of definite or of indefinite length (RFC 8949 sections 3.1
/// and 3.2.3), borrowed or copied as a `CowStr` is.
///
/// # Errors
///
/// Those of a `CowStr`, without `RequireUtf8`.
impl<'de, R: Read<'de>> Decode<R> for UncheckedStr<CowSlice<'de, u8, Global>> {
    fn decode(
        alloc: Global,
        reader: &mut R,
    ) -> Result<UncheckedStr<CowSlice<'de, u8, Global>>, DecodeError<R::Error>>
        ensures place { IfOk result (λ v. IfKnown (R.view reader.old).known
            (λ _. cow_unchecked_stands v (R.view reader.new))) }
        ensures decodes { Decodes (as_format (codes "str") 3 cow_unchecked)
            (R.view reader.old) (R.view reader.new) result }
        ensures borrows { IfOk result
            (BorrowsWhereDefinite 3 IsBorrowedUnchecked IsOwnedUnchecked (R.view reader.old)) }
    {
        take_cow(alloc, reader)
    }
}
