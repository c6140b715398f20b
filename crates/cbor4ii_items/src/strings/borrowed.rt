//! Borrowed strings, read: slices of the input, with no copy (RFC 8949 section 3.1).
ghost use Rattle.std.specs.Prelude.{◌≡◌, true, false, codes, IfOk};
ghost use Rattle.cbor4ii_items.specs.Decoding.{Decodes};
ghost use Rattle.cbor4ii_items.specs.Lent.{lent_format, lent_str, lent_bytes};
ghost use Rattle.cbor4ii_items.specs.Lent.{lent_unchecked, IsOfInput, stands_anywhere};
ghost use Rattle.cbor4ii_items.specs.Lent.{bytes_stand, unchecked_stands};
ghost use Rattle.cbor4ii_items.specs.Laws.Lent.{lent_lawful};
ghost use Rattle.cbor4ii_items.specs.Laws.Strings.{two_small, three_small};

use crate::decode::{Decodable, Decode};
use crate::major;
use crate::strings::lent::{Lacks, Lend, lend_content, lend_text, take_lent};
use crate::types::{Bytes, UncheckedStr};
use cbor4ii_rw::error::{DecodeError, StaticStr};
use cbor4ii_rw::read::Read;
use std::alloc::Global;

impl<'de> Decodable for &'de str {
    ghost format = { lent_format (codes "str") 3 true lent_str };

    fn is_never_empty() -> bool
        ensures { result ≡ true }
    {
        true
    }

    ghost lawful = { lent_lawful (codes "str") 3 three_small true lent_str };
}

impl<'de, R: Read<'de>> Lend<R> for &'de str {
    ghost content = { lent_str };

    ghost name = { codes "str" };

    ghost major = { 3 };

    ghost is_text = { true };

    ghost stands = { stands_anywhere };

    fn name() -> StaticStr {
        "str"
    }

    fn major() -> u8 {
        major::STRING
    }

    fn lend_from(reader: &mut R, count: u64) -> Result<&'de str, Lacks<R::Error>> {
        lend_text(reader, count)
    }
}

/// A text string that is UTF-8, of definite length, as it stands in the input, with no copy (RFC
/// 8949 section 3.1). It is read only where one fill lends all of its bytes as long as the input
/// lives. No step is taken and no memory.
///
/// # Errors
///
/// `Read` is described at `Decode::decode`. The others come in this order, by "str":
///
/// - `Eof` with 1: no byte is left
/// - `Eof` with k: the argument of the head has k bytes and fewer are left. Nothing is left then
/// - `Mismatch` with the first byte, which is taken: it begins no text string of definite length
/// - `RequireBorrowed`: the bytes do not live as long as the input. What follows the head is left
/// - `RequireLength` with the number of bytes that are lent: these are fewer than the length. What
///   follows the head is left
/// - `RequireUtf8`: the text is not UTF-8. The whole item is taken then
impl<'de, R: Read<'de>> Decode<R> for &'de str {
    fn decode(alloc: Global, reader: &mut R) -> Result<&'de str, DecodeError<R::Error>> {
        take_lent(alloc, reader)
    }
}

impl<'de> Decodable for Bytes<&'de [u8]> {
    ghost format = { lent_format (codes "bytes") 2 false lent_bytes };

    fn is_never_empty() -> bool
        ensures { result ≡ true }
    {
        true
    }

    ghost lawful = { lent_lawful (codes "bytes") 2 two_small false lent_bytes };
}

impl<'de, R: Read<'de>> Lend<R> for Bytes<&'de [u8]> {
    ghost content = { lent_bytes };

    ghost name = { codes "bytes" };

    ghost major = { 2 };

    ghost is_text = { false };

    ghost stands = { bytes_stand };

    fn name() -> StaticStr {
        "bytes"
    }

    fn major() -> u8 {
        major::BYTES
    }

    fn lend_from(reader: &mut R, count: u64) -> Result<Bytes<&'de [u8]>, Lacks<R::Error>> {
        match lend_content(reader, count) {
            Ok(content) => Ok(Bytes(content)),
            Err(lack) => Err(lack),
        }
    }
}

/// A byte string, of definite length, as it stands in the input, with no copy (RFC 8949 section
/// 3.1). It is read as a `&str` is. It is the input's own part: what is left begins right after it,
/// where the reader reports the place of its end.
///
/// # Errors
///
/// Those of a `&str`, by "bytes", at a byte string in the place of a text string, without
/// `RequireUtf8`.
impl<'de, R: Read<'de>> Decode<R> for Bytes<&'de [u8]> {
    fn decode(alloc: Global, reader: &mut R) -> Result<Bytes<&'de [u8]>, DecodeError<R::Error>>
        ensures place { IfOk result (λ v. IsOfInput v.0 (R.view reader.old) (R.view reader.new)) }
        ensures decodes { Decodes (lent_format (codes "bytes") 2 false lent_bytes)
            (R.view reader.old) (R.view reader.new) result }
    {
        take_lent(alloc, reader)
    }
}

impl<'de> Decodable for UncheckedStr<&'de [u8]> {
    ghost format = { lent_format (codes "str") 3 false lent_unchecked };

    fn is_never_empty() -> bool
        ensures { result ≡ true }
    {
        true
    }

    ghost lawful = { lent_lawful (codes "str") 3 three_small false lent_unchecked };
}

impl<'de, R: Read<'de>> Lend<R> for UncheckedStr<&'de [u8]> {
    ghost content = { lent_unchecked };

    ghost name = { codes "str" };

    ghost major = { 3 };

    ghost is_text = { false };

    ghost stands = { unchecked_stands };

    fn name() -> StaticStr {
        "str"
    }

    fn major() -> u8 {
        major::STRING
    }

    fn lend_from(reader: &mut R, count: u64) -> Result<UncheckedStr<&'de [u8]>, Lacks<R::Error>> {
        match lend_content(reader, count) {
            Ok(content) => Ok(UncheckedStr(content)),
            Err(lack) => Err(lack),
        }
    }
}

/// A text string, whatever its bytes, of definite length, as it stands in the input, with no copy
/// (RFC 8949 section 3.1). It is read as a `&str` is, and is the input's own part, as a
/// `Bytes<&[u8]>` is.
///
/// # Errors
///
/// Those of a `&str`, without `RequireUtf8`.
impl<'de, R: Read<'de>> Decode<R> for UncheckedStr<&'de [u8]> {
    fn decode(
        alloc: Global,
        reader: &mut R,
    ) -> Result<UncheckedStr<&'de [u8]>, DecodeError<R::Error>>
        ensures place { IfOk result (λ v. IsOfInput v.0 (R.view reader.old) (R.view reader.new)) }
        ensures decodes { Decodes (lent_format (codes "str") 3 false lent_unchecked)
            (R.view reader.old) (R.view reader.new) result }
    {
        take_lent(alloc, reader)
    }
}
