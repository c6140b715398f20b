//! Owned strings, read (RFC 8949 sections 3.1 and 3.2.3).
ghost use Rattle.std.specs.Prelude.{true, codes};
ghost use Rattle.cbor4ii_items.specs.Strings.{as_format, text_format, bytes_content};
ghost use Rattle.cbor4ii_items.specs.Strings.{unchecked_content, text_content};
ghost use Rattle.cbor4ii_items.specs.Laws.Strings.{two_small, three_small, as_lawful, text_lawful};

use crate::decode::{Decodable, Decode};
use crate::major;
use crate::strings::content::{lone_string, take_text};
use crate::types::{Bytes, UncheckedStr};
use cbor4ii_rw::error::DecodeError;
use cbor4ii_rw::read::Source;
use std::alloc::Global;

impl Decodable for Bytes<Vec<u8>> {
    ghost format = { as_format (codes "bytes") 2 bytes_content };

    fn is_never_empty() -> bool {
        true
    }

    ghost lawful = { as_lawful (codes "bytes") 2 two_small bytes_content };
}

/// A byte string, of definite or of indefinite length (RFC 8949 sections 3.1 and 3.2.3), read as a
/// `String` is. Any bytes are its content.
///
/// # Errors
///
/// Those of a `String`, by "bytes", at a byte string in the place of a text string, without
/// `RequireUtf8`.
impl<S: Source> Decode<S> for Bytes<Vec<u8>> {
    #[inline(always)]
    fn decode(alloc: Global, reader: &mut S) -> Result<Bytes<Vec<u8>>, DecodeError<S::Error>> {
        Ok(Bytes(lone_string(alloc, reader, "bytes", major::BYTES)?))
    }
}

impl Decodable for UncheckedStr<Vec<u8>> {
    ghost format = { as_format (codes "str") 3 unchecked_content };

    fn is_never_empty() -> bool {
        true
    }

    ghost lawful = { as_lawful (codes "str") 3 three_small unchecked_content };
}

/// A text string, whatever its bytes, of definite or of indefinite length (RFC 8949 sections 3.1
/// and 3.2.3), read as a `String` is.
///
/// # Errors
///
/// Those of a `String`, without `RequireUtf8`.
impl<S: Source> Decode<S> for UncheckedStr<Vec<u8>> {
    #[inline(always)]
    fn decode(
        alloc: Global,
        reader: &mut S,
    ) -> Result<UncheckedStr<Vec<u8>>, DecodeError<S::Error>> {
        Ok(UncheckedStr(lone_string(alloc, reader, "str", major::STRING)?))
    }
}

impl Decodable for String {
    ghost format = { text_format (codes "str") text_content };

    fn is_never_empty() -> bool {
        true
    }

    ghost lawful = { text_lawful (codes "str") text_content };
}

/// A text string that is UTF-8, of definite or of indefinite length (RFC 8949 sections 3.1 and
/// 3.2.3). Each chunk is a string of definite length of the same major type, read under one step of
/// the reader's budget. The chunks are joined before they are tested to be UTF-8, so a character
/// may stand across two of them. At most 16384 bytes are reserved before any came.
///
/// # Errors
///
/// `Read` and `OutOfMemory` are described at `Decode::decode`. The others come in this order, by
/// "str" where no other name is said:
///
/// - `Eof` with 1: no byte is left
/// - `Eof` with k: the argument of the head has k bytes and fewer are left. Nothing is left then
/// - `Mismatch` with the first byte, which is taken: it begins no text string
/// - `Eof` with the number of bytes that are missing: the content is cut. Nothing is left then
/// - `Eof` by "break" with 1: no byte is left in the place of a chunk or a break
/// - `DepthOverflow`: no step is left for a chunk. The chunk is left
/// - `RequireLength` with `Indefinite`: a chunk has an indefinite length. What follows its first
///   byte is left
/// - `Eof` or `Mismatch`, those of the string itself: a chunk is cut, or is no text string. What is
///   left is the same
/// - `RequireUtf8`: the text is not UTF-8. The whole item is taken then
impl<S: Source> Decode<S> for String {
    #[inline(always)]
    fn decode(alloc: Global, reader: &mut S) -> Result<String, DecodeError<S::Error>> {
        take_text(alloc, reader, "str")
    }
}
