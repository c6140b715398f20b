//! Owned texts and byte strings.
ghost use Rattle.std.specs.Prelude.{codes};
ghost use Rattle.std.proofs.Common.{refl};
ghost use Rattle.cbor4ii_items.specs.Strings.{text_content, bytes_content};
ghost use Rattle.cbor4ii_items.specs.Laws.Strings.{two_small, text_lawful, as_lawful};
ghost use Rattle.cbor4ii.specs.Typed.{exact_promise};

use crate::serde::de::deserialize::{Deserialize, Typed};
use crate::serde::de::deserializer::{Deserializer, take_item};
use crate::serde::de::error::DecodeError;
use cbor4ii_items::types::Bytes;
use cbor4ii_rw::read::Source;
use std::alloc::Global;

impl Typed for String {
    ghost promise = { exact_promise refl (text_lawful (codes "str") text_content) };
}

/// A text that is UTF-8, of definite or of indefinite length (RFC 8949 sections 3.1 and 3.2.3).
/// Each chunk is a text of definite length, read under one step of the budget. The chunks are
/// joined before they are tested to be UTF-8, so a character may stand across two of them. At most
/// 16384 bytes are reserved before any came.
///
/// # Errors
///
/// Those of `String` as an item of the codec, each as `Core`, with its fields and what it leaves.
impl<S: Source> Deserialize<S> for String {
    #[inline(always)]
    fn deserialize(
        alloc: Global,
        de: &mut Deserializer<S>,
    ) -> Result<String, DecodeError<S::Error>> {
        take_item(alloc, de)
    }
}

impl Typed for Bytes<Vec<u8>> {
    ghost promise = { exact_promise refl (as_lawful (codes "bytes") 2 two_small bytes_content) };
}

/// A byte string, of definite or of indefinite length (RFC 8949 sections 3.1 and 3.2.3), read as a
/// `String` is. Any bytes are its content.
///
/// # Errors
///
/// Those of a `String`, by "bytes" in the place of "str", without `RequireUtf8`.
impl<S: Source> Deserialize<S> for Bytes<Vec<u8>> {
    #[inline(always)]
    fn deserialize(
        alloc: Global,
        de: &mut Deserializer<S>,
    ) -> Result<Bytes<Vec<u8>>, DecodeError<S::Error>> {
        take_item(alloc, de)
    }
}
