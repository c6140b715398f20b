//! Optional items.
ghost use Rattle.cbor4ii_items.specs.Laws.Containers.{option_format, option_lawful};

use crate::decode::{Decodable, Decode};
use crate::head::peek;
use crate::marker;
use cbor4ii_rw::error::DecodeError;
use cbor4ii_rw::read::Source;
use std::alloc::Global;

impl<T: Decodable> Decodable for Option<T> {
    ghost format = { option_format T.format };

    fn is_never_empty() -> bool {
        T::is_never_empty()
    }

    ghost lawful = { option_lawful T.format T.lawful };
}

/// Null and undefined are none, and before any other byte an item is read (RFC 8949 section 3.3).
///
/// # Errors
///
/// - `Read`: the reader failed
/// - `Eof` by "option" with 1: no byte is left. It comes also for an item that reads no byte
/// - those of the item, which leave what they leave
impl<S: Source, T: Decode<S>> Decode<S> for Option<T> {
    #[inline(always)]
    fn decode(alloc: Global, reader: &mut S) -> Result<Option<T>, DecodeError<S::Error>> {
        let first = peek(reader, "option", 1)?;
        if first == marker::NULL || first == marker::UNDEFINED {
            reader.advance(1);
            return Ok(None);
        }
        match T::decode(alloc, reader) {
            Ok(value) => Ok(Some(value)),
            Err(error) => Err(error),
        }
    }
}
