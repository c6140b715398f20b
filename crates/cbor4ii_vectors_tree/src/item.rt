//! Whole items as what a row reads, over any reader.
use cbor4ii_items::decode::Decode;
use cbor4ii_rw::error::DecodeError;
use cbor4ii_rw::read::Source;
use cbor4ii_tree::{Canonical, IgnoredAny, Value};
use cbor4ii_vectors::rows::ReadFrom;
use std::alloc::Global;

/// What a whole item is read as.
#[derive(Debug, PartialEq, Drop)]
pub struct Item<T>(pub T);

impl ReadFrom for Item<Value> {
    fn read_from<S: Source>(alloc: Global, reader: &mut S) -> Result<Self, DecodeError<S::Error>> {
        Ok(Item(Value::decode(alloc, reader)?))
    }
}

impl ReadFrom for Item<Canonical> {
    fn read_from<S: Source>(alloc: Global, reader: &mut S) -> Result<Self, DecodeError<S::Error>> {
        Ok(Item(Canonical::decode(alloc, reader)?))
    }
}

impl ReadFrom for Item<IgnoredAny> {
    fn read_from<S: Source>(alloc: Global, reader: &mut S) -> Result<Self, DecodeError<S::Error>> {
        Ok(Item(IgnoredAny::decode(alloc, reader)?))
    }
}
