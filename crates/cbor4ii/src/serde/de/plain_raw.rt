//! Items that are kept as their bytes, and are read as values.
ghost use Rattle.std.proofs.Common.{refl};
ghost use Rattle.cbor4ii_tree.specs.Laws.Capturing.{plain_raw_lawful};
ghost use Rattle.cbor4ii.specs.Typed.{exact_promise};

use crate::serde::de::deserialize::{Deserialize, Typed};
use crate::serde::de::deserializer::{Deserializer, take_item};
use crate::serde::de::error::DecodeError;
use cbor4ii_rw::error::Never;
use cbor4ii_rw::slice_reader::SliceReader;
use cbor4ii_tree::PlainRawValue;
use std::alloc::Global;

impl<'de> Typed for PlainRawValue<'de> {
    ghost promise = { exact_promise refl plain_raw_lawful };
}

/// One item that `Value` accepts, as its bytes stand in the input. Its errors are those of `Value`
/// as an item of the codec, each as `Core`, with what they leave.
impl<'de> Deserialize<SliceReader<'de>> for PlainRawValue<'de> {
    fn deserialize(
        alloc: Global,
        de: &mut Deserializer<SliceReader<'de>>,
    ) -> Result<PlainRawValue<'de>, DecodeError<Never>> {
        take_item(alloc, de)
    }
}
