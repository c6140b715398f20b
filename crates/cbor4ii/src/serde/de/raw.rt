//! Items that are kept as their bytes.
ghost use Rattle.std.proofs.Common.{refl};
ghost use Rattle.std.specs.Prelude.{IsTrue};
ghost use Rattle.cbor4ii_tree.specs.Calls.BoxedRaw.{CopiesItem, CopiesNone};
ghost use Rattle.cbor4ii_tree.specs.Laws.Capturing.{boxed_raw_lawful};
ghost use Rattle.cbor4ii.specs.Raw.{lent_item, LendsItem};
ghost use Rattle.cbor4ii.specs.Typed.{exact_promise, input, answer_of, Deserializes};

use crate::serde::de::deserialize::{Deserialize, Typed};
use crate::serde::de::deserializer::Deserializer;
use crate::serde::de::error::{DecodeError, typed};
use cbor4ii_items::decode::Decode;
use cbor4ii_rw::error::Never;
use cbor4ii_rw::long::FillLong;
use cbor4ii_rw::read::Source;
use cbor4ii_rw::segment_reader::SegmentReader;
use cbor4ii_rw::slice_reader::SliceReader;
use cbor4ii_tree::{BoxedRawValue, RawValue};
use std::alloc::Global;

impl<'de> Typed for RawValue<'de> {
    ghost promise = { lent_item };
}

/// One item, as its bytes stand in the input. It is read and rejected exactly as skipping takes it,
/// or fails.
///
/// # Errors
///
/// Those of `RawValue` as an item of the codec, each as `Core`. Nothing is taken then.
impl<'de> Deserialize<SliceReader<'de>> for RawValue<'de> {
    fn deserialize(
        alloc: Global,
        de: &mut Deserializer<SliceReader<'de>>,
    ) -> Result<RawValue<'de>, DecodeError<Never>>
        ensures { LendsItem
            (input ⟦<SliceReader<'de> as Source>⟧.view de.old)
            (input ⟦<SliceReader<'de> as Source>⟧.view de.new) (answer_of result) }
    {
        typed(RawValue::decode(alloc, &mut de.reader))
    }
}

/// One item, as its bytes stand in a segment, which has to hold the whole of it. Its errors are
/// those over a slice.
impl<'de> Deserialize<SegmentReader<'de>> for RawValue<'de> {
    fn deserialize(
        alloc: Global,
        de: &mut Deserializer<SegmentReader<'de>>,
    ) -> Result<RawValue<'de>, DecodeError<Never>>
        ensures { LendsItem
            (input ⟦<SegmentReader<'de> as Source>⟧.view de.old)
            (input ⟦<SegmentReader<'de> as Source>⟧.view de.new) (answer_of result) }
    {
        typed(RawValue::decode(alloc, &mut de.reader))
    }
}

impl Typed for BoxedRawValue {
    ghost promise = { exact_promise refl boxed_raw_lawful };
}

/// One item, as a copy of its bytes. Over a reader that lends nothing, as a stream's, nothing is
/// accepted, and no memory is asked for.
///
/// # Errors
///
/// Those of `BoxedRawValue` as an item of the codec, each as `Core`. Nothing is taken then, but at
/// `OutOfMemory`: the item was taken.
impl<S: FillLong> Deserialize<S> for BoxedRawValue {
    fn deserialize(
        alloc: Global,
        de: &mut Deserializer<S>,
    ) -> Result<BoxedRawValue, DecodeError<S::Error>>
        ensures item { Deserializes ⟦<BoxedRawValue as Typed>⟧.promise
            (input S.view de.old) (input S.view de.new) (answer_of result) }
        ensures copies { CopiesItem
            (input S.view de.old) (input S.view de.new) (answer_of result) }
        ensures unlent { IsTrue S.never_borrows →
            CopiesNone (input S.view de.old) (input S.view de.new) (answer_of result) }
    {
        typed(BoxedRawValue::decode(alloc, &mut de.reader))
    }
}
