//! Items that are kept as their bytes, and are read as values.
ghost use Rattle.std.specs.Prelude.{◌≡◌, true, IfOk};
ghost use Rattle.cbor4ii_rw.specs.View.{place_of, BeginsAt};
ghost use Rattle.cbor4ii_rw.specs.Slice.{slice_view};
ghost use Rattle.cbor4ii_items.specs.Decoding.{Decodes};
ghost use Rattle.cbor4ii_items.specs.Whole.{DecodesWhole};
ghost use Rattle.cbor4ii_items.specs.Writing.{WritesAtomically};
ghost use Rattle.cbor4ii_tree.specs.Laws.Capturing.{plain_raw_lawful};
ghost use Rattle.cbor4ii_tree.specs.Calls.PlainRaw.{plain_raw_content, plain_raw_format};
ghost use Rattle.cbor4ii_tree.specs.Calls.PlainRaw.{plain_raw_place};
ghost use Rattle.cbor4ii_tree.specs.Calls.Raw.{raw_content, raw_place};

use crate::raw::RawValue;
use crate::value::Value;
use cbor4ii_items::decode::{Decodable, Decode};
use cbor4ii_items::encode::Encode;
use cbor4ii_items::whole::decode_whole;
use cbor4ii_rw::error::{DecodeError, EncodeError, Never, WholeError};
use cbor4ii_rw::slice_reader::SliceReader;
use cbor4ii_rw::write::Write;
use std::alloc::Global;

/// One item that `Value` accepts: well-formed, and each text is UTF-8. Equal keys of a map are not
/// looked for.
#[derive(Clone, Copy, Debug, PartialEq, Eq)]
pub struct PlainRawValue<'de>(RawValue<'de>);

impl<'de> PlainRawValue<'de> {
    /// The item that `bytes` are: one item and nothing else, which `Value` accepts with 256 steps.
    /// The value is read and dropped. The bytes are not copied: the item stands where they stand.
    ///
    /// # Errors
    ///
    /// - `Decode` of an error of `Value` over these bytes. `OutOfMemory` where a growth was refused
    /// - `Trailing`: they begin with an item, and so many bytes follow it
    pub fn new(
        alloc: Global,
        bytes: &'de [u8],
    ) -> Result<PlainRawValue<'de>, WholeError<DecodeError<Never>>>
        ensures whole { DecodesWhole plain_raw_format bytes.now result }
        ensures place { IfOk result (λ raw. plain_raw_place raw ≡ place_of bytes.entry) }
    {
        let _value: Value = decode_whole(alloc, bytes)?;
        Ok(PlainRawValue(RawValue::of(bytes)))
    }

    /// The item, of which it is not known any more that `Value` accepts it.
    pub fn as_raw(&self) -> RawValue<'de>
        ensures content { raw_content result ≡ plain_raw_content self.now }
        ensures place { raw_place result ≡ plain_raw_place self.now }
    {
        self.0
    }

    /// The item's bytes.
    pub fn as_bytes(&self) -> &'de [u8]
        ensures content { result.now ≡ plain_raw_content self.now }
        ensures place { place_of result ≡ plain_raw_place self.now }
    {
        self.0.as_bytes()
    }
}

impl<'de> Decodable for PlainRawValue<'de> {
    ghost format = { plain_raw_format };

    fn is_never_empty() -> bool
        ensures { result ≡ true }
    {
        true
    }

    ghost lawful = { plain_raw_lawful };
}

/// Over a slice. The value at its beginning is read and dropped, and its bytes are kept as they
/// stand, with no copy: the item begins where the bytes to come do. What is accepted is exactly
/// what `Value` accepts.
///
/// # Errors
///
/// Those of `Value`, with what they leave.
impl<'de> Decode<SliceReader<'de>> for PlainRawValue<'de> {
    fn decode(
        alloc: Global,
        reader: &mut SliceReader<'de>,
    ) -> Result<PlainRawValue<'de>, DecodeError<Never>>
        ensures place { IfOk result
            (λ raw. BeginsAt (plain_raw_place raw) (slice_view reader.old)) }
        ensures decodes { Decodes plain_raw_format
            (slice_view reader.old) (slice_view reader.new) result }
    {
        let bytes = reader.remaining();
        let _value = Value::decode(alloc, reader)?;
        let size = bytes.len() - reader.remaining().len();
        Ok(PlainRawValue(RawValue::of(&bytes[..size])))
    }
}

/// Written as it stands, in one push.
impl Encode for PlainRawValue<'_> {
    ghost bytes = { plain_raw_content };

    fn encode<W: Write>(&self, writer: &mut W) -> Result<(), EncodeError<W::Error>>
        ensures { WritesAtomically W.atomic (plain_raw_content self.now)
            (W.view writer.old) (W.view writer.new) result }
    {
        self.0.encode(writer)
    }
}
