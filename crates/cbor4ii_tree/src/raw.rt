//! Items that are kept as their bytes.
ghost use Rattle.std.specs.Prelude.{◌≡◌, true, false, IfOk, IfErr};
ghost use Rattle.cbor4ii_rw.specs.View.{place_of, BeginsAt};
ghost use Rattle.cbor4ii_items.specs.Writing.{WritesAtomically};
ghost use Rattle.cbor4ii_items.specs.Decoding.{IsExact, Decodes};
ghost use Rattle.cbor4ii_items.specs.Whole.{DecodesWhole};
ghost use Rattle.cbor4ii_tree.specs.Calls.Promises.{value_format};
ghost use Rattle.cbor4ii_tree.specs.Calls.Raw.{raw_content, raw_format, Unmoved, RejectsOnPrefix};
ghost use Rattle.cbor4ii_tree.specs.Calls.Raw.{TakesItem, raw_place};
ghost use Rattle.cbor4ii_tree.specs.Calls.Raw.{RejectsAsSkipping};
ghost use Rattle.cbor4ii_tree.specs.Laws.Capturing.{raw_lawful};

use crate::lend_raw::{LendRaw, NoPrefix, capture, take_raw};
use crate::value::Value;
use cbor4ii_items::decode::{Decodable, Decode};
use cbor4ii_items::encode::Encode;
use cbor4ii_items::whole::decode_whole;
use cbor4ii_rw::ask::lend;
use cbor4ii_rw::error::{DecodeError, EncodeError, Never, WholeError};
use cbor4ii_rw::read::{Read, Reference};
use cbor4ii_rw::slice_reader::SliceReader;
use cbor4ii_rw::write::Write;
use std::alloc::Global;

/// One item, as its bytes stand in the input: well-formed, but for what a string of indefinite
/// length holds, which may be any items (RFC 8949 section 3.2.3). Texts may be no UTF-8.
#[derive(Clone, Copy, Debug, PartialEq, Eq)]
pub struct RawValue<'de>(&'de [u8]);

impl<'de> RawValue<'de> {
    /// The item that `bytes` are: one item and nothing else, skipped with 256 steps. It is
    /// accepted exactly where `IgnoredAny` takes all of the bytes. Nothing is copied: the item
    /// stands where `bytes` stand.
    ///
    /// A string of indefinite length may hold any items then, as `5f 80 ff` does, and a text may be
    /// no UTF-8. `PlainRawValue` rejects both.
    ///
    /// # Errors
    ///
    /// - `Decode` of an error of `IgnoredAny` over these bytes
    /// - `Trailing`: they begin with an item, and so many bytes follow it
    pub fn new(bytes: &'de [u8]) -> Result<RawValue<'de>, WholeError<DecodeError<Never>>>
        ensures whole { DecodesWhole (raw_format raw_content) bytes.now result }
        ensures content { IfOk result (λ raw. raw_content raw ≡ bytes.now) }
        ensures place { IfOk result (λ raw. raw_place raw ≡ place_of bytes.entry) }
    {
        let mut reader = SliceReader::new(bytes);
        let raw = capture(&mut reader)?;
        let left = reader.remaining().len();
        if left > 0 {
            return Err(WholeError::Trailing(left));
        }
        Ok(raw)
    }

    /// The value that the item stands for, read with 256 steps.
    ///
    /// # Errors
    ///
    /// - `Decode` of an error of `Value` over the item's bytes. `OutOfMemory` where a growth was
    ///   refused
    /// - `Trailing`: never, of an item that was read or made by this crate
    pub fn to_value(&self, alloc: Global) -> Result<Value, WholeError<DecodeError<Never>>>
        ensures { DecodesWhole value_format (raw_content self.now) result }
    {
        decode_whole(alloc, self.0)
    }

    pub(crate) fn of(bytes: &'de [u8]) -> RawValue<'de>
        ensures content { raw_content result ≡ bytes.now }
        ensures place { raw_place result ≡ place_of bytes.entry }
    {
        RawValue(bytes)
    }

    /// The item's bytes.
    pub fn as_bytes(&self) -> &'de [u8]
        ensures content { result.now ≡ raw_content self.now }
        ensures place { place_of result ≡ raw_place self.now }
    {
        self.0
    }
}

impl<'de> Decodable for RawValue<'de> {
    ghost format = { raw_format raw_content };

    fn is_never_empty() -> bool
        ensures { result ≡ true }
    {
        true
    }

    ghost lawful = { raw_lawful raw_content };
}

/// It is lent by a fill that asks for all that is left. At the end of the input it is empty.
impl<'de, R: Read<'de>> LendRaw<R> for RawValue<'de> {
    ghost content = { raw_content };

    ghost place = { raw_place };

    fn lend_prefix(reader: &mut R) -> Result<RawValue<'de>, NoPrefix<R::Error>> {
        let mut failure = None;
        match lend(reader, usize::MAX, &mut failure) {
            Some(Reference::Long(prefix)) => Ok(RawValue(prefix)),
            Some(Reference::Short(prefix)) => {
                if prefix.len() == 0 {
                    return Ok(RawValue(&[]));
                }
                Err(NoPrefix::Short)
            }
            None => Err(NoPrefix::Read(failure.unwrap())),
        }
    }

    fn prefix(&self) -> &[u8] {
        self.0
    }

    fn cut(self, size: usize) -> RawValue<'de> {
        RawValue(&self.0[..size])
    }

    fn discard(self) {}
}

/// One fill asks for all that is left. Where its bytes live as long as the input, the item at
/// their beginning is skipped in place, under the reader's steps, and then taken at once. Nothing
/// is copied, and no memory is taken. The item is the input's own part: it begins where the bytes
/// to come do, where the reader reports the place of their end.
///
/// # Errors
///
/// Nothing is taken then.
///
/// - `Read`: the reader failed
/// - `RequireBorrowed` by "raw-value": some bytes are left, and they do not live as long as the
///   input
/// - those of `IgnoredAny` in the bytes that were lent, and where no byte is left
impl<'de, R: Read<'de>> Decode<R> for RawValue<'de> {
    fn decode(alloc: Global, reader: &mut R) -> Result<RawValue<'de>, DecodeError<R::Error>>
        ensures decodes { Decodes (raw_format raw_content)
            (R.view reader.old) (R.view reader.new) result }
        ensures whole { IsExact false (R.view reader.old) →
            TakesItem raw_content (R.view reader.old) (R.view reader.new) result }
        ensures exact { IsExact false (R.view reader.old) →
            RejectsAsSkipping (R.view reader.old) (R.view reader.new) result }
        ensures unmoved { IfErr result (Unmoved (R.view reader.old) (R.view reader.new)) }
        ensures errs { RejectsOnPrefix (R.view reader.old) result }
        ensures place { IfOk result (λ v. BeginsAt (raw_place v) (R.view reader.old)) }
    {
        take_raw(alloc, reader)
    }
}

/// Written as it stands, in one push.
impl Encode for RawValue<'_> {
    ghost bytes = { raw_content };

    fn encode<W: Write>(&self, writer: &mut W) -> Result<(), EncodeError<W::Error>>
        ensures { WritesAtomically W.atomic (raw_content self.now)
            (W.view writer.old) (W.view writer.new) result }
    {
        match writer.push(self.0) {
            Ok(()) => Ok(()),
            Err(error) => Err(EncodeError::Write(error)),
        }
    }
}
