//! Items that are kept as a copy of their bytes. They are read and rejected as `RawValue` is.
ghost use Rattle.std.specs.Prelude.{◌≡◌, true, IfOk, IsTrue};
ghost use Rattle.cbor4ii_items.specs.Writing.{WritesAtomically};
ghost use Rattle.cbor4ii_tree.specs.Basis.Canonical.{canonical_encoding, canonical_cost};
ghost use Rattle.cbor4ii_tree.specs.Basis.Canonical.{with_bignums};
ghost use Rattle.cbor4ii_tree.specs.Basis.Encodings.{Encodes};
ghost use Rattle.cbor4ii_tree.specs.Basis.View.{view};
ghost use Rattle.cbor4ii_tree.specs.Calls.BoxedRaw.{boxed_content, CapturesCopy, CopiesItem};
ghost use Rattle.cbor4ii_tree.specs.Calls.BoxedRaw.{CopiesNone, boxed_raw_format};
ghost use Rattle.cbor4ii_tree.specs.Laws.Capturing.{boxed_raw_lawful};
ghost use Rattle.cbor4ii_tree.specs.Calls.Raw.{raw_content};

use crate::lend_raw::skip_lent;
use crate::raw::RawValue;
use crate::value::{NoMemory, Value};
use cbor4ii_items::decode::{Decodable, Decode};
use cbor4ii_items::encode::Encode;
use cbor4ii_rw::buf_writer::BufWriter;
use cbor4ii_rw::error::{DecodeError, EncodeError, TryReserveError};
use cbor4ii_rw::long::FillLong;
use cbor4ii_rw::write::Write;
use std::alloc::Global;
use std::convert::AsSlice;

/// One item, as a copy of its bytes. It is decoded over every `FillLong`, and copies what is lent:
/// over an `IoReader`, which lends nothing, nothing is accepted.
#[derive(Debug, Drop, PartialEq, Eq)]
pub struct BoxedRawValue(Vec<u8>);

impl BoxedRawValue {
    /// The item's bytes.
    pub fn as_bytes(&self) -> &[u8]
        ensures { result.now ≡ boxed_content self.now }
    {
        &self.0
    }

    /// The item, lent.
    pub fn as_raw(&self) -> RawValue<'_>
        ensures { raw_content result ≡ boxed_content self.now }
    {
        RawValue::of(&self.0)
    }

    /// The value's canonical encoding.
    ///
    /// # Errors
    ///
    /// `Write` with `TryReserveError`: a growth was refused.
    pub fn from_value(
        alloc: Global,
        value: &Value,
    ) -> Result<BoxedRawValue, EncodeError<TryReserveError>>
        ensures content { IfOk result (λ raw. boxed_content raw ≡ canonical_encoding
            (view value.now)) }
        ensures encodes { IfOk result (λ raw. Encodes
            (boxed_content raw) (with_bignums (view value.now)) (canonical_cost (view value.now))) }
    {
        let mut writer = BufWriter::new(Vec::new(alloc));
        value.encode(&mut writer)?;
        Ok(BoxedRawValue(writer.into_inner()))
    }

    /// A copy of the item, in memory of its own.
    ///
    /// # Errors
    ///
    /// `NoMemory`: a growth was refused.
    pub fn try_clone(&self) -> Result<BoxedRawValue, NoMemory>
        ensures equal { IfOk result (λ copy. boxed_content copy ≡ boxed_content self.now) }
    {
        Ok(BoxedRawValue(Vec::from_slice(*self.0.allocator(), &self.0)?))
    }
}

impl Decodable for BoxedRawValue {
    ghost format = { boxed_raw_format };

    fn is_never_empty() -> bool {
        true
    }

    ghost lawful = { boxed_raw_lawful };
}

/// One fill asks for all that is left. Where its bytes live as long as the input, the item at their
/// beginning is skipped in place, under the reader's steps, then taken at once and copied. Over a
/// reader that lends nothing, as a stream's, nothing is accepted.
///
/// # Errors
///
/// Those of `RawValue`, which take nothing, and `OutOfMemory`: there is no memory for the copy. The
/// item was taken then.
impl<S: FillLong> Decode<S> for BoxedRawValue {
    fn decode(alloc: Global, reader: &mut S) -> Result<BoxedRawValue, DecodeError<S::Error>>
        ensures copies { CopiesItem (S.view reader.old) (S.view reader.new) result }
        ensures unlent { IsTrue S.never_borrows →
            CopiesNone (S.view reader.old) (S.view reader.new) result }
    {
        copy_lent(alloc, reader)
    }
}

/// As `decode`, in fewer clauses.
fn copy_lent<S: FillLong>(
    alloc: Global,
    reader: &mut S,
) -> Result<BoxedRawValue, DecodeError<S::Error>>
    ensures copies { CapturesCopy (S.view reader.old) (S.view reader.new) result }
    ensures unlent { IsTrue S.never_borrows →
        CopiesNone (S.view reader.old) (S.view reader.new) result }
{
    match reader.fill_long(usize::MAX) {
        Ok(Some(long)) => match skip_lent(long.as_slice(), reader) {
            Ok(size) => {
                reader.advance(size);
                match Vec::from_slice(alloc, &long.as_slice()[..size]) {
                    Ok(content) => Ok(BoxedRawValue(content)),
                    Err(_) => Err(DecodeError::OutOfMemory),
                }
            }
            Err(error) => Err(error),
        },
        Ok(None) => Err(DecodeError::RequireBorrowed { name: "raw-value" }),
        Err(error) => Err(DecodeError::Read(error)),
    }
}

/// Written as it stands, in one push.
impl Encode for BoxedRawValue {
    ghost bytes = { boxed_content };

    fn encode<W: Write>(&self, writer: &mut W) -> Result<(), EncodeError<W::Error>>
        ensures { WritesAtomically W.atomic (boxed_content self.now)
            (W.view writer.old) (W.view writer.new) result }
    {
        match writer.push(&self.0) {
            Ok(()) => Ok(()),
            Err(error) => Err(EncodeError::Write(error)),
        }
    }
}
