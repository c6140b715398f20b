//! Values that a whole slice encodes, and the bytes of a value.
ghost use Rattle.std.specs.Prelude.{◌≡◌, [], true, false, Some, IfOk, IfErr};
ghost use Rattle.cbor4ii_rw.specs.Input.{limit};
ghost use Rattle.cbor4ii_rw.specs.declared.error.DecodeError.TheVariants.{OutOfMemory};
ghost use Rattle.cbor4ii_rw.specs.declared.error.WholeError.TheVariants.{Decode};
ghost use Rattle.cbor4ii_items.specs.Whole.{DecodesWhole};
ghost use Rattle.cbor4ii_tree.specs.Basis.Canonical.{canonical_encoding};
ghost use Rattle.cbor4ii_tree.specs.Calls.Asking.{WantsOnlyWhole};
ghost use Rattle.cbor4ii_tree.specs.Calls.CanonicalRejects.{CanonicalRejects};
ghost use Rattle.cbor4ii_tree.specs.Calls.CanonicalShape.{DecodesCanonically};
ghost use Rattle.cbor4ii_tree.specs.Calls.Canonically.{canonical_format};
ghost use Rattle.cbor4ii_tree.specs.Calls.Promises.{value_format};
ghost use Rattle.cbor4ii_tree.specs.Basis.Encodings.{DecodesTo};
ghost use Rattle.cbor4ii_tree.specs.Basis.Headline.{AnswersWhole};
ghost use Rattle.cbor4ii_tree.specs.Basis.Item.{Item};
ghost use Rattle.cbor4ii_tree.specs.Calls.ReadingRejects.{ReadingRejects};
ghost use Rattle.cbor4ii_tree.specs.Basis.View.{view};

use crate::decode_canonical::Canonical;
use crate::value::{NoMemory, Value};
use cbor4ii_items::decode::Decode;
use cbor4ii_items::encode::Encode;
use cbor4ii_rw::buf_writer::BufWriter;
use cbor4ii_rw::error::{DecodeError, Never, WholeError};
use cbor4ii_rw::slice_reader::SliceReader;
use std::alloc::Global;

impl Value {
    /// The value that `input` encodes, all of it, read with `NESTING_LIMIT` steps. What is read,
    /// and each error, is described at `Value`'s `Decode`.
    ///
    /// # Errors
    ///
    /// - `Decode` of an error of `Value`: no value that is read begins the input. `OutOfMemory`
    ///   where a growth was refused: never where no string, tag, array or map begins it
    /// - `Trailing`: a value begins the input, and so many bytes follow it, one at least
    pub fn from_slice_whole(
        alloc: Global,
        input: &[u8],
    ) -> Result<Value, WholeError<DecodeError<Never>>>
        ensures answers { AnswersWhole (λ v. DecodesTo input.now (Some limit) (view v))
            (ReadingRejects input.now (Some limit)) result }
        ensures all { (v : Item) → DecodesTo input.now (Some limit) v [] →
            IfErr result (λ e. e ≡ Decode OutOfMemory) }
        ensures whole { DecodesWhole value_format input.now result }
        ensures asks { WantsOnlyWhole false input.now result }
    {
        let mut reader = SliceReader::new(input);
        let value = Value::decode(alloc, &mut reader)?;
        let left = reader.remaining().len();
        if left > 0 {
            return Err(WholeError::Trailing(left));
        }
        Ok(value)
    }

    /// The value's canonical encoding, in a vector of its own.
    ///
    /// # Errors
    ///
    /// `NoMemory`: a growth was refused.
    pub fn to_vec(&self, alloc: Global) -> Result<Vec<u8>, NoMemory>
        ensures { IfOk result (λ bytes. bytes.items ≡ canonical_encoding (view self.now)) }
    {
        let mut writer = BufWriter::new(Vec::new(alloc));
        match self.encode(&mut writer) {
            Ok(()) => Ok(writer.into_inner()),
            Err(_) => Err(NoMemory),
        }
    }
}

impl Canonical {
    /// The value whose canonical encoding `input` is, all of it, read with `NESTING_LIMIT` steps.
    /// What is read, and each error, is described at `Canonical`'s `Decode`.
    ///
    /// # Errors
    ///
    /// Those of `Value::from_slice_whole`, with `Canonical` in the place of `Value`.
    pub fn from_slice_whole(
        alloc: Global,
        input: &[u8],
    ) -> Result<Canonical, WholeError<DecodeError<Never>>>
        ensures answers { AnswersWhole (λ v. DecodesCanonically input.now (Some limit) (view v.0))
            (CanonicalRejects input.now (Some limit)) result }
        ensures same { IfOk result (λ v. input.now ≡ canonical_encoding (view v.0)) }
        ensures all { (v : Item) → DecodesCanonically input.now (Some limit) v [] →
            IfErr result (λ e. e ≡ Decode OutOfMemory) }
        ensures whole { DecodesWhole canonical_format input.now result }
        ensures asks { WantsOnlyWhole true input.now result }
    {
        let mut reader = SliceReader::new(input);
        let value = Canonical::decode(alloc, &mut reader)?;
        let left = reader.remaining().len();
        if left > 0 {
            return Err(WholeError::Trailing(left));
        }
        Ok(value)
    }
}
