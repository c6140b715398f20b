//! Keys of a struct's fields: texts or integers.
ghost use Rattle.std.specs.Prelude.{List, ℕ};
ghost use Rattle.cbor4ii_ser.specs.Item.{encoded};
ghost use Rattle.cbor4ii_ser.specs.Listed.{name_item, integer_label, integer_item};
ghost use Rattle.cbor4ii_ser.specs.Serializing.{Serializes, output};

use crate::error::EncodeError;
use crate::serialize::Serialize;
use crate::serializer::Serializer;
use cbor4ii_rw::error::StaticStr;
use cbor4ii_rw::write::Write;

/// What the keys of a struct's fields are: texts, as names of fields are, or integers, as the
/// labels of COSE are (RFC 9052 section 1.5).
pub trait Key {
    // What keys are told apart by: a text's bytes, or an integer's major type and argument.
    ghost label: { Self → List ℕ };

    // The item of the key that has this label.
    ghost item: { List ℕ → List ℕ };

    /// Writes the key's item, by its shortest head.
    ///
    /// # Errors
    ///
    /// `Core`, which is described at `Serializer`.
    fn serialize_key<W: Write>(&self, ser: &mut Serializer<W>) -> Result<(), EncodeError<W::Error>>
        ensures { Serializes W.atomic (encoded (item (label self.now)))
            (output W.view ser.old) (output W.view ser.new) result };
}

/// A text (RFC 8949 section 3.1, major type 3).
impl Key for StaticStr {
    ghost label = { λ name. name.now };

    ghost item = { name_item };

    #[inline]
    fn serialize_key<W: Write>(
        &self,
        ser: &mut Serializer<W>,
    ) -> Result<(), EncodeError<W::Error>> {
        ser.serialize_str(self)
    }
}

/// An integer (RFC 8949 section 3.1, major types 0 and 1).
impl Key for i64 {
    ghost label = { integer_label };

    ghost item = { integer_item };

    #[inline]
    fn serialize_key<W: Write>(
        &self,
        ser: &mut Serializer<W>,
    ) -> Result<(), EncodeError<W::Error>> {
        self.serialize(ser)
    }
}
