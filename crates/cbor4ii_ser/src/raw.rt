//! Items that are kept as their bytes.
ghost use Rattle.cbor4ii_tree.specs.Calls.BoxedRaw.{boxed_content};
ghost use Rattle.cbor4ii_tree.specs.Calls.PlainRaw.{plain_raw_content};
ghost use Rattle.cbor4ii_tree.specs.Calls.Raw.{raw_content};
ghost use Rattle.cbor4ii_ser.specs.Item.{encoded};

use crate::error::EncodeError;
use crate::serialize::Serialize;
use crate::serializer::Serializer;
use cbor4ii_rw::write::Write;
use cbor4ii_tree::{BoxedRawValue, PlainRawValue, RawValue};

/// The item as it stands, in one push.
impl<'a> Serialize for RawValue<'a> {
    ghost encoding = { λ v. encoded (raw_content v) };

    fn serialize<W: Write>(&self, ser: &mut Serializer<W>) -> Result<(), EncodeError<W::Error>> {
        ser.serialize_item(self)
    }
}

/// The item as it stands, in one push.
impl<'a> Serialize for PlainRawValue<'a> {
    ghost encoding = { λ v. encoded (plain_raw_content v) };

    fn serialize<W: Write>(&self, ser: &mut Serializer<W>) -> Result<(), EncodeError<W::Error>> {
        ser.serialize_item(self)
    }
}

/// The item as it stands, in one push.
impl Serialize for BoxedRawValue {
    ghost encoding = { λ v. encoded (boxed_content v) };

    fn serialize<W: Write>(&self, ser: &mut Serializer<W>) -> Result<(), EncodeError<W::Error>> {
        ser.serialize_item(self)
    }
}
