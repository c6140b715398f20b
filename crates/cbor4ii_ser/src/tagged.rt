//! Tagged values.
ghost use Rattle.cbor4ii_items.specs.Numbers.{shortest_head};
ghost use Rattle.cbor4ii_ser.specs.Item.{encoded};
ghost use Rattle.cbor4ii_ser.specs.Serializing.{Serializes, output};
ghost use Rattle.cbor4ii_ser.specs.Tagged.{tagged_encoding};

use crate::error::EncodeError;
use crate::serialize::Serialize;
use crate::serializer::Serializer;
use crate::slot::has_large_error;
use cbor4ii_items::major;
use cbor4ii_items::types::{Nothing, Tag};
use cbor4ii_rw::write::Write;

impl<W: Write> Serializer<W> {
    /// A tag of this number and the value that it tags (RFC 8949 section 3.4): the shortest head
    /// of the number in one push, and then the value. `Deserializer::deserialize_tagged` of
    /// `cbor4ii` reads it.
    ///
    /// # Errors
    ///
    /// `Core` at the head, and those of the value's `serialize`. They are described at
    /// `Serializer`. The head stays where the value is rejected.
    #[inline]
    pub fn serialize_tagged<T: Serialize>(
        &mut self,
        number: u64,
        value: &T,
    ) -> Result<(), EncodeError<W::Error>>
        ensures { Serializes W.atomic (tagged_encoding number (T.encoding value.now))
            (output W.view self.old) (output W.view self.new) result }
    {
        if has_large_error::<W>() {
            return put_tagged_apart(self, number, value);
        }
        self.tag_head(number)?;
        value.serialize(self)
    }

    #[inline]
    fn tag_head(&mut self, number: u64) -> Result<(), EncodeError<W::Error>>
        ensures { Serializes W.atomic (encoded (shortest_head 6 number))
            (output W.view self.old) (output W.view self.new) result }
    {
        if has_large_error::<W>() {
            return self.put_head(major::TAG, number);
        }
        self.serialize_item(&Tag(number, Nothing))
    }
}

/// Out of line: to a writer with a large error what holds a tagged value then takes a small frame.
#[inline(never)]
fn put_tagged_apart<W: Write, T: Serialize>(
    ser: &mut Serializer<W>,
    number: u64,
    value: &T,
) -> Result<(), EncodeError<W::Error>>
    ensures { Serializes W.atomic (tagged_encoding number (T.encoding value.now))
        (output W.view ser.old) (output W.view ser.new) result }
{
    ser.tag_head(number)?;
    value.serialize(ser)
}
