//! A writer of typed values.
ghost use Rattle.std.specs.Prelude.{◌≡◌, ◌<◌, ◌∷◌, [], false};
ghost use Rattle.std.specs.Char.{encode_utf8};
ghost use Rattle.cbor4ii_items.specs.Floats.{float_bytes};
ghost use Rattle.cbor4ii_items.specs.Numbers.{shortest_head, signed_head, signed_bytes};
ghost use Rattle.cbor4ii_items.specs.Numbers.{unsigned_bytes};
ghost use Rattle.cbor4ii_items.specs.Simple.{bool_byte};
ghost use Rattle.cbor4ii_items.specs.Strings.{definite_string};
ghost use Rattle.cbor4ii_ser.specs.Item.{encoded, variant_encoding};
ghost use Rattle.cbor4ii_ser.specs.Serializing.{Serializes, AllOrNothing, output};

use crate::error::EncodeError;
use crate::serialize::Serialize;
use crate::slot::{
    has_large_error, push_f16_apart, push_f32_apart, push_f64_apart, push_head_apart,
    push_string_apart, put_variant,
};
use cbor4ii_items::encode::Encode;
use cbor4ii_items::major;
use cbor4ii_items::types::{Bytes, F16, F32, F64, Null};
use cbor4ii_rw::write::Write;

/// A writer of typed values. Each of its calls appends one item to what its writer holds, or
/// begins one that is written part by part.
///
/// # Errors
///
/// - `Core` of `Write`: the writer failed in the call. An atomic writer then holds what it held
///   before and a beginning of what the call writes. Of another writer nothing is said
/// - `Custom` with the words of a type: a value that the call is given has no item. Exactly what
///   stands before the error is appended, and the writer did not fail
#[derive(Debug, Drop)]
pub struct Serializer<W> {
    pub(crate) writer: W,
}

impl<W: Write> Serializer<W> {
    /// A serializer that writes after what `writer` holds.
    pub fn new(writer: W) -> Serializer<W>
        ensures { output W.view result ≡ W.view writer }
    {
        Serializer { writer }
    }

    /// The writer.
    pub fn into_inner(self) -> W
        ensures { W.view result ≡ output W.view self }
    {
        self.writer
    }

    /// Whether values are written for people to read: they are not.
    pub fn is_human_readable(&self) -> bool
        ensures { result ≡ false }
    {
        false
    }

    /// One item of the codec, of any type that is encoded, in the pushes in which its `encode`
    /// writes it: `Simple`, `Tag`, `CowStr`, `RawValue` or a user's own.
    /// `Deserializer::deserialize_item` of `cbor4ii` reads it. That its bytes are one item is not
    /// asked of a type.
    ///
    /// # Errors
    ///
    /// `Core`, which is described at `Serializer`.
    #[inline]
    pub fn serialize_item<T: Encode>(&mut self, value: &T) -> Result<(), EncodeError<W::Error>>
        ensures { Serializes W.atomic (encoded (T.bytes value.now))
            (output W.view self.old) (output W.view self.new) result }
    {
        if has_large_error::<W>() {
            return self.item_apart(value);
        }
        Ok(value.encode(&mut self.writer)?)
    }

    /// Out of line: to a writer with a large error the caller's frame stays small.
    #[inline(never)]
    fn item_apart<T: Encode>(&mut self, value: &T) -> Result<(), EncodeError<W::Error>>
        ensures { Serializes W.atomic (encoded (T.bytes value.now))
            (output W.view self.old) (output W.view self.new) result }
    {
        Ok(value.encode(&mut self.writer)?)
    }

    /// For a writer with a large error.
    #[inline]
    pub(crate) fn put_head(&mut self, major: u8, argument: u64) -> Result<(), EncodeError<W::Error>>
        requires { major < 8 }
        ensures writes { Serializes W.atomic (encoded (shortest_head major argument))
            (output W.view self.old) (output W.view self.new) result }
        ensures whole { AllOrNothing W.atomic (output W.view self.old) (output W.view self.new)
            result }
    {
        let mut answer = Ok(());
        if push_head_apart(&mut self.writer, major, argument, &mut answer).is_none() {
            return answer;
        }
        Ok(())
    }

    /// For a writer with a large error.
    #[inline]
    fn put_signed(&mut self, value: i64) -> Result<(), EncodeError<W::Error>>
        ensures writes { Serializes W.atomic (encoded (signed_head value))
            (output W.view self.old) (output W.view self.new) result }
        ensures whole { AllOrNothing W.atomic (output W.view self.old) (output W.view self.new)
            result }
    {
        if value >= 0 {
            self.put_head(major::UNSIGNED, value as u64)
        } else {
            self.put_head(major::NEGATIVE, (-1 - value) as u64)
        }
    }

    /// For a writer with a large error.
    #[inline]
    fn put_string(&mut self, major: u8, content: &[u8]) -> Result<(), EncodeError<W::Error>>
        requires { major < 8 }
        ensures { Serializes W.atomic (encoded (definite_string major content.now))
            (output W.view self.old) (output W.view self.new) result }
    {
        let mut answer = Ok(());
        if push_string_apart(&mut self.writer, major, content, &mut answer).is_none() {
            return answer;
        }
        Ok(())
    }

    /// False or true, in one byte.
    ///
    /// # Errors
    ///
    /// `Core`, which is described at `Serializer`.
    #[inline]
    pub fn serialize_bool(&mut self, value: bool) -> Result<(), EncodeError<W::Error>>
        ensures writes { Serializes W.atomic (encoded (bool_byte value ∷ []))
            (output W.view self.old) (output W.view self.new) result }
        ensures whole { AllOrNothing W.atomic (output W.view self.old) (output W.view self.new)
            result }
    {
        if has_large_error::<W>() {
            return self.put_head(major::SIMPLE, if value { 21 } else { 20 });
        }
        Ok(value.encode(&mut self.writer)?)
    }

    /// An integer, as a head.
    ///
    /// # Errors
    ///
    /// `Core`, which is described at `Serializer`.
    #[inline]
    pub fn serialize_i8(&mut self, value: i8) -> Result<(), EncodeError<W::Error>>
        ensures writes { Serializes W.atomic (encoded (signed_head value))
            (output W.view self.old) (output W.view self.new) result }
        ensures whole { AllOrNothing W.atomic (output W.view self.old) (output W.view self.new)
            result }
    {
        if has_large_error::<W>() {
            return self.put_signed(value as i64);
        }
        Ok(value.encode(&mut self.writer)?)
    }

    /// An integer, as a head.
    ///
    /// # Errors
    ///
    /// `Core`, which is described at `Serializer`.
    #[inline]
    pub fn serialize_i16(&mut self, value: i16) -> Result<(), EncodeError<W::Error>>
        ensures writes { Serializes W.atomic (encoded (signed_head value))
            (output W.view self.old) (output W.view self.new) result }
        ensures whole { AllOrNothing W.atomic (output W.view self.old) (output W.view self.new)
            result }
    {
        if has_large_error::<W>() {
            return self.put_signed(value as i64);
        }
        Ok(value.encode(&mut self.writer)?)
    }

    /// An integer, as a head.
    ///
    /// # Errors
    ///
    /// `Core`, which is described at `Serializer`.
    #[inline]
    pub fn serialize_i32(&mut self, value: i32) -> Result<(), EncodeError<W::Error>>
        ensures writes { Serializes W.atomic (encoded (signed_head value))
            (output W.view self.old) (output W.view self.new) result }
        ensures whole { AllOrNothing W.atomic (output W.view self.old) (output W.view self.new)
            result }
    {
        if has_large_error::<W>() {
            return self.put_signed(value as i64);
        }
        Ok(value.encode(&mut self.writer)?)
    }

    /// An integer, as a head.
    ///
    /// # Errors
    ///
    /// `Core`, which is described at `Serializer`.
    #[inline]
    pub fn serialize_i64(&mut self, value: i64) -> Result<(), EncodeError<W::Error>>
        ensures writes { Serializes W.atomic (encoded (signed_head value))
            (output W.view self.old) (output W.view self.new) result }
        ensures whole { AllOrNothing W.atomic (output W.view self.old) (output W.view self.new)
            result }
    {
        if has_large_error::<W>() {
            return self.put_signed(value);
        }
        Ok(value.encode(&mut self.writer)?)
    }

    /// An integer, as a head; below -2^64 and from 2^64 on as a bignum (RFC 8949 section 3.4.3).
    ///
    /// # Errors
    ///
    /// `Core`, which is described at `Serializer`.
    pub fn serialize_i128(&mut self, value: i128) -> Result<(), EncodeError<W::Error>>
        ensures { Serializes W.atomic (encoded (signed_bytes value))
            (output W.view self.old) (output W.view self.new) result }
    {
        self.serialize_item(&value)
    }

    /// An integer from 0 on, as a head.
    ///
    /// # Errors
    ///
    /// `Core`, which is described at `Serializer`.
    #[inline]
    pub fn serialize_u8(&mut self, value: u8) -> Result<(), EncodeError<W::Error>>
        ensures writes { Serializes W.atomic (encoded (shortest_head 0 value))
            (output W.view self.old) (output W.view self.new) result }
        ensures whole { AllOrNothing W.atomic (output W.view self.old) (output W.view self.new)
            result }
    {
        if has_large_error::<W>() {
            return self.put_head(major::UNSIGNED, value as u64);
        }
        Ok(value.encode(&mut self.writer)?)
    }

    /// An integer from 0 on, as a head.
    ///
    /// # Errors
    ///
    /// `Core`, which is described at `Serializer`.
    #[inline]
    pub fn serialize_u16(&mut self, value: u16) -> Result<(), EncodeError<W::Error>>
        ensures writes { Serializes W.atomic (encoded (shortest_head 0 value))
            (output W.view self.old) (output W.view self.new) result }
        ensures whole { AllOrNothing W.atomic (output W.view self.old) (output W.view self.new)
            result }
    {
        if has_large_error::<W>() {
            return self.put_head(major::UNSIGNED, value as u64);
        }
        Ok(value.encode(&mut self.writer)?)
    }

    /// An integer from 0 on, as a head.
    ///
    /// # Errors
    ///
    /// `Core`, which is described at `Serializer`.
    #[inline]
    pub fn serialize_u32(&mut self, value: u32) -> Result<(), EncodeError<W::Error>>
        ensures writes { Serializes W.atomic (encoded (shortest_head 0 value))
            (output W.view self.old) (output W.view self.new) result }
        ensures whole { AllOrNothing W.atomic (output W.view self.old) (output W.view self.new)
            result }
    {
        if has_large_error::<W>() {
            return self.put_head(major::UNSIGNED, value as u64);
        }
        Ok(value.encode(&mut self.writer)?)
    }

    /// An integer from 0 on, as a head.
    ///
    /// # Errors
    ///
    /// `Core`, which is described at `Serializer`.
    #[inline]
    pub fn serialize_u64(&mut self, value: u64) -> Result<(), EncodeError<W::Error>>
        ensures writes { Serializes W.atomic (encoded (shortest_head 0 value))
            (output W.view self.old) (output W.view self.new) result }
        ensures whole { AllOrNothing W.atomic (output W.view self.old) (output W.view self.new)
            result }
    {
        if has_large_error::<W>() {
            return self.put_head(major::UNSIGNED, value);
        }
        Ok(value.encode(&mut self.writer)?)
    }

    /// An integer from 0 on, as a head; from 2^64 on as a bignum (RFC 8949 section 3.4.3).
    ///
    /// # Errors
    ///
    /// `Core`, which is described at `Serializer`.
    pub fn serialize_u128(&mut self, value: u128) -> Result<(), EncodeError<W::Error>>
        ensures { Serializes W.atomic (encoded (unsigned_bytes value))
            (output W.view self.old) (output W.view self.new) result }
    {
        self.serialize_item(&value)
    }

    /// A float of two bytes, as its bits.
    ///
    /// # Errors
    ///
    /// `Core`, which is described at `Serializer`.
    #[inline]
    pub fn serialize_f16(&mut self, bits: u16) -> Result<(), EncodeError<W::Error>>
        ensures writes { Serializes W.atomic (encoded (float_bytes 0xf9 2 bits))
            (output W.view self.old) (output W.view self.new) result }
        ensures whole { AllOrNothing W.atomic (output W.view self.old) (output W.view self.new)
            result }
    {
        if has_large_error::<W>() {
            let mut answer = Ok(());
            return match push_f16_apart(&mut self.writer, bits, &mut answer) {
                Some(()) => Ok(()),
                None => answer,
            };
        }
        Ok(F16(bits).encode(&mut self.writer)?)
    }

    /// A float of four bytes, as its bits.
    ///
    /// # Errors
    ///
    /// `Core`, which is described at `Serializer`.
    #[inline]
    pub fn serialize_f32(&mut self, bits: u32) -> Result<(), EncodeError<W::Error>>
        ensures writes { Serializes W.atomic (encoded (float_bytes 0xfa 4 bits))
            (output W.view self.old) (output W.view self.new) result }
        ensures whole { AllOrNothing W.atomic (output W.view self.old) (output W.view self.new)
            result }
    {
        if has_large_error::<W>() {
            let mut answer = Ok(());
            return match push_f32_apart(&mut self.writer, bits, &mut answer) {
                Some(()) => Ok(()),
                None => answer,
            };
        }
        Ok(F32(bits).encode(&mut self.writer)?)
    }

    /// A float of eight bytes, as its bits.
    ///
    /// # Errors
    ///
    /// `Core`, which is described at `Serializer`.
    #[inline]
    pub fn serialize_f64(&mut self, bits: u64) -> Result<(), EncodeError<W::Error>>
        ensures writes { Serializes W.atomic (encoded (float_bytes 0xfb 8 bits))
            (output W.view self.old) (output W.view self.new) result }
        ensures whole { AllOrNothing W.atomic (output W.view self.old) (output W.view self.new)
            result }
    {
        if has_large_error::<W>() {
            let mut answer = Ok(());
            return match push_f64_apart(&mut self.writer, bits, &mut answer) {
                Some(()) => Ok(()),
                None => answer,
            };
        }
        Ok(F64(bits).encode(&mut self.writer)?)
    }

    /// A text of one character.
    ///
    /// # Errors
    ///
    /// `Core`, which is described at `Serializer`.
    pub fn serialize_char(&mut self, value: char) -> Result<(), EncodeError<W::Error>>
        ensures { Serializes W.atomic (encoded (definite_string 3 (encode_utf8 value)))
            (output W.view self.old) (output W.view self.new) result }
    {
        let mut bytes = [0; 4];
        self.serialize_str(value.encode_utf8(&mut bytes))
    }

    /// A text of definite length.
    ///
    /// # Errors
    ///
    /// `Core`, which is described at `Serializer`.
    #[inline]
    pub fn serialize_str(&mut self, value: &str) -> Result<(), EncodeError<W::Error>>
        ensures { Serializes W.atomic (encoded (definite_string 3 value.now))
            (output W.view self.old) (output W.view self.new) result }
    {
        if has_large_error::<W>() {
            return self.put_string(major::STRING, value.as_bytes());
        }
        self.serialize_item(&value)
    }

    /// A byte string of definite length.
    ///
    /// # Errors
    ///
    /// `Core`, which is described at `Serializer`.
    #[inline]
    pub fn serialize_bytes(&mut self, value: &[u8]) -> Result<(), EncodeError<W::Error>>
        ensures { Serializes W.atomic (encoded (definite_string 2 value.now))
            (output W.view self.old) (output W.view self.new) result }
    {
        if has_large_error::<W>() {
            return self.put_string(major::BYTES, value);
        }
        self.serialize_item(&Bytes(value))
    }

    /// Null, which is none.
    ///
    /// # Errors
    ///
    /// `Core`, which is described at `Serializer`.
    #[inline]
    pub fn serialize_none(&mut self) -> Result<(), EncodeError<W::Error>>
        ensures writes { Serializes W.atomic (encoded (0xf6 ∷ []))
            (output W.view self.old) (output W.view self.new) result }
        ensures whole { AllOrNothing W.atomic (output W.view self.old) (output W.view self.new)
            result }
    {
        if has_large_error::<W>() {
            return self.put_head(major::SIMPLE, 22);
        }
        Ok(Null.encode(&mut self.writer)?)
    }

    /// The value itself.
    ///
    /// # Errors
    ///
    /// Those of the value's `serialize`.
    #[inline]
    pub fn serialize_some<T: Serialize>(&mut self, value: &T) -> Result<(), EncodeError<W::Error>>
        ensures { Serializes W.atomic (T.encoding value.now)
            (output W.view self.old) (output W.view self.new) result }
    {
        value.serialize(self)
    }

    /// An array of no item.
    ///
    /// # Errors
    ///
    /// `Core`, which is described at `Serializer`.
    #[inline]
    pub fn serialize_unit(&mut self) -> Result<(), EncodeError<W::Error>>
        ensures writes { Serializes W.atomic (encoded (shortest_head 4 0))
            (output W.view self.old) (output W.view self.new) result }
        ensures whole { AllOrNothing W.atomic (output W.view self.old) (output W.view self.new)
            result }
    {
        self.array_head(0)
    }

    /// An array of no item; the struct's name is not written.
    ///
    /// # Errors
    ///
    /// `Core`, which is described at `Serializer`.
    pub fn serialize_unit_struct(&mut self, _name: &str) -> Result<(), EncodeError<W::Error>>
        ensures writes { Serializes W.atomic (encoded (shortest_head 4 0))
            (output W.view self.old) (output W.view self.new) result }
        ensures whole { AllOrNothing W.atomic (output W.view self.old) (output W.view self.new)
            result }
    {
        self.serialize_unit()
    }

    /// The variant's name as a text; the enum's name and the variant's index are not written.
    ///
    /// # Errors
    ///
    /// `Core`, which is described at `Serializer`.
    pub fn serialize_unit_variant(
        &mut self,
        _name: &str,
        _variant_index: u32,
        variant: &str,
    ) -> Result<(), EncodeError<W::Error>>
        ensures { Serializes W.atomic (encoded (definite_string 3 variant.now))
            (output W.view self.old) (output W.view self.new) result }
    {
        self.serialize_str(variant)
    }

    /// The content itself; the struct's name is not written.
    ///
    /// # Errors
    ///
    /// Those of the content's `serialize`.
    #[inline]
    pub fn serialize_newtype_struct<T: Serialize>(
        &mut self,
        _name: &str,
        value: &T,
    ) -> Result<(), EncodeError<W::Error>>
        ensures { Serializes W.atomic (T.encoding value.now)
            (output W.view self.old) (output W.view self.new) result }
    {
        value.serialize(self)
    }

    /// A map of one pair, the variant's name and the content; the enum's name and the variant's
    /// index are not written.
    ///
    /// # Errors
    ///
    /// `Core` at the name, and those of the content's `serialize`. They are described at
    /// `Serializer`. The name stays where the content is rejected.
    pub fn serialize_newtype_variant<T: Serialize>(
        &mut self,
        _name: &str,
        _variant_index: u32,
        variant: &str,
        value: &T,
    ) -> Result<(), EncodeError<W::Error>>
        ensures { Serializes W.atomic (variant_encoding variant.now (T.encoding value.now))
            (output W.view self.old) (output W.view self.new) result }
    {
        let mut answer = Ok(());
        put_variant(self, variant, value, &mut answer);
        answer
    }
}
