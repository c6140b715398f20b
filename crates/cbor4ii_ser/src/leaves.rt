//! Values that are one item, and values that wrap one. Integers of at most 64 bits are their
//! shortest head (RFC 8949 section 3.1), and floats their first byte and their bits, most
//! significant first: one push each.
ghost use Rattle.std.specs.Prelude.{◌∷◌, [], string_bytes};
ghost use Rattle.std.specs.Char.{encode_utf8};
ghost use Rattle.cbor4ii_items.specs.Cow.{cow_text};
ghost use Rattle.cbor4ii_items.specs.Floats.{float_bytes};
ghost use Rattle.cbor4ii_items.specs.Numbers.{shortest_head, signed_head, signed_bytes};
ghost use Rattle.cbor4ii_items.specs.Numbers.{unsigned_bytes};
ghost use Rattle.cbor4ii_items.specs.Simple.{bool_byte};
ghost use Rattle.cbor4ii_items.specs.Strings.{definite_string};
ghost use Rattle.cbor4ii_ser.specs.Item.{encoded, option_encoding};

use crate::error::EncodeError;
use crate::leaf::Leaf;
use crate::serialize::Serialize;
use crate::serializer::Serializer;
use cbor4ii_items::types::{Bytes, F16, F32, F64};
use cbor4ii_rw::write::Write;
use std::alloc::Global;
use std::borrow::CowStr;

/// False or true, in one byte.
impl Serialize for bool {
    ghost encoding = { λ v. encoded (bool_byte v ∷ []) };

    #[inline]
    fn serialize<W: Write>(&self, ser: &mut Serializer<W>) -> Result<(), EncodeError<W::Error>> {
        ser.serialize_bool(*self)
    }

    #[inline(always)]
    fn is_leaf() -> bool {
        true
    }

    #[inline(always)]
    fn as_leaf(&self) -> Option<Leaf<'_>> {
        Some(Leaf::Bool(*self))
    }
}

impl Serialize for i8 {
    ghost encoding = { λ v. encoded (signed_head v) };

    #[inline]
    fn serialize<W: Write>(&self, ser: &mut Serializer<W>) -> Result<(), EncodeError<W::Error>> {
        ser.serialize_i8(*self)
    }

    #[inline(always)]
    fn is_leaf() -> bool {
        true
    }

    #[inline(always)]
    fn as_leaf(&self) -> Option<Leaf<'_>> {
        Some(Leaf::signed(*self as i64))
    }
}

impl Serialize for i16 {
    ghost encoding = { λ v. encoded (signed_head v) };

    #[inline]
    fn serialize<W: Write>(&self, ser: &mut Serializer<W>) -> Result<(), EncodeError<W::Error>> {
        ser.serialize_i16(*self)
    }

    #[inline(always)]
    fn is_leaf() -> bool {
        true
    }

    #[inline(always)]
    fn as_leaf(&self) -> Option<Leaf<'_>> {
        Some(Leaf::signed(*self as i64))
    }
}

impl Serialize for i32 {
    ghost encoding = { λ v. encoded (signed_head v) };

    #[inline]
    fn serialize<W: Write>(&self, ser: &mut Serializer<W>) -> Result<(), EncodeError<W::Error>> {
        ser.serialize_i32(*self)
    }

    #[inline(always)]
    fn is_leaf() -> bool {
        true
    }

    #[inline(always)]
    fn as_leaf(&self) -> Option<Leaf<'_>> {
        Some(Leaf::signed(*self as i64))
    }
}

impl Serialize for i64 {
    ghost encoding = { λ v. encoded (signed_head v) };

    #[inline]
    fn serialize<W: Write>(&self, ser: &mut Serializer<W>) -> Result<(), EncodeError<W::Error>> {
        ser.serialize_i64(*self)
    }

    #[inline(always)]
    fn is_leaf() -> bool {
        true
    }

    #[inline(always)]
    fn as_leaf(&self) -> Option<Leaf<'_>> {
        Some(Leaf::signed(*self))
    }
}

/// Its shortest head, or a bignum where none has room for it (RFC 8949 section 3.4.3).
impl Serialize for i128 {
    ghost encoding = { λ v. encoded (signed_bytes v) };

    #[inline]
    fn serialize<W: Write>(&self, ser: &mut Serializer<W>) -> Result<(), EncodeError<W::Error>> {
        ser.serialize_i128(*self)
    }
}

impl Serialize for u8 {
    ghost encoding = { λ v. encoded (shortest_head 0 v) };

    #[inline]
    fn serialize<W: Write>(&self, ser: &mut Serializer<W>) -> Result<(), EncodeError<W::Error>> {
        ser.serialize_u8(*self)
    }

    #[inline(always)]
    fn is_leaf() -> bool {
        true
    }

    #[inline(always)]
    fn as_leaf(&self) -> Option<Leaf<'_>> {
        Some(Leaf::unsigned(*self as u64))
    }
}

impl Serialize for u16 {
    ghost encoding = { λ v. encoded (shortest_head 0 v) };

    #[inline]
    fn serialize<W: Write>(&self, ser: &mut Serializer<W>) -> Result<(), EncodeError<W::Error>> {
        ser.serialize_u16(*self)
    }

    #[inline(always)]
    fn is_leaf() -> bool {
        true
    }

    #[inline(always)]
    fn as_leaf(&self) -> Option<Leaf<'_>> {
        Some(Leaf::unsigned(*self as u64))
    }
}

impl Serialize for u32 {
    ghost encoding = { λ v. encoded (shortest_head 0 v) };

    #[inline]
    fn serialize<W: Write>(&self, ser: &mut Serializer<W>) -> Result<(), EncodeError<W::Error>> {
        ser.serialize_u32(*self)
    }

    #[inline(always)]
    fn is_leaf() -> bool {
        true
    }

    #[inline(always)]
    fn as_leaf(&self) -> Option<Leaf<'_>> {
        Some(Leaf::unsigned(*self as u64))
    }
}

impl Serialize for u64 {
    ghost encoding = { λ v. encoded (shortest_head 0 v) };

    #[inline]
    fn serialize<W: Write>(&self, ser: &mut Serializer<W>) -> Result<(), EncodeError<W::Error>> {
        ser.serialize_u64(*self)
    }

    #[inline(always)]
    fn is_leaf() -> bool {
        true
    }

    #[inline(always)]
    fn as_leaf(&self) -> Option<Leaf<'_>> {
        Some(Leaf::unsigned(*self))
    }
}

/// Its shortest head, or a bignum where none has room for it (RFC 8949 section 3.4.3).
impl Serialize for u128 {
    ghost encoding = { λ v. encoded (unsigned_bytes v) };

    #[inline]
    fn serialize<W: Write>(&self, ser: &mut Serializer<W>) -> Result<(), EncodeError<W::Error>> {
        ser.serialize_u128(*self)
    }
}

impl Serialize for F16 {
    ghost encoding = { λ v. encoded (float_bytes 0xf9 2 v.0) };

    #[inline]
    fn serialize<W: Write>(&self, ser: &mut Serializer<W>) -> Result<(), EncodeError<W::Error>> {
        ser.serialize_f16(self.0)
    }

    #[inline(always)]
    fn is_leaf() -> bool {
        true
    }

    #[inline(always)]
    fn as_leaf(&self) -> Option<Leaf<'_>> {
        Some(Leaf::F16(self.0))
    }
}

impl Serialize for F32 {
    ghost encoding = { λ v. encoded (float_bytes 0xfa 4 v.0) };

    #[inline]
    fn serialize<W: Write>(&self, ser: &mut Serializer<W>) -> Result<(), EncodeError<W::Error>> {
        ser.serialize_f32(self.0)
    }

    #[inline(always)]
    fn is_leaf() -> bool {
        true
    }

    #[inline(always)]
    fn as_leaf(&self) -> Option<Leaf<'_>> {
        Some(Leaf::F32(self.0))
    }
}

impl Serialize for F64 {
    ghost encoding = { λ v. encoded (float_bytes 0xfb 8 v.0) };

    #[inline]
    fn serialize<W: Write>(&self, ser: &mut Serializer<W>) -> Result<(), EncodeError<W::Error>> {
        ser.serialize_f64(self.0)
    }

    #[inline(always)]
    fn is_leaf() -> bool {
        true
    }

    #[inline(always)]
    fn as_leaf(&self) -> Option<Leaf<'_>> {
        Some(Leaf::F64(self.0))
    }
}

/// A text of one character.
impl Serialize for char {
    ghost encoding = { λ v. encoded (definite_string 3 (encode_utf8 v)) };

    #[inline]
    fn serialize<W: Write>(&self, ser: &mut Serializer<W>) -> Result<(), EncodeError<W::Error>> {
        ser.serialize_char(*self)
    }
}

impl<'a> Serialize for &'a str {
    ghost encoding = { λ v. encoded (definite_string 3 v.now) };

    #[inline]
    fn serialize<W: Write>(&self, ser: &mut Serializer<W>) -> Result<(), EncodeError<W::Error>> {
        ser.serialize_str(self)
    }

    #[inline(always)]
    fn is_leaf() -> bool {
        true
    }

    #[inline(always)]
    fn as_leaf(&self) -> Option<Leaf<'_>> {
        Some(Leaf::Text(self))
    }
}

impl Serialize for String {
    ghost encoding = { λ v. encoded (definite_string 3 (string_bytes v)) };

    #[inline]
    fn serialize<W: Write>(&self, ser: &mut Serializer<W>) -> Result<(), EncodeError<W::Error>> {
        ser.serialize_str(self.as_str())
    }

    #[inline(always)]
    fn is_leaf() -> bool {
        true
    }

    #[inline(always)]
    fn as_leaf(&self) -> Option<Leaf<'_>> {
        Some(Leaf::Text(self.as_str()))
    }
}

/// A text, whether borrowed or owned.
impl<'a> Serialize for CowStr<'a, Global> {
    ghost encoding = { λ v. encoded (definite_string 3 (cow_text v)) };

    #[inline]
    fn serialize<W: Write>(&self, ser: &mut Serializer<W>) -> Result<(), EncodeError<W::Error>> {
        ser.serialize_str(self)
    }

    #[inline(always)]
    fn is_leaf() -> bool {
        true
    }

    #[inline(always)]
    fn as_leaf(&self) -> Option<Leaf<'_>> {
        Some(Leaf::Text(self))
    }
}

impl<'a> Serialize for Bytes<&'a [u8]> {
    ghost encoding = { λ v. encoded (definite_string 2 v.0.now) };

    #[inline]
    fn serialize<W: Write>(&self, ser: &mut Serializer<W>) -> Result<(), EncodeError<W::Error>> {
        ser.serialize_bytes(self.0)
    }

    #[inline(always)]
    fn is_leaf() -> bool {
        true
    }

    #[inline(always)]
    fn as_leaf(&self) -> Option<Leaf<'_>> {
        Some(Leaf::Bytes(self.0))
    }
}

impl Serialize for Bytes<Vec<u8>> {
    ghost encoding = { λ v. encoded (definite_string 2 v.0.items) };

    #[inline]
    fn serialize<W: Write>(&self, ser: &mut Serializer<W>) -> Result<(), EncodeError<W::Error>> {
        ser.serialize_bytes(self.0.as_slice())
    }

    #[inline(always)]
    fn is_leaf() -> bool {
        true
    }

    #[inline(always)]
    fn as_leaf(&self) -> Option<Leaf<'_>> {
        Some(Leaf::Bytes(self.0.as_slice()))
    }
}

/// An array of no item.
impl Serialize for () {
    ghost encoding = { λ _. encoded (shortest_head 4 0) };

    #[inline]
    fn serialize<W: Write>(&self, ser: &mut Serializer<W>) -> Result<(), EncodeError<W::Error>> {
        ser.serialize_unit()
    }
}

/// The value in the box.
impl<T: Serialize> Serialize for Box<T> {
    ghost encoding = { λ b. T.encoding b.value };

    #[inline]
    fn serialize<W: Write>(&self, ser: &mut Serializer<W>) -> Result<(), EncodeError<W::Error>> {
        T::serialize(self.as_ref(), ser)
    }

    #[inline(always)]
    fn is_leaf() -> bool {
        T::is_leaf()
    }

    #[inline(always)]
    fn as_leaf(&self) -> Option<Leaf<'_>> {
        T::as_leaf(self.as_ref())
    }
}

/// Null for none, and else the value itself.
impl<T: Serialize> Serialize for Option<T> {
    ghost encoding = { option_encoding T.encoding };

    #[inline]
    fn serialize<W: Write>(&self, ser: &mut Serializer<W>) -> Result<(), EncodeError<W::Error>> {
        match self {
            None => ser.serialize_none(),
            Some(value) => ser.serialize_some(value),
        }
    }

    #[inline(always)]
    fn is_leaf() -> bool {
        T::is_leaf()
    }

    #[inline(always)]
    fn as_leaf(&self) -> Option<Leaf<'_>> {
        match self {
            None => Some(Leaf::Null),
            Some(value) => value.as_leaf(),
        }
    }
}

/// A reference to a value, written as the value.
impl<'a, T: Serialize> Serialize for &'a T {
    ghost encoding = { λ v. T.encoding v.now };

    #[inline]
    fn serialize<W: Write>(&self, ser: &mut Serializer<W>) -> Result<(), EncodeError<W::Error>> {
        T::serialize(self, ser)
    }

    #[inline(always)]
    fn is_leaf() -> bool {
        T::is_leaf()
    }

    #[inline(always)]
    fn as_leaf(&self) -> Option<Leaf<'_>> {
        T::as_leaf(self)
    }
}
