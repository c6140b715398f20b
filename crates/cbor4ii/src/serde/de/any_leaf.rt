//! Items that hold no other, read as values.
ghost use Rattle.std.specs.Prelude.{◌≡◌};
ghost use Rattle.cbor4ii_items.specs.Decoding.{Decodes};
ghost use Rattle.cbor4ii_tree.specs.declared.value.Value.{Value as AnyValue};
ghost use Rattle.cbor4ii.specs.Any.{kind, tag_kind, simple_kind, of_integer, of_bytes, of_text};
ghost use Rattle.cbor4ii.specs.Any.{of_bool, of_null, of_f16, of_f32, of_f64};
ghost use Rattle.cbor4ii.specs.AnyFormat.{any_leaf, formed_format};
ghost use Rattle.cbor4ii.specs.declared.serde.de.any_leaf.AnyLeaf.TheVariants.{Bignum};
ghost use Rattle.cbor4ii.specs.Typed.{input, answer_of};

use crate::serde::de::deserializer::{Deserializer, take_item};
use crate::serde::de::error::DecodeError;
use cbor4ii_items::decode::Decode;
use cbor4ii_items::types::{Bytes, F16, F32, F64, Simple};
use cbor4ii_items::{major, marker};
use cbor4ii_rw::read::Source;
use cbor4ii_tree::{FloatBits, Value};
use std::alloc::Global;

#[derive(Clone, Copy)]
pub(crate) enum AnyKind {
    /// An item that holds no other.
    Leaf(AnyLeaf),
    Array,
    Map,
    /// No item that is read as a value: a tag other than a bignum's, or none of the simple values
    /// and floats.
    Other,
}

#[derive(Clone, Copy)]
pub(crate) enum AnyLeaf {
    /// A number, or a negative bignum.
    Integer,
    /// A bignum from 0 on.
    Bignum,
    Bytes,
    Text,
    Bool,
    Null,
    /// A float of two bytes.
    F16,
    /// A float of four bytes.
    F32,
    /// A float of eight bytes.
    F64,
}

pub(crate) fn kind_of(first: u8) -> AnyKind
    ensures { result ≡ kind first }
{
    match first / 32 {
        major::UNSIGNED | major::NEGATIVE => AnyKind::Leaf(AnyLeaf::Integer),
        major::BYTES => AnyKind::Leaf(AnyLeaf::Bytes),
        major::STRING => AnyKind::Leaf(AnyLeaf::Text),
        major::ARRAY => AnyKind::Array,
        major::MAP => AnyKind::Map,
        major::TAG => tag_kind_of(first),
        _ => simple_kind_of(first),
    }
}

/// A bignum, or nothing that is read.
fn tag_kind_of(first: u8) -> AnyKind
    ensures { result ≡ tag_kind first }
{
    match first {
        0xc2 => AnyKind::Leaf(AnyLeaf::Bignum),
        0xc3 => AnyKind::Leaf(AnyLeaf::Integer),
        _ => AnyKind::Other,
    }
}

fn simple_kind_of(first: u8) -> AnyKind
    ensures { result ≡ simple_kind first }
{
    match first {
        marker::FALSE | marker::TRUE => AnyKind::Leaf(AnyLeaf::Bool),
        marker::NULL | marker::UNDEFINED => AnyKind::Leaf(AnyLeaf::Null),
        marker::F16 => AnyKind::Leaf(AnyLeaf::F16),
        marker::F32 => AnyKind::Leaf(AnyLeaf::F32),
        marker::F64 => AnyKind::Leaf(AnyLeaf::F64),
        _ => AnyKind::Other,
    }
}

trait AsValue: Sized {
    ghost form: { Self → AnyValue };

    fn as_value(self) -> Value
        ensures { result ≡ form self };
}

impl AsValue for i128 {
    ghost form = { of_integer };

    fn as_value(self) -> Value {
        Value::Integer(self)
    }
}

impl AsValue for Bytes<Vec<u8>> {
    ghost form = { of_bytes };

    fn as_value(self) -> Value {
        Value::Bytes(self.0)
    }
}

impl AsValue for String {
    ghost form = { of_text };

    fn as_value(self) -> Value {
        Value::Text(self)
    }
}

impl AsValue for bool {
    ghost form = { of_bool };

    fn as_value(self) -> Value {
        Value::Bool(self)
    }
}

// Read after a first byte that says null or undefined alone.
impl AsValue for Simple {
    ghost form = { of_null };

    fn as_value(self) -> Value {
        Value::Null
    }
}

impl AsValue for F16 {
    ghost form = { of_f16 };

    fn as_value(self) -> Value {
        Value::Float(FloatBits::F16(self.0))
    }
}

impl AsValue for F32 {
    ghost form = { of_f32 };

    fn as_value(self) -> Value {
        Value::Float(FloatBits::F32(self.0))
    }
}

impl AsValue for F64 {
    ghost form = { of_f64 };

    fn as_value(self) -> Value {
        Value::Float(FloatBits::F64(self.0))
    }
}

pub(crate) fn take_leaf<S: Source>(
    alloc: Global,
    de: &mut Deserializer<S>,
    leaf: AnyLeaf,
) -> Result<Value, DecodeError<S::Error>>
    ensures { Decodes (any_leaf leaf)
        (input S.view de.old) (input S.view de.new) (answer_of result) }
{
    match leaf {
        AnyLeaf::Integer => take_as::<S, i128>(alloc, de),
        AnyLeaf::Bignum => take_bignum(alloc, de),
        AnyLeaf::Bytes => take_as::<S, Bytes<Vec<u8>>>(alloc, de),
        AnyLeaf::Text => take_as::<S, String>(alloc, de),
        AnyLeaf::Bool => take_as::<S, bool>(alloc, de),
        AnyLeaf::Null => take_as::<S, Simple>(alloc, de),
        AnyLeaf::F16 => take_as::<S, F16>(alloc, de),
        AnyLeaf::F32 => take_as::<S, F32>(alloc, de),
        AnyLeaf::F64 => take_as::<S, F64>(alloc, de),
    }
}

fn take_as<S: Source, T: Decode<S> + AsValue>(
    alloc: Global,
    de: &mut Deserializer<S>,
) -> Result<Value, DecodeError<S::Error>>
    ensures { Decodes (formed_format T.form T.format)
        (input S.view de.old) (input S.view de.new) (answer_of result) }
{
    match take_item::<S, T>(alloc, de) {
        Ok(item) => Ok(item.as_value()),
        Err(error) => Err(error),
    }
}

/// It is rejected where it is no i128.
fn take_bignum<S: Source>(
    alloc: Global,
    de: &mut Deserializer<S>,
) -> Result<Value, DecodeError<S::Error>>
    ensures { Decodes (any_leaf Bignum)
        (input S.view de.old) (input S.view de.new) (answer_of result) }
{
    match take_item::<S, u128>(alloc, de) {
        Ok(number) => {
            if number < 1 << 127 {
                Ok(Value::Integer(number as i128))
            } else {
                Err(DecodeError::Custom("integer out of range"))
            }
        }
        Err(error) => Err(error),
    }
}
