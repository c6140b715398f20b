//! Values that hold no other value, as what is written for them.
ghost use Rattle.std.specs.Prelude.{◌≡◌, ◌<◌, ◌∷◌, []};
ghost use Rattle.cbor4ii_items.specs.Numbers.{shortest_head, signed_head};
ghost use Rattle.cbor4ii_items.specs.Simple.{bool_byte};
ghost use Rattle.cbor4ii_ser.specs.Item.{encoded};
ghost use Rattle.cbor4ii_ser.specs.Leaf.{bytes_of_leaf, major_of_sign, is_one_push};
ghost use Rattle.cbor4ii_ser.specs.Pushing.{Pushes, PushesOnce, PushesInTurn};
ghost use Rattle.cbor4ii_ser.specs.Serializing.{output};

use crate::error::EncodeError;
use crate::serialize::Serialize;
use crate::serializer::Serializer;
use crate::slot::{
    has_large_error, push, push_f16, push_f16_apart, push_f32, push_f32_apart, push_f64,
    push_f64_apart, push_head_apart, push_long_head, push_string, push_string_apart, push_text,
    push_text_apart, put_part,
};
use cbor4ii_items::{major, marker};
use cbor4ii_rw::write::Write;

/// What is written for a value that holds no other value (RFC 8949 sections 3.1 and 3.3).
#[derive(Clone, Copy, Debug, PartialEq, Eq)]
pub enum Leaf<'a> {
    /// An integer, as its shortest head: `argument`, or -1 - `argument` where it is negative.
    Integer {
        /// Whether it is below 0.
        is_negative: bool,
        /// The argument of its head.
        argument: u64,
    },
    /// A byte string of definite length.
    Bytes(&'a [u8]),
    /// A text of definite length.
    Text(&'a str),
    /// False or true.
    Bool(bool),
    /// Null.
    Null,
    /// A float of two bytes, as its bits.
    F16(u16),
    /// A float of four bytes, as its bits.
    F32(u32),
    /// A float of eight bytes, as its bits.
    F64(u64),
}

impl<'a> Leaf<'a> {
    /// An integer from 0 on.
    #[inline(always)]
    pub fn unsigned(value: u64) -> Leaf<'a>
        ensures { bytes_of_leaf result ≡ shortest_head 0 value }
    {
        Leaf::Integer {
            is_negative: false,
            argument: value,
        }
    }

    /// An integer of either sign.
    #[inline(always)]
    pub fn signed(value: i64) -> Leaf<'a>
        ensures { bytes_of_leaf result ≡ signed_head value }
    {
        if value >= 0 {
            return Leaf::unsigned(value as u64);
        }
        Leaf::Integer {
            is_negative: true,
            argument: (-1 - value) as u64,
        }
    }
}

/// Writes a value: in line where it is a leaf, and else by its `serialize`.
#[inline(always)]
pub(crate) fn put_leaf<W: Write, T: Serialize>(
    ser: &mut Serializer<W>,
    value: &T,
    answer: &mut Result<(), EncodeError<W::Error>>,
) -> Option<()>
    ensures { PushesInTurn W.atomic (T.encoding value.now)
        (output W.view ser.old) (output W.view ser.new) result answer.old answer.new }
{
    match value.as_leaf() {
        Some(leaf) => push_leaf(&mut ser.writer, leaf, answer),
        None => put_part(ser, value, answer),
    }
}

/// To a writer with a large error a leaf is written by functions that all such parts share.
#[inline(always)]
pub(crate) fn put_value<W: Write, T: Serialize>(
    ser: &mut Serializer<W>,
    value: &T,
    answer: &mut Result<(), EncodeError<W::Error>>,
) -> Option<()>
    ensures { PushesInTurn W.atomic (T.encoding value.now)
        (output W.view ser.old) (output W.view ser.new) result answer.old answer.new }
{
    if has_large_error::<W>() {
        return put_leaf_apart(ser, value, answer);
    }
    put_leaf(ser, value, answer)
}

#[inline(always)]
fn put_leaf_apart<W: Write, T: Serialize>(
    ser: &mut Serializer<W>,
    value: &T,
    answer: &mut Result<(), EncodeError<W::Error>>,
) -> Option<()>
    ensures { PushesInTurn W.atomic (T.encoding value.now)
        (output W.view ser.old) (output W.view ser.new) result answer.old answer.new }
{
    match value.as_leaf() {
        Some(leaf) => push_leaf_apart(&mut ser.writer, leaf, answer),
        None => put_part(ser, value, answer),
    }
}

/// One push, of a string one of its head and one of its content.
#[inline(always)]
fn push_leaf<W: Write>(
    writer: &mut W,
    leaf: Leaf<'_>,
    answer: &mut Result<(), EncodeError<W::Error>>,
) -> Option<()>
    ensures { Pushes (is_one_push leaf.entry) W.atomic (encoded (bytes_of_leaf leaf.entry))
        (W.view writer.old) (W.view writer.new) result answer.old answer.new }
{
    match leaf {
        Leaf::Integer {
            is_negative,
            argument,
        } => push_integer(writer, major_of(is_negative), argument, answer),
        Leaf::Bytes(content) => push_string(writer, major::BYTES, content, answer),
        Leaf::Text(text) => push_text(writer, text, answer),
        Leaf::Bool(value) => push(writer, &[byte_of(value)], answer),
        Leaf::Null => push(writer, &[marker::NULL], answer),
        Leaf::F16(bits) => push_f16(writer, bits, answer),
        Leaf::F32(bits) => push_f32(writer, bits, answer),
        Leaf::F64(bits) => push_f64(writer, bits, answer),
    }
}

#[inline(always)]
fn push_leaf_apart<W: Write>(
    writer: &mut W,
    leaf: Leaf<'_>,
    answer: &mut Result<(), EncodeError<W::Error>>,
) -> Option<()>
    ensures { Pushes (is_one_push leaf.entry) W.atomic (encoded (bytes_of_leaf leaf.entry))
        (W.view writer.old) (W.view writer.new) result answer.old answer.new }
{
    match leaf {
        Leaf::Integer {
            is_negative,
            argument,
        } => push_head_apart(writer, major_of(is_negative), argument, answer),
        Leaf::Bytes(content) => push_string_apart(writer, major::BYTES, content, answer),
        Leaf::Text(text) => push_text_apart(writer, text, answer),
        Leaf::Bool(value) => push_head_apart(writer, major::SIMPLE, simple_of(value), answer),
        Leaf::Null => push_head_apart(writer, major::SIMPLE, 22, answer),
        Leaf::F16(bits) => push_f16_apart(writer, bits, answer),
        Leaf::F32(bits) => push_f32_apart(writer, bits, answer),
        Leaf::F64(bits) => push_f64_apart(writer, bits, answer),
    }
}

#[inline(always)]
fn major_of(is_negative: bool) -> u8
    ensures is { result ≡ major_of_sign is_negative }
    ensures small { result < 8 }
{
    if is_negative {
        major::NEGATIVE
    } else {
        major::UNSIGNED
    }
}

#[inline(always)]
fn byte_of(value: bool) -> u8
    ensures { result ≡ bool_byte value }
{
    if value { marker::TRUE } else { marker::FALSE }
}

#[inline(always)]
fn simple_of(value: bool) -> u64
    ensures { shortest_head 7 result ≡ bool_byte value ∷ [] }
{
    if value { 21 } else { 20 }
}

/// In line, the longer heads too.
#[inline(always)]
fn push_integer<W: Write>(
    writer: &mut W,
    major: u8,
    argument: u64,
    answer: &mut Result<(), EncodeError<W::Error>>,
) -> Option<()>
    requires { major < 8 }
    ensures { PushesOnce W.atomic (encoded (shortest_head major argument))
        (W.view writer.old) (W.view writer.new) result answer.old answer.new }
{
    if argument < 24 {
        push(writer, &[32 * major + argument as u8], answer)
    } else {
        push_long_head(writer, major, argument, answer)
    }
}
