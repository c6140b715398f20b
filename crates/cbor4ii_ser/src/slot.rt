//! Parts of items, written with a small answer.
//!
//! Where a writer has a large error, an answer that holds one is large too, and each call clears
//! and fills the room that it takes. So these answer only whether they wrote. Where they did not,
//! the whole answer goes through a reference. What pushes is out of line, since each push takes
//! room in the frame that it stands in. For the same reason heads are not written by
//! `cbor4ii_items`, whose answer holds the writer's error.
ghost use Rattle.std.specs.Prelude.{◌≡◌, ◌<◌, ◌≤◌, ◌∷◌, [], ◌++◌, Err};
ghost use Rattle.cbor4ii_rw.specs.declared.error.EncodeError.TheVariants.{Write};
ghost use Rattle.cbor4ii_items.specs.Floats.{float_bytes};
ghost use Rattle.cbor4ii_items.specs.Numbers.{shortest_head};
ghost use Rattle.cbor4ii_items.specs.Strings.{definite_string};
ghost use Rattle.cbor4ii_ser.specs.Item.{encoded, one_then, variant_head, variant_encoding};
ghost use Rattle.cbor4ii_ser.specs.Item.{tuple_variant_encoding};
ghost use Rattle.cbor4ii_ser.specs.Pushing.{PushesOnce, PushesInTurn};
ghost use Rattle.cbor4ii_ser.specs.Serializing.{output};
ghost use Rattle.cbor4ii_ser.specs.declared.error.EncodeError.TheVariants.{Core};

use crate::error::EncodeError;
use crate::leaf::put_value;
use crate::serialize::Serialize;
use crate::serializer::Serializer;
use cbor4ii_items::{major, marker};
use cbor4ii_rw::write::Write;
use std::mem::size_of_val;

/// Four references: an error of more bytes is large.
const LARGE: usize = 32;

/// Whether an error of the writer takes much more room than a reference, as a stream's does.
#[inline(always)]
pub(crate) fn has_large_error<W: Write>() -> bool {
    let none: Option<W::Error> = None;
    size_of_val(&none) > LARGE
}

#[cold]
#[inline(never)]
fn leave<E: Drop>(error: E, answer: &mut Result<(), EncodeError<E>>)
    ensures { answer.new ≡ Err (Core (Write error)) }
{
    *answer = Err(EncodeError::write(error));
}

#[inline(always)]
pub(crate) fn push<W: Write>(
    writer: &mut W,
    bytes: &[u8],
    answer: &mut Result<(), EncodeError<W::Error>>,
) -> Option<()>
    ensures { PushesOnce W.atomic (encoded bytes.now)
        (W.view writer.old) (W.view writer.new) result answer.old answer.new }
{
    match writer.push(bytes) {
        Ok(()) => Some(()),
        Err(error) => {
            leave(error, answer);
            None
        }
    }
}

#[inline(never)]
pub(crate) fn push_head_apart<W: Write>(
    writer: &mut W,
    major: u8,
    argument: u64,
    answer: &mut Result<(), EncodeError<W::Error>>,
) -> Option<()>
    requires { major < 8 }
    ensures { PushesOnce W.atomic (encoded (shortest_head major argument))
        (W.view writer.old) (W.view writer.new) result answer.old answer.new }
{
    push_head(writer, major, argument, answer)
}

#[inline(always)]
pub(crate) fn push_head<W: Write>(
    writer: &mut W,
    major: u8,
    argument: u64,
    answer: &mut Result<(), EncodeError<W::Error>>,
) -> Option<()>
    requires { major < 8 }
    ensures { PushesOnce W.atomic (encoded (shortest_head major argument))
        (W.view writer.old) (W.view writer.new) result answer.old answer.new }
{
    if argument < 24 {
        push(writer, &[32 * major + argument as u8], answer)
    } else {
        push_long_head_apart(writer, major, argument, answer)
    }
}

/// The head of an array or a map. In line, but to a writer with a large error apart.
#[inline(always)]
pub(crate) fn push_parts_head<W: Write>(
    writer: &mut W,
    major: u8,
    len: usize,
    answer: &mut Result<(), EncodeError<W::Error>>,
) -> Option<()>
    requires { major < 8 }
    ensures { PushesOnce W.atomic (encoded (shortest_head major len))
        (W.view writer.old) (W.view writer.new) result answer.old answer.new }
{
    if has_large_error::<W>() {
        return push_head_apart(writer, major, len as u64, answer);
    }
    push_head(writer, major, len as u64, answer)
}

#[inline(never)]
fn push_long_head_apart<W: Write>(
    writer: &mut W,
    major: u8,
    argument: u64,
    answer: &mut Result<(), EncodeError<W::Error>>,
) -> Option<()>
    requires major { major < 8 }
    requires long { 24 ≤ argument }
    ensures { PushesOnce W.atomic (encoded (shortest_head major argument))
        (W.view writer.old) (W.view writer.new) result answer.old answer.new }
{
    push_long_head(writer, major, argument, answer)
}

/// For an argument that has bytes of its own.
#[inline(always)]
pub(crate) fn push_long_head<W: Write>(
    writer: &mut W,
    major: u8,
    argument: u64,
    answer: &mut Result<(), EncodeError<W::Error>>,
) -> Option<()>
    requires major { major < 8 }
    requires long { 24 ≤ argument }
    ensures { PushesOnce W.atomic (encoded (shortest_head major argument))
        (W.view writer.old) (W.view writer.new) result answer.old answer.new }
{
    let first = 32 * major;
    if argument < 0x100 {
        push(writer, &[first + 24, argument as u8], answer)
    } else if argument < 0x1_0000 {
        let [a, b] = (argument as u16).to_be_bytes();
        push(writer, &[first + 25, a, b], answer)
    } else if argument < 0x1_0000_0000 {
        let mut bytes = [first + 26, 0, 0, 0, 0];
        bytes[1..].copy_from_slice(&(argument as u32).to_be_bytes());
        push(writer, &bytes, answer)
    } else {
        let mut bytes = [first + 27, 0, 0, 0, 0, 0, 0, 0, 0];
        bytes[1..].copy_from_slice(&argument.to_be_bytes());
        push(writer, &bytes, answer)
    }
}

#[inline(never)]
pub(crate) fn push_f16_apart<W: Write>(
    writer: &mut W,
    bits: u16,
    answer: &mut Result<(), EncodeError<W::Error>>,
) -> Option<()>
    ensures { PushesOnce W.atomic (encoded (float_bytes 0xf9 2 bits))
        (W.view writer.old) (W.view writer.new) result answer.old answer.new }
{
    push_f16(writer, bits, answer)
}

#[inline(always)]
pub(crate) fn push_f16<W: Write>(
    writer: &mut W,
    bits: u16,
    answer: &mut Result<(), EncodeError<W::Error>>,
) -> Option<()>
    ensures { PushesOnce W.atomic (encoded (float_bytes 0xf9 2 bits))
        (W.view writer.old) (W.view writer.new) result answer.old answer.new }
{
    let [a, b] = bits.to_be_bytes();
    push(writer, &[marker::F16, a, b], answer)
}

#[inline(never)]
pub(crate) fn push_f32_apart<W: Write>(
    writer: &mut W,
    bits: u32,
    answer: &mut Result<(), EncodeError<W::Error>>,
) -> Option<()>
    ensures { PushesOnce W.atomic (encoded (float_bytes 0xfa 4 bits))
        (W.view writer.old) (W.view writer.new) result answer.old answer.new }
{
    push_f32(writer, bits, answer)
}

#[inline(always)]
pub(crate) fn push_f32<W: Write>(
    writer: &mut W,
    bits: u32,
    answer: &mut Result<(), EncodeError<W::Error>>,
) -> Option<()>
    ensures { PushesOnce W.atomic (encoded (float_bytes 0xfa 4 bits))
        (W.view writer.old) (W.view writer.new) result answer.old answer.new }
{
    let mut bytes = [marker::F32, 0, 0, 0, 0];
    bytes[1..].copy_from_slice(&bits.to_be_bytes());
    push(writer, &bytes, answer)
}

#[inline(never)]
pub(crate) fn push_f64_apart<W: Write>(
    writer: &mut W,
    bits: u64,
    answer: &mut Result<(), EncodeError<W::Error>>,
) -> Option<()>
    ensures { PushesOnce W.atomic (encoded (float_bytes 0xfb 8 bits))
        (W.view writer.old) (W.view writer.new) result answer.old answer.new }
{
    push_f64(writer, bits, answer)
}

#[inline(always)]
pub(crate) fn push_f64<W: Write>(
    writer: &mut W,
    bits: u64,
    answer: &mut Result<(), EncodeError<W::Error>>,
) -> Option<()>
    ensures { PushesOnce W.atomic (encoded (float_bytes 0xfb 8 bits))
        (W.view writer.old) (W.view writer.new) result answer.old answer.new }
{
    let mut bytes = [marker::F64, 0, 0, 0, 0, 0, 0, 0, 0];
    bytes[1..].copy_from_slice(&bits.to_be_bytes());
    push(writer, &bytes, answer)
}

#[inline(never)]
pub(crate) fn push_string_apart<W: Write>(
    writer: &mut W,
    major: u8,
    content: &[u8],
    answer: &mut Result<(), EncodeError<W::Error>>,
) -> Option<()>
    requires { major < 8 }
    ensures { PushesInTurn W.atomic (encoded (definite_string major content.now))
        (W.view writer.old) (W.view writer.new) result answer.old answer.new }
{
    push_string(writer, major, content, answer)
}

/// Its head in one push and its content in another.
#[inline(always)]
pub(crate) fn push_string<W: Write>(
    writer: &mut W,
    major: u8,
    content: &[u8],
    answer: &mut Result<(), EncodeError<W::Error>>,
) -> Option<()>
    requires { major < 8 }
    ensures { PushesInTurn W.atomic (encoded (definite_string major content.now))
        (W.view writer.old) (W.view writer.new) result answer.old answer.new }
{
    push_head(writer, major, content.len() as u64, answer)?;
    push(writer, content, answer)
}

#[inline(always)]
pub(crate) fn push_text_apart<W: Write>(
    writer: &mut W,
    text: &str,
    answer: &mut Result<(), EncodeError<W::Error>>,
) -> Option<()>
    ensures { PushesInTurn W.atomic (encoded (definite_string 3 text.now))
        (W.view writer.old) (W.view writer.new) result answer.old answer.new }
{
    push_string_apart(writer, major::STRING, text.as_bytes(), answer)
}

/// In line, but to a writer with a large error apart.
#[inline(always)]
pub(crate) fn push_name<W: Write>(
    writer: &mut W,
    name: &str,
    answer: &mut Result<(), EncodeError<W::Error>>,
) -> Option<()>
    ensures { PushesInTurn W.atomic (encoded (definite_string 3 name.now))
        (W.view writer.old) (W.view writer.new) result answer.old answer.new }
{
    if has_large_error::<W>() {
        return push_text_apart(writer, name, answer);
    }
    push_text(writer, name, answer)
}

#[inline(always)]
pub(crate) fn push_text<W: Write>(
    writer: &mut W,
    text: &str,
    answer: &mut Result<(), EncodeError<W::Error>>,
) -> Option<()>
    ensures { PushesInTurn W.atomic (encoded (definite_string 3 text.now))
        (W.view writer.old) (W.view writer.new) result answer.old answer.new }
{
    push_string(writer, major::STRING, text.as_bytes(), answer)
}

#[inline(never)]
fn push_variant_apart<W: Write>(
    writer: &mut W,
    name: &str,
    answer: &mut Result<(), EncodeError<W::Error>>,
) -> Option<()>
    ensures { PushesInTurn W.atomic (encoded (variant_head name.now))
        (W.view writer.old) (W.view writer.new) result answer.old answer.new }
{
    push_head(writer, major::MAP, 1, answer)?;
    push_text(writer, name, answer)
}

/// In line, but to a writer with a large error apart.
#[inline(always)]
pub(crate) fn push_variant<W: Write>(
    writer: &mut W,
    name: &str,
    answer: &mut Result<(), EncodeError<W::Error>>,
) -> Option<()>
    ensures { PushesInTurn W.atomic (encoded (variant_head name.now))
        (W.view writer.old) (W.view writer.new) result answer.old answer.new }
{
    if has_large_error::<W>() {
        return push_variant_apart(writer, name, answer);
    }
    push_head(writer, major::MAP, 1, answer)?;
    push_text(writer, name, answer)
}

#[inline(always)]
fn push_tuple_variant<W: Write>(
    writer: &mut W,
    name: &str,
    len: usize,
    answer: &mut Result<(), EncodeError<W::Error>>,
) -> Option<()>
    ensures { PushesInTurn W.atomic (encoded (variant_head name.now ++ shortest_head 4 len))
        (W.view writer.old) (W.view writer.new) result answer.old answer.new }
{
    push_variant(writer, name, answer)?;
    push_parts_head(writer, major::ARRAY, len, answer)
}

#[inline(always)]
pub(crate) fn put_part<W: Write, T: Serialize>(
    ser: &mut Serializer<W>,
    value: &T,
    answer: &mut Result<(), EncodeError<W::Error>>,
) -> Option<()>
    ensures { PushesInTurn W.atomic (T.encoding value.now)
        (output W.view ser.old) (output W.view ser.new) result answer.old answer.new }
{
    match value.serialize(ser) {
        Ok(()) => Some(()),
        Err(error) => {
            *answer = Err(error);
            None
        }
    }
}

#[inline(always)]
pub(crate) fn put_both<W: Write, A: Serialize, B: Serialize>(
    ser: &mut Serializer<W>,
    first: &A,
    second: &B,
    answer: &mut Result<(), EncodeError<W::Error>>,
) -> Option<()>
    ensures { PushesInTurn W.atomic (one_then (A.encoding first.now) (B.encoding second.now))
        (output W.view ser.old) (output W.view ser.new) result answer.old answer.new }
{
    put_value(ser, first, answer)?;
    put_value(ser, second, answer)
}

#[inline(always)]
pub(crate) fn put_variant<W: Write, T: Serialize>(
    ser: &mut Serializer<W>,
    name: &str,
    value: &T,
    answer: &mut Result<(), EncodeError<W::Error>>,
) -> Option<()>
    ensures { PushesInTurn W.atomic (variant_encoding name.now (T.encoding value.now))
        (output W.view ser.old) (output W.view ser.new) result answer.old answer.new }
{
    push_variant(&mut ser.writer, name, answer)?;
    put_value(ser, value, answer)
}

#[inline(always)]
pub(crate) fn put_variant_of_two<W: Write, A: Serialize, B: Serialize>(
    ser: &mut Serializer<W>,
    name: &str,
    first: &A,
    second: &B,
    answer: &mut Result<(), EncodeError<W::Error>>,
) -> Option<()>
    ensures { PushesInTurn W.atomic (tuple_variant_encoding name.now
        (A.encoding first.now ∷ B.encoding second.now ∷ []))
        (output W.view ser.old) (output W.view ser.new) result answer.old answer.new }
{
    push_tuple_variant(&mut ser.writer, name, 2, answer)?;
    put_value(ser, first, answer)?;
    put_value(ser, second, answer)
}
