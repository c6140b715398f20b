//! Values that are written: integers beyond 64 bits, and what each push has.
//!
//! `decode_value.rt` writes the values that it reads, and `decode_value/growth.rt` long ones.
use crate::item_rows::{reads_and_writes, reads_canonical, writes_value};
use crate::literal::Literal::{self, Array, Bool, Bytes, Float, Integer, Map, Null, Tag, Text};
use cbor4ii_items::encode::Encode;
use cbor4ii_tree::FloatBits::{F16, F64};
use cbor4ii_tree::Value;
use cbor4ii_vectors::rows::writes_pushes;
use cbor4ii_vectors::table;
use cbor4ii_vectors::writers::{FailingWriter, PushLengths};
use std::alloc::{AllocError, Global};
use std::test::Fail;

// What is read back of 2^64, 2^64 + 98 and -2^64 - 1.
pub const TWO_TO_64: Literal = Tag(2, &Bytes(b"\x01\x00\x00\x00\x00\x00\x00\x00\x00"));

pub const AND_98: Literal = Tag(2, &Bytes(b"\x01\x00\x00\x00\x00\x00\x00\x00\x62"));

pub const BELOW_64: Literal = Tag(3, &Bytes(b"\x01\x00\x00\x00\x00\x00\x00\x00\x00"));

// What is read back of the greatest and the least i128, and how they are written.
pub const GREATEST: Literal = Tag(
    2,
    &Bytes(b"\x7f\xff\xff\xff\xff\xff\xff\xff\xff\xff\xff\xff\xff\xff\xff\xff"),
);

pub const LEAST: Literal = Tag(
    3,
    &Bytes(b"\x7f\xff\xff\xff\xff\xff\xff\xff\xff\xff\xff\xff\xff\xff\xff\xff"),
);

const GREATEST_BYTES: &[u8] =
    b"\xc2\x50\x7f\xff\xff\xff\xff\xff\xff\xff\xff\xff\xff\xff\xff\xff\xff\xff";

const LEAST_BYTES: &[u8] =
    b"\xc3\x50\x7f\xff\xff\xff\xff\xff\xff\xff\xff\xff\xff\xff\xff\xff\xff\xff";

// Integers beyond 64 bits: what is written, and what that is read as.
pub type Bignum = (Literal, &'static [u8], Literal);

pub const BIGNUMS: &[Bignum] = table! {
    (Integer(18446744073709551616), b"\xc2\x49\x01\x00\x00\x00\x00\x00\x00\x00\x00", TWO_TO_64),
    (Integer(18446744073709551714), b"\xc2\x49\x01\x00\x00\x00\x00\x00\x00\x00\x62", AND_98),
    (Integer(-18446744073709551617), b"\xc3\x49\x01\x00\x00\x00\x00\x00\x00\x00\x00", BELOW_64),
    (Integer(i128::MAX), GREATEST_BYTES, GREATEST),
    (Integer(i128::MIN), LEAST_BYTES, LEAST),
};

fn reads_bignums(alloc: Global, rows: &[Bignum]) -> Result<(), Fail> {
    for (literal, written, read_back) in rows {
        writes_value(alloc, literal, written)?;
        reads_and_writes(alloc, written, read_back, written)?;
        reads_canonical(alloc, written, read_back)?;
    }
    Ok(())
}

#[test]
fn integers_beyond_64_bits_are_tags(rt: HostRuntime) -> Result<(), Fail> {
    reads_bignums(rt.alloc(), BIGNUMS)
}

// What each push of a value has: a head, a string's content, or a float.
type Pushed = (Literal, &'static [&'static [u8]]);

const PUSHES: &[Pushed] = table! {
    (Null, &[b"\xf6"]),
    (Bool(true), &[b"\xf5"]),
    (Integer(24), &[b"\x18\x18"]),
    (Integer(-100), &[b"\x38\x63"]),
    (Integer(1000), &[b"\x19\x03\xe8"]),
    (Integer(-1000), &[b"\x39\x03\xe7"]),
    (Integer(1000000), &[b"\x1a\x00\x0f\x42\x40"]),
    (Integer(-1000000), &[b"\x3a\x00\x0f\x42\x3f"]),
    (Integer(1000000000000), &[b"\x1b\x00\x00\x00\xe8\xd4\xa5\x10\x00"]),
    (Integer(-18446744073709551616), &[b"\x3b\xff\xff\xff\xff\xff\xff\xff\xff"]),
    (Integer(18446744073709551616), &[b"\xc2", b"\x49", b"\x01\x00\x00\x00\x00\x00\x00\x00\x00"]),
    (Text("ab"), &[b"\x62", b"ab"]),
    (Bytes(b""), &[b"\x40", b""]),
    (Tag(1, &Integer(0)), &[b"\xc1", b"\x00"]),
    (Tag(24, &Bytes(b"\x64IETF")), &[b"\xd8\x18", b"\x45", b"\x64IETF"]),
    (Tag(55799, &Null), &[b"\xd9\xd9\xf7", b"\xf6"]),
    (Tag(1000000, &Null), &[b"\xda\x00\x0f\x42\x40", b"\xf6"]),
    (Tag(1000000000000, &Null), &[b"\xdb\x00\x00\x00\xe8\xd4\xa5\x10\x00", b"\xf6"]),
    (Float(F64(0x3ff1_9999_9999_999a)), &[b"\xfb\x3f\xf1\x99\x99\x99\x99\x99\x9a"]),
    (Array(&[Float(F16(0x3c00))]), &[b"\x81", b"\xf9\x3c\x00"]),
    (Map(&[(Text("a"), Integer(1))]), &[b"\xa1", b"\x61", b"a", b"\x01"]),
};

fn pushes_rows(alloc: Global, rows: &[Pushed]) -> Result<(), Fail> {
    for (literal, pushes) in rows {
        writes_pushes(alloc, &literal.to_value(alloc)?, pushes)?;
    }
    Ok(())
}

#[test]
fn each_head_and_content_is_a_push(rt: HostRuntime) -> Result<(), Fail> {
    pushes_rows(rt.alloc(), PUSHES)
}

// What a long value has many of.
#[derive(Clone, Copy)]
enum Parts {
    Letters,
    Bytes,
    Items,
    Pairs,
}

impl Parts {
    // The value of so many of them.
    fn value(self, alloc: Global, count: usize) -> Result<Value, Fail> {
        match self {
            Parts::Letters => {
                let text = String::from_utf8(vec![in alloc; b'a'; count]?)?;
                Ok(Value::Text(text))
            }
            Parts::Bytes => Ok(Value::Bytes(vec![in alloc; b'a'; count]?)),
            Parts::Items => Ok(Value::Array(nulls(alloc, count)?)),
            Parts::Pairs => Ok(Value::Map(pairs(alloc, count)?)),
        }
    }
}

fn nulls(alloc: Global, count: usize) -> Result<Vec<Value>, AllocError> {
    let mut items = Vec::new(alloc);
    for _ in 0..count {
        items.push(Value::Null)?;
    }
    Ok(items)
}

fn pairs(alloc: Global, count: usize) -> Result<Vec<(Value, Value)>, AllocError> {
    let mut pairs = Vec::new(alloc);
    for _ in 0..count {
        pairs.push((Value::Null, Value::Null))?;
    }
    Ok(pairs)
}

// So many parts, the head in front of them, and how many pushes both take.
type Headed = (Parts, usize, &'static [u8], usize);

// The least lengths whose heads have two, three and five bytes.
const HEADED: &[Headed] = table! {
    (Parts::Letters, 24, b"\x78\x18", 2),
    (Parts::Letters, 256, b"\x79\x01\x00", 2),
    (Parts::Letters, 65536, b"\x7a\x00\x01\x00\x00", 2),
    (Parts::Bytes, 24, b"\x58\x18", 2),
    (Parts::Bytes, 256, b"\x59\x01\x00", 2),
    (Parts::Bytes, 65536, b"\x5a\x00\x01\x00\x00", 2),
    (Parts::Items, 24, b"\x98\x18", 25),
    (Parts::Items, 256, b"\x99\x01\x00", 257),
    (Parts::Items, 65536, b"\x9a\x00\x01\x00\x00", 65537),
    (Parts::Pairs, 24, b"\xb8\x18", 49),
    (Parts::Pairs, 256, b"\xb9\x01\x00", 513),
    (Parts::Pairs, 65536, b"\xba\x00\x01\x00\x00", 131073),
};

// A writer that fails at the second push holds the head, and one that fails at none takes so many.
fn pushes_head(alloc: Global, value: &Value, head: &[u8], pushes: usize) -> Result<(), Fail> {
    let mut lengths = PushLengths::new(alloc);
    value.encode(&mut lengths)?;
    let found = lengths.lengths().len();
    let mut writer = FailingWriter::new(Vec::with_capacity(alloc, head.len())?, 1);
    if value.encode(&mut writer).is_err() && writer.buffer() == head && found == pushes {
        return Ok(());
    }
    Err(Fail::new(format_args!("{:?} and {found} pushes, not {head:?}", writer.buffer())))
}

fn pushes_heads(alloc: Global, rows: &[Headed]) -> Result<(), Fail> {
    for (parts, count, head, pushes) in rows {
        pushes_head(alloc, &parts.value(alloc, *count)?, head, *pushes)?;
    }
    Ok(())
}

#[test]
fn each_head_of_many_parts_is_a_push(rt: HostRuntime) -> Result<(), Fail> {
    pushes_heads(rt.alloc(), HEADED)
}
