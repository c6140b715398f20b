//! Rows of values that are made of others, and what a value is.
use crate::literal::Literal::{self, Array, Bool, Bytes, Float, Integer, Map, Null, Tag, Text};
use cbor4ii_tree::FloatBits::{F16, F32, F64};
use cbor4ii_tree::{NoMemory, Value};
use cbor4ii_vectors::table;
use std::alloc::{AllocError, Global};
use std::test::Fail;

fn is_value(alloc: Global, value: &Value, want: &Literal) -> Result<(), Fail> {
    if *value == want.to_value(alloc)? {
        return Ok(());
    }
    Err(Fail::new(format_args!("{value:?}")))
}

#[test]
fn flags_and_floats(rt: HostRuntime) -> Result<(), Fail> {
    let alloc = rt.alloc();
    is_value(alloc, &Value::from(false), &Bool(false))?;
    is_value(alloc, &Value::from(true), &Bool(true))?;
    is_value(alloc, &Value::from(F16(0x3c00)), &Float(F16(0x3c00)))?;
    is_value(
        alloc,
        &Value::from(F32(0x3f80_0000)),
        &Float(F32(0x3f80_0000)),
    )?;
    is_value(alloc, &Value::from(F64(0)), &Float(F64(0)))
}

#[test]
fn unsigned_integers(rt: HostRuntime) -> Result<(), Fail> {
    let alloc = rt.alloc();
    is_value(alloc, &Value::from(0u8), &Integer(0))?;
    is_value(alloc, &Value::from(u8::MAX), &Integer(255))?;
    is_value(alloc, &Value::from(u16::MAX), &Integer(65535))?;
    is_value(alloc, &Value::from(u32::MAX), &Integer(4294967295))?;
    is_value(
        alloc,
        &Value::from(u64::MAX),
        &Integer(18446744073709551615),
    )?;
    is_value(
        alloc,
        &Value::from(usize::MAX),
        &Integer(18446744073709551615),
    )
}

#[test]
fn signed_integers(rt: HostRuntime) -> Result<(), Fail> {
    let alloc = rt.alloc();
    is_value(alloc, &Value::from(-1i8), &Integer(-1))?;
    is_value(alloc, &Value::from(i8::MIN), &Integer(-128))?;
    is_value(alloc, &Value::from(i16::MIN), &Integer(-32768))?;
    is_value(alloc, &Value::from(i32::MIN), &Integer(-2147483648))?;
    is_value(
        alloc,
        &Value::from(i64::MIN),
        &Integer(-9223372036854775808),
    )?;
    is_value(alloc, &Value::from(i64::MAX), &Integer(9223372036854775807))?;
    is_value(
        alloc,
        &Value::from(isize::MIN),
        &Integer(-9223372036854775808),
    )?;
    is_value(alloc, &Value::from(i128::MIN), &Integer(i128::MIN))
}

#[test]
fn strings(rt: HostRuntime) -> Result<(), Fail> {
    let alloc = rt.alloc();
    let content = b"\x01\x02".to_vec(alloc)?;
    is_value(alloc, &Value::from(content), &Bytes(b"\x01\x02"))?;
    let content = String::from_str(alloc, "IETF")?;
    is_value(alloc, &Value::from(content), &Text("IETF"))
}

// No two are equal: floats are compared as bits with their width, and arrays and maps in order.
pub const DIFFERENT: &[Literal] = table! {
    Null,
    Bool(false),
    Bool(true),
    Integer(0),
    Integer(-1),
    Integer(18446744073709551616),
    Float(F16(0)),
    Float(F32(0)),
    Float(F64(0)),
    Float(F32(0x8000_0000)),
    Float(F16(0x7e00)),
    Bytes(b""),
    Bytes(b"a"),
    Text(""),
    Text("a"),
    Array(&[]),
    Array(&[Integer(1), Integer(2)]),
    Array(&[Integer(2), Integer(1)]),
    Array(&[Integer(1), Integer(2), Integer(3)]),
    Map(&[]),
    Map(&[(Integer(1), Integer(2)), (Integer(3), Integer(4))]),
    Map(&[(Integer(3), Integer(4)), (Integer(1), Integer(2))]),
    Map(&[(Integer(1), Integer(2)), (Integer(3), Integer(5))]),
    Map(&[(Integer(1), Integer(2))]),
    Tag(0, &Null),
    Tag(1, &Null),
    Tag(1, &Bool(false)),
};

// Each is equal to its copy, and to no other.
fn differ(alloc: Global, rows: &[Literal]) -> Result<(), Fail> {
    for (i, left) in rows.iter().enumerate() {
        is_its_copy(&left.to_value(alloc)?)?;
        for (j, right) in rows.iter().enumerate() {
            are_equal(&left.to_value(alloc)?, &right.to_value(alloc)?, i == j)?;
        }
    }
    Ok(())
}

fn is_its_copy(value: &Value) -> Result<(), Fail> {
    are_equal(&value.try_clone()?, value, true)
}

fn are_equal(left: &Value, right: &Value, want: bool) -> Result<(), Fail> {
    if (left == right) == want {
        return Ok(());
    }
    Err(Fail::new(format_args!("{left:?} and {right:?}")))
}

#[test]
fn values_equal_their_copies_and_no_other(rt: HostRuntime) -> Result<(), Fail> {
    assert!(rt; NoMemory::from(AllocError) == NoMemory);
    differ(rt.alloc(), DIFFERENT)
}
