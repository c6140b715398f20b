//! Values that are encoded in one way, made and written.
//!
//! What else is written stands with the rows of `encode_value.rt`.
use crate::encode_value::{AND_98, BELOW_64, BIGNUMS, GREATEST, LEAST, TWO_TO_64};
use crate::item::Item;
use crate::literal::Literal::{self, Array, Bool, Bytes, Float, Integer, Map, Null, Tag, Text};
use cbor4ii_tree::FloatBits::F16;
use cbor4ii_tree::{Canonical, Value};
use cbor4ii_vectors::rows::{reads, writes};
use cbor4ii_vectors::table;
use std::alloc::{AllocError, Global};
use std::test::Fail;

// A value, what it is with its bignums as tags, and how both are written.
type Tagged = (Literal, Literal, &'static [u8]);

const TAGGED: &[Tagged] = table! {
    (Null, Null, b"\xf6"),
    (Bool(true), Bool(true), b"\xf5"),
    (Float(F16(0x3c00)), Float(F16(0x3c00)), b"\xf9\x3c\x00"),
    (Text("a"), Text("a"), b"\x61\x61"),
    (Bytes(b"a"), Bytes(b"a"), b"\x41\x61"),
    (Integer(18446744073709551615), Integer(18446744073709551615),
        b"\x1b\xff\xff\xff\xff\xff\xff\xff\xff"),
    (Integer(-18446744073709551616), Integer(-18446744073709551616),
        b"\x3b\xff\xff\xff\xff\xff\xff\xff\xff"),
    (TWO_TO_64, TWO_TO_64, b"\xc2\x49\x01\x00\x00\x00\x00\x00\x00\x00\x00"),
    (Array(&[]), Array(&[]), b"\x80"),
    (Map(&[]), Map(&[]), b"\xa0"),
    (Array(&[Integer(1), Integer(18446744073709551616), Null]),
        Array(&[Integer(1), TWO_TO_64, Null]),
        b"\x83\x01\xc2\x49\x01\x00\x00\x00\x00\x00\x00\x00\x00\xf6"),
    (Map(&[(Text("a"), Integer(1)), (Integer(-18446744073709551617), Null)]),
        Map(&[(Text("a"), Integer(1)), (BELOW_64, Null)]),
        b"\xa2\x61\x61\x01\xc3\x49\x01\x00\x00\x00\x00\x00\x00\x00\x00\xf6"),
    (Map(&[(Null, Integer(18446744073709551714))]), Map(&[(Null, AND_98)]),
        b"\xa1\xf6\xc2\x49\x01\x00\x00\x00\x00\x00\x00\x00\x62"),
    (Tag(1, &Integer(18446744073709551616)), Tag(1, &TWO_TO_64),
        b"\xc1\xc2\x49\x01\x00\x00\x00\x00\x00\x00\x00\x00"),
    (Array(&[Array(&[Map(&[(Tag(4, &Integer(i128::MIN)), Integer(i128::MAX))])])]),
        Array(&[Array(&[Map(&[(Tag(4, &LEAST), GREATEST)])])]),
        b"\x81\x81\xa1\xc4\xc3\x50\x7f\xff\xff\xff\xff\xff\xff\xff\xff\xff\xff\xff\xff\xff\xff\xff\
        \xc2\x50\x7f\xff\xff\xff\xff\xff\xff\xff\xff\xff\xff\xff\xff\xff\xff\xff"),
};

fn tags(
    alloc: Global,
    literal: &Literal,
    want: &Literal,
    written: &'static [u8],
) -> Result<(), Fail> {
    let canonical = Canonical::try_from_value(alloc, literal.to_value(alloc)?)?;
    writes(alloc, &canonical, written)?;
    reads(alloc, written, Ok(Item(canonical)), b"")?;
    let value = Canonical::try_from_value(alloc, literal.to_value(alloc)?)?.into_inner();
    if value == want.to_value(alloc)? {
        return Ok(());
    }
    Err(Fail::new(format_args!("{value:?}")))
}

fn tags_rows(alloc: Global, rows: &[Tagged]) -> Result<(), Fail> {
    for (literal, want, written) in rows {
        tags(alloc, literal, want, written)?;
    }
    for (literal, written, want) in BIGNUMS {
        tags(alloc, literal, want, written)?;
    }
    Ok(())
}

#[test]
fn values_are_as_they_are_read_back(rt: HostRuntime) -> Result<(), Fail> {
    tags_rows(rt.alloc(), TAGGED)
}

// A value that is put in as it is, and is written with its integers as bignums.
#[test]
fn bignums_are_written(rt: HostRuntime) -> Result<(), Fail> {
    let alloc = rt.alloc();
    let canonical = Canonical(Integer(18446744073709551616).to_value(alloc)?);
    writes(
        alloc,
        &canonical,
        b"\xc2\x49\x01\x00\x00\x00\x00\x00\x00\x00\x00",
    )?;
    Ok(())
}

// A map of so many pairs that its memory was taken several times. Its last value is 2^64.
fn many_pairs(alloc: Global) -> Result<Value, AllocError> {
    let mut pairs = Vec::new(alloc);
    for i in 0..1000_u64 {
        pairs.push((Value::from(i), Value::Null))?;
    }
    pairs.push((Value::from(1000_u64), Value::Integer(18446744073709551616)))?;
    Ok(Value::Map(pairs))
}

fn last_is_tagged(alloc: Global) -> Result<bool, Fail> {
    let value = Canonical::try_from_value(alloc, many_pairs(alloc)?)?.into_inner();
    let pairs = value.as_map().unwrap_or(&[]);
    let Some((key, last)) = pairs.last() else {
        return Ok(false);
    };
    Ok(pairs.len() == 1001 && *key == Value::Integer(1000) && *last == TWO_TO_64.to_value(alloc)?)
}

#[test]
fn bignum_is_tagged_behind_many_pairs(rt: HostRuntime) -> Result<(), Fail> {
    assert!(rt; last_is_tagged(rt.alloc())?);
    Ok(())
}
