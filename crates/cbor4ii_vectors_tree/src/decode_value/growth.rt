//! Values of more parts than room is made for before any came: they are read over each reader,
//! copied and written.
use crate::item::Item;
use cbor4ii_tree::{Canonical, Value};
use cbor4ii_vectors::repeated::repeated;
use cbor4ii_vectors::rows::{reads_by_each, writes};
use std::alloc::{AllocError, Global};
use std::test::Fail;

/// So many numbers 5.
pub fn array(alloc: Global, count: usize) -> Result<Value, AllocError> {
    let mut items = Vec::new(alloc);
    for _ in 0..count {
        items.push(Value::Integer(5))?;
    }
    Ok(Value::Array(items))
}

/// So many pairs of 5 and this number.
pub fn map(alloc: Global, value: i128, count: usize) -> Result<Value, AllocError> {
    let mut pairs = Vec::new(alloc);
    for _ in 0..count {
        pairs.push((Value::Integer(5), Value::Integer(value)))?;
    }
    Ok(Value::Map(pairs))
}

fn reads(alloc: Global, bytes: &'static [u8], value: Value) -> Result<(), Fail> {
    reads_by_each(alloc, bytes, 256, &Ok(Item(value)), b"")
}

// The value is written as these bytes. They are read as a copy of it, and as it where no other
// encoding is read.
fn reads_and_writes(alloc: Global, bytes: &'static [u8], value: Value) -> Result<(), Fail> {
    writes(alloc, &value, bytes)?;
    reads(alloc, bytes, value.try_clone()?)?;
    reads_by_each(alloc, bytes, 256, &Ok(Item(Canonical(value))), b"")
}

#[test]
fn arrays_of_300_items(rt: HostRuntime) -> Result<(), Fail> {
    let alloc = rt.alloc();
    let counted = repeated(alloc, b"\x99\x01\x2c", b"\x05", 300, b"")?;
    reads_and_writes(alloc, counted, array(alloc, 300)?)?;
    let indefinite = repeated(alloc, b"\x9f", b"\x05", 300, b"\xff")?;
    reads(alloc, indefinite, array(alloc, 300)?)
}

#[test]
fn maps_of_300_pairs(rt: HostRuntime) -> Result<(), Fail> {
    reads_maps(rt.alloc(), b"\x05\x06", 6)?;
    reads_maps(rt.alloc(), b"\x05\x05", 5)
}

fn reads_maps(alloc: Global, pair: &[u8], value: i128) -> Result<(), Fail> {
    let counted = repeated(alloc, b"\xb9\x01\x2c", pair, 300, b"")?;
    reads_and_writes(alloc, counted, map(alloc, value, 300)?)?;
    let indefinite = repeated(alloc, b"\xbf", pair, 300, b"\xff")?;
    reads(alloc, indefinite, map(alloc, value, 300)?)
}

// So many numbers from 0 on, each with a 5.
fn numbered(alloc: Global, count: u16) -> Result<Vec<(Value, Value)>, AllocError> {
    let mut pairs = Vec::new(alloc);
    for number in 0..count {
        pairs.push((Value::Integer(i128::from(number)), Value::Integer(5)))?;
    }
    Ok(pairs)
}

// They take no memory, so there is no want of it.
#[test]
fn parts_are_made_canonical(rt: HostRuntime) -> Result<(), Fail> {
    let alloc = rt.alloc();
    let pairs = Value::Map(numbered(alloc, 6_000)?);
    let canonical = Canonical::try_from_value(alloc, pairs.try_clone()?)?;
    assert!(rt; canonical.into_inner() == pairs);
    let items = array(alloc, 6_000)?;
    let canonical = Canonical::try_from_value(alloc, items.try_clone()?)?;
    assert!(rt; canonical.into_inner() == items);
    Ok(())
}

/// So many of this byte.
pub fn byte_string(alloc: Global, byte: u8, count: usize) -> Result<Value, AllocError> {
    Ok(Value::Bytes(vec![in alloc; byte; count]?))
}

#[test]
fn byte_strings_of_300_bytes(rt: HostRuntime) -> Result<(), Fail> {
    let alloc = rt.alloc();
    let counted = repeated(alloc, b"\x59\x01\x2c", b"\x07", 300, b"")?;
    reads_and_writes(alloc, counted, byte_string(alloc, 0x07, 300)?)?;
    let indefinite = repeated(alloc, b"\x5f", b"\x41\x07", 300, b"\xff")?;
    reads(alloc, indefinite, byte_string(alloc, 0x07, 300)?)
}

/// So many letters a.
pub fn text(alloc: Global, count: usize) -> Result<Value, Fail> {
    Ok(Value::Text(String::from_utf8(vec![in alloc; b'a'; count]?)?))
}

#[test]
fn texts_of_300_letters(rt: HostRuntime) -> Result<(), Fail> {
    let alloc = rt.alloc();
    let counted = repeated(alloc, b"\x79\x01\x2c", b"a", 300, b"")?;
    reads_and_writes(alloc, counted, text(alloc, 300)?)?;
    let indefinite = repeated(alloc, b"\x7f", b"\x61a", 300, b"\xff")?;
    reads(alloc, indefinite, text(alloc, 300)?)
}

// 20,000 bytes, more than are reserved before any came: 59 4e 20 and 79 4e 20 are their heads.
#[test]
fn strings_of_20000_bytes(rt: HostRuntime) -> Result<(), Fail> {
    let alloc = rt.alloc();
    let bytes = repeated(alloc, b"\x59\x4e\x20", b"a", 20_000, b"")?;
    reads(alloc, bytes, byte_string(alloc, b'a', 20_000)?)?;
    let bytes = repeated(alloc, b"\x79\x4e\x20", b"a", 20_000, b"")?;
    reads(alloc, bytes, text(alloc, 20_000)?)
}
