//! Rows of leaves: which types have them, and that each item of a vector of them is pushed by
//! itself.
use crate::slot::pushes;
use crate::typed::Typed;
use cbor4ii_items::types::{Bytes, F16, F32, F64};
use cbor4ii_ser::leaf::Leaf;
use cbor4ii_ser::serialize::Serialize;
use cbor4ii_tree::Value;
use cbor4ii_vectors::rows::writes;
use std::alloc::Global;
use std::borrow::CowStr;
use std::test::Fail;

// The type has leaves, and this is the value's.
fn has<T: Serialize>(value: &T, leaf: Leaf<'_>) -> Result<(), Fail> {
    let found = value.as_leaf();
    if T::is_leaf() && found == Some(leaf) {
        return Ok(());
    }
    Err(Fail::new(format_args!("{found:?} in the place of {leaf:?}")))
}

// The leaf of -1 - n.
fn negative(n: u64) -> Leaf<'static> {
    Leaf::Integer {
        is_negative: true,
        argument: n,
    }
}

// The type has no leaf, nor has the value.
fn has_none<T: Serialize>(value: &T) -> Result<(), Fail> {
    let found = value.as_leaf();
    if !T::is_leaf() && found.is_none() {
        return Ok(());
    }
    Err(Fail::new(format_args!("{found:?} in the place of none")))
}

#[test]
fn leaves_of_integers(_rt: HostRuntime) -> Result<(), Fail> {
    has(&23u8, Leaf::unsigned(23))?;
    has(&u16::MAX, Leaf::unsigned(65535))?;
    has(&u32::MAX, Leaf::unsigned(0xffff_ffff))?;
    has(&u64::MAX, Leaf::unsigned(0xffff_ffff_ffff_ffff))?;
    has(&0i8, Leaf::unsigned(0))?;
    has(&-1i8, negative(0))?;
    has(&i16::MIN, negative(32767))?;
    has(&i32::MAX, Leaf::unsigned(0x7fff_ffff))?;
    has(&i64::MIN, negative(0x7fff_ffff_ffff_ffff))
}

#[test]
fn leaves_of_other_types(rt: HostRuntime) -> Result<(), Fail> {
    let alloc = rt.alloc();
    has(&true, Leaf::Bool(true))?;
    has(&F16(0x3c00), Leaf::F16(0x3c00))?;
    has(&F32(0x4740_0000), Leaf::F32(0x4740_0000))?;
    has(&F64(1), Leaf::F64(1))?;
    has(&"IETF", Leaf::Text("IETF"))?;
    has(&String::from_str(alloc, "a")?, Leaf::Text("a"))?;
    has(&CowStr::<'_, Global>::Borrowed(""), Leaf::Text(""))?;
    has(&Bytes(b"\x01\x02".as_slice()), Leaf::Bytes(b"\x01\x02"))?;
    has(&Bytes(vec![in alloc; 3u8]?), Leaf::Bytes(b"\x03"))
}

#[test]
fn leaves_of_options_boxes_and_references(rt: HostRuntime) -> Result<(), Fail> {
    has(&None::<u8>, Leaf::Null)?;
    has(&Some(24u8), Leaf::unsigned(24))?;
    has(&Some(None::<u8>), Leaf::Null)?;
    has(&Box::new(rt.alloc(), -2i8)?, negative(1))?;
    has(&&false, Leaf::Bool(false))
}

// A bignum has a tag, and an array or a map holds other values.
#[test]
fn types_that_have_no_leaf(rt: HostRuntime) -> Result<(), Fail> {
    let alloc = rt.alloc();
    has_none(&1u128)?;
    has_none(&1i128)?;
    has_none(&())?;
    has_none(&(1u8, 2u8))?;
    has_none(&Value::Null)?;
    has_none(&vec![in alloc; 1u8]?)?;
    has_none(&Some(vec![in alloc; 1u8]?))
}

// Integers of RFC 8949's appendix A.
#[test]
fn vectors_of_integers(rt: HostRuntime) -> Result<(), Fail> {
    let alloc = rt.alloc();
    let items = vec![in alloc; 23u64, 24, 1000, 1_000_000, 1_000_000_000_000]?;
    let bytes = b"\x85\x17\x18\x18\x19\x03\xe8\x1a\0\x0f\x42\x40\x1b\0\0\0\xe8\xd4\xa5\x10\0";
    pushes(alloc, &items, &[1, 1, 2, 3, 5, 9])?;
    writes(alloc, &Typed(items), bytes)?;
    let items = vec![in alloc; 10i16, -10, -100, -1000, 100]?;
    pushes(alloc, &items, &[1, 1, 1, 2, 3, 2])?;
    writes(
        alloc,
        &Typed(items),
        b"\x85\x0a\x29\x38\x63\x39\x03\xe7\x18\x64",
    )?;
    Ok(())
}

// Simple values and floats of that appendix: 1.5 as the first two bytes and their bits.
#[test]
fn vectors_of_simple_values_and_floats(rt: HostRuntime) -> Result<(), Fail> {
    let alloc = rt.alloc();
    let items = vec![in alloc; None, Some(true), Some(false)]?;
    pushes(alloc, &items, &[1, 1, 1, 1])?;
    writes(alloc, &Typed(items), b"\x83\xf6\xf5\xf4")?;
    pushes(alloc, &vec![in alloc; F32(0), F32(1)]?, &[1, 5, 5])?;
    pushes(alloc, &vec![in alloc; F64(0), F64(1)]?, &[1, 9, 9])?;
    let items = vec![in alloc; F16(0x3e00), F16(0x7c00)]?;
    pushes(alloc, &items, &[1, 3, 3])?;
    writes(alloc, &Typed(items), b"\x82\xf9\x3e\0\xf9\x7c\0")?;
    Ok(())
}

// An empty content is a push, too.
#[test]
fn vectors_of_strings(rt: HostRuntime) -> Result<(), Fail> {
    let alloc = rt.alloc();
    let items = vec![in alloc; "IETF", "", "a"]?;
    pushes(alloc, &items, &[1, 1, 4, 1, 0, 1, 1])?;
    writes(alloc, &Typed(items), b"\x83\x64IETF\x60\x61a")?;
    let items = vec![in alloc; Some(Bytes(b"\x01\x02".as_slice())), None]?;
    pushes(alloc, &items, &[1, 1, 2, 1])?;
    writes(alloc, &Typed(items), b"\x82\x42\x01\x02\xf6")?;
    Ok(())
}
