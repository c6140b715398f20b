//! Rows of values in the order of keys, and their hashes.
use crate::encode_value::{AND_98, BELOW_64, GREATEST, LEAST, TWO_TO_64};
use crate::literal::Literal::{self, Array, Bool, Bytes, Float, Integer, Map, Null, Tag, Text};
use crate::value::DIFFERENT;
use cbor4ii_tree::FloatBits::{F16, F32, F64};
use cbor4ii_tree::{Canonical, FloatBits, Value};
use cbor4ii_vectors::table;
use std::alloc::Global;
use std::cmp::Ordering;
use std::collections::HashSet;
use std::hash::{DefaultHasher, Hash, Hasher};
use std::test::Fail;

fn hash_of<T: Hash>(value: &T) -> u64 {
    let mut state = DefaultHasher::new();
    value.hash(&mut state);
    state.finish()
}

// Each hashes as its copy does, also where it is canonical, and no two hash alike.
fn hashes_differ(alloc: Global) -> Result<(), Fail> {
    let mut hashes = HashSet::new(alloc);
    for literal in DIFFERENT {
        let value = literal.to_value(alloc)?;
        let hash = hash_of(&value);
        if hash_of(&Canonical(value.try_clone()?)) != hash {
            return Err(Fail::new(format_args!("a copy of {value:?}")));
        }
        if !hashes.insert(hash)? {
            return Err(Fail::new(format_args!("{value:?} and another")));
        }
    }
    Ok(())
}

#[test]
fn values_hash_as_their_copies_and_no_others(rt: HostRuntime) -> Result<(), Fail> {
    hashes_differ(rt.alloc())
}

// A set takes each value once.
fn set_is_made(alloc: Global) -> Result<(), Fail> {
    let mut set: HashSet<Value> = HashSet::new(alloc);
    for literal in DIFFERENT {
        let value = literal.to_value(alloc)?;
        let first = set.insert(literal.to_value(alloc)?)?;
        let again = set.insert(literal.to_value(alloc)?)?;
        if !first || again {
            return Err(Fail::new(format_args!("{value:?}")));
        }
    }
    Ok(())
}

#[test]
fn set_takes_each_value_once(rt: HostRuntime) -> Result<(), Fail> {
    set_is_made(rt.alloc())
}

#[test]
fn floats_hash_by_width_and_bits(rt: HostRuntime) {
    let one = hash_of(&FloatBits::F16(0x3c00));
    assert!(rt; one == hash_of(&FloatBits::F16(0x3c00)));
    assert!(rt; one != hash_of(&FloatBits::F16(0xbc00)));
    assert!(rt; one != hash_of(&FloatBits::F32(0x3c00)));
}

type Row = (&'static [u8], Literal);

// The keys of RFC 8949 section 4.2.1, in the order of its list.
const RFC_KEYS: &[Row] = table! {
    (b"\x0a", Integer(10)),
    (b"\x18\x64", Integer(100)),
    (b"\x20", Integer(-1)),
    (b"\x61\x7a", Text("z")),
    (b"\x62\x61\x61", Text("aa")),
    (b"\x81\x18\x64", Array(&[Integer(100)])),
    (b"\x81\x20", Array(&[Integer(-1)])),
    (b"\xf4", Bool(false)),
};

// Numbers, on both sides of each width of a head.
const NUMBERS: &[Row] = table! {
    (b"\x00", Integer(0)),
    (b"\x17", Integer(23)),
    (b"\x18\x18", Integer(24)),
    (b"\x18\xff", Integer(255)),
    (b"\x19\x01\x00", Integer(256)),
    (b"\x19\x01\xff", Integer(511)),
    (b"\x19\x02\x00", Integer(512)),
    (b"\x19\xff\xff", Integer(65535)),
    (b"\x1a\x00\x01\x00\x00", Integer(65536)),
    (b"\x1a\xff\xff\xff\xff", Integer(4294967295)),
    (b"\x1b\x00\x00\x00\x01\x00\x00\x00\x00", Integer(4294967296)),
    (b"\x1b\xff\xff\xff\xff\xff\xff\xff\xff", Integer(18446744073709551615)),
    (b"\x20", Integer(-1)),
    (b"\x37", Integer(-24)),
    (b"\x38\x18", Integer(-25)),
    (b"\x39\x01\x00", Integer(-257)),
    (b"\x3b\xff\xff\xff\xff\xff\xff\xff\xff", Integer(-18446744073709551616)),
    (b"\xc2\x49\x01\x00\x00\x00\x00\x00\x00\x00\x00", Integer(18446744073709551616)),
    (b"\xc3\x49\x01\x00\x00\x00\x00\x00\x00\x00\x00", Integer(-18446744073709551617)),
    (b"\xf9\x00\x00", Float(F16(0))),
    (b"\xf9\x3c\x00", Float(F16(0x3c00))),
    (b"\xf9\x80\x00", Float(F16(0x8000))),
    (b"\xfa\x00\x00\x00\x00", Float(F32(0))),
    (b"\xfa\x7f\xc0\x00\x00", Float(F32(0x7fc0_0000))),
    (b"\xfb\x00\x00\x00\x00\x00\x00\x00\x00", Float(F64(0))),
    (b"\xfb\x7e\x37\xe4\x3c\x88\x00\x75\x9c", Float(F64(0x7e37_e43c_8800_759c))),
};

// Strings by their lengths first, and arrays and maps by their counts.
const CONTAINERS: &[Row] = table! {
    (b"\x40", Bytes(b"")),
    (b"\x41\xff", Bytes(b"\xff")),
    (b"\x42\x00\x00", Bytes(b"\x00\x00")),
    (b"\x42\x00\x01", Bytes(b"\x00\x01")),
    (b"\x42\x61\x61", Bytes(b"aa")),
    (b"\x60", Text("")),
    (b"\x61\x7a", Text("z")),
    (b"\x62\x61\x61", Text("aa")),
    (b"\x62\x61\x62", Text("ab")),
    (b"\x62\xc3\xbc", Text("\u{fc}")),
    (b"\x80", Array(&[])),
    (b"\x81\x82\x00\x00", Array(&[Array(&[Integer(0), Integer(0)])])),
    (b"\x82\x00\x20", Array(&[Integer(0), Integer(-1)])),
    (b"\x82\x01\x00", Array(&[Integer(1), Integer(0)])),
    (b"\x82\x18\x64\x00", Array(&[Integer(100), Integer(0)])),
    (b"\x82\x81\x00\x00", Array(&[Array(&[Integer(0)]), Integer(0)])),
    (b"\x82\x81\x00\x01", Array(&[Array(&[Integer(0)]), Integer(1)])),
    (b"\x83\x00\x00\x00", Array(&[Integer(0), Integer(0), Integer(0)])),
    (b"\xa0", Map(&[])),
    (b"\xa1\x00\x01", Map(&[(Integer(0), Integer(1))])),
    (b"\xa1\x00\x02", Map(&[(Integer(0), Integer(2))])),
    (b"\xa1\x01\x00", Map(&[(Integer(1), Integer(0))])),
    (b"\xa1\x61\x61\x00", Map(&[(Text("a"), Integer(0))])),
    (b"\xa2\x00\x01\x00\x00", Map(&[(Integer(0), Integer(1)), (Integer(0), Integer(0))])),
    (b"\xa2\x00\x01\x01\x00", Map(&[(Integer(0), Integer(1)), (Integer(1), Integer(0))])),
    (b"\xa2\x01\x00\x00\x01", Map(&[(Integer(1), Integer(0)), (Integer(0), Integer(1))])),
    (b"\xc0\x00", Tag(0, &Integer(0))),
    (b"\xc1\x00", Tag(1, &Integer(0))),
    (b"\xc1\x18\x64", Tag(1, &Integer(100))),
    (b"\xc1\x40", Tag(1, &Bytes(b""))),
    (b"\xc4\x00", Tag(4, &Integer(0))),
    (b"\xd8\x18\x00", Tag(24, &Integer(0))),
    (b"\xd9\x01\x00\x00", Tag(256, &Integer(0))),
    (b"\xf4", Bool(false)),
    (b"\xf5", Bool(true)),
    (b"\xf6", Null),
};

// Integers beyond 64 bits among tags of the same number.
const BIGNUMS: &[Row] = table! {
    (b"\xc2\x00", Tag(2, &Integer(0))),
    (b"\xc2\x1b\xff\xff\xff\xff\xff\xff\xff\xff", Tag(2, &Integer(18446744073709551615))),
    (b"\xc2\x40", Tag(2, &Bytes(b""))),
    (
        b"\xc2\x48\xff\xff\xff\xff\xff\xff\xff\xff",
        Tag(2, &Bytes(b"\xff\xff\xff\xff\xff\xff\xff\xff"))
    ),
    (
        b"\xc2\x49\x00\xff\xff\xff\xff\xff\xff\xff\xff",
        Tag(2, &Bytes(b"\x00\xff\xff\xff\xff\xff\xff\xff\xff"))
    ),
    (b"\xc2\x49\x01\x00\x00\x00\x00\x00\x00\x00\x00", Integer(18446744073709551616)),
    (
        b"\xc2\x49\x01\x00\x00\x00\x00\x00\x00\x00\x01",
        Tag(2, &Bytes(b"\x01\x00\x00\x00\x00\x00\x00\x00\x01"))
    ),
    (b"\xc2\x49\x01\x00\x00\x00\x00\x00\x00\x00\x02", Integer(18446744073709551618)),
    (b"\xc2\x49\xff\xff\xff\xff\xff\xff\xff\xff\xff", Integer(4722366482869645213695)),
    (
        b"\xc2\x4a\x00\xff\xff\xff\xff\xff\xff\xff\xff\xff",
        Tag(2, &Bytes(b"\x00\xff\xff\xff\xff\xff\xff\xff\xff\xff"))
    ),
    (b"\xc2\x4a\x01\x00\x00\x00\x00\x00\x00\x00\x00\x00", Integer(4722366482869645213696)),
    (
        b"\xc2\x50\x7f\xff\xff\xff\xff\xff\xff\xff\xff\xff\xff\xff\xff\xff\xff\xff",
        Integer(i128::MAX)
    ),
    (
        b"\xc2\x50\x80\x00\x00\x00\x00\x00\x00\x00\x00\x00\x00\x00\x00\x00\x00\x00",
        Tag(2, &Bytes(b"\x80\x00\x00\x00\x00\x00\x00\x00\x00\x00\x00\x00\x00\x00\x00\x00"))
    ),
    (b"\xc2\x60", Tag(2, &Text(""))),
    (b"\xc2\xc2\x40", Tag(2, &Tag(2, &Bytes(b"")))),
    (
        b"\xc2\xc2\x49\x01\x00\x00\x00\x00\x00\x00\x00\x00",
        Tag(2, &Integer(18446744073709551616))
    ),
    (b"\xc3\x40", Tag(3, &Bytes(b""))),
    (b"\xc3\x49\x01\x00\x00\x00\x00\x00\x00\x00\x00", Integer(-18446744073709551617)),
    (
        b"\xc3\x50\x7f\xff\xff\xff\xff\xff\xff\xff\xff\xff\xff\xff\xff\xff\xff\xff",
        Integer(i128::MIN)
    ),
    (b"\xc3\xf6", Tag(3, &Null)),
};

// Each is less than all that follow it, and equal to itself.
fn ascend(alloc: Global, rows: &[Row]) -> Result<(), Fail> {
    for (i, low) in rows.iter().enumerate() {
        let left = low.1.to_value(alloc)?;
        for (j, high) in rows.iter().enumerate() {
            let right = high.1.to_value(alloc)?;
            compare(&left, &right, i.cmp(&j))?;
            compare(&right, &left, j.cmp(&i))?;
            bytes_compare(low.0, high.0, i.cmp(&j))?;
        }
    }
    Ok(())
}

fn compare(left: &Value, right: &Value, want: Ordering) -> Result<(), Fail> {
    if left.cmp_encodings(right) == want {
        return Ok(());
    }
    Err(Fail::new(format_args!("{left:?} beside {right:?}: not {want:?}")))
}

fn bytes_compare(left: &[u8], right: &[u8], want: Ordering) -> Result<(), Fail> {
    if left.cmp(right) == want {
        return Ok(());
    }
    Err(Fail::new(format_args!("the bytes {left:?} beside {right:?}: not {want:?}")))
}

#[test]
fn keys_compare_as_in_the_rfc(rt: HostRuntime) -> Result<(), Fail> {
    ascend(rt.alloc(), RFC_KEYS)
}

#[test]
fn numbers_compare_by_their_encodings(rt: HostRuntime) -> Result<(), Fail> {
    ascend(rt.alloc(), NUMBERS)
}

#[test]
fn containers_compare_by_their_heads_first(rt: HostRuntime) -> Result<(), Fail> {
    ascend(rt.alloc(), CONTAINERS)
}

#[test]
fn bignums_compare_as_their_tags(rt: HostRuntime) -> Result<(), Fail> {
    ascend(rt.alloc(), BIGNUMS)
}

// An integer beyond 64 bits has the encoding of its tag, though the two values differ.
const ALIKE: &[(Literal, Literal)] = table! {
    (Integer(18446744073709551616), TWO_TO_64),
    (Integer(18446744073709551714), AND_98),
    (Integer(-18446744073709551617), BELOW_64),
    (Integer(i128::MAX), GREATEST),
    (Integer(i128::MIN), LEAST),
    (Array(&[Integer(18446744073709551616)]), Array(&[TWO_TO_64])),
    (Map(&[(Integer(i128::MIN), Null)]), Map(&[(LEAST, Null)])),
    (Tag(1, &Integer(i128::MAX)), Tag(1, &GREATEST)),
};

fn are_alike(alloc: Global, rows: &[(Literal, Literal)]) -> Result<(), Fail> {
    for (left, right) in rows {
        let (left, right) = (left.to_value(alloc)?, right.to_value(alloc)?);
        compare(&left, &right, Ordering::Equal)?;
        compare(&right, &left, Ordering::Equal)?;
    }
    Ok(())
}

#[test]
fn bignums_compare_equal_to_their_tags(rt: HostRuntime) -> Result<(), Fail> {
    are_alike(rt.alloc(), ALIKE)
}
