//! Rows of values that are sorted, and of values with equal keys.
use crate::sorted::{SortedError, is_sorted, sort, sorted_encoding};
use cbor4ii::Value;
use cbor4ii::dec::decode_whole;
use cbor4ii_vectors::table;
use std::alloc::Global;
use std::test::Fail;

// The keys that RFC 8949 section 4.2.1 has in order, the last one first.
const KEYS_BACKWARDS: &[u8] =
    b"\xa8\xf4\x00\x81\x20\x01\x81\x18\x64\x02\x62aa\x03\x61z\x04\x20\x05\x18\x64\x06\x0a\x07";

const KEYS_IN_ORDER: &[u8] =
    b"\xa8\x0a\x07\x18\x64\x06\x20\x05\x61z\x04\x62aa\x03\x81\x18\x64\x02\x81\x20\x01\xf4\x00";

type Row = (&'static [u8], &'static [u8]);

// Items whose maps are not in order, and the encoding of each when it is sorted.
const SORTED: &[Row] = table! {
    (KEYS_BACKWARDS, KEYS_IN_ORDER),
    (b"\xa2\x02\x02\x01\x03", b"\xa2\x01\x03\x02\x02"),
    (b"\xbf\x02\x02\x01\x03\xff", b"\xa2\x01\x03\x02\x02"),
    (b"\xa2\x62aa\x00\x61b\x01", b"\xa2\x61b\x01\x62aa\x00"),
    // Of an array, on a tag, in a value and in a key.
    (b"\x82\x00\xa2\x02\x00\x01\x00", b"\x82\x00\xa2\x01\x00\x02\x00"),
    (b"\xc1\xa2\x02\x00\x01\x00", b"\xc1\xa2\x01\x00\x02\x00"),
    (b"\xa1\x00\xa2\x02\x00\x01\x00", b"\xa1\x00\xa2\x01\x00\x02\x00"),
    (b"\xa1\xa2\x02\x00\x01\x00\x00", b"\xa1\xa2\x01\x00\x02\x00\x00"),
    // Keys are sorted inside before they are compared.
    (b"\xa2\xa2\x01\x00\x03\x00\x01\xa2\x02\x00\x01\x00\x02",
        b"\xa2\xa2\x01\x00\x02\x00\x02\xa2\x01\x00\x03\x00\x01"),
};

// Items with equal keys, whose pairs keep their order.
const EQUAL_KEYS: &[Row] = table! {
    (b"\xa2\x00\x02\x00\x01", b"\xa2\x00\x02\x00\x01"),
    (b"\xa3\x02\x00\x01\x02\x01\x01", b"\xa3\x01\x02\x01\x01\x02\x00"),
    // Keys that are equal once they are sorted.
    (b"\xa2\xa2\x01\x00\x02\x00\x01\xa2\x02\x00\x01\x00\x00",
        b"\xa2\xa2\x01\x00\x02\x00\x01\xa2\x01\x00\x02\x00\x00"),
};

// Answers the value that the bytes are.
fn value_of(alloc: Global, bytes: &[u8]) -> Result<Value, Fail> {
    Ok(decode_whole(alloc, bytes)?)
}

#[test]
fn maps_are_sorted_at_every_depth(rt: HostRuntime) -> Result<(), Fail> {
    let alloc = rt.alloc();
    for (item, sorted) in SORTED {
        let mut value = value_of(alloc, item)?;
        assert!(rt; !is_sorted(&value), "{item:?}");
        match sorted_encoding(alloc, &mut value) {
            Ok(bytes) => assert_eq!(rt; bytes.as_slice(), *sorted),
            Err(error) => return Err(Fail::new(format_args!("{error:?} of {item:?}"))),
        }
        assert!(rt; is_sorted(&value), "{item:?}");
    }
    Ok(())
}

#[test]
fn pairs_of_equal_keys_keep_their_order(rt: HostRuntime) -> Result<(), Fail> {
    let alloc = rt.alloc();
    for (item, sorted) in EQUAL_KEYS {
        let mut value = value_of(alloc, item)?;
        assert_eq!(rt;
            sorted_encoding(alloc, &mut value).err(),
            Some(SortedError::EqualKeys)
        );
        assert_eq!(rt; value, value_of(alloc, sorted)?);
        assert!(rt; !is_sorted(&value), "{item:?}");
    }
    Ok(())
}

#[test]
fn long_maps_are_sorted(rt: HostRuntime) -> Result<(), Fail> {
    let mut pairs = Vec::new(rt.alloc());
    for i in 0..30u64 {
        pairs.push((Value::Integer((i * 7 % 30) as i128), Value::Null))?;
    }
    let mut map = Value::Map(pairs);
    assert!(rt; sort(&mut map).is_ok());
    assert!(rt; is_sorted(&map));
    Ok(())
}
