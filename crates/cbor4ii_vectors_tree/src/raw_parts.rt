//! Values found in kept items by their keys and places. Most rows are examples of RFC 8949,
//! Appendix A.
use cbor4ii_items::decode::Decode;
use cbor4ii_rw::slice_reader::SliceReader;
use cbor4ii_tree::RawValue;
use cbor4ii_vectors::table;
use std::alloc::{AllocError, Global};
use std::test::Fail;

// An item, a key or a place, and the item that stands there.
type Row<K> = (&'static [u8], K, Option<&'static [u8]>);

fn is_found(found: Option<RawValue<'_>>, want: Option<&[u8]>, item: &[u8]) -> Result<(), Fail> {
    let same = match (found, want) {
        (Some(found), Some(want)) => found.as_bytes() == want,
        (None, None) => true,
        _ => false,
    };
    if same {
        return Ok(());
    }
    Err(Fail::new(format_args!("{found:?} is found in {item:?}, not {want:?}")))
}

const TEXTS: &[Row<&str>] = table! {
    (b"\xa2aa\x01ab\x82\x02\x03", "a", Some(b"\x01")),
    (b"\xa2aa\x01ab\x82\x02\x03", "b", Some(b"\x82\x02\x03")),
    (b"\xa2aa\x01ab\x82\x02\x03", "c", None),
    (b"\xa2aa\x01ab\x82\x02\x03", "", None),
    (b"\xa5aaaAabaBacaCadaDaeaE", "e", Some(b"aE")),
    (b"\xbfcFun\xf5cAmt!\xff", "Amt", Some(b"!")),
    (b"\xbfcFun\xf5cAmt!\xff", "Fu", None),
    (b"\xbfaa\x01ab\x9f\x02\x03\xff\xff", "b", Some(b"\x9f\x02\x03\xff")),
    (b"\xa1\x7festreadming\xff\x01", "streaming", Some(b"\x01")),
    (b"\xa1\x7festreadming\xff\x01", "stream", None),
    // The text ends where a chunk does, and the key goes on.
    (b"\xa1\x7festreadming\xff\x01", "strea", None),
    (b"\xa2\x7fa\x61`ab\xff\x01aa\x02", "a", Some(b"\x02")),
    (b"\xa1\x7festreadming\xff\x01", "streamings", None),
    (b"\xa1\x7f\xff\x01", "", Some(b"\x01")),
    (b"\xa2\x7fA\x61\xff\x01aa\x02", "a", Some(b"\x02")),
    (b"\xa2\x7f\x7faa\xff\xff\x01aa\x02", "a", Some(b"\x02")),
    (b"\xa1x\x01a\x18\x64", "a", Some(b"\x18\x64")),
    (b"\xa2Aa\x01aa\x02", "a", Some(b"\x02")),
    (b"\xa2aa\x01aa\x02", "a", Some(b"\x01")),
    (b"\xa2\x81aa\x01\xa1aa\x02\x03", "a", None),
    (b"\xa1ab\xa1aa\x01", "a", None),
    (b"\xa1aa_\x80\xff", "a", Some(b"_\x80\xff")),
    (b"\xa0", "a", None),
    (b"\xbf\xff", "a", None),
    (b"\x82aa\xa1abac", "a", None),
    (b"\xc1\xa1aa\x01", "a", None),
    (b"aa", "a", None),
};

#[test]
fn values_by_their_texts(rt: HostRuntime) -> Result<(), Fail> {
    for (item, key, want) in TEXTS {
        let raw = RawValue::new(item)?;
        is_found(raw.get(key), *want, item)?;
    }
    Ok(())
}

const INTEGERS: &[Row<i128>] = table! {
    (b"\xa2\x01\x02\x03\x04", 1, Some(b"\x02")),
    (b"\xa2\x01\x02\x03\x04", 3, Some(b"\x04")),
    (b"\xa2\x01\x02\x03\x04", 2, None),
    (b"\xa2\x01\x02 \x04", -1, Some(b"\x04")),
    (b"\xa29\x03\xe7\x01\x19\x03\xe7\x02", -1000, Some(b"\x01")),
    (b"\xa1\x1b\xff\xff\xff\xff\xff\xff\xff\xff\x01", 18446744073709551615, Some(b"\x01")),
    (b"\xa1;\xff\xff\xff\xff\xff\xff\xff\xff\x01", -18446744073709551616, Some(b"\x01")),
    (b"\xa1\xc2I\x01\0\0\0\0\0\0\0\0\x01", 18446744073709551616, None),
    (b"\xa1\x1b\0\0\0\0\0\0\0\x05\x01", 5, Some(b"\x01")),
    (b"\xa2\xc2A\x05\x01\x18\x05\x02", 5, Some(b"\x02")),
    (b"\xa2\x05\x01\x05\x02", 5, Some(b"\x01")),
    (b"\xbf\xf9\x3c\x00\x01\x01\x02\xff", 1, Some(b"\x02")),
    (b"\xa1\xf4\x01", 20, None),
    (b"\xa1a5\x01", 5, None),
    (b"\x82\x01\x02", 1, None),
    (b"\xa0", 0, None),
};

#[test]
fn values_by_their_integers(rt: HostRuntime) -> Result<(), Fail> {
    for (item, key, want) in INTEGERS {
        let raw = RawValue::new(item)?;
        is_found(raw.get_integer(*key), *want, item)?;
    }
    Ok(())
}

const PLACES: &[Row<usize>] = table! {
    (b"\x83\x01\x82\x02\x03\x82\x04\x05", 0, Some(b"\x01")),
    (b"\x83\x01\x82\x02\x03\x82\x04\x05", 2, Some(b"\x82\x04\x05")),
    (b"\x83\x01\x82\x02\x03\x82\x04\x05", 3, None),
    (b"\x9f\x01\x82\x02\x03\x9f\x04\x05\xff\xff", 1, Some(b"\x82\x02\x03")),
    (b"\x9f\x01\x82\x02\x03\x9f\x04\x05\xff\xff", 2, Some(b"\x9f\x04\x05\xff")),
    (b"\x9f\x01\x82\x02\x03\x9f\x04\x05\xff\xff", 3, None),
    (b"\x9f\x01\x82\x02\x03\x9f\x04\x05\xff\xff", 18446744073709551615, None),
    (b"\x80", 0, None),
    (b"\x9f\xff", 0, None),
    (b"\xa1\x00\x01", 0, None),
    (b"\xc1\x81\x01", 0, None),
};

#[test]
fn items_by_their_places(rt: HostRuntime) -> Result<(), Fail> {
    for (item, index, want) in PLACES {
        let raw = RawValue::new(item)?;
        is_found(raw.at(*index), *want, item)?;
    }
    Ok(())
}

// 70,000 items, 0x11170: nulls, with a number at three of the places.
fn numbered(alloc: Global) -> Result<Vec<u8>, AllocError> {
    let mut bytes = Vec::from_slice(alloc, b"\x9a\x00\x01\x11\x70")?;
    for place in 0..70_000_u32 {
        let item = match place {
            1_000 => 0x01,
            1_001 => 0x02,
            69_999 => 0x03,
            _ => 0xf6,
        };
        bytes.push(item)?;
    }
    Ok(bytes)
}

const FAR_PLACES: &[(usize, Option<&[u8]>)] = table! {
    (999, Some(b"\xf6")),
    (1_000, Some(b"\x01")),
    (1_001, Some(b"\x02")),
    (1_002, Some(b"\xf6")),
    (69_998, Some(b"\xf6")),
    (69_999, Some(b"\x03")),
    (70_000, None),
    (70_001, None),
};

#[test]
fn items_by_far_places(rt: HostRuntime) -> Result<(), Fail> {
    let bytes = numbered(rt.alloc())?;
    let raw = RawValue::new(bytes.as_slice())?;
    for (index, want) in FAR_PLACES {
        is_found(raw.at(*index), *want, b"70,000 items")?;
    }
    Ok(())
}

const ARRAYS: &[(&[u8], Option<&[&[u8]]>)] = table! {
    (b"\x83\x01\x82\x02\x03\x82\x04\x05", Some(&[b"\x01", b"\x82\x02\x03", b"\x82\x04\x05"])),
    (b"\x9f\x01\x9f\xff\xff", Some(&[b"\x01", b"\x9f\xff"])),
    (b"\x80", Some(&[])),
    (b"\xa0", None),
    (b"\x05", None),
};

#[test]
fn items_one_by_one(rt: HostRuntime) -> Result<(), Fail> {
    for (item, want) in ARRAYS {
        has_items(item, *want)?;
    }
    Ok(())
}

// The last two times it is the end.
fn has_items(item: &[u8], want: Option<&[&[u8]]>) -> Result<(), Fail> {
    let raw = RawValue::new(item)?;
    let Some(mut items) = raw.items() else {
        return is_none(want.is_none(), item);
    };
    let Some(want) = want else {
        return is_none(false, item);
    };
    for part in want {
        is_found(items.next(), Some(*part), item)?;
    }
    is_found(items.next(), None, item)?;
    is_found(items.next(), None, item)
}

fn is_none(none: bool, item: &[u8]) -> Result<(), Fail> {
    if none {
        return Ok(());
    }
    Err(Fail::new(format_args!("the parts of {item:?}")))
}

const MAPS: &[(&[u8], Option<&[(&[u8], &[u8])]>)] = table! {
    (b"\xa2\x01\x02\x03\x04", Some(&[(b"\x01", b"\x02"), (b"\x03", b"\x04")])),
    (b"\xbfaa\x9f\xff\x81\xf6\xa0\xff", Some(&[(b"aa", b"\x9f\xff"), (b"\x81\xf6", b"\xa0")])),
    (b"\xbf\xff", Some(&[])),
    (b"\x80", None),
    (b"\xf6", None),
};

#[test]
fn pairs_one_by_one(rt: HostRuntime) -> Result<(), Fail> {
    for (item, want) in MAPS {
        has_pairs(item, *want)?;
    }
    Ok(())
}

fn has_pairs(item: &[u8], want: Option<&[(&[u8], &[u8])]>) -> Result<(), Fail> {
    let raw = RawValue::new(item)?;
    let Some(mut pairs) = raw.pairs() else {
        return is_none(want.is_none(), item);
    };
    let Some(want) = want else {
        return is_none(false, item);
    };
    for (key, value) in want {
        let Some(pair) = pairs.next() else {
            return is_none(false, item);
        };
        is_found(Some(pair.0), Some(*key), item)?;
        is_found(Some(pair.1), Some(*value), item)?;
    }
    is_none(pairs.next().is_none() && pairs.next().is_none(), item)
}

// What is kept under a greater limit is looked into as well.
#[test]
fn items_that_are_deep(rt: HostRuntime) -> Result<(), Fail> {
    deep(rt.alloc(), 254, 256)?;
    deep(rt.alloc(), 1000, 1002)
}

// A map from "a" to a number within so many arrays.
fn deep(alloc: Global, levels: usize, limit: usize) -> Result<(), Fail> {
    let mut value = Vec::new(alloc);
    for _ in 0..levels {
        value.push(0x81)?;
    }
    value.push(0x05)?;
    let mut bytes = Vec::from_slice(alloc, b"\xa1aa")?;
    bytes.extend_from_slice(&value)?;
    let mut reader = SliceReader::with_limit(bytes.as_slice(), limit);
    let raw: RawValue = RawValue::decode(alloc, &mut reader)?;
    is_found(raw.get("a"), Some(value.as_slice()), raw.as_bytes())
}
