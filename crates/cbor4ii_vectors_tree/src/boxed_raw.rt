//! Items that are kept as a copy of their bytes.
//!
//! Rows that hold of `RawValue` alike stand in `raw.rt`, and what skipping rejects in
//! `decode_value/errors.rt`.
use crate::ignored::ITEMS;
use crate::literal::Literal::{self, Integer, Null};
use crate::plain_raw::{ITEM, MAP};
use cbor4ii_items::decode::Decode;
use cbor4ii_items::types::Map;
use cbor4ii_rw::error::{DecodeError, Never};
use cbor4ii_rw::long::FillLong;
use cbor4ii_rw::segment_reader::SegmentReader;
use cbor4ii_rw::slice_reader::SliceReader;
use cbor4ii_tree::{BoxedRawValue, Value};
use cbor4ii_vectors::readers::Counting;
use cbor4ii_vectors::rows::{leaves, steps, writes_in};
use cbor4ii_vectors::table;
use std::alloc::{AllocError, Global};
use std::test::Fail;

// {[1, 2]: [3]}, whose key and value are kept.
const PAIR: &[u8] = b"\xa1\x82\x01\x02\x81\x03";

// Where it is cut in two segments, and what is left of it where the cut stands in a kept item.
const CUTS: &[(usize, Option<&[u8]>)] = table! {
    (1, None),
    (2, Some(b"\x82\x01\x02\x81\x03")),
    (3, Some(b"\x82\x01\x02\x81\x03")),
    (4, None),
    (5, Some(b"\x81\x03")),
};

#[test]
fn copies_in_maps_of_segments(rt: HostRuntime) -> Result<(), Fail> {
    copies_cut_pairs(rt.alloc(), CUTS)
}

fn copies_cut_pairs(alloc: Global, cuts: &[(usize, Option<&[u8]>)]) -> Result<(), Fail> {
    for &(place, left) in cuts {
        let (first, second) = PAIR.split_at_checked(place).ok_or("no such place")?;
        copies_pair(alloc, &[first, second], left)?;
    }
    Ok(())
}

// A key or a value that is cut is the end of the input, and nothing of it is taken.
fn copies_pair(alloc: Global, segments: &[&[u8]], left: Option<&[u8]>) -> Result<(), Fail> {
    let mut reader = SegmentReader::new(&*segments);
    let got = <Map<Vec<(BoxedRawValue, BoxedRawValue)>>>::decode(alloc, &mut reader);
    match (got, left) {
        (Ok(map), None) => are_pair(&map)?,
        (Err(DecodeError::Eof { .. }), Some(_)) => {}
        (got, _) => return Err(Fail::new(format_args!("{got:?} of {segments:?}"))),
    }
    leaves(&mut reader, PAIR, left.unwrap_or(b""))
}

fn are_pair(map: &Map<Vec<(BoxedRawValue, BoxedRawValue)>>) -> Result<(), Fail> {
    let [(key, value)] = map.0.as_slice() else {
        return Err(Fail::from("not one pair"));
    };
    is_copy(key, b"\x82\x01\x02")?;
    is_copy(value, b"\x81\x03")
}

// After a reference.
fn copy_after<S: FillLong>(
    alloc: Global,
    reader: &mut S,
) -> Result<BoxedRawValue, DecodeError<S::Error>> {
    BoxedRawValue::decode(alloc, &mut &mut *reader)
}

#[test]
fn after_references(rt: HostRuntime) -> Result<(), Fail> {
    let alloc = rt.alloc();
    let mut reader = SliceReader::new(b"\x82\x01\x02\x03");
    is_copy(&copy_after(alloc, &mut reader)?, b"\x82\x01\x02")?;
    is_copy(&copy_after(alloc, &mut reader)?, b"\x03")?;
    assert!(rt; reader.remaining().is_empty());
    Ok(())
}

#[test]
fn copies_in_containers(rt: HostRuntime) -> Result<(), Fail> {
    let alloc = rt.alloc();
    let segments = [b"\x82".as_slice(), b"\x81\x00\x01".as_slice()];
    let copies = <Vec<BoxedRawValue>>::decode(alloc, &mut SegmentReader::new(&segments))?;
    let [first, second] = copies.as_slice() else {
        return Err(Fail::from("not two items"));
    };
    is_copy(first, b"\x81\x00")?;
    is_copy(second, b"\x01")
}

#[test]
fn cut_copies_in_containers(rt: HostRuntime) {
    let segments = [b"\x82\x81".as_slice(), b"\x00\x01".as_slice()];
    let mut reader = SegmentReader::new(&segments);
    let got = <Vec<BoxedRawValue>>::decode(rt.alloc(), &mut reader);
    assert!(rt; matches!(got, Err(DecodeError::Eof { .. })), "{got:?}");
}

// One fill lends all, and one advance takes the item.
#[test]
fn one_look(rt: HostRuntime) -> Result<(), Fail> {
    let mut reader = Counting::new(b"\x82\x01\x82\x02\x03\x04");
    let copy = BoxedRawValue::decode(rt.alloc(), &mut reader)?;
    assert_eq!(rt; (reader.shows(), reader.advances()), (1, 1));
    is_copy(&copy, b"\x82\x01\x82\x02\x03")
}

// Items of 302 and of 303 bytes: an array of 300 items, counted and of indefinite length.
fn long_items(alloc: Global) -> Result<[Vec<u8>; 2], AllocError> {
    let mut counted = b"\x99\x01\x2c".to_vec(alloc)?;
    let mut indefinite = b"\x9f".to_vec(alloc)?;
    for _ in 0..300 {
        counted.push(0x17)?;
        indefinite.push(0x17)?;
    }
    indefinite.push(0xff)?;
    Ok([counted, indefinite])
}

#[test]
fn copies_of_long_items(rt: HostRuntime) -> Result<(), Fail> {
    let alloc = rt.alloc();
    let [counted, indefinite] = long_items(alloc)?;
    copies_long(alloc, &counted)?;
    copies_long(alloc, &indefinite)
}

fn copies_long(alloc: Global, item: &[u8]) -> Result<(), Fail> {
    is_copy(&copy(alloc, item)?, item)?;
    let segments = [item, b"\x00".as_slice()];
    is_copy(
        &BoxedRawValue::decode(alloc, &mut SegmentReader::new(&segments))?,
        item,
    )
}

// Each is written again in one push.
#[test]
fn written_again(rt: HostRuntime) -> Result<(), Fail> {
    writes_items(rt.alloc(), ITEMS)
}

fn writes_items(alloc: Global, items: &[&[u8]]) -> Result<(), Fail> {
    for item in items {
        writes_copy(alloc, item, &copy(alloc, item)?)?;
        are_equal(&copy(alloc, item)?, &copy(alloc, item)?.try_clone()?, true)?;
        are_equal(&copy(alloc, item)?, &copy(alloc, b"\xf6")?, false)?;
    }
    Ok(())
}

fn copy(alloc: Global, item: &[u8]) -> Result<BoxedRawValue, DecodeError<Never>> {
    BoxedRawValue::decode(alloc, &mut SliceReader::new(item))
}

fn writes_copy(alloc: Global, item: &[u8], copy: &BoxedRawValue) -> Result<(), Fail> {
    writes_in(alloc, copy, item, 1)?;
    is_copy(copy, item)
}

fn are_equal(left: &BoxedRawValue, right: &BoxedRawValue, want: bool) -> Result<(), Fail> {
    if (left == right) == want {
        return Ok(());
    }
    Err(Fail::new(format_args!("{left:?} and {right:?}")))
}

#[test]
fn a_copy_under_a_key(rt: HostRuntime) -> Result<(), Fail> {
    let alloc = rt.alloc();
    let owned = <Map<Vec<(String, BoxedRawValue)>>>::decode(alloc, &mut SliceReader::new(MAP))?;
    let [(_, copy)] = owned.0.as_slice() else {
        return Err(Fail::from("not one pair"));
    };
    assert_eq!(rt; copy.as_bytes(), ITEM);
    is_copy(&copy.try_clone()?, ITEM)?;
    are_equal(&copy_of_value(alloc, copy.as_bytes())?, copy, true)
}

// A copy of the value that these bytes are read as.
fn copy_of_value(alloc: Global, item: &[u8]) -> Result<BoxedRawValue, Fail> {
    let value = Value::decode(alloc, &mut SliceReader::new(item))?;
    Ok(BoxedRawValue::from_value(alloc, &value)?)
}

fn copy_of(alloc: Global, literal: &Literal) -> Result<BoxedRawValue, Fail> {
    Ok(BoxedRawValue::from_value(alloc, &literal.to_value(alloc)?)?)
}

#[test]
fn copies_of_values(rt: HostRuntime) -> Result<(), Fail> {
    let alloc = rt.alloc();
    assert_eq!(rt; copy_of(alloc, &Null)?.as_bytes(), b"\xf6".as_slice());
    assert_eq!(rt;
        copy_of(alloc, &Integer(18446744073709551616))?.as_bytes(),
        b"\xc2\x49\x01\x00\x00\x00\x00\x00\x00\x00\x00".as_slice()
    );
    Ok(())
}

// Where there is no memory for the copy, the item was taken.
#[test]
fn no_memory_for_a_copy(rt: HostRuntime) -> Result<(), Fail> {
    let alloc = rt.alloc();
    let mut reader = SliceReader::new(b"\x82\x01\x02\x03");
    let got = BoxedRawValue::decode(alloc, &mut reader);
    assert_eq!(rt; reader.remaining(), b"\x03".as_slice());
    assert_eq!(rt; steps(&mut reader), 256);
    copies_again(&got?, b"\x82\x01\x02")
}

// Where there is no memory for another copy, the first is as it was.
fn copies_again(copy: &BoxedRawValue, item: &[u8]) -> Result<(), Fail> {
    is_copy(copy, item)?;
    let again = copy.try_clone();
    is_copy(copy, item)?;
    is_copy(&again?, item)
}

fn is_copy(copy: &BoxedRawValue, item: &[u8]) -> Result<(), Fail> {
    if copy.as_bytes() == item {
        return Ok(());
    }
    Err(Fail::new(format_args!("{copy:?} of {item:?}")))
}

#[test]
fn a_copy_lends_its_item(rt: HostRuntime) -> Result<(), Fail> {
    let copy = BoxedRawValue::decode(rt.alloc(), &mut SliceReader::new(b"\x82\x01\x02\x03"))?;
    assert_eq!(rt; copy.as_raw().as_bytes(), b"\x82\x01\x02".as_slice());
    Ok(())
}
