//! Rows of the heads and ends of arrays and maps: lengths that are read, and items in their parts.
use crate::in_parts::Part::{
    Array, ArrayEnd, Bytes, Flag, IndefiniteArray, IndefiniteMap, Map, MapEnd, Number, Text,
};
use crate::in_parts::{Part, Parts, writes_rows_in_pushes};
use crate::sequences::array::INDEFINITE;
use cbor4ii_items::decode::Decode;
use cbor4ii_items::indefinite::is_break;
use cbor4ii_items::types;
use cbor4ii_rw::error::DecodeError;
use cbor4ii_rw::read::Source;
use cbor4ii_vectors::items::Items;
use cbor4ii_vectors::rows::{ReadFrom, Row, reads_rows, writes_rows};
use cbor4ii_vectors::{eof, mismatch, table};
use std::alloc::Global;
use std::test::Fail;

// The length of an array, or none where it is indefinite.
#[derive(Clone, Copy, Debug, PartialEq)]
struct ArrayLength(Option<usize>);

impl ReadFrom for ArrayLength {
    fn read_from<S: Source>(
        _alloc: Global,
        reader: &mut S,
    ) -> Result<ArrayLength, DecodeError<S::Error>> {
        Ok(ArrayLength(types::Array::len(reader)?))
    }
}

// The length of a map, or none where it is indefinite.
#[derive(Clone, Copy, Debug, PartialEq)]
struct MapLength(Option<usize>);

impl ReadFrom for MapLength {
    fn read_from<S: Source>(
        _alloc: Global,
        reader: &mut S,
    ) -> Result<MapLength, DecodeError<S::Error>> {
        Ok(MapLength(types::Map::len(reader)?))
    }
}

const LENGTHS_OF_ARRAYS: &[Row<ArrayLength>] = table! {
    (b"\x86\x01", Ok(ArrayLength(Some(6))), b"\x01"),
    (b"\x98\x19", Ok(ArrayLength(Some(25))), b""),
    (b"\x9f\xff", Ok(ArrayLength(None)), b"\xff"),
    (b"", Err(eof!("array", 1)), b""),
    (b"\x98", Err(eof!("array", 1)), b""),
    (b"\x9a\x01\x02", Err(eof!("array", 4)), b""),
    (b"\x9c\x07", Err(mismatch!("array", 0x9c)), b"\x07"),
    (b"\xa1\x07", Err(mismatch!("array", 0xa1)), b"\x07"),
};

#[test]
fn lengths_of_arrays(rt: HostRuntime) -> Result<(), Fail> {
    reads_rows(rt.alloc(), LENGTHS_OF_ARRAYS)
}

const LENGTHS_OF_MAPS: &[Row<MapLength>] = table! {
    (b"\xa3\x01", Ok(MapLength(Some(3))), b"\x01"),
    (b"\xb9\x03\xe8", Ok(MapLength(Some(1000))), b""),
    (b"\xbf\xff", Ok(MapLength(None)), b"\xff"),
    (b"", Err(eof!("map", 1)), b""),
    (b"\xb9\x01", Err(eof!("map", 2)), b""),
    (b"\x9f\x07", Err(mismatch!("map", 0x9f)), b"\x07"),
    (b"\xbe\x07", Err(mismatch!("map", 0xbe)), b"\x07"),
};

#[test]
fn lengths_of_maps(rt: HostRuntime) -> Result<(), Fail> {
    reads_rows(rt.alloc(), LENGTHS_OF_MAPS)
}

// The length of an array of six numbers, and these.
#[derive(Debug, PartialEq, Drop)]
struct ArrayOfSix(Option<usize>, [u64; 6]);

impl ReadFrom for ArrayOfSix {
    fn read_from<S: Source>(
        alloc: Global,
        reader: &mut S,
    ) -> Result<ArrayOfSix, DecodeError<S::Error>> {
        let length = types::Array::len(reader)?;
        Ok(ArrayOfSix(length, six(alloc, reader)?))
    }
}

// The length of a map of six numbers, these, and whether a break follows them.
#[derive(Debug, PartialEq, Drop)]
struct IndefiniteMapOfSix(Option<usize>, [u64; 6], bool);

impl ReadFrom for IndefiniteMapOfSix {
    fn read_from<S: Source>(
        alloc: Global,
        reader: &mut S,
    ) -> Result<IndefiniteMapOfSix, DecodeError<S::Error>> {
        let length = types::Map::len(reader)?;
        let numbers = six(alloc, reader)?;
        Ok(IndefiniteMapOfSix(length, numbers, is_break(reader)?))
    }
}

fn six<S: Source>(alloc: Global, reader: &mut S) -> Result<[u64; 6], DecodeError<S::Error>> {
    let mut numbers = [0; 6];
    for number in &mut numbers {
        *number = u64::decode(alloc, reader)?;
    }
    Ok(numbers)
}

const ARRAYS_OF_SIX: &[Row<ArrayOfSix>] = table! {
    (b"\x86\x00\x01\x02\x03\x04\x05", Ok(ArrayOfSix(Some(6), [0, 1, 2, 3, 4, 5])), b""),
};

const INDEFINITE_MAPS_OF_SIX: &[Row<IndefiniteMapOfSix>] = table! {
    (b"\xbf\x00\x01\x02\x03\x04\x05\xff",
        Ok(IndefiniteMapOfSix(None, [0, 1, 2, 3, 4, 5], true)), b""),
};

#[test]
fn lengths_and_items(rt: HostRuntime) -> Result<(), Fail> {
    let alloc = rt.alloc();
    reads_rows(alloc, ARRAYS_OF_SIX)?;
    reads_rows(alloc, INDEFINITE_MAPS_OF_SIX)
}

const HEADS_AND_ENDS: &[(Part, &[u8], usize)] = table! {
    (Array(0), b"\x80", 1),
    (Array(23), b"\x97", 1),
    (Array(24), b"\x98\x18", 1),
    (Array(1000), b"\x99\x03\xe8", 1),
    (IndefiniteArray, b"\x9f", 1),
    (ArrayEnd, b"\xff", 1),
    (Map(23), b"\xb7", 1),
    (Map(1000), b"\xb9\x03\xe8", 1),
    (IndefiniteMap, b"\xbf", 1),
    (MapEnd, b"\xff", 1),
};

// Heads and ends alone, each in one push.
#[test]
fn heads_and_ends(rt: HostRuntime) -> Result<(), Fail> {
    writes_rows(rt.alloc(), HEADS_AND_ENDS)
}

// What each push has of an item in parts: a head, a string's content, or an end.
const PUSHES: &[(Parts, &[&[u8]])] = table! {
    (Parts(&[Array(1000), Bytes(b"\x01\x02")]), &[b"\x99\x03\xe8", b"\x42", b"\x01\x02"]),
    (Parts(&[IndefiniteMap, Number(-100), Flag(true), MapEnd]),
        &[b"\xbf", b"\x38\x63", b"\xf5", b"\xff"]),
};

#[test]
fn pushes_of_parts(rt: HostRuntime) -> Result<(), Fail> {
    writes_rows_in_pushes(rt.alloc(), PUSHES)
}

// 1 to 25 up to a break.
const INDEFINITE_1_TO_25: &[Part] = table! {
    IndefiniteArray, Number(1), Number(2), Number(3), Number(4), Number(5), Number(6), Number(7),
    Number(8), Number(9), Number(10), Number(11), Number(12), Number(13), Number(14),
    Number(15), Number(16), Number(17), Number(18), Number(19), Number(20), Number(21),
    Number(22), Number(23), Number(24), Number(25), ArrayEnd,
};

const IN_PARTS: &[(Parts, &[u8], usize)] = table! {
    // Items in their parts, what they are written as, and in how many pushes.
    // ["a", {"b": "c"}]
    (Parts(&[Array(2), Text("a"), Map(1), Text("b"), Text("c")]), b"\x82\x61a\xa1\x61b\x61c", 8),
    // {"a": 1, "b": [2, 3]}
    (Parts(&[Map(2), Text("a"), Number(1), Text("b"), Array(2), Number(2), Number(3)]),
        b"\xa2\x61a\x01\x61b\x82\x02\x03", 9),
    (Parts(&[IndefiniteArray, ArrayEnd]), b"\x9f\xff", 2),
    (Parts(&[IndefiniteArray, Flag(true), Flag(false), ArrayEnd]), b"\x9f\xf5\xf4\xff", 4),
    // {_ "a": 1, "b": [_ 2, 3]}
    (Parts(&[IndefiniteMap, Text("a"), Number(1), Text("b"), IndefiniteArray, Number(2), Number(3),
        ArrayEnd, MapEnd]), b"\xbf\x61a\x01\x61b\x9f\x02\x03\xff\xff", 11),
    // ["a", {_ "b": "c"}]
    (Parts(&[Array(2), Text("a"), IndefiniteMap, Text("b"), Text("c"), MapEnd]),
        b"\x82\x61a\xbf\x61b\x61c\xff", 9),
    // {_ "Fun": true, "Amt": -2}
    (Parts(&[IndefiniteMap, Text("Fun"), Flag(true), Text("Amt"), Number(-2), MapEnd]),
        b"\xbf\x63Fun\xf5\x63Amt\x21\xff", 8),
    (Parts(INDEFINITE_1_TO_25), INDEFINITE, 27),
    // [1, [2, 3], [4, 5]], with one or two of the arrays of indefinite length.
    (Parts(&[IndefiniteArray, Number(1), Array(2), Number(2), Number(3), IndefiniteArray, Number(4),
        Number(5), ArrayEnd, ArrayEnd]), b"\x9f\x01\x82\x02\x03\x9f\x04\x05\xff\xff", 10),
    (Parts(&[IndefiniteArray, Number(1), Array(2), Number(2), Number(3), Array(2), Number(4),
        Number(5), ArrayEnd]), b"\x9f\x01\x82\x02\x03\x82\x04\x05\xff", 9),
    (Parts(&[Array(3), Number(1), Array(2), Number(2), Number(3), IndefiniteArray, Number(4),
        Number(5), ArrayEnd]), b"\x83\x01\x82\x02\x03\x9f\x04\x05\xff", 9),
    (Parts(&[Array(3), Number(1), IndefiniteArray, Number(2), Number(3), ArrayEnd, Array(2),
        Number(4), Number(5)]), b"\x83\x01\x9f\x02\x03\xff\x82\x04\x05", 9),
};

#[test]
fn items_in_parts(rt: HostRuntime) -> Result<(), Fail> {
    writes_rows(rt.alloc(), IN_PARTS)
}
