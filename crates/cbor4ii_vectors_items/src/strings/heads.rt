//! Rows of byte strings and texts that are written by their heads, their chunks and their ends.
use crate::in_parts::Part::{
    Array, ArrayEnd, Bytes, BytesEnd, BytesHead, IndefiniteArray, IndefiniteBytes, IndefiniteText,
    Map, Number, Text, TextEnd, TextHead,
};
use crate::in_parts::{Part, Parts, writes_rows_in_pushes};
use cbor4ii_vectors::rows::writes_rows;
use cbor4ii_vectors::table;
use std::test::Fail;

const HEADS_AND_ENDS: &[(Part, &[u8], usize)] = table! {
    (BytesHead(4), b"\x44", 1),
    (BytesHead(1000), b"\x59\x03\xe8", 1),
    (IndefiniteBytes, b"\x5f", 1),
    (BytesEnd, b"\xff", 1),
    (TextHead(4), b"\x64", 1),
    (TextHead(1000), b"\x79\x03\xe8", 1),
    (IndefiniteText, b"\x7f", 1),
    (TextEnd, b"\xff", 1),
};

// Heads and ends alone, each in one push.
#[test]
fn heads_and_ends(rt: HostRuntime) -> Result<(), Fail> {
    writes_rows(rt.alloc(), HEADS_AND_ENDS)
}

// What each push has of a text in chunks: a head, a content, or an end.
const PUSHES: &[(Parts, &[&[u8]])] = table! {
    (Parts(&[IndefiniteText, Text("ab"), Text(""), TextEnd]),
        &[b"\x7f", b"\x62", b"ab", b"\x60", b"", b"\xff"]),
};

#[test]
fn pushes_of_chunks(rt: HostRuntime) -> Result<(), Fail> {
    writes_rows_in_pushes(rt.alloc(), PUSHES)
}

const IN_CHUNKS: &[(Parts, &[u8], usize)] = table! {
    // Strings in their chunks, what they are written as, and in how many pushes.
    (Parts(&[IndefiniteBytes, Bytes(b"\x01\x02"), Bytes(b"\x03\x04\x05"), BytesEnd]),
        b"\x5f\x42\x01\x02\x43\x03\x04\x05\xff", 6),
    (Parts(&[IndefiniteText, Text("strea"), Text("ming"), TextEnd]),
        b"\x7f\x65strea\x64ming\xff", 6),
    // Strings of indefinite length in arrays and maps.
    // [_ (_ ), "a"]
    (Parts(&[IndefiniteArray, IndefiniteText, TextEnd, Text("a"), ArrayEnd]),
        b"\x9f\x7f\xff\x61a\xff", 6),
    // [(_ ), "a"]
    (Parts(&[Array(2), IndefiniteText, TextEnd, Text("a")]), b"\x82\x7f\xff\x61a", 5),
    // {(_ "k"): 1}
    (Parts(&[Map(1), IndefiniteText, Text("k"), TextEnd, Number(1)]), b"\xa1\x7f\x61k\xff\x01", 6),
    // [_ (_ h'01'), h'02']
    (Parts(&[IndefiniteArray, IndefiniteBytes, Bytes(b"\x01"), BytesEnd, Bytes(b"\x02"), ArrayEnd]),
        b"\x9f\x5f\x41\x01\xff\x41\x02\xff", 8),
};

#[test]
fn strings_in_chunks(rt: HostRuntime) -> Result<(), Fail> {
    writes_rows(rt.alloc(), IN_CHUNKS)
}
