//! Rows of arrays and maps that are written.
//!
//! A `Vec` is written in the rows of `array.rt` that go both ways.
use cbor4ii_items::types::Map;
use cbor4ii_vectors::rows::writes_rows;
use cbor4ii_vectors::table;
use std::test::Fail;

const SLICES: &[(&[u8], &[u8], usize)] = table! {
    (&[1, 2, 3], b"\x83\x01\x02\x03", 4),
};

const NESTED_SLICES: &[(&[&[u8]], &[u8], usize)] = table! {
    (&[&[1], &[2, 3]], b"\x82\x81\x01\x82\x02\x03", 6),
};

#[test]
fn slices(rt: HostRuntime) -> Result<(), Fail> {
    let alloc = rt.alloc();
    writes_rows(alloc, SLICES)?;
    writes_rows(alloc, NESTED_SLICES)
}

const MAPS: &[(Map<&[(u8, u8)]>, &[u8], usize)] = table! {
    (Map(&[]), b"\xa0", 1),
    (Map(&[(1, 2), (3, 4)]), b"\xa2\x01\x02\x03\x04", 5),
};

const LETTERS: &[u8] = b"\xa5\x61a\x61A\x61b\x61B\x61c\x61C\x61d\x61D\x61e\x61E";

const MAPS_OF_TEXTS: &[(Map<&[(&str, &str)]>, &[u8], usize)] = table! {
    (Map(&[("a", "A"), ("b", "B"), ("c", "C"), ("d", "D"), ("e", "E")]), LETTERS, 21),
};

#[test]
fn maps(rt: HostRuntime) -> Result<(), Fail> {
    let alloc = rt.alloc();
    writes_rows(alloc, MAPS)?;
    writes_rows(alloc, MAPS_OF_TEXTS)
}
