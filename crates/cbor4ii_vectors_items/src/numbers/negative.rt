//! Rows of negative integers, held as their arguments: the edges of each type, and errors.
use cbor4ii_items::types::Negative;
use cbor4ii_vectors::items::{items_go_both_ways, reads_items};
use cbor4ii_vectors::rows::{Called, writes_in};
use cbor4ii_vectors::{eof, mismatch, table};
use std::test::Fail;

const NEGATIVE_U8: &[Called] = table! {
    ("Negative<u8>", b"\x38\xff", Ok("Negative(255)"), b""),
    ("Negative<u8>", b"\x39\x00\x00", Err(mismatch!("-u8", 0x39)), b"\x00\x00"),
    ("Negative<u64>", b"\x3b\xff\xff\xff\xff\xff\xff\xff\xff",
        Ok("Negative(18446744073709551615)"), b""),
    ("Negative<u64>", b"\x3a", Err(eof!("-u64", 4)), b""),
    ("Negative<u64>", b"\x00", Err(mismatch!("-u64", 0x00)), b""),
};

const NEGATIVE_U16: &[(&[u8], &str, usize)] = table! {
    (b"\x39\xff\xff", "Negative(65535)", 1),
};

const NEGATIVE_U32: &[(&[u8], &str, usize)] = table! {
    (b"\x3a\xff\xff\xff\xff", "Negative(4294967295)", 1),
};

#[test]
fn negative_integers(rt: HostRuntime) -> Result<(), Fail> {
    let alloc = rt.alloc();
    reads_items(alloc, NEGATIVE_U8)?;
    items_go_both_ways(alloc, "Negative<u16>", NEGATIVE_U16)?;
    items_go_both_ways(alloc, "Negative<u32>", NEGATIVE_U32)
}

#[test]
fn written_negative_integers(rt: HostRuntime) -> Result<(), Fail> {
    let alloc = rt.alloc();
    writes_in(alloc, &Negative(255u8), b"\x38\xff", 1)?;
    writes_in(
        alloc,
        &Negative(u64::MAX),
        b"\x3b\xff\xff\xff\xff\xff\xff\xff\xff",
        1,
    )
}
