//! Rows of items in a box.
use cbor4ii_vectors::items::{items_go_both_ways, reads_items};
use cbor4ii_vectors::rows::Called;
use cbor4ii_vectors::{mismatch, table};
use std::test::Fail;

const BOXES: &[(&[u8], &str, usize)] = table! {
    (b"\x05", "5", 1),
};

const REJECTED_BOXES: &[Called] = table! {
    ("Box<u8>", b"\x61", Err(mismatch!("u8", 0x61)), b""),
};

#[test]
fn boxes(rt: HostRuntime) -> Result<(), Fail> {
    let alloc = rt.alloc();
    items_go_both_ways(alloc, "Box<u8>", BOXES)?;
    reads_items(alloc, REJECTED_BOXES)
}
