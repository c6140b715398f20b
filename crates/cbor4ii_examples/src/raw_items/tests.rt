//! Rows of items that are kept as their bytes, and of one that is skipped.
use crate::raw_items::{after_first, raw_items};
use crate::rejected::is_rejected;
use cbor4ii_vectors::{eof, mismatch};
use std::test::Fail;

#[test]
fn items_are_kept_as_they_stand(rt: HostRuntime) -> Result<(), Fail> {
    let items = raw_items(rt.alloc(), b"\x82\x18\x05\x61a")?;
    assert_eq!(rt; items.len(), 2);
    assert_eq!(rt; items[0].as_bytes(), b"\x18\x05".as_slice());
    assert_eq!(rt; items[1].as_bytes(), b"\x61a".as_slice());
    Ok(())
}

#[test]
fn an_item_is_skipped(rt: HostRuntime) -> Result<(), Fail> {
    let rest = after_first(rt.alloc(), b"\xbf\x01\x5f\x80\xff\xff\x07")?;
    assert_eq!(rt; rest, b"\x07".as_slice());
    Ok(())
}

#[test]
fn other_bytes_are_rejected(rt: HostRuntime) -> Result<(), Fail> {
    let alloc = rt.alloc();
    is_rejected(raw_items(alloc, b"\x05"), mismatch!("array", 5))?;
    is_rejected(raw_items(alloc, b"\x82\x05"), eof!("ignored-any", 1))?;
    is_rejected(after_first(alloc, b"\x82\x05"), eof!("ignored-any", 1))
}
