//! Rows of items that are written in their canonical encoding.
use crate::canonical::canonical;
use crate::rejected::is_rejected;
use cbor4ii_vectors::{eof, require_utf8};
use std::test::Fail;

#[test]
fn an_item_is_written_anew(rt: HostRuntime) -> Result<(), Fail> {
    let (bytes, rest) = canonical(rt.alloc(), b"\x9f\x18\x05\xf7\xff\x01")?;
    assert_eq!(rt; bytes.as_slice(), b"\x82\x05\xf6".as_slice());
    assert_eq!(rt; rest, b"\x01".as_slice());
    Ok(())
}

#[test]
fn other_bytes_are_rejected(rt: HostRuntime) -> Result<(), Fail> {
    let alloc = rt.alloc();
    is_rejected(canonical(alloc, b"\x9f\x01"), eof!("break", 1))?;
    is_rejected(canonical(alloc, b"\x62\xff\xff"), require_utf8!("str"))
}
