//! Rows of texts that are borrowed, and of those out of a stream.
use crate::rejected::is_rejected;
use crate::texts::{borrowed, streamed};
use cbor4ii_vectors::{eof, mismatch, require_length, require_utf8};
use std::test::Fail;

#[test]
fn texts_are_lent_or_joined(rt: HostRuntime) -> Result<(), Fail> {
    let alloc = rt.alloc();
    assert_eq!(rt; borrowed(alloc, b"\x64IETF\x01")?, "IETF");
    let stream = b"\x7f\x65strea\x64ming\xff".as_slice();
    assert_eq!(rt; streamed(alloc, stream)?.as_str(), "streaming");
    Ok(())
}

#[test]
fn what_cannot_be_lent_is_rejected(rt: HostRuntime) -> Result<(), Fail> {
    let alloc = rt.alloc();
    is_rejected(borrowed(alloc, b"\x62a"), require_length!("str", 1))?;
    is_rejected(borrowed(alloc, b"\x61\xff"), require_utf8!("str"))?;
    is_rejected(borrowed(alloc, b"\x7f\x61a\xff"), mismatch!("str", 127))
}

#[test]
fn another_stream_is_rejected(rt: HostRuntime) -> Result<(), Fail> {
    let alloc = rt.alloc();
    is_rejected(streamed(alloc, b"\x7f\x61a".as_slice()), eof!("break", 1))?;
    is_rejected(streamed(alloc, b"\x05".as_slice()), mismatch!("str", 5))
}
