//! Rows of no item at all.
use cbor4ii_items::decode::Decode;
use cbor4ii_items::types::Nothing;
use cbor4ii_vectors::compared::same;
use cbor4ii_vectors::items::reads_items;
use cbor4ii_vectors::readers::TestReader;
use cbor4ii_vectors::rows::{Called, writes_in};
use cbor4ii_vectors::table;
use std::test::Fail;

const NOTHING: &[Called] = table! {
    ("Nothing", b"", Ok("Nothing"), b""),
    ("Nothing", b"\x05", Ok("Nothing"), b"\x05"),
};

#[test]
fn nothing(rt: HostRuntime) -> Result<(), Fail> {
    let alloc = rt.alloc();
    writes_in(alloc, &Nothing, b"", 0)?;
    reads_items(alloc, NOTHING)
}

// A reader that fails at its first show is not asked for it, and has no step to give.
#[test]
fn nothing_asks_nothing(rt: HostRuntime) -> Result<(), Fail> {
    let mut reader = TestReader::whole(b"\x05", 0).failing_after(0);
    let got = Nothing::decode(rt.alloc(), &mut reader);
    same((got, reader.failures()), (Ok(Nothing), 0))
}
