//! Rows of the maps that are written and read by hand.
use crate::by_hand::{Record, decode_record, write_record};
use crate::rejected::is_rejected;
use cbor4ii::error::{DecodeError, Never};
use cbor4ii::utils::SliceReader;
use cbor4ii_vectors::{eof, mismatch};
use std::alloc::Global;
use std::test::Fail;

#[test]
fn a_record_is_written(rt: HostRuntime) -> Result<(), Fail> {
    let bytes = write_record(rt.alloc(), 5, b"abc")?;
    let wanted = b"\xa2\x62id\x05\x63key\xd8\x2a\x43abc".as_slice();
    assert_eq!(rt; bytes.as_slice(), wanted);
    Ok(())
}

#[test]
fn a_record_is_read(rt: HostRuntime) -> Result<(), Fail> {
    let alloc = rt.alloc();
    let mut reader = SliceReader::new(b"\xbf\x62id\x05\x64name\xd8\x2a\x63abc\xff");
    match decode_record(alloc, &mut reader)? {
        Some(record) => {
            assert_eq!(rt; record.id, 5);
            assert_eq!(rt; record.name.as_str(), "abc");
        }
        None => assert!(rt; false),
    }
    assert!(rt; reader.remaining().is_empty());
    Ok(())
}

/// What these bytes are decoded as.
fn decoded(alloc: Global, bytes: &[u8]) -> Result<Option<Record>, DecodeError<Never>> {
    decode_record(alloc, &mut SliceReader::new(bytes))
}

// A map of definite length, one with another key, and one without a name.
#[test]
fn another_map_is_none(rt: HostRuntime) -> Result<(), Fail> {
    let alloc = rt.alloc();
    assert!(rt; decoded(alloc, b"\xa0")?.is_none());
    assert!(rt; decoded(alloc, b"\xbf\x61x\x05\xff")?.is_none());
    assert!(rt; decoded(alloc, b"\xbf\x62id\x05\xff")?.is_none());
    Ok(())
}

#[test]
fn other_bytes_are_rejected(rt: HostRuntime) -> Result<(), Fail> {
    let alloc = rt.alloc();
    is_rejected(decoded(alloc, b"\x80"), mismatch!("map", 128))?;
    is_rejected(decoded(alloc, b"\xbf\x01"), mismatch!("str", 1))?;
    is_rejected(decoded(alloc, b"\xbf\x62id"), eof!("u64", 1))
}
