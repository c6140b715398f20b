//! One value, written whole: into memory, and into a stream, which may fail.
use crate::tagged::{TAG, is_rejected, tagged};
use cbor4ii_rw::error as core_error;
use cbor4ii_rw::error::StaticStr;
use cbor4ii_ser::error::EncodeError;
use cbor4ii_ser::write_all::{to_vec, to_writer};
use cbor4ii_vectors::streams::FailingSink;
use std::io::{self, ErrorKind};
use std::test::Fail;

#[test]
fn into_memory(rt: HostRuntime) -> Result<(), Fail> {
    let alloc = rt.alloc();
    let bytes = to_vec(vec![in alloc; 0xff]?, &("", 1u8))?;
    assert_eq!(rt; bytes.as_slice(), b"\xff\x82\x60\x01".as_slice());
    Ok(())
}

// Room that is there is used, and no more is asked for, behind 10,000 bytes too.
#[test]
fn into_room_that_is_there(rt: HostRuntime) -> Result<(), Fail> {
    let mut held = Vec::with_capacity(rt.alloc(), 10_003)?;
    held.resize(10_000, 0xff)?;
    let bytes = to_vec(held, &("", 1u8))?;
    assert_eq!(rt; (bytes.len(), bytes.capacity()), (10_003, 10_003));
    assert!(rt; bytes.ends_with(b"\xff\x82\x60\x01".as_slice()));
    Ok(())
}

// A buffer of 10,000 bytes without room grows to twice that, and no further.
#[test]
fn behind_a_full_buffer(rt: HostRuntime) -> Result<(), Fail> {
    let mut held = Vec::with_capacity(rt.alloc(), 10_000)?;
    held.resize(10_000, 0xff)?;
    let bytes = to_vec(held, &("", 1u8))?;
    assert_eq!(rt; (bytes.len(), bytes.capacity()), (10_003, 20_000));
    Ok(())
}

#[test]
fn into_a_stream(rt: HostRuntime) -> Result<(), Fail> {
    let mut room = [0xffu8; 4];
    assert!(rt; to_writer(room.as_mut_slice(), &("", 1u8)).is_ok());
    assert_eq!(rt; room.as_slice(), b"\x82\x60\x01\xff".as_slice());
    Ok(())
}

#[test]
fn a_stream_is_not_flushed(rt: HostRuntime) -> Result<(), Fail> {
    let sink = to_writer(
        FailingSink::new(Vec::with_capacity(rt.alloc(), 1)?, 1),
        &5u8,
    )?;
    assert_eq!(rt; sink.flushes(), 0);
    assert_eq!(rt; sink.buffer(), b"\x05".as_slice());
    Ok(())
}

// The kind of the stream's error.
fn fault<W: Drop>(got: Result<W, EncodeError<io::Error>>) -> Option<ErrorKind> {
    match got {
        Err(EncodeError::Core(core_error::EncodeError::Write(error))) => Some(error.kind()),
        _ => None,
    }
}

#[test]
fn a_stream_that_fails(rt: HostRuntime) -> Result<(), Fail> {
    let mut room = [0u8; 2];
    let full = to_writer(room.as_mut_slice(), &("ab", 1u8));
    assert!(rt; fault(full) == Some(ErrorKind::WriteZero));
    let sink = FailingSink::new(Vec::with_capacity(rt.alloc(), 2)?, 2);
    assert!(rt; fault(to_writer(sink, &("ab", 1u8))) == Some(ErrorKind::Other));
    Ok(())
}

// The words of an error.
fn rejection<W: Drop>(got: Result<W, EncodeError<io::Error>>) -> Option<StaticStr> {
    match got {
        Err(EncodeError::Custom(words)) => Some(words),
        _ => None,
    }
}

#[test]
fn a_value_without_an_item(rt: HostRuntime) -> Result<(), Fail> {
    let alloc = rt.alloc();
    let value = tagged(alloc)?;
    is_rejected(to_vec(Vec::new(alloc), &value))?;
    let mut room = [0u8; 2];
    assert!(rt; rejection(to_writer(room.as_mut_slice(), &value)) == Some(TAG));
    Ok(())
}
