//! Values of a whole slice, and the bytes of a value.
//!
//! What else is read and written stands with the rows of `decode_value.rt`, `decode_canonical.rt`
//! and `encode_value.rt`.
use crate::decode_value::growth::{array, byte_string, map, text};
use crate::literal::Literal::{self, Array, Bool, Bytes, Float, Integer, Map, Null, Tag, Text};
use cbor4ii_rw::error::{DecodeError, Never, WholeError};
use cbor4ii_tree::FloatBits::F16;
use cbor4ii_tree::{Canonical, Value};
use cbor4ii_vectors::repeated::repeated;
use cbor4ii_vectors::{eof, mismatch, no_step, not_canonical, require_utf8, table, unsupported};
use std::alloc::Global;
use std::fmt::InlineText;
use std::test::Fail;

// The bytes are read as this value, as any encoding of it.
fn is_read(alloc: Global, bytes: &[u8], value: &Value) -> Result<(), Fail> {
    if Value::from_slice_whole(alloc, bytes)? == *value {
        return Ok(());
    }
    Err(Fail::new(format_args!("another value of {} bytes", bytes.len())))
}

// The bytes are the value's canonical encoding: they are read as such, and the value is written so.
fn is_canonical(alloc: Global, bytes: &[u8], value: Value) -> Result<(), Fail> {
    is_read(alloc, bytes, &value)?;
    is_written(alloc, &value, bytes)?;
    if Canonical::from_slice_whole(alloc, bytes)?.into_inner() == value {
        return Ok(());
    }
    Err(Fail::new(format_args!("another canonical value of {} bytes", bytes.len())))
}

fn is_written(alloc: Global, value: &Value, bytes: &[u8]) -> Result<(), Fail> {
    if value.to_vec(alloc)?.as_slice() == bytes {
        return Ok(());
    }
    Err(Fail::new(format_args!("other bytes in the place of {}", bytes.len())))
}

// An answer's error has this text.
fn is_error<T: Drop>(
    got: Result<T, WholeError<DecodeError<Never>>>,
    bytes: &[u8],
    want: &str,
) -> Result<(), Fail> {
    match got {
        Err(error) if InlineText::<128>::of(format_args!("{error}")).as_str() == want => Ok(()),
        Err(WholeError::Decode(DecodeError::OutOfMemory)) => {
            Err(Fail::from(DecodeError::<Never>::OutOfMemory))
        }
        Err(error) => Err(Fail::new(format_args!("{error:?} of {bytes:?}"))),
        Ok(_) => Err(Fail::new(format_args!("{bytes:?} is read"))),
    }
}

// Items of RFC 8949, appendix A, in their canonical encodings.
const ITEMS: &[(&[u8], Literal)] = table! {
    (b"\xf6", Null),
    (b"\xf5", Bool(true)),
    (b"\x18\x64", Integer(100)),
    (b"\x3b\xff\xff\xff\xff\xff\xff\xff\xff", Integer(-18446744073709551616)),
    (b"\xf9\x3c\x00", Float(F16(0x3c00))),
    (b"\x44\x01\x02\x03\x04", Bytes(b"\x01\x02\x03\x04")),
    (b"\x64IETF", Text("IETF")),
    (b"\x83\x01\x02\x03", Array(&[Integer(1), Integer(2), Integer(3)])),
    (b"\xa1\x61a\x81\x20", Map(&[(Text("a"), Array(&[Integer(-1)]))])),
    (b"\xc1\x1a\x51\x4b\x67\xb0", Tag(1, &Integer(1363896240))),
};

// Other encodings: the value, and its canonical encoding.
const OTHERS: &[(&[u8], Literal, &[u8])] = table! {
    (b"\x18\x05", Integer(5), b"\x05"),
    (b"\xf7", Null, b"\xf6"),
    (b"\x59\x00\x01a", Bytes(b"a"), b"\x41a"),
    (b"\x7f\x65strea\x64ming\xff", Text("streaming"), b"\x69streaming"),
    (b"\x9f\x01\x02\xff", Array(&[Integer(1), Integer(2)]), b"\x82\x01\x02"),
    (b"\xbf\x02\x02\x01\x03\xff", Map(&[(Integer(2), Integer(2)), (Integer(1), Integer(3))]),
        b"\xa2\x02\x02\x01\x03"),
};

const NOT_CANONICAL: &str = not_canonical!("canonical");

fn reads_rows(alloc: Global) -> Result<(), Fail> {
    for (bytes, literal) in ITEMS {
        is_canonical(alloc, bytes, literal.to_value(alloc)?)?;
    }
    for (bytes, literal, written) in OTHERS {
        is_read(alloc, bytes, &literal.to_value(alloc)?)?;
        is_canonical(alloc, written, literal.to_value(alloc)?)?;
        is_error(
            Canonical::from_slice_whole(alloc, bytes),
            bytes,
            NOT_CANONICAL,
        )?;
    }
    Ok(())
}

#[test]
fn a_whole_slice_is_a_value(rt: HostRuntime) -> Result<(), Fail> {
    reads_rows(rt.alloc())
}

// An item, and so many bytes `ff` after it, which begin no item.
const FOLLOWED: &[(&[u8], usize, &str)] = table! {
    (b"\xf6", 1, "bytes after the item: 1"),
    (b"\x82\x01\x02", 2, "bytes after the item: 2"),
    (b"\x64IETF", 300, "bytes after the item: 300"),
    (b"\xa1\x61a\x01", 70_000, "bytes after the item: 70000"),
};

// What neither reads.
const REJECTED: &[(&[u8], &str)] = table! {
    (b"", eof!("value", 1)),
    (b"\x19\x01", eof!("u64", 2)),
    (b"\x82\x01", eof!("value", 1)),
    (b"\xa1\x61a", eof!("value", 1)),
    (b"\x62a", eof!("str", 1)),
    (b"\x61\xff", require_utf8!("str")),
    (b"\xe0", unsupported!("value", 224)),
    (b"\x81\xff", unsupported!("value", 255)),
};

// What has no canonical encoding: the error of a value.
const REJECTED_VALUES: &[(&[u8], &str)] = table! {
    (b"\x5f\x80\xff", mismatch!("bytes", 128)),
    (b"\x9f\x01", eof!("break", 1)),
    (b"\x7f\x61a", eof!("break", 1)),
};

fn is_rejected_by_both(alloc: Global, bytes: &[u8], want: &str) -> Result<(), Fail> {
    is_error(Value::from_slice_whole(alloc, bytes), bytes, want)?;
    is_error(Canonical::from_slice_whole(alloc, bytes), bytes, want)
}

fn rejects_rows(alloc: Global) -> Result<(), Fail> {
    for (item, count, want) in FOLLOWED {
        let bytes = repeated(alloc, item, b"\xff", *count, b"")?;
        is_rejected_by_both(alloc, bytes, want)?;
    }
    for (bytes, want) in REJECTED {
        is_rejected_by_both(alloc, bytes, want)?;
    }
    for (bytes, want) in REJECTED_VALUES {
        is_error(Value::from_slice_whole(alloc, bytes), bytes, want)?;
        is_error(
            Canonical::from_slice_whole(alloc, bytes),
            bytes,
            NOT_CANONICAL,
        )?;
    }
    Ok(())
}

#[test]
fn another_slice_is_rejected(rt: HostRuntime) -> Result<(), Fail> {
    rejects_rows(rt.alloc())
}

// 127 arrays take the last of the steps, and 128 one more.
#[test]
fn a_whole_slice_within_the_limit(rt: HostRuntime) -> Result<(), Fail> {
    let alloc = rt.alloc();
    let deep = repeated(alloc, b"", b"\x81", 127, b"\x05")?;
    let value = Value::from_slice_whole(alloc, deep)?;
    is_canonical(alloc, deep, value)?;
    let deeper = repeated(alloc, b"", b"\x81", 128, b"\x05")?;
    is_rejected_by_both(alloc, deeper, no_step!("value"))
}

// 5,000 parts, 0x1388, and 100,000 bytes, 0x186a0: memory is found for each of them.
#[test]
fn a_whole_slice_of_many_parts(rt: HostRuntime) -> Result<(), Fail> {
    let alloc = rt.alloc();
    let items = repeated(alloc, b"\x99\x13\x88", b"\x05", 5_000, b"")?;
    is_canonical(alloc, items, array(alloc, 5_000)?)?;
    let pairs = repeated(alloc, b"\xb9\x13\x88", b"\x05\x06", 5_000, b"")?;
    is_canonical(alloc, pairs, map(alloc, 6, 5_000)?)?;
    let indefinite = repeated(alloc, b"\x9f", b"\x05", 5_000, b"\xff")?;
    is_read(alloc, indefinite, &array(alloc, 5_000)?)
}

#[test]
fn a_whole_slice_of_many_bytes(rt: HostRuntime) -> Result<(), Fail> {
    let alloc = rt.alloc();
    let bytes = repeated(alloc, b"\x5a\x00\x01\x86\xa0", b"a", 100_000, b"")?;
    is_canonical(alloc, bytes, byte_string(alloc, b'a', 100_000)?)?;
    let letters = repeated(alloc, b"\x7a\x00\x01\x86\xa0", b"a", 100_000, b"")?;
    is_canonical(alloc, letters, text(alloc, 100_000)?)?;
    let chunks = repeated(alloc, b"\x7f", b"\x61a", 100_000, b"\xff")?;
    is_read(alloc, chunks, &text(alloc, 100_000)?)
}
