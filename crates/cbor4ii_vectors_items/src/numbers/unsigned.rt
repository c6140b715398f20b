//! Rows of unsigned integers: RFC 8949 Appendix A, the edges of each type, and errors.
use cbor4ii_items::decode::Decode;
use cbor4ii_items::encode::Encode;
use cbor4ii_rw::error::{DecodeError, EncodeError};
use cbor4ii_rw::read::Source;
use cbor4ii_rw::write::Write;
use cbor4ii_vectors::items::{items_go_both_ways, reads_items, reads_items_within};
use cbor4ii_vectors::rows::{Called, CalledWithin, ReadFrom, WriteTo, goes_both_ways, writes_in};
use cbor4ii_vectors::{eof, mismatch, table};
use std::alloc::Global;
use std::test::Fail;

const ONE_AFTER_ANOTHER: &[u8] = b"\x1a\x00\x0f\x42\x40\x20";

/// Two numbers of different types.
#[derive(Debug, PartialEq, Drop)]
struct OneAfterAnother(u64, i128);

impl ReadFrom for OneAfterAnother {
    fn read_from<S: Source>(alloc: Global, reader: &mut S) -> Result<Self, DecodeError<S::Error>> {
        let first = u64::decode(alloc, reader)?;
        Ok(OneAfterAnother(first, i128::decode(alloc, reader)?))
    }
}

impl WriteTo for OneAfterAnother {
    fn write_to<W: Write>(&self, writer: &mut W) -> Result<(), EncodeError<W::Error>> {
        self.0.encode(writer)?;
        self.1.encode(writer)
    }
}

#[test]
fn numbers_one_after_another(rt: HostRuntime) -> Result<(), Fail> {
    goes_both_ways(
        rt.alloc(),
        OneAfterAnother(1_000_000, -1),
        ONE_AFTER_ANOTHER,
        2,
    )
}

/// What `u64`, `u128` and `i128` read and write alike.
pub const UNSIGNED_INTEGERS: &[(&[u8], &str, usize)] = table! {
    (b"\x00", "0", 1),
    (b"\x01", "1", 1),
    (b"\x0a", "10", 1),
    (b"\x17", "23", 1),
    (b"\x18\x18", "24", 1),
    (b"\x18\x19", "25", 1),
    (b"\x18\x64", "100", 1),
    (b"\x19\x03\xe8", "1000", 1),
    (b"\x1a\x00\x0f\x42\x40", "1000000", 1),
    (b"\x1b\x00\x00\x00\xe8\xd4\xa5\x10\x00", "1000000000000", 1),
    (b"\x1b\xff\xff\xff\xff\xff\xff\xff\xff", "18446744073709551615", 1),
};

#[test]
fn unsigned_integers(rt: HostRuntime) -> Result<(), Fail> {
    items_go_both_ways(rt.alloc(), "u64", UNSIGNED_INTEGERS)
}

#[test]
fn written_unsigned_integers(rt: HostRuntime) -> Result<(), Fail> {
    let alloc = rt.alloc();
    writes_in(alloc, &255u8, b"\x18\xff", 1)?;
    writes_in(alloc, &65535u16, b"\x19\xff\xff", 1)?;
    writes_in(alloc, &65536u32, b"\x1a\x00\x01\x00\x00", 1)
}

const U8: &[Called] = table! {
    ("u8", b"\x18\xff", Ok("255"), b""),
    ("u8", b"", Err(eof!("u8", 1)), b""),
    ("u8", b"\x18", Err(eof!("u8", 1)), b""),
    ("u8", b"\x19\x00\x05", Err(mismatch!("u8", 0x19)), b"\x00\x05"),
    ("u16", b"\x19\xff\xff", Ok("65535"), b""),
    ("u16", b"\x19\x00\x05", Ok("5"), b""),
    ("u16", b"\x19\x00", Err(eof!("u16", 2)), b""),
    ("u16", b"\x1a\x00", Err(mismatch!("u16", 0x1a)), b"\x00"),
    ("u32", b"\x1a\x00\x01\x00\x00\xff", Ok("65536"), b"\xff"),
    ("u32", b"\x1c\x00", Err(mismatch!("u32", 0x1c)), b"\x00"),
    ("u32", b"\x1b\x00", Err(mismatch!("u32", 0x1b)), b"\x00"),
    ("u64", b"\x1b\x00\x00\x00\x00\x00\x00\x00\x05", Ok("5"), b""),
    ("u64", b"\x1b\x01\x02\x03\x04\x05\x06\x07\x08", Ok("72623859790382856"), b""),
    ("u64", b"\x1b\x01\x02", Err(eof!("u64", 8)), b""),
    ("u64", b"\x1f\x01", Err(mismatch!("u64", 0x1f)), b"\x01"),
    ("u64", b"\x20\x01", Err(mismatch!("u64", 0x20)), b"\x01"),
};

#[test]
fn unsigned_integers_by_type(rt: HostRuntime) -> Result<(), Fail> {
    let alloc = rt.alloc();
    reads_items(alloc, U8)
}

const LEAST_AND_GREATEST: &[CalledWithin] = table! {
    ("u8", b"\x05", 0, Ok("5"), b""),
    ("u8", b"\x18\x05", 0, Ok("5"), b""),
    ("u8", b"\x18\x05", usize::MAX, Ok("5"), b""),
};

// What takes no step is read where none is left, and as many as a limit can be do not run over.
#[test]
fn the_least_and_the_greatest_limit(rt: HostRuntime) -> Result<(), Fail> {
    reads_items_within(rt.alloc(), LEAST_AND_GREATEST)
}
