//! Rows of simple values and of floats.
use cbor4ii_items::types::{Null, Undefined};
use cbor4ii_vectors::items::{items_go_both_ways, reads_items};
use cbor4ii_vectors::rows::{Called, writes_in, writes_rows};
use cbor4ii_vectors::{eof, mismatch, table};
use std::test::Fail;

const SIMPLE_VALUES: &[Called] = table! {
    ("Simple", b"\xf8\x14", Ok("Simple(20)"), b""),
    ("Simple", b"\xf5", Ok("Simple(21)"), b""),
    ("Simple", b"\xf8\x18", Ok("Simple(24)"), b""),
    ("Simple", b"", Err(eof!("simple", 1)), b""),
    ("Simple", b"\xf8", Err(eof!("simple", 1)), b""),
    ("Simple", b"\xf9\x00\x00", Err(mismatch!("simple", 0xf9)), b"\x00\x00"),
    ("Simple", b"\xff\x01", Err(mismatch!("simple", 0xff)), b"\x01"),
    ("Simple", b"\x14\x01", Err(mismatch!("simple", 0x14)), b"\x01"),
};

const SIMPLE_VALUES_BOTH: &[(&[u8], &str, usize)] = table! {
    (b"\xf0", "Simple(16)", 1),
    (b"\xf8\x18", "Simple(24)", 1),
    (b"\xf8\xff", "Simple(255)", 1),
};

#[test]
fn simple_values(rt: HostRuntime) -> Result<(), Fail> {
    let alloc = rt.alloc();
    reads_items(alloc, SIMPLE_VALUES)?;
    items_go_both_ways(alloc, "Simple", SIMPLE_VALUES_BOTH)?;
    writes_in(alloc, &Null, b"\xf6", 1)?;
    writes_in(alloc, &Undefined, b"\xf7", 1)
}

const FLAGS: &[Called] = table! {
    ("bool", b"\xf4", Ok("false"), b""),
    ("bool", b"\xf5", Ok("true"), b""),
    ("bool", b"\xf5\xf4", Ok("true"), b"\xf4"),
    ("bool", b"\xf6", Err(mismatch!("bool", 0xf6)), b"\xf6"),
    ("bool", b"", Err(eof!("bool", 1)), b""),
};

const WRITTEN_FLAGS: &[(bool, &[u8], usize)] = table! {
    (false, b"\xf4", 1),
    (true, b"\xf5", 1),
};

#[test]
fn flags(rt: HostRuntime) -> Result<(), Fail> {
    let alloc = rt.alloc();
    reads_items(alloc, FLAGS)?;
    writes_rows(alloc, WRITTEN_FLAGS)
}

const FLOATS_HALVES: &[(&[u8], &str, usize)] = table! {
    (b"\xf9\x00\x00", "F16(0)", 1),
    (b"\xf9\x80\x00", "F16(32768)", 1),
    (b"\xf9\x3c\x00", "F16(15360)", 1),
    (b"\xf9\x3e\x00", "F16(15872)", 1),
    (b"\xf9\x7b\xff", "F16(31743)", 1),
    (b"\xf9\x00\x01", "F16(1)", 1),
    (b"\xf9\x04\x00", "F16(1024)", 1),
    (b"\xf9\xc4\x00", "F16(50176)", 1),
    (b"\xf9\x7c\x00", "F16(31744)", 1),
    (b"\xf9\x7e\x00", "F16(32256)", 1),
    (b"\xf9\xfc\x00", "F16(64512)", 1),
};

const FLOATS_SINGLES: &[(&[u8], &str, usize)] = table! {
    (b"\xfa\x47\xc3\x50\x00", "F32(1203982336)", 1),
    (b"\xfa\x7f\x7f\xff\xff", "F32(2139095039)", 1),
    (b"\xfa\x7f\x80\x00\x00", "F32(2139095040)", 1),
    (b"\xfa\x7f\xc0\x00\x00", "F32(2143289344)", 1),
    (b"\xfa\xff\x80\x00\x00", "F32(4286578688)", 1),
};

const FLOATS_DOUBLES: &[(&[u8], &str, usize)] = table! {
    (b"\xfb\x3f\xf1\x99\x99\x99\x99\x99\x9a", "F64(4607632778762754458)", 1),
    (b"\xfb\x7e\x37\xe4\x3c\x88\x00\x75\x9c", "F64(9094988921128908188)", 1),
    (b"\xfb\xc0\x10\x66\x66\x66\x66\x66\x66", "F64(13839674244900218470)", 1),
    (b"\xfb\x7f\xf0\x00\x00\x00\x00\x00\x00", "F64(9218868437227405312)", 1),
    (b"\xfb\x7f\xf8\x00\x00\x00\x00\x00\x00", "F64(9221120237041090560)", 1),
    (b"\xfb\xff\xf0\x00\x00\x00\x00\x00\x00", "F64(18442240474082181120)", 1),
};

#[test]
fn floats(rt: HostRuntime) -> Result<(), Fail> {
    let alloc = rt.alloc();
    items_go_both_ways(alloc, "F16", FLOATS_HALVES)?;
    items_go_both_ways(alloc, "F32", FLOATS_SINGLES)?;
    items_go_both_ways(alloc, "F64", FLOATS_DOUBLES)
}

const REJECTED_FLOATS_HALVES: &[Called] = table! {
    ("F16", b"", Err(eof!("f16", 1)), b""),
    ("F16", b"\xf9\x7b", Err(eof!("f16", 2)), b""),
    ("F16", b"\xf4\x00", Err(mismatch!("f16", 0xf4)), b"\xf4\x00"),
    ("F32", b"", Err(eof!("f32", 1)), b""),
    ("F32", b"\xfa\x47\xc3", Err(eof!("f32", 4)), b""),
    ("F32", b"\xfb\x00", Err(mismatch!("f32", 0xfb)), b"\xfb\x00"),
    ("F64", b"", Err(eof!("f64", 1)), b""),
    ("F64", b"\xfb\x3f", Err(eof!("f64", 8)), b""),
    ("F64", b"\xf9\x00\x00", Err(mismatch!("f64", 0xf9)), b"\xf9\x00\x00"),
    ("F64", b"\xfa\x00\x00\x00\x00", Err(mismatch!("f64", 0xfa)), b"\xfa\x00\x00\x00\x00"),
};

#[test]
fn rejected_floats(rt: HostRuntime) -> Result<(), Fail> {
    let alloc = rt.alloc();
    reads_items(alloc, REJECTED_FLOATS_HALVES)
}
