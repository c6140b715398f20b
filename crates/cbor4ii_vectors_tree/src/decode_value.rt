//! Values that are read from each encoding, and with it skipped, copied and written.
//!
//! What is written is the one encoding that `Canonical` reads.
use crate::item::Item;
use crate::item_rows::{reads_and_writes, reads_canonical, reads_item};
use crate::literal::Literal::{self, Array, Bool, Bytes, Float, Integer, Map, Null, Tag, Text};
use cbor4ii_rw::segment_reader::SegmentReader;
use cbor4ii_tree::FloatBits::{F16, F32, F64};
use cbor4ii_tree::{Canonical, Value};
use cbor4ii_vectors::rows::{Pair, Want, reads, reads_over};
use cbor4ii_vectors::{eof, not_canonical, table};
use std::alloc::{AllocError, Global};
use std::test::Fail;

mod asked;
mod depth;
mod errors;
pub mod growth;
mod window;

// [1, [2, 3], [4, 5]]
const NESTED: Literal = Array(&[
    Integer(1),
    Array(&[Integer(2), Integer(3)]),
    Array(&[Integer(4), Integer(5)]),
]);

// ["a", {"b": "c"}]
const MAP_IN_ARRAY: Literal = Array(&[Text("a"), Map(&[(Text("b"), Text("c"))])]);

// {"a": "A", .. "e": "E"}
const CAPITALS: Literal = Map(table! {
    (Text("a"), Text("A")),
    (Text("b"), Text("B")),
    (Text("c"), Text("C")),
    (Text("d"), Text("D")),
    (Text("e"), Text("E")),
});

// {"a": 1, "b": [2, 3]}
const LETTERS: Literal = Map(&[
    (Text("a"), Integer(1)),
    (Text("b"), Array(&[Integer(2), Integer(3)])),
]);

// {"bar": {"value": 153}}
const MAP_IN_MAP: Literal = Map(&[(Text("bar"), Map(&[(Text("value"), Integer(0x99))]))]);

// 18446744073709551614("hello world")
const HELLO: Literal = Tag(18446744073709551614, &Text("hello world"));

// 2^64 as bytes.
const TWO_TO_64: &[u8] = b"\x01\x00\x00\x00\x00\x00\x00\x00\x00";

// Numbers, floats and simple values, as they are read and as they are written.
const LEAVES: &[(&[u8], Literal)] = table! {
    (b"\x00", Integer(0)),
    (b"\x01", Integer(1)),
    (b"\x0a", Integer(10)),
    (b"\x17", Integer(23)),
    (b"\x18\x18", Integer(24)),
    (b"\x18\x19", Integer(25)),
    (b"\x18\x64", Integer(100)),
    (b"\x18\xff", Integer(255)),
    (b"\x19\x01\x00", Integer(256)),
    (b"\x19\x03\xe8", Integer(1000)),
    (b"\x19\xff\xff", Integer(65535)),
    (b"\x1a\x00\x01\x00\x00", Integer(65536)),
    (b"\x1a\x00\x0f\x42\x40", Integer(1000000)),
    (b"\x1a\xff\xff\xff\xff", Integer(4294967295)),
    (b"\x1b\x00\x00\x00\x01\x00\x00\x00\x00", Integer(4294967296)),
    (b"\x1b\x00\x00\x00\xe8\xd4\xa5\x10\x00", Integer(1000000000000)),
    (b"\x1b\xff\xff\xff\xff\xff\xff\xff\xff", Integer(18446744073709551615)),
    (b"\x20", Integer(-1)),
    (b"\x29", Integer(-10)),
    (b"\x37", Integer(-24)),
    (b"\x38\x18", Integer(-25)),
    (b"\x38\x63", Integer(-100)),
    (b"\x38\xff", Integer(-256)),
    (b"\x39\x01\x00", Integer(-257)),
    (b"\x39\x03\xe7", Integer(-1000)),
    (b"\x39\xff\xff", Integer(-65536)),
    (b"\x3a\x00\x01\x00\x00", Integer(-65537)),
    (b"\x3a\xff\xff\xff\xff", Integer(-4294967296)),
    (b"\x3b\x00\x00\x00\x01\x00\x00\x00\x00", Integer(-4294967297)),
    (b"\x3b\xff\xff\xff\xff\xff\xff\xff\xff", Integer(-18446744073709551616)),
    (b"\xf9\x00\x00", Float(F16(0x0000))),
    (b"\xf9\x80\x00", Float(F16(0x8000))),
    (b"\xf9\x3c\x00", Float(F16(0x3c00))),
    (b"\xfb\x3f\xf1\x99\x99\x99\x99\x99\x9a", Float(F64(0x3ff1_9999_9999_999a))),
    (b"\xf9\x3e\x00", Float(F16(0x3e00))),
    (b"\xf9\x7b\xff", Float(F16(0x7bff))),
    (b"\xfa\x47\xc3\x50\x00", Float(F32(0x47c3_5000))),
    (b"\xfa\x7f\x7f\xff\xff", Float(F32(0x7f7f_ffff))),
    (b"\xfb\x7e\x37\xe4\x3c\x88\x00\x75\x9c", Float(F64(0x7e37_e43c_8800_759c))),
    (b"\xf9\x00\x01", Float(F16(0x0001))),
    (b"\xf9\x04\x00", Float(F16(0x0400))),
    (b"\xf9\xc4\x00", Float(F16(0xc400))),
    (b"\xfb\xc0\x10\x66\x66\x66\x66\x66\x66", Float(F64(0xc010_6666_6666_6666))),
    (b"\xf9\x7c\x00", Float(F16(0x7c00))),
    (b"\xf9\x7e\x00", Float(F16(0x7e00))),
    (b"\xf9\xfc\x00", Float(F16(0xfc00))),
    (b"\xfa\x7f\x80\x00\x00", Float(F32(0x7f80_0000))),
    (b"\xfa\x7f\xc0\x00\x00", Float(F32(0x7fc0_0000))),
    (b"\xfa\xff\x80\x00\x00", Float(F32(0xff80_0000))),
    (b"\xfb\x7f\xf0\x00\x00\x00\x00\x00\x00", Float(F64(0x7ff0_0000_0000_0000))),
    (b"\xfb\x7f\xf8\x00\x00\x00\x00\x00\x00", Float(F64(0x7ff8_0000_0000_0000))),
    (b"\xfb\xff\xf0\x00\x00\x00\x00\x00\x00", Float(F64(0xfff0_0000_0000_0000))),
    (b"\xf9\x4a\x00", Float(F16(0x4a00))),
    (b"\xf4", Bool(false)),
    (b"\xf5", Bool(true)),
    (b"\xf6", Null),
};

// Strings, arrays, maps and tags, as they are read and as they are written.
const SEQUENCES: &[(&[u8], Literal)] = table! {
    (b"\x40", Bytes(b"")),
    (b"\x44\x01\x02\x03\x04", Bytes(b"\x01\x02\x03\x04")),
    (b"\x60", Text("")),
    (b"\x61a", Text("a")),
    (b"\x64IETF", Text("IETF")),
    (b"\x62\x22\x5c", Text("\"\\")),
    (b"\x62\xc3\xbc", Text("\u{fc}")),
    (b"\x63\xe6\xb0\xb4", Text("\u{6c34}")),
    (b"\x64\xf0\x90\x85\x91", Text("\u{10151}")),
    (b"\x80", Array(&[])),
    (b"\x83\x01\x02\x03", Array(&[Integer(1), Integer(2), Integer(3)])),
    (b"\x83\x01\x82\x02\x03\x82\x04\x05", NESTED),
    (b"\xa0", Map(&[])),
    (b"\xa2\x01\x02\x03\x04", Map(&[(Integer(1), Integer(2)), (Integer(3), Integer(4))])),
    (b"\xa2\x61a\x01\x61b\x82\x02\x03", LETTERS),
    (b"\x82\x61a\xa1\x61b\x61c", MAP_IN_ARRAY),
    (b"\xa5\x61a\x61A\x61b\x61B\x61c\x61C\x61d\x61D\x61e\x61E", CAPITALS),
    // Equal keys are kept, and the order too.
    (b"\xa2\x01\x02\x01\x03", Map(&[(Integer(1), Integer(2)), (Integer(1), Integer(3))])),
    (b"\xa2\x03\x00\x01\x00", Map(&[(Integer(3), Integer(0)), (Integer(1), Integer(0))])),
    (b"\xa1\x61a\xf4", Map(&[(Text("a"), Bool(false))])),
    (b"\xc0\x742013-03-21T20:04:00Z", Tag(0, &Text("2013-03-21T20:04:00Z"))),
    (b"\xc1\x1a\x51\x4b\x67\xb0", Tag(1, &Integer(1363896240))),
    (b"\xc1\xfb\x41\xd4\x52\xd9\xec\x20\x00\x00", Tag(1, &Float(F64(0x41d4_52d9_ec20_0000)))),
    (b"\xd7\x44\x01\x02\x03\x04", Tag(23, &Bytes(b"\x01\x02\x03\x04"))),
    (b"\xd8\x18\x45dIETF", Tag(24, &Bytes(b"dIETF"))),
    (b"\xd8\x20\x76http://www.example.com", Tag(32, &Text("http://www.example.com"))),
    (b"\xdb\xff\xff\xff\xff\xff\xff\xff\xfe\x6bhello world", HELLO),
    // Bignums stay tags (RFC 8949 section 3.4.3).
    (b"\xc2\x49\x01\x00\x00\x00\x00\x00\x00\x00\x00", Tag(2, &Bytes(TWO_TO_64))),
    (b"\xc3\x49\x01\x00\x00\x00\x00\x00\x00\x00\x00", Tag(3, &Bytes(TWO_TO_64))),
    (b"\xc2\x42\x00\x05", Tag(2, &Bytes(b"\x00\x05"))),
    (b"\xc2\x41\x00", Tag(2, &Bytes(b"\x00"))),
    (b"\xa1\x63bar\xa1\x65value\x18\x99", MAP_IN_MAP),
};

// A tag with an argument of each width: the least and the greatest number of it.
const TAGS: &[(&[u8], Literal)] = table! {
    (b"\xc0\xf6", Tag(0, &Null)),
    (b"\xd7\xf6", Tag(23, &Null)),
    (b"\xd8\x18\xf6", Tag(24, &Null)),
    (b"\xd8\xff\xf6", Tag(255, &Null)),
    (b"\xd9\x01\x00\xf6", Tag(256, &Null)),
    (b"\xd9\xff\xff\xf6", Tag(65535, &Null)),
    (b"\xda\x00\x01\x00\x00\xf6", Tag(65536, &Null)),
    (b"\xda\xff\xff\xff\xff\xf6", Tag(4294967295, &Null)),
    (b"\xdb\x00\x00\x00\x01\x00\x00\x00\x00\xf6", Tag(4294967296, &Null)),
    (b"\xdb\xff\xff\xff\xff\xff\xff\xff\xff\xf6", Tag(18446744073709551615, &Null)),
};

fn reads_rows(alloc: Global, rows: &[(&'static [u8], Literal)]) -> Result<(), Fail> {
    for (item, literal) in rows {
        reads_and_writes(alloc, item, literal, item)?;
        reads_canonical(alloc, item, literal)?;
    }
    Ok(())
}

#[test]
fn items_are_read_as_they_are_written(rt: HostRuntime) -> Result<(), Fail> {
    let alloc = rt.alloc();
    reads_rows(alloc, LEAVES)?;
    reads_rows(alloc, SEQUENCES)?;
    reads_rows(alloc, TAGS)
}

// {"Fun": true, "Amt": -2}
const FUN: Literal = Map(&[(Text("Fun"), Bool(true)), (Text("Amt"), Integer(-2))]);

const ONE_PAIR: Literal = Map(&[(Integer(1), Integer(2))]);

const ONE_TO_5: Literal = Bytes(b"\x01\x02\x03\x04\x05");

const TWO_TEXTS: Literal = Array(&[Text(""), Text("a")]);

const TWO_STRINGS: Literal = Array(&[Bytes(b"\x01"), Bytes(b"\x02")]);

// How these are written.
const NESTED_BYTES: &[u8] = b"\x83\x01\x82\x02\x03\x82\x04\x05";

const LETTERS_BYTES: &[u8] = b"\xa2\x61a\x01\x61b\x82\x02\x03";

const FUN_BYTES: &[u8] = b"\xa2\x63Fun\xf5\x63Amt\x21";

// How they stand with breaks.
const TWO_CHUNKS: &[u8] = b"\x5f\x42\x01\x02\x43\x03\x04\x05\xff";

const LONG_HEADS: &[u8] = b"\x5f\x59\x00\x00\x58\x01\x05\xff";

const NESTED_TWICE_INDEFINITE: &[u8] = b"\x9f\x01\x82\x02\x03\x9f\x04\x05\xff\xff";

const NESTED_INDEFINITE: &[u8] = b"\x9f\x01\x82\x02\x03\x82\x04\x05\xff";

const LETTERS_INDEFINITE: &[u8] = b"\xbf\x61a\x01\x61b\x9f\x02\x03\xff\xff";

const FUN_INDEFINITE: &[u8] = b"\xbf\x63Fun\xf5\x63Amt\x21\xff";

const STRINGS_INDEFINITE: &[u8] = b"\x9f\x5f\x41\x01\xff\x41\x02\xff";

// Items that are encoded otherwise than they are written: what is read, what it is, what is
// written, and what the error of another encoding leaves: all after the first head that is one.
type Encoding = (&'static [u8], Literal, &'static [u8], &'static [u8]);

const ENCODINGS: &[Encoding] = table! {
    (b"\x18\x05", Integer(5), b"\x05", b""),
    (b"\x19\x00\x05", Integer(5), b"\x05", b""),
    (b"\x1a\x00\x00\x00\x05", Integer(5), b"\x05", b""),
    (b"\x1b\x00\x00\x00\x00\x00\x00\x00\x05", Integer(5), b"\x05", b""),
    (b"\x38\x00", Integer(-1), b"\x20", b""),
    (b"\x3a\x00\x00\x01\x00", Integer(-257), b"\x39\x01\x00", b""),
    (b"\x3b\x00\x00\x00\x00\x00\x00\x00\x17", Integer(-24), b"\x37", b""),
    (b"\xf7", Null, b"\xf6", b""),
    (b"\x59\x00\x01\x61", Bytes(b"a"), b"\x41a", b"a"),
    (b"\x78\x01\x61", Text("a"), b"\x61a", b"a"),
    (b"\x98\x00", Array(&[]), b"\x80", b""),
    (b"\x99\x00\x01\x05", Array(&[Integer(5)]), b"\x81\x05", b"\x05"),
    (b"\xbb\x00\x00\x00\x00\x00\x00\x00\x01\x01\x02", ONE_PAIR, b"\xa1\x01\x02", b"\x01\x02"),
    (b"\xdb\x00\x00\x00\x00\x00\x00\x00\x2a\x00", Tag(42, &Integer(0)), b"\xd8\x2a\x00", b"\x00"),
    (b"\xd8\x02\x41\x05", Tag(2, &Bytes(b"\x05")), b"\xc2\x41\x05", b"\x41\x05"),
    (b"\x9a\x00\x00\x00\x01\x05", Array(&[Integer(5)]), b"\x81\x05", b"\x05"),
    (b"\x9b\x00\x00\x00\x00\x00\x00\x00\x01\x05", Array(&[Integer(5)]), b"\x81\x05", b"\x05"),
    (b"\xb8\x01\x01\x02", ONE_PAIR, b"\xa1\x01\x02", b"\x01\x02"),
    (b"\xb9\x00\x01\x01\x02", ONE_PAIR, b"\xa1\x01\x02", b"\x01\x02"),
    (b"\xba\x00\x00\x00\x01\x01\x02", ONE_PAIR, b"\xa1\x01\x02", b"\x01\x02"),
    (b"\xd9\x00\x2a\x00", Tag(42, &Integer(0)), b"\xd8\x2a\x00", b"\x00"),
    (b"\xda\x00\x00\x00\x2a\x00", Tag(42, &Integer(0)), b"\xd8\x2a\x00", b"\x00"),
    (b"\x5f\xff", Bytes(b""), b"\x40", b"\xff"),
    (b"\x7f\xff", Text(""), b"\x60", b"\xff"),
    (TWO_CHUNKS, ONE_TO_5, b"\x45\x01\x02\x03\x04\x05", b"\x42\x01\x02\x43\x03\x04\x05\xff"),
    (LONG_HEADS, Bytes(b"\x05"), b"\x41\x05", b"\x59\x00\x00\x58\x01\x05\xff"),
    (b"\x7f\x65strea\x64ming\xff", Text("streaming"), b"\x69streaming", b"\x65strea\x64ming\xff"),
    // A character may stand across two chunks: the chunks are joined before the test for UTF-8.
    (b"\x7f\x61\xc3\x61\xa9\xff", Text("\u{e9}"), b"\x62\xc3\xa9", b"\x61\xc3\x61\xa9\xff"),
    (b"\x7f\x61\xc3\x60\x61\xa9\xff", Text("\u{e9}"), b"\x62\xc3\xa9", b"\x61\xc3\x60\x61\xa9\xff"),
    (b"\x9f\xff", Array(&[]), b"\x80", b"\xff"),
    (NESTED_TWICE_INDEFINITE, NESTED, NESTED_BYTES, b"\x01\x82\x02\x03\x9f\x04\x05\xff\xff"),
    (NESTED_INDEFINITE, NESTED, NESTED_BYTES, b"\x01\x82\x02\x03\x82\x04\x05\xff"),
    (b"\x83\x01\x82\x02\x03\x9f\x04\x05\xff", NESTED, NESTED_BYTES, b"\x04\x05\xff"),
    (b"\x83\x01\x9f\x02\x03\xff\x82\x04\x05", NESTED, NESTED_BYTES, b"\x02\x03\xff\x82\x04\x05"),
    (b"\xbf\xff", Map(&[]), b"\xa0", b"\xff"),
    (LETTERS_INDEFINITE, LETTERS, LETTERS_BYTES, b"\x61a\x01\x61b\x9f\x02\x03\xff\xff"),
    (b"\x82\x61a\xbf\x61b\x61c\xff", MAP_IN_ARRAY, b"\x82\x61a\xa1\x61b\x61c", b"\x61b\x61c\xff"),
    (FUN_INDEFINITE, FUN, FUN_BYTES, b"\x63Fun\xf5\x63Amt\x21\xff"),
    (b"\x9f\x7f\xff\x61a\xff", TWO_TEXTS, b"\x82\x60\x61a", b"\x7f\xff\x61a\xff"),
    (b"\x82\x7f\xff\x61a", TWO_TEXTS, b"\x82\x60\x61a", b"\xff\x61a"),
    (b"\xa1\x7f\x61k\xff\x01", Map(&[(Text("k"), Integer(1))]), b"\xa1\x61k\x01", b"\x61k\xff\x01"),
    (STRINGS_INDEFINITE, TWO_STRINGS, b"\x82\x41\x01\x41\x02", b"\x5f\x41\x01\xff\x41\x02\xff"),
};

fn reads_encodings(alloc: Global, rows: &[Encoding]) -> Result<(), Fail> {
    for (item, literal, written, rest) in rows {
        reads_and_writes(alloc, item, literal, written)?;
        is_not_canonical(alloc, item, rest)?;
        reads_canonical(alloc, written, literal)?;
    }
    Ok(())
}

fn is_not_canonical(alloc: Global, item: &'static [u8], rest: &[u8]) -> Result<(), Fail> {
    reads::<Item<Canonical>>(alloc, item, Err(not_canonical!("canonical")), rest)
}

#[test]
fn other_encodings_are_read(rt: HostRuntime) -> Result<(), Fail> {
    reads_encodings(rt.alloc(), ENCODINGS)
}

// 1 to 25, and its bytes: counted, and up to a break.
const ONE_TO_25: Literal = Array(table! {
    Integer(1), Integer(2), Integer(3), Integer(4), Integer(5), Integer(6), Integer(7), Integer(8),
    Integer(9), Integer(10), Integer(11), Integer(12), Integer(13), Integer(14), Integer(15),
    Integer(16), Integer(17), Integer(18), Integer(19), Integer(20), Integer(21), Integer(22),
    Integer(23), Integer(24), Integer(25),
});

const DEFINITE: &[u8] = b"\x98\x19\x01\x02\x03\x04\x05\x06\x07\x08\x09\x0a\x0b\x0c\x0d\
    \x0e\x0f\x10\x11\x12\x13\x14\x15\x16\x17\x18\x18\x18\x19";

const INDEFINITE: &[u8] = b"\x9f\x01\x02\x03\x04\x05\x06\x07\x08\x09\x0a\x0b\x0c\x0d\
    \x0e\x0f\x10\x11\x12\x13\x14\x15\x16\x17\x18\x18\x18\x19\xff";

#[test]
fn an_array_of_25(rt: HostRuntime) -> Result<(), Fail> {
    let alloc = rt.alloc();
    reads_and_writes(alloc, DEFINITE, &ONE_TO_25, DEFINITE)?;
    reads_canonical(alloc, DEFINITE, &ONE_TO_25)?;
    reads_and_writes(alloc, INDEFINITE, &ONE_TO_25, DEFINITE)?;
    is_not_canonical(alloc, INDEFINITE, &INDEFINITE[1..])
}

// Each kind of value that takes memory: {_ "abc": [_ (_ 0102, 030405), 1(null)], 24("x"): {0: []}}
const EACH_KIND: &[u8] =
    b"\xbf\x63abc\x9f\x5f\x42\x01\x02\x43\x03\x04\x05\xff\xc1\xf6\xff\xd8\x18\x61x\xa1\x00\x80\xff";

const EACH_KIND_MEANT: Literal = Map(&[
    (
        Text("abc"),
        Array(&[Bytes(b"\x01\x02\x03\x04\x05"), Tag(1, &Null)]),
    ),
    (Tag(24, &Text("x")), Map(&[(Integer(0), Array(&[]))])),
]);

#[test]
fn each_kind_that_takes_memory(rt: HostRuntime) -> Result<(), Fail> {
    reads_item(rt.alloc(), EACH_KIND, 256, &EACH_KIND_MEANT)
}

const ONE_AND_TWO: Literal = Array(&[Integer(1), Integer(2)]);

// Each prefix of [1, 2] ends too early, whether it is read or skipped.
#[test]
fn prefixes_of_an_array_of_two(rt: HostRuntime) -> Result<(), Fail> {
    reads_item(rt.alloc(), b"\x82\x01\x02", 256, &ONE_AND_TWO)
}

// What is read with no more than so many steps.
const WITHIN: &[(&[u8], usize, Literal)] = table! {
    (b"\x00", 1, Integer(0)),
    (b"\x3b\xff\xff\xff\xff\xff\xff\xff\xff", 1, Integer(-18446744073709551616)),
    (b"\x63\xe2\x82\xac", 1, Text("\u{20ac}")),
    (b"\x5f\xff", 1, Bytes(b"")),
    (b"\x7f\xff", 1, Text("")),
    (b"\x5f\x40\xff", 2, Bytes(b"")),
    (b"\x7f\x61\x61\xff", 2, Text("a")),
    (b"\x7f\x61\xc3\x60\x61\xa9\xff", 2, Text("\u{e9}")),
    (b"\x80", 2, Array(&[])),
    (b"\x98\x00", 2, Array(&[])),
    (b"\x9f\xff", 2, Array(&[])),
    (b"\x9f\x00\xff", 3, Array(&[Integer(0)])),
    (b"\x81\x80", 4, Array(&[Array(&[])])),
    (b"\xa1\x00\x00", 3, Map(&[(Integer(0), Integer(0))])),
    (b"\xbf\x00\x01\xff", 3, Map(&[(Integer(0), Integer(1))])),
    (b"\xc1\x00", 2, Tag(1, &Integer(0))),
    (b"\xc1\xc1\x00", 3, Tag(1, &Tag(1, &Integer(0)))),
};

fn reads_rows_within(alloc: Global, rows: &[(&'static [u8], usize, Literal)]) -> Result<(), Fail> {
    for (item, limit, literal) in rows {
        reads_item(alloc, item, *limit, literal)?;
    }
    Ok(())
}

#[test]
fn within_a_limit(rt: HostRuntime) -> Result<(), Fail> {
    reads_rows_within(rt.alloc(), WITHIN)
}

type Two = Pair<Item<Value>, Item<Value>>;

// [1, 2], null, (_ h'01') and 3.
fn four(alloc: Global) -> Result<Pair<Two, Two>, AllocError> {
    let array = Value::Array(vec![in alloc; Value::Integer(1), Value::Integer(2)]?);
    let bytes = Value::Bytes(vec![in alloc; 1]?);
    let prefix = Pair(Item(array), Item(Value::Null));
    Ok(Pair(prefix, Pair(Item(bytes), Item(Value::Integer(3)))))
}

fn reads_four(alloc: Global, bytes: &'static [u8]) -> Result<(), Fail> {
    reads(alloc, bytes, Ok(four(alloc)?), b"")
}

fn reads_four_in_segments(alloc: Global, bytes: &[u8], segments: &[&[u8]]) -> Result<(), Fail> {
    let want = Ok(four(alloc)?);
    reads_over(alloc, &mut SegmentReader::new(segments), bytes, &want, b"")
}

#[test]
fn one_after_another(rt: HostRuntime) -> Result<(), Fail> {
    let alloc = rt.alloc();
    let bytes = b"\x82\x01\x02\xf6\x5f\x41\x01\xff\x18\x03";
    reads_four(alloc, bytes)?;
    let segments = [
        b"\x82\x01".as_slice(),
        b"\x02\xf6\x5f",
        b"",
        b"\x41\x01\xff\x18\x03",
    ];
    reads_four_in_segments(alloc, bytes, &segments)
}

// [1, 2] and 3.
fn array_and_number(alloc: Global) -> Result<Two, AllocError> {
    let array = Value::Array(vec![in alloc; Value::Integer(1), Value::Integer(2)]?);
    Ok(Pair(Item(array), Item(Value::Integer(3))))
}

fn reads_array_in_segments(alloc: Global, segments: &[&[u8]]) -> Result<(), Fail> {
    let bytes = b"\x82\x01\x02\x03";
    let want = Ok(array_and_number(alloc)?);
    reads_over(alloc, &mut SegmentReader::new(segments), bytes, &want, b"")?;
    reads(alloc, bytes, want, b"")
}

#[test]
fn an_array_in_two_segments(rt: HostRuntime) -> Result<(), Fail> {
    reads_array_in_segments(rt.alloc(), &[b"\x82\x01", b"\x02\x03"])
}

fn is_the_end(alloc: Global, segments: &[&[u8]]) -> Result<(), Fail> {
    let want: Want<Item<Value>> = Err(eof!("value", 1));
    reads_over(alloc, &mut SegmentReader::new(segments), b"", &want, b"")
}

#[test]
fn no_segment_and_empty_ones(rt: HostRuntime) -> Result<(), Fail> {
    let alloc = rt.alloc();
    is_the_end(alloc, &[])?;
    is_the_end(alloc, &[b"", b""])
}
