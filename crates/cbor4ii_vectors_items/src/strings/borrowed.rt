//! Rows of strings that are borrowed from the input.
//!
//! Rows of what holds such strings stand here where it is the reader that does not lend them.
use crate::borrowed_rows::Kind::{
    Bytes, NumbersToTexts, Optional, OptionalInArray, Tagged, Text, Texts, TextsToNumbers,
    Unchecked,
};
use crate::borrowed_rows::{
    BorrowedRow, CutRow, lends_rows, lends_rows_by_byte, lends_rows_in_segments, rows_in_turn,
    rows_of_short_bytes,
};
use cbor4ii_items::decode::Decode;
use cbor4ii_rw::slice_reader::SliceReader;
use cbor4ii_vectors::compared::same;
use cbor4ii_vectors::{eof, mismatch, require_borrowed, require_length, require_utf8, table};
use std::test::Fail;

// A text that is a slice of the input.
#[test]
fn a_borrowed_text(rt: HostRuntime) -> Result<(), Fail> {
    let mut reader = SliceReader::new(b"\x64IETF\x01");
    let text = <&str>::decode(rt.alloc(), &mut reader)?;
    same((text, reader.remaining()), ("IETF", b"\x01".as_slice()))
}

const STRINGS: &[BorrowedRow] = table! {
    (Text, b"\x60", Ok("\"\""), b""),
    (Text, b"\x61a", Ok("\"a\""), b""),
    (Text, b"\x62aa", Ok("\"aa\""), b""),
    (Text, b"\x64IETF", Ok("\"IETF\""), b""),
    (Text, b"\x62\xc3\xbc", Ok("\"\u{fc}\""), b""),
    (Text, b"\x63\xe6\xb0\xb4", Ok("\"\u{6c34}\""), b""),
    (Text, b"\x62\x22\x5c", Ok("\"\\\"\\\\\""), b""),
    (Text, b"\x64\xf0\x90\x85\x91", Ok("\"\u{10151}\""), b""),
    (Unchecked, b"\x60", Ok("UncheckedStr([])"), b""),
    (Unchecked, b"\x61a", Ok("UncheckedStr([97])"), b""),
    (Unchecked, b"\x64IETF", Ok("UncheckedStr([73, 69, 84, 70])"), b""),
    (Unchecked, b"\x62\x22\x5c", Ok("UncheckedStr([34, 92])"), b""),
    (Unchecked, b"\x62\xc3\xbc", Ok("UncheckedStr([195, 188])"), b""),
    (Unchecked, b"\x63\xe6\xb0\xb4", Ok("UncheckedStr([230, 176, 180])"), b""),
    (Unchecked, b"\x64\xf0\x90\x85\x91", Ok("UncheckedStr([240, 144, 133, 145])"), b""),
    (Unchecked, b"\x61\xff", Ok("UncheckedStr([255])"), b""),
    (Bytes, b"\x40", Ok("Bytes([])"), b""),
    (Bytes, b"\x44\x01\x02\x03\x04", Ok("Bytes([1, 2, 3, 4])"), b""),
    (Bytes, b"\x43123", Ok("Bytes([49, 50, 51])"), b""),
    (Text, b"", Err(eof!("str", 1)), b""),
    (Text, b"\x78", Err(eof!("str", 1)), b""),
    (Text, b"\x41a", Err(mismatch!("str", 0x41)), b"a"),
    (Text, b"\x7f\xff", Err(mismatch!("str", 0x7f)), b"\xff"),
    (Text, b"\x61", Err(require_length!("str", 0)), b""),
    (Text, b"\x63ab", Err(require_length!("str", 2)), b"ab"),
    (Text, b"\x62\xff\xff\x01", Err(require_utf8!("str")), b"\x01"),
    (Text, b"\x63\xed\xa0\x80", Err(require_utf8!("str")), b""),
    (Bytes, b"\x5f\xff", Err(mismatch!("bytes", 0x5f)), b"\xff"),
    (Bytes, b"\x42\x01", Err(require_length!("bytes", 1)), b"\x01"),
    (Unchecked, b"\x7f\xff", Err(mismatch!("str", 0x7f)), b"\xff"),
};

#[test]
fn borrowed_strings(rt: HostRuntime) -> Result<(), Fail> {
    lends_rows(rt.alloc(), STRINGS)
}

// A reader that lends one byte at a time lends the content of one byte, and no longer one.
const BY_BYTE: &[BorrowedRow] = table! {
    (Text, b"\x60", Ok("\"\""), b""),
    (Text, b"\x61a\x01", Ok("\"a\""), b"\x01"),
    (Text, b"\x62aa", Err(require_length!("str", 1)), b"aa"),
    (Text, b"\x7f\xff", Err(mismatch!("str", 0x7f)), b"\xff"),
    (Bytes, b"\x42\x01\x02", Err(require_length!("bytes", 1)), b"\x01\x02"),
    (Texts, b"\x82\x60\x61a", Ok("[\"\", \"a\"]"), b""),
    (Texts, b"\x82\x61a\x62bc", Err(require_length!("str", 1)), b"bc"),
};

#[test]
fn borrowed_byte_by_byte(rt: HostRuntime) -> Result<(), Fail> {
    lends_rows_by_byte(rt.alloc(), BY_BYTE)
}

// The first fill lives as long as the input, and the second does not.
const IN_TURN: &[BorrowedRow] = table! {
    (Text, b"\x62aa\x01", Ok("\"aa\""), b"\x01"),
    (Texts, b"\x82\x61a\x61b", Err(require_borrowed!("str")), b"b"),
    (TextsToNumbers, b"\xa1\x61a\x01", Ok("Map([(\"a\", 1)])"), b""),
    (TextsToNumbers, b"\xa2\x61a\x01\x60\x02", Err(require_borrowed!("str")), b"\x02"),
};

#[test]
fn borrowed_in_turn(rt: HostRuntime) -> Result<(), Fail> {
    rows_in_turn(rt.alloc(), IN_TURN)
}

const CUT_TEXTS: &[&str] = table! {
    require_length!("str", 1),
    require_length!("str", 2),
    require_length!("str", 3),
};

const CUT_BYTES: &[&str] = table! {
    require_length!("bytes", 1),
};

// A string is lent where its content stands in one segment.
const CUT: &[CutRow] = table! {
    ((Text, b"\x64IETF\x01", Ok("\"IETF\""), b"\x01"), 1, CUT_TEXTS),
    ((Unchecked, b"\x78\x04IETF", Ok("UncheckedStr([73, 69, 84, 70])"), b""), 2, CUT_TEXTS),
    ((Bytes, b"\x42\x01\x02\x03", Ok("Bytes([1, 2])"), b"\x03"), 1, CUT_BYTES),
};

#[test]
fn borrowed_in_two_segments(rt: HostRuntime) -> Result<(), Fail> {
    lends_rows_in_segments(rt.alloc(), CUT)
}

// What does not outlive the fill is lent to no one, not even when it is empty.
const OF_SHORT_BYTES: &[BorrowedRow] = table! {
    (Text, b"\x60", Err(require_borrowed!("str")), b""),
    (Text, b"\x61a", Err(require_borrowed!("str")), b"a"),
    (Text, b"", Err(eof!("str", 1)), b""),
    (Text, b"\x7f\xff", Err(mismatch!("str", 0x7f)), b"\xff"),
    (Unchecked, b"\x60", Err(require_borrowed!("str")), b""),
    (Unchecked, b"\x61a", Err(require_borrowed!("str")), b"a"),
    (Unchecked, b"", Err(eof!("str", 1)), b""),
    (Unchecked, b"\x7f\xff", Err(mismatch!("str", 0x7f)), b"\xff"),
    (Bytes, b"\x40", Err(require_borrowed!("bytes")), b""),
    (Bytes, b"\x41\x01", Err(require_borrowed!("bytes")), b"\x01"),
    (Texts, b"\x82\x61a\x61b", Err(require_borrowed!("str")), b"a\x61b"),
    (NumbersToTexts, b"\xa1\x01\x60", Err(require_borrowed!("str")), b""),
    (Tagged, b"\xc1\x61a", Err(require_borrowed!("str")), b"a"),
    (Optional, b"\x60\x00", Err(require_borrowed!("str")), b"\x00"),
    (OptionalInArray, b"\x81\x60", Err(require_borrowed!("str")), b""),
};

#[test]
fn borrowed_of_short_bytes(rt: HostRuntime) -> Result<(), Fail> {
    rows_of_short_bytes(rt.alloc(), OF_SHORT_BYTES)
}
