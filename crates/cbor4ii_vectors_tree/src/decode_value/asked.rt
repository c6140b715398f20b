//! What reading a value asks of a reader: how often it looks, and how many bytes a look wants.
//!
//! A value takes a look for its first byte, one for the first byte of its head, one for all of a
//! longer head, and one for the content of a string. A float takes the looks of a head. An encoding
//! that has to be the canonical one takes a look more for each head. A head that does not stand
//! whole in what is shown takes one more for each of its bytes, and content one for each part.
//!
//! That is the most. Where the reader lets a look ask for 4,096 bytes, such a look stands in the
//! place of the first, and decides at once what it shows whole. A longer head takes no second one,
//! and a whole head of an array, a map or a tag takes no look more.
use crate::item::Item;
use cbor4ii_items::decode::Decode;
use cbor4ii_rw::error::DecodeError;
use cbor4ii_rw::read::Source;
use cbor4ii_tree::{Canonical, IgnoredAny, Value};
use cbor4ii_vectors::asked::{asks, looks_at_most, looks_within_windows};
use cbor4ii_vectors::readers::{Asked, Asks};
use cbor4ii_vectors::repeated::repeated;
use cbor4ii_vectors::rows::ReadFrom;
use cbor4ii_vectors::table;
use std::alloc::Global;
use std::test::Fail;

// The most looks over a reader that shows what is wanted, and over one that shows one byte at a
// time; then those over readers that let a look ask for 4,096 bytes, and show the one or the other.
type Looks = (usize, usize, usize, usize);

// A head, a part that follows it so many times, the most bytes that a look wants; the looks of a
// value, and of one in its canonical encoding.
type Row = (&'static [u8], &'static [u8], usize, usize, Looks, Looks);

const ASKED: &[Row] = table! {
    (b"\xf6", b"", 0, 1, (1, 1, 1, 1), (1, 1, 1, 1)),
    (b"\xf5", b"", 0, 1, (1, 1, 1, 1), (1, 1, 1, 1)),
    (b"\x00", b"", 0, 1, (2, 2, 1, 2), (3, 3, 1, 3)),
    (b"\x20", b"", 0, 1, (2, 2, 1, 2), (3, 3, 1, 3)),
    (b"\x18\x18", b"", 0, 2, (3, 5, 1, 4), (4, 6, 1, 5)),
    (b"\x19\x01\x00", b"", 0, 3, (3, 6, 1, 5), (4, 7, 1, 6)),
    (b"\x1a\x00\x01\x00\x00", b"", 0, 5, (3, 8, 1, 7), (4, 9, 1, 8)),
    (b"\x3b\x00\x00\x00\x01\x00\x00\x00\x00", b"", 0, 9, (3, 12, 1, 11), (4, 13, 1, 12)),
    (b"\xf9\x3c\x00", b"", 0, 3, (3, 6, 1, 5), (3, 6, 1, 5)),
    (b"\xfa\x7f\x80\x00\x00", b"", 0, 5, (3, 8, 1, 7), (3, 8, 1, 7)),
    (b"\xfb\x7f\xf0\x00\x00\x00\x00\x00\x00", b"", 0, 9, (3, 12, 1, 11), (3, 12, 1, 11)),
    (b"\x40", b"", 0, 1, (2, 2, 1, 2), (3, 3, 1, 3)),
    (b"\x60", b"", 0, 1, (2, 2, 1, 2), (3, 3, 1, 3)),
    (b"\x64IETF", b"", 0, 4, (3, 6, 1, 6), (4, 7, 1, 7)),
    (b"\x70", b"a", 16, 16, (3, 18, 1, 18), (4, 19, 1, 19)),
    (b"\x78\x1e", b"a", 30, 30, (4, 35, 1, 34), (5, 36, 1, 35)),
    (b"\x59\x01\x2c", b"a", 300, 300, (4, 306, 1, 305), (5, 307, 1, 306)),
    (b"\x80", b"", 0, 1, (2, 2, 1, 2), (3, 3, 1, 3)),
    (b"\xa0", b"", 0, 1, (2, 2, 1, 2), (3, 3, 1, 3)),
    (b"\x81\x80", b"", 0, 1, (4, 4, 2, 4), (6, 6, 2, 6)),
    (b"\x81\xf6", b"", 0, 1, (3, 3, 2, 3), (4, 4, 2, 4)),
    (b"\x83\x01\x02\x03", b"", 0, 1, (8, 8, 2, 8), (12, 12, 2, 12)),
    (b"\x82\x01\x62ab", b"", 0, 2, (7, 8, 2, 8), (10, 11, 2, 11)),
    (b"\x82\x05\xfb\x7f\xf0\x00\x00\x00\x00\x00\x00", b"", 0, 9, (7, 16, 2, 15), (9, 18, 2, 17)),
    (b"\xa1\x01\xf6", b"", 0, 1, (5, 5, 2, 5), (7, 7, 2, 7)),
    (b"\xa1\x62idp", b"a", 16, 16, (8, 24, 2, 24), (11, 27, 2, 27)),
    (b"\xa1\x80\xf6", b"", 0, 1, (5, 5, 3, 5), (7, 7, 3, 7)),
    (b"\xa1\x61a\x81\x00", b"", 0, 1, (9, 9, 3, 9), (13, 13, 3, 13)),
    (b"\xc1\xf6", b"", 0, 1, (3, 3, 2, 3), (4, 4, 2, 4)),
    (b"\xc1\x00", b"", 0, 1, (4, 4, 2, 4), (6, 6, 2, 6)),
    (b"\xd8\x18\x64IETF", b"", 0, 4, (6, 11, 2, 10), (8, 13, 2, 12)),
    (b"\xda\x00\x01\x00\x00\x80", b"", 0, 5, (5, 10, 2, 9), (7, 12, 2, 11)),
    (b"\x98\xc8", b"\x00", 200, 2, (403, 405, 2, 404), (604, 606, 2, 605)),
    (b"\x98\xc8", b"\xf6", 200, 2, (203, 205, 2, 204), (204, 206, 2, 205)),
    (b"\x98\xc8", b"\x18\x18", 200, 2, (603, 1005, 2, 804), (804, 1206, 2, 1005)),
    (b"\x98\xc8", b"\xf9\x3c\x00", 200, 3, (603, 1205, 2, 1004), (604, 1206, 2, 1005)),
    (b"\x98\xc8", b"\x63abc", 200, 3, (603, 1005, 2, 1004), (804, 1206, 2, 1205)),
    (b"\x98\xc8", b"\x80", 200, 2, (403, 405, 201, 404), (604, 606, 201, 605)),
    (b"\x98\xc8", b"\x81\xf6", 200, 2, (603, 605, 401, 604), (804, 806, 401, 805)),
    (b"\x98\xc8", b"\x81\x00", 200, 2, (803, 805, 401, 804), (1204, 1206, 401, 1205)),
    (b"\x98\xc8", b"\xc1\x00", 200, 2, (803, 805, 401, 804), (1204, 1206, 401, 1205)),
    (b"\xb8\x64", b"\x61a\x01", 100, 2, (503, 505, 2, 504), (704, 706, 2, 705)),
    (b"\xb8\x64", b"\x80\xf6", 100, 2, (303, 305, 102, 304), (404, 406, 102, 405)),
    (b"\xb8\x64", b"\x80\x00", 100, 2, (403, 405, 102, 404), (604, 606, 102, 605)),
    (b"\xb8\x64", b"\x00\x80", 100, 2, (403, 405, 101, 404), (604, 606, 101, 605)),
    (b"\xb8\x64", b"\x61a\x81\x00", 100, 2, (703, 705, 201, 704), (1004, 1006, 201, 1005)),
};

// Over a reader that fails where more than `most` bytes are wanted, and has to have had no byte but
// these; over one that lets a look ask for 4,096, and fails where more than that are wanted; and
// over those that let it ask for fewer. What is read is read by each.
fn asks_at_most<T: ReadFrom>(
    alloc: Global,
    bytes: &'static [u8],
    is_read: bool,
    most: usize,
    looks: Looks,
) -> Result<(), Fail> {
    let narrow = Asked::new(bytes).refusing_above(most);
    looks_at_most::<T>(alloc, narrow, bytes, is_read, looks.0, bytes.len())?;
    let narrow = Asked::new(bytes).refusing_above(most).showing(1);
    looks_at_most::<T>(alloc, narrow, bytes, is_read, looks.1, bytes.len())?;
    looks_within_windows::<T>(alloc, bytes, is_read, most, (looks.0, looks.1))?;
    let wide = Asked::new(bytes).wide().refusing_above(4_096);
    looks_at_most::<T>(alloc, wide, bytes, is_read, looks.2, usize::MAX)?;
    let wide = Asked::new(bytes).wide().refusing_above(4_096).showing(1);
    looks_at_most::<T>(alloc, wide, bytes, is_read, looks.3, usize::MAX)
}

fn asks_rows(alloc: Global, rows: &[Row]) -> Result<(), Fail> {
    for &(head, part, count, most, looks, canonical) in rows {
        let bytes = repeated(alloc, head, part, count, b"")?;
        asks_at_most::<Item<Value>>(alloc, bytes, true, most, looks)?;
        asks_at_most::<Item<Canonical>>(alloc, bytes, true, most, canonical)?;
    }
    Ok(())
}

#[test]
fn items_are_asked_for(rt: HostRuntime) -> Result<(), Fail> {
    asks_rows(rt.alloc(), ASKED)
}

// Items of indefinite length, and what is no canonical encoding or no value: whether a value is
// read, and then as `Row`. None of them is read from its canonical encoding.
type OtherRow = (&'static [u8], bool, usize, Looks, Looks);

const OTHERS: &[OtherRow] = table! {
    (b"\xf7", true, 1, (1, 1, 1, 1), (1, 1, 1, 1)),
    (b"\x9f\x01\xf6\xff", true, 1, (9, 9, 8, 9), (2, 2, 2, 2)),
    (b"\xbf\x01\xf6\xff", true, 1, (8, 8, 7, 8), (2, 2, 2, 2)),
    (b"\x5f\x42\x01\x02\x41\x03\xff", true, 2, (10, 11, 10, 11), (2, 2, 2, 2)),
    (b"\xff", false, 1, (1, 1, 1, 1), (1, 1, 1, 1)),
    (b"\x81\xff", false, 1, (3, 3, 3, 3), (4, 4, 4, 4)),
};

// Where the first byte of an indefinite length is rejected, no look wants more than that byte.
fn asks_other_rows(alloc: Global, rows: &[OtherRow]) -> Result<(), Fail> {
    for &(bytes, is_read, most, looks, canonical) in rows {
        asks_at_most::<Item<Value>>(alloc, bytes, is_read, most, looks)?;
        asks_at_most::<Item<Canonical>>(alloc, bytes, false, 1, canonical)?;
    }
    Ok(())
}

#[test]
fn others_are_asked_for(rt: HostRuntime) -> Result<(), Fail> {
    asks_other_rows(rt.alloc(), OTHERS)
}

// Bytes that end too early: alone, in an array, as a key, as a value, after a tag, and within a
// head or a string. One look finds the end.
const ENDS: &[&[u8]] = table! {
    b"",
    b"\x81",
    b"\x82\x00",
    b"\x81\x81",
    b"\xa1",
    b"\xa1\x00",
    b"\xa2\x00\x00",
    b"\xa1\x80",
    b"\xa1\x61a",
    b"\xc1",
    b"\xd8\x18",
    b"\xc1\xc1",
    b"\x18",
    b"\x19\x00",
    b"\x61",
    b"\x62\x61",
    b"\x78",
    b"\xf9",
    b"\xfb\x00",
    b"\x98",
    b"\x81\x18",
    b"\x82\x00\x18",
    b"\xa1\x62a",
    b"\xa1\x61a\x62a",
};

// Bytes that end too early, of what has no canonical encoding. One look finds the end.
const INDEFINITE_ENDS: &[&[u8]] = table! {
    b"\x9f",
    b"\x9f\x00",
    b"\xbf",
    b"\xbf\x00",
    b"\xbf\x00\x00",
    b"\x5f",
    b"\x5f\x41",
};

fn ends_once<T: ReadFrom>(alloc: Global, rows: &[&'static [u8]]) -> Result<(), Fail> {
    for bytes in rows {
        for prefix in [1, usize::MAX] {
            ends::<T>(alloc, Asked::new(bytes).showing(prefix), bytes)?;
            ends::<T>(alloc, Asked::new(bytes).showing(prefix).wide(), bytes)?;
        }
    }
    Ok(())
}

fn ends<T: ReadFrom>(alloc: Global, reader: Asked<'static>, bytes: &[u8]) -> Result<(), Fail> {
    match asks::<T>(alloc, reader, bytes)? {
        (false, Asks { ends: 1, .. }) => Ok(()),
        (_, asks) => Err(Fail::new(format_args!("{asks:?} of {bytes:?}"))),
    }
}

#[test]
fn the_end_is_looked_at_once(rt: HostRuntime) -> Result<(), Fail> {
    let alloc = rt.alloc();
    ends_once::<Item<Value>>(alloc, ENDS)?;
    ends_once::<Item<Value>>(alloc, INDEFINITE_ENDS)?;
    ends_once::<Item<Canonical>>(alloc, ENDS)
}

// Parts on both sides of the 4,096 bytes of a look: a head, a part that follows it so many
// times, and the most looks over a reader that lets one ask for so many and shows what is wanted.
// Its head takes one.
const AROUND: &[(&[u8], &[u8], usize, usize, usize)] = table! {
    (b"\x99\x0f\xfa", b"\x05", 4_090, 2, 2),
    (b"\x99\x10\x00", b"\x05", 4_096, 2, 2),
    (b"\x99\x10\x01", b"\x05", 4_097, 3, 3),
    (b"\x99\x05\x55", b"\x62ab", 1_365, 2, 2),
    // A text that is cut takes one for its head, and one for its content.
    (b"\x99\x05\x56", b"\x62ab", 1_366, 4, 5),
    (b"\xb9\x08\x00", b"\x05\x06", 2_048, 2, 2),
    (b"\xb9\x08\x01", b"\x05\x06", 2_049, 3, 3),
    // After 1,365 pairs a byte more is shown: a prefix of the next key, or all of it.
    (b"\xb9\x05\x78", b"\x18\x18\x05", 1_400, 4, 5),
    (b"\xb9\x05\x78", b"\x05\x18\x18", 1_400, 3, 3),
    (b"\x59\x0f\xfd", b"a", 4_093, 1, 1),
    (b"\x59\x0f\xfe", b"a", 4_094, 3, 4),
    // Each array within takes one.
    (b"\x99\x0f\xa1", b"\x80", 4_001, 4_002, 4_002),
};

fn looks_around(alloc: Global, rows: &[(&[u8], &[u8], usize, usize, usize)]) -> Result<(), Fail> {
    for &(head, part, count, looks, canonical) in rows {
        let bytes = repeated(alloc, head, part, count, b"")?;
        let wide = Asked::new(bytes).wide().refusing_above(4_096);
        looks_at_most::<Item<Value>>(alloc, wide, bytes, true, looks, usize::MAX)?;
        let wide = Asked::new(bytes).wide().refusing_above(4_096);
        looks_at_most::<Item<Canonical>>(alloc, wide, bytes, true, canonical, usize::MAX)?;
    }
    Ok(())
}

#[test]
fn a_look_for_4096_bytes(rt: HostRuntime) -> Result<(), Fail> {
    looks_around(rt.alloc(), AROUND)
}

// Parts of which the reader shows no more than so many bytes at a time, and the most looks where it
// lets one ask for 4,096 bytes. Where it does not, each of so many longer heads takes one more.
type ShownRow = (
    &'static [u8],
    &'static [u8],
    usize,
    usize,
    usize,
    usize,
    usize,
);

const SHOWN: &[ShownRow] = table! {
    (b"\x98\xc8", b"\x70aaaaaaaaaaaaaaaa", 200, 16, 602, 803, 1),
    (b"\x98\xc8", b"\x63abc", 200, 3, 602, 803, 1),
    (b"\x98\xc8", b"\x63abc", 200, 2, 802, 1003, 1),
    (b"\x98\xc8", b"\x18\x18", 200, 3, 402, 603, 201),
    (b"\x98\xc8", b"\x1b\x00\x00\x00\x01\x00\x00\x00\x00", 200, 7, 2202, 2403, 201),
    (b"\x98\xc8", b"\xa0", 200, 2, 402, 603, 1),
    (b"\x98\x64", b"\xd8\x18\x18\x18", 100, 2, 402, 603, 201),
    (b"\xb8\x64", b"\x63abc\x81\x00", 100, 3, 702, 1003, 1),
    (b"\xb8\x64", b"\x61a\x01", 100, 2, 502, 703, 1),
    (b"\x79\x13\x88", b"a", 5_000, 4_096, 4, 5, 1),
};

fn looks_shown(alloc: Global, rows: &[ShownRow]) -> Result<(), Fail> {
    for &(head, part, count, prefix, looks, canonical, more) in rows {
        let bytes = repeated(alloc, head, part, count, b"")?;
        looks_in_prefixes::<Item<Value>>(alloc, bytes, prefix, looks, more)?;
        looks_in_prefixes::<Item<Canonical>>(alloc, bytes, prefix, canonical, more)?;
    }
    Ok(())
}

fn looks_in_prefixes<T: ReadFrom>(
    alloc: Global,
    bytes: &'static [u8],
    prefix: usize,
    looks: usize,
    more: usize,
) -> Result<(), Fail> {
    let narrow = Asked::new(bytes).showing(prefix);
    let most = looks.saturating_add(more);
    looks_at_most::<T>(alloc, narrow, bytes, true, most, bytes.len())?;
    let wide = Asked::new(bytes).wide().showing(prefix);
    looks_at_most::<T>(alloc, wide, bytes, true, looks, usize::MAX)
}

#[test]
fn few_bytes_at_a_time(rt: HostRuntime) -> Result<(), Fail> {
    looks_shown(rt.alloc(), SHOWN)
}

// Strings that are said to have 2^64-1 bytes, of which none or few come: no look asks a reader that
// may wait for all that is wanted for more than 16,384 of them.
const FALSE_LENGTHS: &[&[u8]] = table! {
    b"\x5b\xff\xff\xff\xff\xff\xff\xff\xff",
    b"\x7b\xff\xff\xff\xff\xff\xff\xff\xff",
    b"\x5b\xff\xff\xff\xff\xff\xff\xff\xffab",
    b"\x81\x7b\xff\xff\xff\xff\xff\xff\xff\xffab",
    b"\xa1\x5b\xff\xff\xff\xff\xff\xff\xff\xff",
    b"\xc1\x7b\xff\xff\xff\xff\xff\xff\xff\xff",
};

fn is_asked_in_parts<T: ReadFrom>(
    alloc: Global,
    bytes: &'static [u8],
    is_read: bool,
) -> Result<(), Fail> {
    let reader = Asked::new(bytes).refusing_above(16_384);
    looks_at_most::<T>(alloc, reader, bytes, is_read, usize::MAX, usize::MAX)
}

fn are_asked_in_parts<T: ReadFrom>(alloc: Global) -> Result<(), Fail> {
    for bytes in FALSE_LENGTHS {
        is_asked_in_parts::<T>(alloc, bytes, false)?;
    }
    // 40,000 bytes, 0x9c40, all of which come.
    let bytes = repeated(alloc, b"\x59\x9c\x40", b"a", 40_000, b"")?;
    is_asked_in_parts::<T>(alloc, bytes, true)
}

#[test]
fn a_long_string_is_asked_for_in_parts(rt: HostRuntime) -> Result<(), Fail> {
    let alloc = rt.alloc();
    are_asked_in_parts::<Item<Value>>(alloc)?;
    are_asked_in_parts::<Item<Canonical>>(alloc)?;
    are_asked_in_parts::<Item<IgnoredAny>>(alloc)
}

// After a reference.
fn read_after<S: Source>(alloc: Global, reader: &mut S) -> Result<Value, DecodeError<S::Error>> {
    Value::decode(alloc, &mut &mut *reader)
}

// A reader behind a reference hands on how many bytes a look may ask for.
#[test]
fn after_a_reference(rt: HostRuntime) -> Result<(), Fail> {
    let mut reader = Asked::new(b"\x83\x01\x02\x03").wide();
    let _ = read_after(rt.alloc(), &mut reader)?;
    assert_eq!(rt; reader.asks().looks, 2);
    Ok(())
}
