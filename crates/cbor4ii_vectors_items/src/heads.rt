//! Rows of initial bytes and heads, and what heads ask of a reader.
use cbor4ii_items::initial::{argument, high, if_major, low, peek};
use cbor4ii_items::integer_head::integer_head;
use cbor4ii_rw::io_reader::IoReader;
use cbor4ii_rw::read::Source;
use cbor4ii_rw::slice_reader::SliceReader;
use cbor4ii_vectors::asked::{looks_at_most_by, looks_within_windows_by};
use cbor4ii_vectors::compared::same;
use cbor4ii_vectors::items::Items;
use cbor4ii_vectors::readers::Asked;
use cbor4ii_vectors::rows::ByName;
use cbor4ii_vectors::table;
use std::alloc::Global;
use std::fmt::InlineText;
use std::test::Fail;

// The next byte, or the error, has this text.
fn peeks<S: Source>(reader: &mut S, text: &str) -> Result<(), Fail> {
    let got = peek(reader, "part");
    same(InlineText::<64>::of(format_args!("{got:?}")).as_str(), text)
}

#[test]
fn the_next_byte_stays() -> Result<(), Fail> {
    let mut reader = SliceReader::new(b"\x05");
    peeks(&mut reader, "Ok(5)")?;
    peeks(&mut reader, "Ok(5)")?;
    same(reader.remaining(), b"\x05")
}

#[test]
fn no_byte_is_next() -> Result<(), Fail> {
    peeks(
        &mut IoReader::new(b"".as_slice()),
        "Err(Eof { name: \"part\", expect: Small(1) })",
    )
}

#[test]
fn parts_of_a_first_byte() -> Result<(), Fail> {
    same([if_major(0xd8), high(0xd8), low(0xd8)], [6, 0xc0, 0x18])
}

// The low bits of a first byte, the bytes after it, the argument, and how many of them it takes.
const ARGUMENTS: &[(u8, &[u8], Option<(u64, usize)>)] = table! {
    (23, &[0xff], Some((23, 0))),
    (24, &[0x18, 0xff], Some((24, 1))),
    (25, &[1, 0], Some((256, 2))),
    (26, &[0, 1, 0, 0, 0xff], Some((65_536, 4))),
    (27, &[0, 0, 0, 1, 0, 0, 0, 0], Some((1 << 32, 8))),
};

const NO_ARGUMENTS: &[(u8, &[u8], Option<(u64, usize)>)] = table! {
    (24, &[], None),
    (25, &[1], None),
    (26, &[0, 1, 0], None),
    (27, &[0, 0, 0, 1, 0, 0, 0], None),
    (28, &[0, 0, 0, 1, 0, 0, 0, 0], None),
    (31, &[0, 0, 0, 1, 0, 0, 0, 0], None),
};

fn have_arguments(rows: &[(u8, &[u8], Option<(u64, usize)>)]) -> Result<(), Fail> {
    for (low, after, found) in rows {
        same(argument(*low, after), *found)?;
    }
    Ok(())
}

#[test]
fn arguments_after_a_first_byte() -> Result<(), Fail> {
    have_arguments(ARGUMENTS)
}

#[test]
fn no_argument_stands_after_a_first_byte() -> Result<(), Fail> {
    have_arguments(NO_ARGUMENTS)
}

// An integer, with the major type and the argument of its head.
type Headed = (i128, Option<(u8, u64)>);

// The least and the greatest argument of each width, both sides of 2^64 and -2^64, and the ends.
const HEADS: &[Headed] = table! {
    (0, Some((0, 0))),
    (23, Some((0, 23))),
    (24, Some((0, 24))),
    (255, Some((0, 255))),
    (256, Some((0, 256))),
    (65_535, Some((0, 65_535))),
    (65_536, Some((0, 65_536))),
    (4_294_967_295, Some((0, 4_294_967_295))),
    (4_294_967_296, Some((0, 4_294_967_296))),
    (18_446_744_073_709_551_615, Some((0, 18_446_744_073_709_551_615))),
    (18_446_744_073_709_551_616, None),
    (18_446_744_073_709_551_714, None),
    (i128::MAX, None),
    (-1, Some((1, 0))),
    (-24, Some((1, 23))),
    (-25, Some((1, 24))),
    (-256, Some((1, 255))),
    (-257, Some((1, 256))),
    (-9_223_372_036_854_775_809, Some((1, 9_223_372_036_854_775_808))),
    (-18_446_744_073_709_551_616, Some((1, 18_446_744_073_709_551_615))),
    (-18_446_744_073_709_551_617, None),
    (i128::MIN, None),
};

fn has_heads(rows: &[Headed]) -> Result<(), Fail> {
    for (integer, head) in rows {
        let found = integer_head(*integer);
        if found != *head {
            return Err(Fail::new(format_args!("{found:?} of {integer}")));
        }
    }
    Ok(())
}

#[test]
fn integers_of_64_bits_have_heads() -> Result<(), Fail> {
    has_heads(HEADS)
}

// The most looks over a reader that shows what is wanted, over one that shows one byte at a time,
// and where a look may ask for 4,096 bytes. The first two want no byte that is not the item's.
// Where a look may ask for fewer than 4,096, there are no more than over these.
type Looks = (usize, usize, usize);

fn asks(alloc: Global, name: &str, bytes: &'static [u8], looks: Looks) -> Result<(), Fail> {
    let (shown, by_byte, wide) = looks;
    let how = ByName::<Items>::new(alloc, name)?;
    looks_at_most_by::<String, _>(
        &how,
        alloc,
        Asked::new(bytes),
        bytes,
        true,
        shown,
        bytes.len(),
    )?;
    looks_at_most_by::<String, _>(
        &how,
        alloc,
        Asked::new(bytes).showing(1),
        bytes,
        true,
        by_byte,
        bytes.len(),
    )?;
    looks_within_windows_by::<String, _>(&how, alloc, bytes, true, bytes.len(), (shown, by_byte))?;
    looks_at_most_by::<String, _>(&how, alloc, Asked::new(bytes).wide(), bytes, true, wide, 9)
}

fn asks_each(alloc: Global, name: &str, rows: &[(&'static [u8], Looks)]) -> Result<(), Fail> {
    for (bytes, looks) in rows {
        asks(alloc, name, bytes, *looks)?;
    }
    Ok(())
}

const NUMBERS: &[(&'static [u8], Looks)] = table! {
    (b"\x17", (1, 1, 1)),
    (b"\x18\x18", (2, 4, 1)),
    (b"\x19\x01\x02", (2, 5, 1)),
    (b"\x1a\x01\x02\x03\x04", (2, 7, 1)),
    (b"\x1b\x01\x02\x03\x04\x05\x06\x07\x08", (2, 11, 1)),
};

#[test]
fn looks_of_a_number(rt: HostRuntime) -> Result<(), Fail> {
    asks_each(rt.alloc(), "u64", NUMBERS)
}

// One from 0 on is looked for first, then one below. By bytes the first stays for one look more.
const SIGNED_NUMBERS: &[(&[u8], Looks)] = table! {
    (b"\x17", (1, 1, 1)),
    (b"\x19\x01\x02", (2, 7, 1)),
    (b"\x37", (2, 2, 2)),
    (b"\x39\x01\x02", (3, 7, 2)),
};

const LARGE_NUMBERS: &[(&[u8], Looks)] = table! {
    (b"\x19\x01\x02", (2, 7, 1)),
    (b"\x39\x01\x02", (3, 7, 2)),
};

#[test]
fn looks_of_a_signed_number(rt: HostRuntime) -> Result<(), Fail> {
    let alloc = rt.alloc();
    asks_each(alloc, "i64", SIGNED_NUMBERS)?;
    asks_each(alloc, "i128", LARGE_NUMBERS)?;
    asks(alloc, "u128", b"\x19\x01\x02", (2, 6, 1))
}

#[test]
fn looks_of_a_float(rt: HostRuntime) -> Result<(), Fail> {
    asks(
        rt.alloc(),
        "F64",
        b"\xfb\x3f\xf1\x99\x99\x99\x99\x99\x9a",
        (2, 11, 1),
    )
}
