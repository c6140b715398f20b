//! What typed reading asks of a reader: how often it looks, and how many bytes a look wants.
//!
//! Where the reader lets a look ask for no byte but those that are needed, a head takes a look for
//! its first byte, and one for all of it where it is longer; a float does, too. Content takes one.
//! Where the length is indefinite, such a look finds no head, and one of a byte follows it. Before
//! an option, an enum, an item of any kind, and each part of what has no known length stands a look
//! of one byte. A head that does not stand whole in what is shown takes one more for each of its
//! bytes, and content one for each part.
//!
//! A name takes a look for its first byte, one for a head of two bytes, and one for all of it up to
//! 256 bytes. After a head of three bytes and more, where it is longer, and where it is still cut,
//! it is read as a text, with the looks of one.
//!
//! Where the reader lets a look ask for more, a head takes one look, as does a name of up to 255
//! bytes after a head of one or two bytes. A vector of four leaves or more takes one for as many as
//! it shows whole, and one for the next, by turns.
use crate::typed::By;
use crate::values::Types;
use cbor4ii_vectors::asked::{looks_at_most_by, looks_within_windows_by};
use cbor4ii_vectors::readers::Asked;
use cbor4ii_vectors::repeated::repeated;
use cbor4ii_vectors::rows::{ByName, Calls};
use cbor4ii_vectors::table;
use std::alloc::Global;
use std::test::Fail;

/// A head, a part that follows it so many times, and an end; the most bytes that a look wants; the
/// most looks over a reader that shows what is wanted, and over one that shows one byte at a time.
/// Then those over readers that let a look ask for 4,096 bytes, and show the one or the other.
pub type Row = (
    &'static [u8],
    &'static [u8],
    usize,
    &'static [u8],
    usize,
    (usize, usize),
    (usize, usize),
);

/// Reads each row over readers that fail where more bytes are wanted than the row says, or than the
/// window that they let a look ask for. The first two have to have had no byte that is not the
/// item's. A wider window takes no more looks than they do.
pub fn asks_rows<C: Calls>(alloc: Global, name: &str, rows: &[Row]) -> Result<(), Fail> {
    let how = ByName::<C>::new(alloc, name)?;
    for &(head, part, count, end, most, (looks, by_byte), wide) in rows {
        let bytes = repeated(alloc, head, part, count, end)?;
        let reader = Asked::new(bytes).refusing_above(most);
        looks_at_most_by::<String, _>(&how, alloc, reader, bytes, true, looks, bytes.len())?;
        let reader = Asked::new(bytes).refusing_above(most).showing(1);
        looks_at_most_by::<String, _>(&how, alloc, reader, bytes, true, by_byte, bytes.len())?;
        looks_within_windows_by::<String, _>(&how, alloc, bytes, true, most, (looks, by_byte))?;
        asks_wide(&how, alloc, bytes, wide)?;
    }
    Ok(())
}

fn asks_wide<C: Calls>(
    how: &ByName<C>,
    alloc: Global,
    bytes: &'static [u8],
    (looks, by_byte): (usize, usize),
) -> Result<(), Fail> {
    let reader = Asked::new(bytes).wide().refusing_above(4_096);
    looks_at_most_by::<String, _>(how, alloc, reader, bytes, true, looks, usize::MAX)?;
    let reader = Asked::new(bytes).wide().refusing_above(4_096).showing(1);
    looks_at_most_by::<String, _>(how, alloc, reader, bytes, true, by_byte, usize::MAX)
}

/// Over a reader that lets a look ask for 4,096 bytes no look wants more than `most`, or than the
/// row says.
pub fn asks_no_more_than<C: Calls>(
    alloc: Global,
    name: &str,
    most: usize,
    rows: &[Row],
) -> Result<(), Fail> {
    let how = ByName::<C>::new(alloc, name)?;
    for &(head, part, count, end, needed, _, (looks, _)) in rows {
        let bytes = repeated(alloc, head, part, count, end)?;
        let reader = Asked::new(bytes).wide().refusing_above(most.max(needed));
        looks_at_most_by::<String, _>(&how, alloc, reader, bytes, true, looks, usize::MAX)?;
    }
    Ok(())
}

const NUMBERS: &[Row] = table! {
    (b"\x05", b"", 0, b"", 1, (1, 1), (1, 1)),
    (b"\x18\xff", b"", 0, b"", 2, (2, 4), (1, 3)),
};

const FLOATS: &[Row] = table! {
    (b"\xfb\x7f\xf0\x00\x00\x00\x00\x00\x00", b"", 0, b"", 9, (2, 11), (1, 10)),
};

const TEXTS: &[Row] = table! {
    (b"\x64IETF", b"", 0, b"", 4, (2, 5), (2, 5)),
    (b"\x70", b"a", 16, b"", 16, (2, 17), (2, 17)),
    (b"\x78\x18", b"a", 24, b"", 24, (3, 28), (2, 27)),
    (b"\x7f", b"\x61a", 3, b"\xff", 1, (12, 12), (12, 12)),
};

#[test]
fn leaves_are_asked_for(rt: HostRuntime) -> Result<(), Fail> {
    let alloc = rt.alloc();
    asks_rows::<By<Types>>(alloc, "u8", NUMBERS)?;
    asks_rows::<By<Types>>(alloc, "F64", FLOATS)?;
    asks_rows::<By<Types>>(alloc, "String", TEXTS)
}

const OPTIONS: &[Row] = table! {
    (b"\xf6", b"", 0, b"", 1, (1, 1), (1, 1)),
    (b"\x05", b"", 0, b"", 1, (2, 2), (2, 2)),
};

const VECTORS: &[Row] = table! {
    (b"\x83", b"\x05", 3, b"", 1, (4, 4), (4, 4)),
    (b"\x84", b"\x18\xff", 4, b"", 2, (9, 17), (2, 17)),
    (b"\x99\x17\x70", b"\x05", 6_000, b"", 3, (6_002, 6_005), (4, 6_004)),
    (b"\x9f", b"\x05", 2, b"\xff", 1, (7, 7), (7, 7)),
};

const MAPS: &[Row] = table! {
    (b"\xa1", b"\x05\x06", 1, b"", 1, (3, 3), (3, 3)),
    (b"\xbf", b"\x05\x06", 1, b"\xff", 1, (6, 6), (6, 6)),
};

const ANY: &[Row] = table! {
    (b"\xf6", b"", 0, b"", 1, (2, 2), (2, 2)),
    // Shown by bytes it is looked for as an integer of each sign, and read by its sign then.
    (b"\x19\x01\x00", b"", 0, b"", 3, (3, 8), (2, 7)),
    (b"\x64IETF", b"", 0, b"", 4, (3, 6), (3, 6)),
    (b"\x83", b"\x05", 3, b"", 1, (8, 8), (8, 8)),
    (b"\xa1", b"\x05\x06", 1, b"", 1, (6, 6), (6, 6)),
};

#[test]
fn containers_are_asked_for(rt: HostRuntime) -> Result<(), Fail> {
    let alloc = rt.alloc();
    asks_rows::<By<Types>>(alloc, "Option<u8>", OPTIONS)?;
    asks_rows::<By<Types>>(alloc, "Vec<u8>", VECTORS)?;
    asks_rows::<By<Types>>(alloc, "BTreeMap<u8, u8>", MAPS)?;
    asks_rows::<By<Types>>(alloc, "Value", ANY)
}

// Vectors of four leaves: the window, and the most looks over a reader that shows what is wanted.
// The head takes one. Within a window of fewer bytes than the longest leaf has, leaves are read one
// by one: each takes a look, and one more where it is longer than the window.
type Windowed = (&'static [u8], &'static [u8], usize, usize);

const LEAVES: &[Windowed] = table! {
    (b"\x84", b"\x1a\x00\x01\x00\x00", 2, 9),
    (b"\x84", b"\x1a\x00\x01\x00\x00", 8, 5),
    (b"\x84", b"\x1b\x00\x00\x00\x01\x00\x00\x00\x00", 2, 9),
    (b"\x84", b"\x1b\x00\x00\x00\x01\x00\x00\x00\x00", 8, 9),
    (b"\x84", b"\x1b\x00\x00\x00\x01\x00\x00\x00\x00", 9, 5),
    (b"\x84", b"\x1b\x00\x00\x00\x01\x00\x00\x00\x00", 24, 4),
    (b"\x84", b"\x1b\x00\x00\x00\x01\x00\x00\x00\x00", 256, 2),
};

fn asks_windowed(alloc: Global, rows: &[Windowed]) -> Result<(), Fail> {
    let how = ByName::<By<Types>>::new(alloc, "Vec<u64>")?;
    for &(head, leaf, window, looks) in rows {
        let bytes = repeated(alloc, head, leaf, 4, b"")?;
        let reader = Asked::new(bytes)
            .with_window(window)
            .refusing_above(window.max(9));
        looks_at_most_by::<String, _>(&how, alloc, reader, bytes, true, looks, usize::MAX)?;
    }
    Ok(())
}

#[test]
fn leaves_within_a_window(rt: HostRuntime) -> Result<(), Fail> {
    asks_windowed(rt.alloc(), LEAVES)
}

// 1,000 elements, 0x3e8, that are no null: the head takes a look, and each of them three at most.
#[test]
fn options_of_options_take_no_look_in_vain(rt: HostRuntime) -> Result<(), Fail> {
    let alloc = rt.alloc();
    let bytes = repeated(alloc, b"\x99\x03\xe8", b"\x05", 1_000, b"")?;
    let reader = Asked::new(bytes).wide().refusing_above(4_096);
    let how = ByName::<By<Types>>::new(alloc, "Vec<Option<Option<u8>>>")?;
    looks_at_most_by::<String, _>(&how, alloc, reader, bytes, true, 3_001, usize::MAX)
}
