//! Items that are skipped.
//!
//! `decode_value.rt` skips each item that it reads. What skipping rejects stands beside what a
//! value rejects, in `decode_value/errors.rt` and `decode_value/depth.rt`.
use crate::item::Item;
use crate::item_rows::{rejects_in_skipping, skips, skips_item};
use cbor4ii_tree::IgnoredAny;
use cbor4ii_vectors::asked::{asks, looks_at_most, looks_within_windows};
use cbor4ii_vectors::readers::Asked;
use cbor4ii_vectors::rows::Want;
use cbor4ii_vectors::{eof, table, unsupported};
use std::alloc::{AllocError, Global};
use std::test::Fail;

// Items that are skipped, most of which are no values.
pub const ITEMS: &[&[u8]] = table! {
    b"\x00",
    b"\x63\xff\xff\xff",
    b"\x5f\xff",
    b"\x5f\x80\xff",
    b"\x5f\x00\x40\xff",
    b"\x5f\x41\x01\x61\x62\xff",
    b"\x5f\x7f\xff\xff",
    b"\x7f\x5f\xff\xff",
    b"\x7f\x61\xc3\xff",
    b"\x5f\xa1\x00\x00\xff",
    b"\x9f\x5f\x80\xff\xff",
    b"\x9f\x62\xff\xff\x00\xff",
    b"\x9f\xf5\xf4\xff",
    b"\x84\x00\xf4\x60\xa0",
    b"\xbf\x00\x00\x00\x00\xff",
    b"\xbf\x61\xff\x81\x00\xff",
    // Each kind of item of one byte, at both ends of it.
    b"\x8d\x00\x17\x20\x37\x40\x60\x80\xa0\xf4\xf5\xf6\xf7\x00",
    b"\xa6\x00\x17\x20\x37\x40\x60\x80\xa0\xf4\xf5\xf6\xf7",
    // Items of more bytes between those of one.
    b"\x87\x00\x18\x05\x00\x38\x05\x41\x00\x00\x81\x00",
    b"\x9f\x00\x00\x61\x00\x00\xc1\x00\xf9\x00\x00\x00\xff",
    b"\xdb\xff\xff\xff\xff\xff\xff\xff\xfe\x6bhello world",
};

// Items that are skipped, with bytes after them that are left.
const FOLLOWED: &[(&[u8], &[u8])] = table! {
    (b"\x84\x00\xf4\x60\xa0\x00", b"\x00"),
    (b"\xbf\x00\x00\x00\x00\xff\x00", b"\x00"),
    (b"\x82\x00\x00\x00\x00", b"\x00\x00"),
    (b"\xa1\x00\x00\x00\x00", b"\x00\x00"),
    (b"\x80\x00", b"\x00"),
    (b"\xa0\x00", b"\x00"),
    (b"\x5f\x00\xff\x00", b"\x00"),
    (b"\x82\x81\x00\x00\x00", b"\x00"),
    (b"\xc1\x00\x00", b"\x00"),
};

fn skips_items(alloc: Global, items: &[&'static [u8]]) -> Result<(), Fail> {
    for item in items {
        skips_item(alloc, item, 256)?;
    }
    Ok(())
}

fn skips_prefixes(alloc: Global, rows: &[(&'static [u8], &[u8])]) -> Result<(), Fail> {
    for (bytes, rest) in rows {
        skips(alloc, bytes, Ok(IgnoredAny), rest)?;
    }
    Ok(())
}

#[test]
fn any_item_is_skipped(rt: HostRuntime) -> Result<(), Fail> {
    let alloc = rt.alloc();
    skips_items(alloc, ITEMS)?;
    skips_prefixes(alloc, FOLLOWED)
}

// What is skipped with no more than so many steps.
const WITHIN: &[(&[u8], usize)] = table! {
    (b"\x00", 1),
    (b"\x61\xc3", 1),
    (b"\x5f\xff", 1),
    (b"\x80", 1),
    (b"\xa0", 1),
    (b"\x9f\xff", 1),
    (b"\xbf\xff", 1),
    (b"\x5f\x00\xff", 2),
    (b"\x81\x00", 2),
    (b"\x82\x00\x00", 2),
    (b"\xa1\x00\x00", 2),
    (b"\x9f\x00\x00\xff", 2),
    (b"\xbf\x00\x01\xff", 2),
    (b"\xc1\x00", 2),
    (b"\x82\x81\x00\x00", 3),
    (b"\x9f\x00\x5f\x00\xff\xff", 3),
};

fn skips_within(alloc: Global, rows: &[(&'static [u8], usize)]) -> Result<(), Fail> {
    for (item, limit) in rows {
        skips_item(alloc, item, *limit)?;
    }
    Ok(())
}

#[test]
fn within_a_limit(rt: HostRuntime) -> Result<(), Fail> {
    skips_within(rt.alloc(), WITHIN)
}

// Zeros after a head and before an end: the answer of skipping, and what is left.
type Zeros = (
    &'static [u8],
    usize,
    &'static [u8],
    Want<IgnoredAny>,
    &'static [u8],
);

const ZEROS: &[Zeros] = table! {
    // Arrays of 200 and of 300 items, of definite and of indefinite length, and indefinite-length
    // strings.
    (b"\x98\xc8", 200, b"", Ok(IgnoredAny), b""),
    (b"\x98\xc8", 200, b"\x00", Ok(IgnoredAny), b"\x00"),
    (b"\x99\x01\x2c", 300, b"", Ok(IgnoredAny), b""),
    (b"\x99\x01\x2c", 300, b"\x00\x00", Ok(IgnoredAny), b"\x00\x00"),
    (b"\x9f", 300, b"\xff", Ok(IgnoredAny), b""),
    (b"\x9f", 300, b"\xff\x00", Ok(IgnoredAny), b"\x00"),
    (b"\x5f", 300, b"\xff\x00", Ok(IgnoredAny), b"\x00"),
    // Maps of 300 pairs, of definite and of indefinite length.
    (b"\xb9\x01\x2c", 600, b"", Ok(IgnoredAny), b""),
    (b"\xb9\x01\x2c", 600, b"\x00", Ok(IgnoredAny), b"\x00"),
    (b"\xbf", 600, b"\xff\x00", Ok(IgnoredAny), b"\x00"),
    // A key with no value after it.
    (b"\xbf", 601, b"\xff", Err(unsupported!("ignored-any", 0xff)), b"\xff"),
    (b"\xbf", 255, b"\xff", Err(unsupported!("ignored-any", 0xff)), b"\xff"),
    (b"\xb9\x01\x2c", 599, b"", Err(eof!("ignored-any", 1)), b""),
    // Fewer items than the count.
    (b"\x99\x01\x2c", 299, b"", Err(eof!("ignored-any", 1)), b""),
    (b"\x9b\xff\xff\xff\xff\xff\xff\xff\xff", 300, b"", Err(eof!("ignored-any", 1)), b""),
    (b"\xbb\xff\xff\xff\xff\xff\xff\xff\xff", 300, b"", Err(eof!("ignored-any", 1)), b""),
    (b"\x9f", 300, b"", Err(eof!("break", 1)), b""),
    // What is rejected follows many that are skipped.
    (b"\x9f", 300, b"\xf3\xff", Err(unsupported!("ignored-any", 0xf3)), b"\xf3\xff"),
    (b"\x99\x01\x2c", 298, b"\xff\x00", Err(unsupported!("ignored-any", 0xff)), b"\xff\x00"),
};

fn skips_zeros(alloc: Global, rows: &[Zeros]) -> Result<(), Fail> {
    for &(head, count, end, want, rest) in rows {
        let bytes = zeros(alloc, head, count, end)?.leak();
        match want {
            Ok(any) => skips(alloc, bytes, Ok(any), rest)?,
            Err(error) => rejects_in_skipping(alloc, bytes, error, rest)?,
        }
    }
    Ok(())
}

#[test]
fn many_items(rt: HostRuntime) -> Result<(), Fail> {
    skips_zeros(rt.alloc(), ZEROS)
}

// More than two of the longest items that say their size in the first byte: no part of what is
// skipped before them.
const MORE: &[u8] = &[0; 60];

// A head, and what follows it so many times: runs of items of one byte, of which eight are taken at
// once where so many are left, some with items of two bytes between them.
const RUNS: &[(&[u8], &[u8], usize)] = table! {
    (b"\x82", b"\x00", 2),
    (b"\x88", b"\x00", 8),
    (b"\x89", b"\x00", 9),
    (b"\x8a", b"\x00", 10),
    (b"\x8b", b"\x00", 11),
    (b"\x91", b"\x00", 17),
    (b"\x92", b"\x00", 18),
    (b"\x93", b"\x00", 19),
    (b"\xa4", b"\x17\x20", 4),
    (b"\xa5", b"\x17\x20", 5),
    (b"\x98\x64", b"\x00\x00\x00\x18\x05", 25),
    (b"\x98\x64", b"\x17\x37\x38\x05\x20", 25),
    (b"\x98\x64", b"\x00\x41\x05\x00\x00", 25),
    (b"\xb8\x32", b"\x00\x00\x00\x18\x05", 25),
};

fn skips_runs(alloc: Global, rows: &[(&[u8], &[u8], usize)]) -> Result<(), Fail> {
    for &(head, part, count) in rows {
        let mut bytes = repeated(alloc, head, count, part)?;
        bytes.extend_from_slice(MORE)?;
        skips(alloc, bytes.leak(), Ok(IgnoredAny), MORE)?;
    }
    Ok(())
}

#[test]
fn runs_end_with_their_items(rt: HostRuntime) -> Result<(), Fail> {
    skips_runs(rt.alloc(), RUNS)
}

fn zeros(alloc: Global, head: &[u8], count: usize, end: &[u8]) -> Result<Vec<u8>, AllocError> {
    let mut bytes = repeated(alloc, head, count, b"\x00")?;
    bytes.extend_from_slice(end)?;
    Ok(bytes)
}

// A head, and an item after it so many times.
fn repeated(alloc: Global, head: &[u8], count: usize, item: &[u8]) -> Result<Vec<u8>, AllocError> {
    let mut bytes = head.to_vec(alloc)?;
    for _ in 0..count {
        bytes.extend_from_slice(item)?;
    }
    Ok(bytes)
}

// How often an item is looked at that holds so many of one kind, by a reader that lets a look ask
// for 4,096 bytes, and shows no more than is wanted. A run of those that say their size in the
// first byte takes a look for some 256 bytes, another item one for its head, and a break one.
const LOOKS: &[(&[u8], usize, &[u8], usize)] = table! {
    (b"\x98\xc8", 200, b"\x00", 8),
    (b"\xb8\x64", 200, b"\x00", 8),
    (b"\xb8\x32", 50, b"\x61a\x19\x01\x02", 8),
    (b"\x98\x28", 40, b"\x9f\xff", 84),
    (b"\x98\x28", 40, b"\x78\x01a", 44),
    (b"\x98\x28", 40, b"\xd8\x20\x00", 84),
};

#[test]
fn few_looks(rt: HostRuntime) -> Result<(), Fail> {
    looks_few_times(rt.alloc(), LOOKS)
}

fn looks_few_times(alloc: Global, rows: &[(&[u8], usize, &[u8], usize)]) -> Result<(), Fail> {
    for &(head, count, item, most) in rows {
        let looks = looks(alloc, repeated(alloc, head, count, item)?.leak())?;
        if looks > most {
            return Err(Fail::new(format_args!("{looks} looks at {item:?}")));
        }
    }
    Ok(())
}

fn looks(alloc: Global, bytes: &'static [u8]) -> Result<usize, Fail> {
    let (_, asks) = asks::<Item<IgnoredAny>>(alloc, Asked::new(bytes).wide(), bytes)?;
    Ok(asks.looks)
}

// What is skipped, the most bytes that a look wants, and the most looks over a reader that shows
// what is wanted, and over one that shows one byte at a time. Neither has to have had a byte that
// is not the item's.
const ASKED: &[(&[u8], usize, usize, usize)] = table! {
    (b"\x00", 1, 1, 1),
    (b"\xf5", 1, 1, 1),
    (b"\x18\x18", 2, 2, 4),
    (b"\x19\x01\x00", 3, 2, 5),
    (b"\xfb\x7f\xf0\x00\x00\x00\x00\x00\x00", 9, 2, 11),
    (b"\x62ab", 2, 2, 3),
    (b"\x78\x02ab", 2, 3, 6),
    (b"\x82\x01\x62ab", 2, 4, 5),
    (b"\x98\x01\x00", 2, 3, 5),
    (b"\xa1\x00\x41a", 1, 4, 4),
    (b"\xd8\x18\x00", 2, 3, 5),
    (b"\x9f\x00\xff", 1, 3, 3),
    (b"\x5f\x41a\xff", 1, 4, 4),
};

#[test]
fn what_skipping_asks_for(rt: HostRuntime) -> Result<(), Fail> {
    asks_rows(rt.alloc(), ASKED)
}

fn asks_rows(alloc: Global, rows: &[(&'static [u8], usize, usize, usize)]) -> Result<(), Fail> {
    for &(bytes, most, looks, by_byte) in rows {
        let reader = Asked::new(bytes).refusing_above(most);
        looks_at_most::<Item<IgnoredAny>>(alloc, reader, bytes, true, looks, bytes.len())?;
        let reader = Asked::new(bytes).refusing_above(most).showing(1);
        looks_at_most::<Item<IgnoredAny>>(alloc, reader, bytes, true, by_byte, bytes.len())?;
        looks_within_windows::<Item<IgnoredAny>>(alloc, bytes, true, most, (looks, by_byte))?;
    }
    Ok(())
}

// What is rejected by its first byte, whatever follows it (RFC 8949 section 3.3), and how many
// bytes come up to that one. No look asks for a byte after it, and one more asks for it again.
const REJECTED_AT_ONCE: &[(&[u8], usize)] = table! {
    (b"\xf8", 1),
    (b"\xf8\x14", 1),
    (b"\xf8\x63", 1),
    (b"\x81\xf8\x63", 2),
    (b"\xc1\xf8", 2),
    (b"\xf0", 1),
    (b"\xfc", 1),
};

#[test]
fn what_is_rejected_wants_no_byte_after_it(rt: HostRuntime) -> Result<(), Fail> {
    for &(bytes, come) in REJECTED_AT_ONCE {
        let reader = Asked::new(bytes).refusing_above(1);
        looks_at_most::<Item<IgnoredAny>>(rt.alloc(), reader, bytes, false, come + 1, come)?;
    }
    Ok(())
}
