//! What each error of a value, and of an item that is skipped, is exactly: its name, its fields,
//! and the bytes that are left.
//!
//! Where skipping rejects, an item that is kept as its bytes is rejected alike, lent or copied.
//! Nothing of it is taken then, also where the reader fails.
use crate::item::Item;
use crate::item_rows::{rejects_in_skipping, rejects_in_skipping_within, skips, skips_within};
use cbor4ii_tree::{IgnoredAny, Value};
use cbor4ii_vectors::rows::{reads, reads_within};
use cbor4ii_vectors::{eof, mismatch, no_step, require_length, require_utf8, table, unsupported};
use std::alloc::Global;
use std::test::Fail;

// A break where an item has to come.
const READ_BREAK: &str = unsupported!("value", 0xff);

const SKIPPED_BREAK: &str = unsupported!("ignored-any", 0xff);

// First bytes that begin no value, and none that is skipped.
const READ_F3: &str = unsupported!("value", 0xf3);

const READ_F8: &str = unsupported!("value", 0xf8);

const SKIPPED_1C: &str = mismatch!("ignored-any", 0x1c);

const SKIPPED_3C: &str = mismatch!("ignored-any", 0x3c);

const SKIPPED_E0: &str = unsupported!("ignored-any", 0xe0);

const SKIPPED_F3: &str = unsupported!("ignored-any", 0xf3);

const SKIPPED_F8: &str = unsupported!("ignored-any", 0xf8);

// No step is left for an item that is skipped.
const NO_STEP: &str = no_step!("ignored-any");

// Input that ends too early: the error of a value, and of skipping. Nothing is left.
type CutOff = (&'static [u8], &'static str, &'static str);

const CUT_OFF: &[CutOff] = table! {
    // Prefixes of an indefinite-length byte string of two chunks.
    (b"", eof!("value", 1), eof!("ignored-any", 1)),
    (b"\x5f", eof!("break", 1), eof!("break", 1)),
    (b"\x5f\x42", eof!("bytes", 2), eof!("ignored-any", 2)),
    (b"\x5f\x42\x01", eof!("bytes", 1), eof!("ignored-any", 1)),
    (b"\x5f\x42\x01\x02", eof!("break", 1), eof!("break", 1)),
    (b"\x5f\x42\x01\x02\x43", eof!("bytes", 3), eof!("ignored-any", 3)),
    (b"\x5f\x42\x01\x02\x43\x03", eof!("bytes", 2), eof!("ignored-any", 2)),
    (b"\x5f\x42\x01\x02\x43\x03\x04", eof!("bytes", 1), eof!("ignored-any", 1)),
    (b"\x5f\x42\x01\x02\x43\x03\x04\x05", eof!("break", 1), eof!("break", 1)),
    // Prefixes of integers and of other strings.
    (b"\x18", eof!("u64", 1), eof!("ignored-any", 1)),
    (b"\x19\x00", eof!("u64", 2), eof!("ignored-any", 1)),
    (b"\x1a\x86", eof!("u64", 4), eof!("ignored-any", 3)),
    (b"\x1b\x00\x00\x00\x00\x00\x00\x00", eof!("u64", 8), eof!("ignored-any", 1)),
    (b"\x1b\x01\x02", eof!("u64", 8), eof!("ignored-any", 6)),
    (b"\x38", eof!("-u64", 1), eof!("ignored-any", 1)),
    (b"\x3a", eof!("-u64", 4), eof!("ignored-any", 4)),
    (b"\x58", eof!("bytes", 1), eof!("ignored-any", 1)),
    (b"\x59\xff\xff", eof!("bytes", 65535), eof!("ignored-any", 65535)),
    (b"\x5a\x00\x01\x00\x00", eof!("bytes", Big), eof!("ignored-any", Big)),
    (b"\x5a\x00\x01\x00\x00\x00", eof!("bytes", 65535), eof!("ignored-any", 65535)),
    (b"\x5b\xff\xff\xff\xff\xff\xff\xff\xff", eof!("bytes", Big), eof!("ignored-any", Big)),
    (b"\x5b\xff\xff\xff\xff\xff\xff\xff\xff\x00", eof!("bytes", Big), eof!("ignored-any", Big)),
    (b"\x5f\x43\x01", eof!("bytes", 2), eof!("ignored-any", 2)),
    (b"\x5f\x44\x01", eof!("bytes", 3), eof!("ignored-any", 3)),
    (b"\x62\xff", eof!("str", 1), eof!("ignored-any", 1)),
    (b"\x63\x61\x61", eof!("str", 1), eof!("ignored-any", 1)),
    (b"\x78", eof!("str", 1), eof!("ignored-any", 1)),
    (b"\x7a\x86", eof!("str", 4), eof!("ignored-any", 4)),
    (b"\x7b\x7f\xff\xff\xff\xff\xff\xff\xff\x61", eof!("str", Big), eof!("ignored-any", Big)),
    (b"\x7f", eof!("break", 1), eof!("break", 1)),
    (b"\x7f\x61\xff", eof!("break", 1), eof!("break", 1)),
    (b"\x7f\x62\xc3", eof!("str", 1), eof!("ignored-any", 1)),
    // Prefixes of arrays and maps, and of what begins with a greater byte.
    (b"\x81\x62\xff", eof!("str", 1), eof!("ignored-any", 1)),
    (b"\x82\x01\x62\x61", eof!("str", 1), eof!("ignored-any", 1)),
    (b"\x83\x01\x02", eof!("value", 1), eof!("ignored-any", 1)),
    (b"\x8a", eof!("value", 1), eof!("ignored-any", 1)),
    (b"\x98", eof!("array", 1), eof!("ignored-any", 1)),
    (b"\x9a\x00", eof!("array", 4), eof!("ignored-any", 4)),
    (b"\x9a\x00\x00\x01", eof!("array", 4), eof!("ignored-any", 4)),
    (b"\x9b\xff\xff\xff\xff\xff\xff\xff\xff", eof!("value", 1), eof!("ignored-any", 1)),
    (b"\x9f\x01", eof!("break", 1), eof!("break", 1)),
    (b"\x9f\x9f\x00\xff", eof!("break", 1), eof!("break", 1)),
    (b"\xa1", eof!("value", 1), eof!("ignored-any", 1)),
    (b"\xa1\x00", eof!("value", 1), eof!("ignored-any", 1)),
    (b"\xa1\x5f\xff", eof!("value", 1), eof!("ignored-any", 1)),
    (b"\xa2\x00\x01\x02", eof!("value", 1), eof!("ignored-any", 1)),
    (b"\xb9\x00", eof!("map", 2), eof!("ignored-any", 2)),
    (b"\xbb\x80\x00\x00\x00\x00\x00\x00\x00\x00\x00\x00", eof!("value", 1), eof!("ignored-any", 1)),
    (b"\xbb\xff\xff\xff\xff\xff\xff\xff\xff\x00", eof!("value", 1), eof!("ignored-any", 1)),
    (b"\xbf", eof!("break", 1), eof!("break", 1)),
    (b"\xbf\x00", eof!("value", 1), eof!("ignored-any", 1)),
    (b"\xbf\x00\x00\x00", eof!("value", 1), eof!("ignored-any", 1)),
    (b"\xbf\x01", eof!("value", 1), eof!("ignored-any", 1)),
    (b"\xbf\x01\x02\x03", eof!("value", 1), eof!("ignored-any", 1)),
    (b"\xc1", eof!("value", 1), eof!("ignored-any", 1)),
    (b"\xdb\x00\x00\x00\x00\x00\x00\x00", eof!("tag", 8), eof!("tag", 8)),
    (b"\xf9", eof!("f16", 2), eof!("ignored-any", 2)),
    (b"\xf9\x00", eof!("f16", 2), eof!("ignored-any", 1)),
    (b"\xfa", eof!("f32", 4), eof!("ignored-any", 4)),
    (b"\xfa\x00", eof!("f32", 4), eof!("ignored-any", 3)),
    (b"\xfb\x01\x02\x03", eof!("f64", 8), eof!("ignored-any", 5)),
};

// Input that both reject: the error of a value and what it leaves, and the same of skipping.
type Rejected = (
    &'static [u8],
    &'static str,
    &'static [u8],
    &'static str,
    &'static [u8],
);

const REJECTED: &[Rejected] = table! {
    (b"\x1c\x00", mismatch!("u64", 0x1c), b"\x00", SKIPPED_1C, b"\x1c\x00"),
    (b"\x1e", mismatch!("u64", 0x1e), b"", mismatch!("ignored-any", 0x1e), b"\x1e"),
    (b"\x3c\x00", mismatch!("-u64", 0x3c), b"\x00", SKIPPED_3C, b"\x3c\x00"),
    (b"\x3d", mismatch!("-u64", 0x3d), b"", mismatch!("ignored-any", 0x3d), b"\x3d"),
    (b"\x3f", mismatch!("-u64", 0x3f), b"", mismatch!("ignored-any", 0x3f), b"\x3f"),
    (b"\x5c", mismatch!("bytes", 0x5c), b"", mismatch!("ignored-any", 0x5c), b""),
    (b"\x5d", mismatch!("bytes", 0x5d), b"", mismatch!("ignored-any", 0x5d), b""),
    (b"\x5f\x1c\xff", mismatch!("bytes", 0x1c), b"\xff", SKIPPED_1C, b"\x1c\xff"),
    (b"\x5f\x3c\xff", mismatch!("bytes", 0x3c), b"\xff", SKIPPED_3C, b"\x3c\xff"),
    (b"\x5f\x5f\xff", require_length!("bytes"), b"\xff", eof!("break", 1), b""),
    (b"\x5f\x78", mismatch!("bytes", 0x78), b"", eof!("ignored-any", 1), b""),
    (b"\x5f\xdc\xff", mismatch!("bytes", 0xdc), b"\xff", mismatch!("tag", 0xdc), b"\xff"),
    (b"\x5f\xe0\xff", mismatch!("bytes", 0xe0), b"\xff", SKIPPED_E0, b"\xe0\xff"),
    (b"\x7c\x00", mismatch!("str", 0x7c), b"\x00", mismatch!("ignored-any", 0x7c), b"\x00"),
    (b"\x7e\x61", mismatch!("str", 0x7e), b"\x61", mismatch!("ignored-any", 0x7e), b"\x61"),
    (b"\x7f\x01", mismatch!("str", 0x01), b"", eof!("break", 1), b""),
    (b"\x7f\x61\xff\x1c", mismatch!("str", 0x1c), b"", SKIPPED_1C, b"\x1c"),
    (b"\x81\xff", READ_BREAK, b"\xff", SKIPPED_BREAK, b"\xff"),
    (b"\x82\x00\xf3", READ_F3, b"\xf3", SKIPPED_F3, b"\xf3"),
    (b"\x82\x1c\x00", mismatch!("u64", 0x1c), b"\x00", SKIPPED_1C, b"\x1c\x00"),
    (b"\x82\x5c\x00", mismatch!("bytes", 0x5c), b"\x00", mismatch!("ignored-any", 0x5c), b"\x00"),
    (b"\x82\xf7\xff", READ_BREAK, b"\xff", SKIPPED_BREAK, b"\xff"),
    (b"\x9d\x00", mismatch!("array", 0x9d), b"\x00", mismatch!("ignored-any", 0x9d), b"\x00"),
    (b"\x9f\x00\xf8\xff", READ_F8, b"\xf8\xff", SKIPPED_F8, b"\xf8\xff"),
    (b"\x9f\x81\xff\xff", READ_BREAK, b"\xff\xff", SKIPPED_BREAK, b"\xff\xff"),
    (b"\x9f\xc1\xff\xff", READ_BREAK, b"\xff\xff", SKIPPED_BREAK, b"\xff\xff"),
    (b"\xa1\x01\xff", READ_BREAK, b"\xff", SKIPPED_BREAK, b"\xff"),
    (b"\xa1\xff", READ_BREAK, b"\xff", SKIPPED_BREAK, b"\xff"),
    (b"\xb8\x01\xff", READ_BREAK, b"\xff", SKIPPED_BREAK, b"\xff"),
    (b"\xbe\x00", mismatch!("map", 0xbe), b"\x00", mismatch!("ignored-any", 0xbe), b"\x00"),
    (b"\xbf\x00\xff", READ_BREAK, b"\xff", SKIPPED_BREAK, b"\xff"),
    (b"\xbf\x01\x02\x03\xff", READ_BREAK, b"\xff", SKIPPED_BREAK, b"\xff"),
    (b"\xbf\x01\xff", READ_BREAK, b"\xff", SKIPPED_BREAK, b"\xff"),
    (b"\xbf\x5f\xff\xff", READ_BREAK, b"\xff", SKIPPED_BREAK, b"\xff"),
    (b"\xbf\x81\xff\xff", READ_BREAK, b"\xff\xff", SKIPPED_BREAK, b"\xff\xff"),
    (b"\xc1\xdf\x00", mismatch!("tag", 0xdf), b"\x00", mismatch!("tag", 0xdf), b"\x00"),
    (b"\xc1\xff", READ_BREAK, b"\xff", SKIPPED_BREAK, b"\xff"),
    (b"\xdc\x00", mismatch!("tag", 0xdc), b"\x00", mismatch!("tag", 0xdc), b"\x00"),
    (b"\xde", mismatch!("tag", 0xde), b"", mismatch!("tag", 0xde), b""),
    (b"\xe0", unsupported!("value", 0xe0), b"\xe0", SKIPPED_E0, b"\xe0"),
    (b"\xf0", unsupported!("value", 0xf0), b"\xf0", unsupported!("ignored-any", 0xf0), b"\xf0"),
    (b"\xf3", READ_F3, b"\xf3", SKIPPED_F3, b"\xf3"),
    (b"\xf8\x14", READ_F8, b"\xf8\x14", SKIPPED_F8, b"\xf8\x14"),
    (b"\xfd", unsupported!("value", 0xfd), b"\xfd", unsupported!("ignored-any", 0xfd), b"\xfd"),
    (b"\xfe", unsupported!("value", 0xfe), b"\xfe", unsupported!("ignored-any", 0xfe), b"\xfe"),
    (b"\xff", READ_BREAK, b"\xff", SKIPPED_BREAK, b"\xff"),
};

// Items that are no values, and are skipped: the error and what it leaves, and what skipping
// leaves.
type Skipped = (&'static [u8], &'static str, &'static [u8], &'static [u8]);

const SKIPPED: &[Skipped] = table! {
    (b"\x5f\x00\xff", mismatch!("bytes", 0x00), b"\xff", b""),
    (b"\x5f\x41\x01\x61\x62\xff", mismatch!("bytes", 0x61), b"\x62\xff", b""),
    (b"\x5f\x5f\xff\xff", require_length!("bytes"), b"\xff\xff", b""),
    (b"\x5f\x7f\xff\xff", mismatch!("bytes", 0x7f), b"\xff\xff", b""),
    (b"\x5f\x80\xff", mismatch!("bytes", 0x80), b"\xff", b""),
    (b"\x5f\x9f\xff\xff", mismatch!("bytes", 0x9f), b"\xff\xff", b""),
    (b"\x62\xc0\x80", require_utf8!("str"), b"", b""),
    (b"\x62\xff\xff", require_utf8!("str"), b"", b""),
    (b"\x63\xed\xa0\x80", require_utf8!("str"), b"", b""),
    (b"\x64\xf4\x90\x80\x80", require_utf8!("str"), b"", b""),
    (b"\x7f\x41\x61\xff", mismatch!("str", 0x41), b"\x61\xff", b""),
    (b"\x7f\x5f\xff\xff", mismatch!("str", 0x5f), b"\xff\xff", b""),
    (b"\x7f\x61\xc3\xff\x00", require_utf8!("str"), b"\x00", b"\x00"),
    (b"\x7f\x7f\x61\x61\xff\xff", require_length!("str"), b"\x61\x61\xff\xff", b""),
    (b"\x81\x5f\x00\xff", mismatch!("bytes", 0x00), b"\xff", b""),
    (b"\x9f\x62\xff\xff\x00\xff", require_utf8!("str"), b"\x00\xff", b""),
};

// Input that a value and skipping both reject with so many steps: each error and what it leaves.
type RejectedWithin = (
    &'static [u8],
    usize,
    &'static str,
    &'static [u8],
    &'static str,
    &'static [u8],
);

// An indefinite-length byte string in another.
const INDEFINITE_IN_INDEFINITE: &[u8] = b"\x5f\x5f\x00\xff\xff";

// The head of an array of one item, in nine bytes.
const LONG_HEAD: &[u8] = b"\x9b\x00\x00\x00\x00\x00\x00\x00\x01";

const REJECTED_WITHIN: &[RejectedWithin] = table! {
    (b"", 0, no_step!("value"), b"", NO_STEP, b""),
    (b"", 1, eof!("value", 1), b"", eof!("ignored-any", 1), b""),
    (b"\x00", 0, no_step!("value"), b"\x00", NO_STEP, b"\x00"),
    (b"\x1f\xff", 1, mismatch!("u64", 0x1f), b"\xff", mismatch!("ignored-any", 0x1f), b"\x1f\xff"),
    (b"\x3c\x00", 1, mismatch!("-u64", 0x3c), b"\x00", SKIPPED_3C, b"\x3c\x00"),
    (b"\x5f", 1, eof!("break", 1), b"", eof!("break", 1), b""),
    (b"\x5f\x00\xff", 1, no_step!("bytes"), b"\x00\xff", NO_STEP, b"\x00\xff"),
    (b"\x5f\x40\xff", 1, no_step!("bytes"), b"\x40\xff", NO_STEP, b"\x40\xff"),
    (b"\x5f\x41", 1, no_step!("bytes"), b"\x41", NO_STEP, b"\x41"),
    (b"\x5f\x41", 2, eof!("bytes", 1), b"", eof!("ignored-any", 1), b""),
    (b"\x5f\x41\x01\xff", 1, no_step!("bytes"), b"\x41\x01\xff", NO_STEP, b"\x41\x01\xff"),
    (b"\x5f\x5c", 2, mismatch!("bytes", 0x5c), b"", mismatch!("ignored-any", 0x5c), b""),
    (b"\x5f\x5f\xff", 1, no_step!("bytes"), b"\x5f\xff", NO_STEP, b"\x5f\xff"),
    (INDEFINITE_IN_INDEFINITE, 2, require_length!("bytes"), b"\x00\xff\xff", NO_STEP,
        b"\x00\xff\xff"),
    (b"\x5f\x78", 2, mismatch!("bytes", 0x78), b"", eof!("ignored-any", 1), b""),
    (b"\x5f\xff", 0, no_step!("value"), b"\x5f\xff", NO_STEP, b"\x5f\xff"),
    (b"\x7f\x61\x61\xff", 1, no_step!("str"), b"\x61\x61\xff", NO_STEP, b"\x61\x61\xff"),
    (b"\x7f\x61\xc3\x61", 2, eof!("str", 1), b"", eof!("ignored-any", 1), b""),
    (b"\x7f\x78", 1, no_step!("str"), b"\x78", NO_STEP, b"\x78"),
    (b"\x7f\x78", 2, eof!("str", 1), b"", eof!("ignored-any", 1), b""),
    (b"\x81", 2, no_step!("value"), b"", eof!("ignored-any", 1), b""),
    (b"\x81", 3, eof!("value", 1), b"", eof!("ignored-any", 1), b""),
    (b"\x81\x00", 1, no_step!("array"), b"\x81\x00", NO_STEP, b"\x00"),
    (b"\x81\x81\x00", 2, no_step!("value"), b"\x81\x00", NO_STEP, b"\x00"),
    (b"\x82\x00\x00", 1, no_step!("array"), b"\x82\x00\x00", NO_STEP, b"\x00\x00"),
    (b"\x81\xf8\x14", 3, READ_F8, b"\xf8\x14", SKIPPED_F8, b"\xf8\x14"),
    (b"\x81\xf8\x14", 4, READ_F8, b"\xf8\x14", SKIPPED_F8, b"\xf8\x14"),
    (LONG_HEAD, 3, eof!("value", 1), b"", eof!("ignored-any", 1), b""),
    (b"\x9c\x00", 1, no_step!("array"), b"\x9c\x00", mismatch!("ignored-any", 0x9c), b"\x00"),
    (b"\x9c\x00", 2, mismatch!("array", 0x9c), b"\x00", mismatch!("ignored-any", 0x9c), b"\x00"),
    (b"\x9f", 1, no_step!("array"), b"\x9f", eof!("break", 1), b""),
    (b"\x9f", 2, eof!("break", 1), b"", eof!("break", 1), b""),
    (b"\x9f\x00", 2, no_step!("value"), b"\x00", eof!("break", 1), b""),
    (b"\x9f\x00", 3, eof!("break", 1), b"", eof!("break", 1), b""),
    (b"\x9f\x00\xff", 1, no_step!("array"), b"\x9f\x00\xff", NO_STEP, b"\x00\xff"),
    (b"\xa1\x00", 2, no_step!("value"), b"\x00", eof!("ignored-any", 1), b""),
    (b"\xa1\x00", 3, eof!("value", 1), b"", eof!("ignored-any", 1), b""),
    (b"\xa1\x00\x00", 1, no_step!("map"), b"\xa1\x00\x00", NO_STEP, b"\x00\x00"),
    (b"\xbc", 1, no_step!("map"), b"\xbc", mismatch!("ignored-any", 0xbc), b""),
    (b"\xbc", 2, mismatch!("map", 0xbc), b"", mismatch!("ignored-any", 0xbc), b""),
    (b"\xbf", 1, no_step!("map"), b"\xbf", eof!("break", 1), b""),
    (b"\xbf", 2, eof!("break", 1), b"", eof!("break", 1), b""),
    (b"\xbf\x00", 2, no_step!("value"), b"\x00", eof!("ignored-any", 1), b""),
    (b"\xbf\x00", 3, eof!("value", 1), b"", eof!("ignored-any", 1), b""),
    (b"\xbf\x00\x01\xff", 1, no_step!("map"), b"\xbf\x00\x01\xff", NO_STEP, b"\x00\x01\xff"),
    (b"\xbf\x00\xff", 2, no_step!("value"), b"\x00\xff", SKIPPED_BREAK, b"\xff"),
    (b"\xbf\x00\xff", 3, READ_BREAK, b"\xff", SKIPPED_BREAK, b"\xff"),
    (b"\xc1", 1, no_step!("value"), b"", NO_STEP, b""),
    (b"\xc1", 2, eof!("value", 1), b"", eof!("ignored-any", 1), b""),
    (b"\xc1\x00", 1, no_step!("value"), b"\x00", NO_STEP, b"\x00"),
    (b"\xd8", 1, eof!("tag", 1), b"", eof!("tag", 1), b""),
    (b"\xd8\x02\x41", 2, eof!("bytes", 1), b"", eof!("ignored-any", 1), b""),
    (b"\xdc\x00", 0, no_step!("value"), b"\xdc\x00", NO_STEP, b"\xdc\x00"),
    (b"\xdc\x00", 1, mismatch!("tag", 0xdc), b"\x00", mismatch!("tag", 0xdc), b"\x00"),
    (b"\xdf", 1, mismatch!("tag", 0xdf), b"", mismatch!("tag", 0xdf), b""),
    (b"\xf8\xff", 1, READ_F8, b"\xf8\xff", SKIPPED_F8, b"\xf8\xff"),
    (b"\xf9\x00", 1, eof!("f16", 2), b"", eof!("ignored-any", 1), b""),
    (b"\xfc", 1, unsupported!("value", 0xfc), b"\xfc", unsupported!("ignored-any", 0xfc), b"\xfc"),
};

// Items that are no values, and are skipped with so many steps: the error and what it leaves, and
// what skipping leaves.
type SkippedWithin = (
    &'static [u8],
    usize,
    &'static str,
    &'static [u8],
    &'static [u8],
);

const SKIPPED_WITHIN: &[SkippedWithin] = table! {
    (b"\x5f\x7f\xff\xff", 2, mismatch!("bytes", 0x7f), b"\xff\xff", b""),
    (b"\x5f\x7f\xff\xff", 3, mismatch!("bytes", 0x7f), b"\xff\xff", b""),
    (b"\x61\xc3", 1, require_utf8!("str"), b"", b""),
    (b"\x62\xc0\x80\x07", 1, require_utf8!("str"), b"\x07", b"\x07"),
    (b"\x63\xed\xa0\x80", 1, require_utf8!("str"), b"", b""),
    (b"\x64\xf4\x90\x80\x80", 1, require_utf8!("str"), b"", b""),
    (b"\x80", 1, no_step!("array"), b"\x80", b""),
    (b"\x81\x80", 3, no_step!("array"), b"\x80", b""),
    (b"\x81\xc1\x00", 3, no_step!("value"), b"\x00", b""),
    (b"\x9f\x00\xff", 2, no_step!("value"), b"\x00\xff", b""),
    (b"\x9f\xff", 1, no_step!("array"), b"\x9f\xff", b""),
    (b"\xa0", 1, no_step!("map"), b"\xa0", b""),
    (b"\xa1\x00\x00", 2, no_step!("value"), b"\x00\x00", b""),
    (b"\xa1\x00\x81\x00", 3, no_step!("array"), b"\x81\x00", b""),
    (b"\xbf\x00\x00\xff", 2, no_step!("value"), b"\x00\x00\xff", b""),
    (b"\xbf\x00\x01\xff", 2, no_step!("value"), b"\x00\x01\xff", b""),
    (b"\xbf\xff", 1, no_step!("map"), b"\xbf\xff", b""),
};

fn rejects_value(
    alloc: Global,
    bytes: &'static [u8],
    error: &'static str,
    rest: &[u8],
) -> Result<(), Fail> {
    reads::<Item<Value>>(alloc, bytes, Err(error), rest)
}

fn rejects_value_within(
    alloc: Global,
    bytes: &'static [u8],
    limit: usize,
    error: &'static str,
    rest: &[u8],
) -> Result<(), Fail> {
    reads_within::<Item<Value>>(alloc, bytes, limit, &Err(error), rest)
}

fn cuts_off(alloc: Global, rows: &[CutOff]) -> Result<(), Fail> {
    for &(bytes, read, skipped) in rows {
        rejects_value(alloc, bytes, read, b"")?;
        rejects_in_skipping(alloc, bytes, skipped, b"")?;
    }
    Ok(())
}

#[test]
fn cut_off_items(rt: HostRuntime) -> Result<(), Fail> {
    cuts_off(rt.alloc(), CUT_OFF)
}

fn rejects_rows(alloc: Global, rows: &[Rejected]) -> Result<(), Fail> {
    for &(bytes, read, left, skipped, skipped_left) in rows {
        rejects_value(alloc, bytes, read, left)?;
        rejects_in_skipping(alloc, bytes, skipped, skipped_left)?;
    }
    Ok(())
}

#[test]
fn rejected_items(rt: HostRuntime) -> Result<(), Fail> {
    rejects_rows(rt.alloc(), REJECTED)
}

fn skips_rows(alloc: Global, rows: &[Skipped]) -> Result<(), Fail> {
    for &(bytes, read, left, skipped_left) in rows {
        rejects_value(alloc, bytes, read, left)?;
        skips(alloc, bytes, Ok(IgnoredAny), skipped_left)?;
    }
    Ok(())
}

#[test]
fn rejected_and_skipped(rt: HostRuntime) -> Result<(), Fail> {
    skips_rows(rt.alloc(), SKIPPED)
}

fn rejects_rows_within(alloc: Global, rows: &[RejectedWithin]) -> Result<(), Fail> {
    for &(bytes, limit, read, left, skipped, skipped_left) in rows {
        rejects_value_within(alloc, bytes, limit, read, left)?;
        rejects_in_skipping_within(alloc, bytes, limit, skipped, skipped_left)?;
    }
    Ok(())
}

fn skips_rows_within(alloc: Global, rows: &[SkippedWithin]) -> Result<(), Fail> {
    for &(bytes, limit, read, left, skipped_left) in rows {
        rejects_value_within(alloc, bytes, limit, read, left)?;
        skips_within(alloc, bytes, limit, Ok(IgnoredAny), skipped_left)?;
    }
    Ok(())
}

#[test]
fn rejected_within_a_limit(rt: HostRuntime) -> Result<(), Fail> {
    rejects_rows_within(rt.alloc(), REJECTED_WITHIN)
}

#[test]
fn rejected_and_skipped_within_a_limit(rt: HostRuntime) -> Result<(), Fail> {
    skips_rows_within(rt.alloc(), SKIPPED_WITHIN)
}
