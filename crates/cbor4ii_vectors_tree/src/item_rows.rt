//! How whole items are tried: read, written, skipped, kept, and cut off.
//!
//! Each of these is proved once, so that a test which calls it asks nothing of what is read.
use crate::item::Item;
use crate::literal::Literal;
use cbor4ii_rw::slice_reader::SliceReader;
use cbor4ii_tree::{BoxedRawValue, Canonical, IgnoredAny, RawValue, Value};
use cbor4ii_vectors::items::Lent;
use cbor4ii_vectors::readers::TestReader;
use cbor4ii_vectors::rows::{
    Want, ends_at_each_prefix, lends_none, reads, reads_over, reads_within, writes,
};
use std::alloc::Global;
use std::test::Fail;

/// The item is read as this value with so many steps and with no limit, and as a copy of it, and it
/// is skipped. Each proper prefix of it is the end of the input.
pub fn reads_item(
    alloc: Global,
    item: &'static [u8],
    limit: usize,
    literal: &Literal,
) -> Result<(), Fail> {
    reads_value(alloc, item, limit, literal.to_value(alloc)?)
}

/// The item is read as this built value, with so many steps and with no limit, and as its copy. It
/// is also skipped, and each proper prefix of it is the end of the input.
pub fn reads_value(
    alloc: Global,
    item: &'static [u8],
    limit: usize,
    value: Value,
) -> Result<(), Fail> {
    reads_copy(alloc, item, limit, value.try_clone()?)?;
    let want = Ok(Item(value));
    reads_within(alloc, item, limit, &want, b"")?;
    reads_over(alloc, &mut TestReader::unlimited(item), item, &want, b"")?;
    ends_at_each_prefix::<Item<Value>>(alloc, item, limit)?;
    skips_item(alloc, item, limit)
}

fn reads_copy(alloc: Global, item: &[u8], limit: usize, copy: Value) -> Result<(), Fail> {
    let mut slice = SliceReader::with_limit(item, limit);
    reads_over(alloc, &mut slice, item, &Ok(Item(copy)), b"")
}

/// The item is read as this value, and the value is written as these bytes.
pub fn reads_and_writes(
    alloc: Global,
    item: &'static [u8],
    literal: &Literal,
    written: &[u8],
) -> Result<(), Fail> {
    reads_item(alloc, item, 256, literal)?;
    writes_value(alloc, literal, written)?;
    Ok(())
}

/// The value is written as these bytes. Answers in how many pushes.
pub fn writes_value(alloc: Global, literal: &Literal, written: &[u8]) -> Result<usize, Fail> {
    writes(alloc, &literal.to_value(alloc)?, written)
}

/// The item is the one encoding that is read as this value where no other is.
pub fn reads_canonical(alloc: Global, item: &'static [u8], literal: &Literal) -> Result<(), Fail> {
    let value = Canonical(literal.to_value(alloc)?);
    reads(alloc, item, Ok(Item(value)), b"")?;
    ends_at_each_prefix::<Item<Canonical>>(alloc, item, 256)
}

/// The item is skipped with so many steps, and with no limit. Each proper prefix of it is the end
/// of the input.
pub fn skips_item(alloc: Global, item: &'static [u8], limit: usize) -> Result<(), Fail> {
    let want = Ok(Item(IgnoredAny));
    reads_within(alloc, item, limit, &want, b"")?;
    let mut unlimited = TestReader::unlimited(item);
    reads_over(alloc, &mut unlimited, item, &want, b"")?;
    ends_at_each_prefix::<Item<IgnoredAny>>(alloc, item, limit)
}

/// What begins the bytes is skipped, with 256 steps and with no limit, or that is rejected.
pub fn skips(
    alloc: Global,
    bytes: &'static [u8],
    want: Want<IgnoredAny>,
    rest: &[u8],
) -> Result<(), Fail> {
    reads(alloc, bytes, want.map(|any| Item(any)), rest)
}

/// What begins the bytes is skipped with so many steps, or that is rejected.
pub fn skips_within(
    alloc: Global,
    bytes: &'static [u8],
    limit: usize,
    want: Want<IgnoredAny>,
    rest: &[u8],
) -> Result<(), Fail> {
    reads_within(alloc, bytes, limit, &want.map(|any| Item(any)), rest)
}

/// Skipping is rejected, and with it an item that is kept, of which nothing is taken.
pub fn rejects_in_skipping(
    alloc: Global,
    bytes: &'static [u8],
    error: &'static str,
    rest: &[u8],
) -> Result<(), Fail> {
    skips(alloc, bytes, Err(error), rest)?;
    keeps_none(alloc, bytes, 256, error)
}

/// With so many steps skipping is rejected, and so is an item that is kept: nothing of it is taken.
pub fn rejects_in_skipping_within(
    alloc: Global,
    bytes: &'static [u8],
    limit: usize,
    error: &'static str,
    rest: &[u8],
) -> Result<(), Fail> {
    skips_within(alloc, bytes, limit, Err(error), rest)?;
    keeps_none(alloc, bytes, limit, error)
}

// An item that is kept as its bytes, lent or copied, is rejected as skipping rejects it. Nothing is
// taken, also where the reader fails.
fn keeps_none(
    alloc: Global,
    bytes: &'static [u8],
    limit: usize,
    error: &'static str,
) -> Result<(), Fail> {
    lends_none::<Lent<RawValue>>(alloc, bytes, limit, error)?;
    lends_none::<Lent<BoxedRawValue>>(alloc, bytes, limit, error)
}
