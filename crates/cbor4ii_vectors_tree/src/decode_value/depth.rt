//! Rows of items that are nested deep: each level takes steps of the reader, and has to give them
//! back.
use crate::item::Item;
use crate::item_rows::{reads_value, rejects_in_skipping_within, skips_item};
use cbor4ii_tree::{IgnoredAny, Value};
use cbor4ii_vectors::readers::TestReader;
use cbor4ii_vectors::rows::{Pair, ends_at_each_prefix, reads_over, reads_within};
use cbor4ii_vectors::{no_step, table};
use std::alloc::{AllocError, Global};
use std::test::Fail;

const NO_STEP: &str = no_step!("ignored-any");

// So many heads, and what follows them: the error of a value, how many bytes it leaves, and
// how many are left where skipping is rejected.
type Rejected = (u8, usize, &'static [u8], &'static str, usize, Option<usize>);

const REJECTED: &[Rejected] = table! {
    (0x81, 128, b"\x80", no_step!("value"), 1, None),
    (0x81, 255, b"\x80", no_step!("value"), 128, None),
    (0x81, 256, b"\x80", no_step!("value"), 129, Some(1)),
    (0x81, 256, b"\x00", no_step!("value"), 129, Some(1)),
    (0xc1, 255, b"\x80", no_step!("array"), 1, None),
    (0xc1, 255, b"\x7f\x61\x61\xff", no_step!("str"), 3, Some(3)),
    (0xc1, 256, b"\x00", no_step!("value"), 1, Some(1)),
    (0x81, 10000, b"", no_step!("value"), 9872, Some(9744)),
    (0x9f, 10000, b"", no_step!("value"), 9872, Some(9744)),
};

// A head so many times, and then an item. The bytes stay for good.
fn nested(alloc: Global, head: u8, count: usize, item: &[u8]) -> Result<&'static [u8], AllocError> {
    let mut bytes = vec![in alloc; head; count]?;
    bytes.extend_from_slice(item)?;
    Ok(bytes.leak())
}

// An empty array, in so many arrays of one item.
fn arrays(alloc: Global, count: usize) -> Result<Value, AllocError> {
    let mut value = Value::Array(Vec::new(alloc));
    for _ in 0..count {
        value = Value::Array(vec![in alloc; value]?);
    }
    Ok(value)
}

// 0, under tag 1 so many times.
fn tags(alloc: Global, count: usize) -> Result<Value, AllocError> {
    let mut value = Value::Integer(0);
    for _ in 0..count {
        value = Value::Tag(1, Box::new(alloc, value)?);
    }
    Ok(value)
}

fn rejects(
    alloc: Global,
    bytes: &'static [u8],
    error: &'static str,
    rest: &[u8],
) -> Result<(), Fail> {
    reads_within::<Item<Value>>(alloc, bytes, 256, &Err(error), rest)
}

fn rejects_rows(alloc: Global, rows: &[Rejected]) -> Result<(), Fail> {
    for &(head, count, item, read, left, skipped) in rows {
        let bytes = nested(alloc, head, count, item)?;
        rejects(alloc, bytes, read, end(bytes, left)?)?;
        match skipped {
            None => skips_item(alloc, bytes, 256)?,
            Some(left) => rejects_in_skipping_within(
                alloc,
                bytes,
                256,
                NO_STEP,
                end(bytes, left)?,
            )?,
        }
    }
    Ok(())
}

#[test]
fn too_deep_items_are_rejected(rt: HostRuntime) -> Result<(), Fail> {
    rejects_rows(rt.alloc(), REJECTED)
}

// So many bytes at the end of these.
fn end(bytes: &[u8], left: usize) -> Result<&[u8], Fail> {
    Ok(
        bytes
            .get(bytes.len().saturating_sub(left)..)
            .ok_or("no rest")?,
    )
}

#[test]
fn all_steps_taken(rt: HostRuntime) -> Result<(), Fail> {
    let alloc = rt.alloc();
    reads_arrays(alloc, 127)?;
    reads_tags(alloc, 255)
}

fn reads_arrays(alloc: Global, count: usize) -> Result<(), Fail> {
    let bytes = nested(alloc, 0x81, count, b"\x80")?;
    reads_value(alloc, bytes, 256, arrays(alloc, count)?)
}

fn reads_tags(alloc: Global, count: usize) -> Result<(), Fail> {
    let bytes = nested(alloc, 0xc1, count, b"\x00")?;
    reads_value(alloc, bytes, 256, tags(alloc, count)?)
}

type Three = Pair<Item<Value>, Pair<Item<Value>, Item<Value>>>;

// 1,000 arrays and one that is empty, and then 0 and null.
fn deep(alloc: Global) -> Result<Three, AllocError> {
    let deep = arrays(alloc, 1000)?;
    let after = Pair(Item(Value::Integer(0)), Item(Value::Null));
    Ok(Pair(Item(deep), after))
}

#[test]
fn greatest_limit_and_none(rt: HostRuntime) -> Result<(), Fail> {
    let alloc = rt.alloc();
    let bytes = nested(alloc, 0x81, 1000, b"\x80\x00\xf6")?;
    let want = Ok(deep(alloc)?);
    reads_within(alloc, bytes, usize::MAX, &want, b"")?;
    reads_over(alloc, &mut TestReader::unlimited(bytes), bytes, &want, b"")
}

#[test]
fn prefixes_of_a_thousand_arrays(rt: HostRuntime) -> Result<(), Fail> {
    let alloc = rt.alloc();
    let bytes = nested(alloc, 0x81, 1000, b"\x80")?;
    ends_at_each_prefix::<Item<Value>>(alloc, bytes, usize::MAX)?;
    ends_at_each_prefix::<Item<IgnoredAny>>(alloc, bytes, usize::MAX)
}
