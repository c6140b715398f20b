//! Whole items that have a tag, which are not written.
use crate::tagged::{is_rejected, is_rejected_after};
use cbor4ii_items::decode::Decode;
use cbor4ii_rw::slice_reader::SliceReader;
use cbor4ii_ser::write_all::to_vec;
use cbor4ii_tree::Value;
use cbor4ii_vectors::table;
use std::alloc::Global;
use std::test::Fail;

// Items with a tag, in an array and as a map's value too, and the text of what they decode to.
const TAGGED: &[(&[u8], &str)] = table! {
    (b"\x81\xc1\x00", "Array([Tag(1, Integer(0))])"),
    (b"\xa1\xf6\xc1\x00", "Map([(Null, Tag(1, Integer(0)))])"),
    (b"\xc1\x00", "Tag(1, Integer(0))"),
};

// The value that the bytes decode to is the one of the text, and is not written.
fn is_not_written(alloc: Global, bytes: &[u8], text: &str) -> Result<(), Fail> {
    let value = Value::decode(alloc, &mut SliceReader::new(bytes))?;
    if format!(in alloc; "{value:?}")?.as_str() != text {
        return Err(Fail::new(format_args!("{value:?} in the place of {text}")));
    }
    is_rejected(to_vec(Vec::new(alloc), &value))?;
    is_rejected_after(alloc, value, b"")
}

fn are_not_written(alloc: Global, rows: &[(&[u8], &str)]) -> Result<(), Fail> {
    for (bytes, text) in rows {
        is_not_written(alloc, bytes, text)?;
    }
    Ok(())
}

#[test]
fn a_tag_is_not_written(rt: HostRuntime) -> Result<(), Fail> {
    are_not_written(rt.alloc(), TAGGED)
}
