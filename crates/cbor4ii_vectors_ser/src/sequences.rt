//! Rows of vectors.
use crate::tagged::{is_rejected_after, tagged};
use crate::typed::Typed;
use cbor4ii_items::types::Bytes;
use cbor4ii_ser::serialize::Serialize;
use cbor4ii_ser::write_all::to_vec;
use cbor4ii_tree::Value;
use cbor4ii_vectors::repeated::repeated;
use cbor4ii_vectors::rows::writes;
use std::alloc::Global;
use std::test::Fail;

#[test]
fn vectors(rt: HostRuntime) -> Result<(), Fail> {
    let alloc = rt.alloc();
    let items = vec![in alloc; 1u8, 2u8, 3u8]?;
    writes(alloc, &Typed(items), b"\x83\x01\x02\x03")?;
    Ok(())
}

// 5,000 leaves, 0x1388, and as many empty arrays.
#[test]
fn vectors_of_many_items(rt: HostRuntime) -> Result<(), Fail> {
    let alloc = rt.alloc();
    let items = vec![in alloc; 5u8; 5_000]?;
    is_written(
        alloc,
        &items,
        repeated(alloc, b"\x99\x13\x88", b"\x05", 5_000, b"")?,
    )?;
    let items = vec![in alloc; (); 5_000]?;
    is_written(
        alloc,
        &items,
        repeated(alloc, b"\x99\x13\x88", b"\x80", 5_000, b"")?,
    )?;
    let content = vec![in alloc; b'a'; 100_000]?;
    let bytes = repeated(alloc, b"\x5a\x00\x01\x86\xa0", b"a", 100_000, b"")?;
    is_written(alloc, &Bytes(content), bytes)
}

fn is_written<T: Serialize>(alloc: Global, value: &T, bytes: &[u8]) -> Result<(), Fail> {
    if to_vec(Vec::new(alloc), value)?.as_slice() == bytes {
        return Ok(());
    }
    Err(Fail::new(format_args!("other bytes in the place of {}", bytes.len())))
}

// What a vector writes before an item that is rejected.
#[test]
fn what_stands_before_a_tag(rt: HostRuntime) -> Result<(), Fail> {
    let alloc = rt.alloc();
    let items = vec![in alloc; Value::Integer(1), tagged(alloc)?]?;
    is_rejected_after(alloc, items, b"\x82\x01")
}
