//! Rows of maps, which are written in the order of their keys.
use crate::tagged::{is_rejected_after, tagged};
use crate::typed::Typed;
use cbor4ii_vectors::rows::writes;
use std::alloc::{AllocError, Global};
use std::collections::BTreeMap;
use std::test::Fail;

// A map in a map, whose keys do not come in their order.
fn map_of_maps(alloc: Global) -> Result<BTreeMap<u8, BTreeMap<&'static str, u8>>, AllocError> {
    let mut inner = BTreeMap::new(alloc);
    inner.insert("b", 2u8)?;
    inner.insert("a", 1u8)?;
    let mut outer = BTreeMap::new(alloc);
    outer.insert(7u8, inner)?;
    Ok(outer)
}

const MAP_OF_MAPS: &[u8] = b"\xa1\x07\xa2\x61a\x01\x61b\x02";

#[test]
fn maps_in_the_order_of_their_keys(rt: HostRuntime) -> Result<(), Fail> {
    let alloc = rt.alloc();
    writes(alloc, &Typed(map_of_maps(alloc)?), MAP_OF_MAPS)?;
    Ok(())
}

// What a map writes before a value that is rejected.
#[test]
fn what_stands_before_a_tag(rt: HostRuntime) -> Result<(), Fail> {
    let alloc = rt.alloc();
    let mut map = BTreeMap::new(alloc);
    map.insert(1u8, tagged(alloc)?)?;
    is_rejected_after(alloc, map, b"\xa1\x01")
}
