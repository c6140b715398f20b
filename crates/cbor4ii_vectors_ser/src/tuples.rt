//! Rows of pairs and triples.
use crate::tagged::{is_rejected_after, tagged};
use crate::typed::Typed;
use cbor4ii_vectors::rows::writes;
use std::test::Fail;

#[test]
fn pairs_and_triples(rt: HostRuntime) -> Result<(), Fail> {
    let alloc = rt.alloc();
    writes(alloc, &Typed((1u8, "a")), b"\x82\x01\x61a")?;
    writes(alloc, &Typed((1u8, "a", false)), b"\x83\x01\x61a\xf4")?;
    Ok(())
}

// What a pair and a triple write before a part that is rejected.
#[test]
fn what_stands_before_a_tag(rt: HostRuntime) -> Result<(), Fail> {
    let alloc = rt.alloc();
    is_rejected_after(alloc, (1u8, tagged(alloc)?), b"\x82\x01")?;
    is_rejected_after(alloc, (1u8, 2u8, tagged(alloc)?), b"\x83\x01\x02")
}
