//! Rows of a newtype.
use crate::meters::Meters;
use crate::recipes::tries_recipe;
use cbor4ii::dec::Source;
use cbor4ii::serde::Deserialize;
use cbor4ii_vectors::{mismatch, table};
use cbor4ii_vectors_de::typed::{BothShown, RowShown, comes_back};
use std::test::Fail;

const LENGTHS: &[BothShown] = table! {
    (b"\x17", "Is(Meters(23))"),
    (b"\x19\x01\xf4", "Is(Meters(500))"),
};

const LENGTHS_REJECTED: &[RowShown] = table! {
    (b"\x20", Err(mismatch!("u32", 32)), b""),
};

#[test]
fn lengths_are_written_and_read(rt: HostRuntime) -> Result<(), Fail> {
    tries_recipe(rt.alloc(), "Meters", LENGTHS, LENGTHS_REJECTED, &[])
}

#[test]
fn a_vector_of_lengths_comes_back(rt: HostRuntime) -> Result<(), Fail> {
    comes_back::<Vec<Meters>>(rt.alloc(), b"\x82\x00\x17", "[Meters(0), Meters(23)]")
}
