//! Rows of a newtype with a test.
use crate::percent::Percent;
use crate::recipes::tries_recipe;
use cbor4ii::dec::Source;
use cbor4ii::serde::{Deserialize, described_values_are_read_back};
use cbor4ii_vectors::{eof, mismatch, table};
use cbor4ii_vectors_de::typed::{BothShown, RowShown, comes_back};
use std::test::Fail;

const PERCENTS: &[BothShown] = table! {
    (b"\x00", "Is(Percent { value: 0 })"),
    (b"\x18\x63", "Is(Percent { value: 99 })"),
    (b"\x18\x64", "Is(Percent { value: 100 })"),
};

const ABOVE: &str = "Custom(\"a percent is at most 100\")";

// The whole number is taken, and what follows it stays.
const NO_PERCENTS: &[RowShown] = table! {
    (b"\x18\x65", Ok(ABOVE), b""),
    (b"\x18\xff\x00", Ok(ABOVE), b"\x00"),
    (b"\x18\x05\x00", Ok("Is(Percent { value: 5 })"), b"\x00"),
    // What is no u8 is rejected as one.
    (b"\x20", Err(mismatch!("u8", 0x20)), b""),
    (b"\x19\x00\x64", Err(mismatch!("u8", 0x19)), b"\x00\x64"),
    (b"", Err(eof!("u8", 1)), b""),
};

#[test]
fn percents_are_written_and_read(rt: HostRuntime) -> Result<(), Fail> {
    tries_recipe(rt.alloc(), "Percent", PERCENTS, NO_PERCENTS, &[])
}

#[test]
fn a_vector_of_percents_comes_back(rt: HostRuntime) -> Result<(), Fail> {
    let text = "[Percent { value: 0 }, Percent { value: 100 }]";
    comes_back::<Vec<Percent>>(rt.alloc(), b"\x82\x00\x18\x64", text)
}

#[test]
fn the_law_is_called(rt: HostRuntime) -> Result<(), Fail> {
    described_values_are_read_back::<Percent>();
    described_values_are_read_back::<Vec<Percent>>();
    Ok(())
}
