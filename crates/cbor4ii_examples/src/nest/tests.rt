//! Rows of a type that holds values of its own kind.
use crate::nest::Nest;
use crate::recipes::tries_recipe;
use cbor4ii::dec::Source;
use cbor4ii::serde::Deserialize;
use cbor4ii_vectors::{eof, mismatch, no_step, table};
use cbor4ii_vectors_de::typed::{BothShown, RowShown, RowShownWithin, come_back};
use std::test::Fail;

const TWO_LISTS: &str =
    "Is(Nest { inner: [Nest { inner: [] }, Nest { inner: [Nest { inner: [] }] }] })";

const NESTS_BOTH: &[BothShown] = table! {
    (b"\x80", "Is(Nest { inner: [] })"),
    (b"\x82\x80\x81\x80", TWO_LISTS),
};

const NESTS: &[RowShown] = table! {
    (b"\x82\x80\x9f\x80\xff\x01", Ok(TWO_LISTS), b"\x01"),
    (b"\x82\x80\x05\x01", Err(mismatch!("array", 5)), b"\x01"),
    (b"\x9f\x80", Err(eof!("break", 1)), b""),
};

const NESTS_WITHIN: &[RowShownWithin] = table! {
    (b"\x81\x81\x80", 2, Err(no_step!("seq")), b"\x80"),
};

#[test]
fn lists_in_lists_are_written_and_read(rt: HostRuntime) -> Result<(), Fail> {
    tries_recipe(rt.alloc(), "Nest", NESTS_BOTH, NESTS, NESTS_WITHIN)
}

const INSIDE: &[BothShown] = table! {
    (b"\x82\x05\x81\x80", "(5, Some(Nest { inner: [Nest { inner: [] }] }))"),
    (b"\x82\x05\xf6", "(5, None)"),
};

#[test]
fn lists_are_read_inside_other_types(rt: HostRuntime) -> Result<(), Fail> {
    come_back::<(u8, Option<Nest>)>(rt.alloc(), INSIDE)
}
