//! Rows of a struct that holds types which hold themselves.
use crate::forest::Forest;
use crate::recipes::tries_recipe;
use cbor4ii::dec::Source;
use cbor4ii::serde::{Deserialize, described_values_are_read_back};
use cbor4ii_vectors::{no_step, table};
use cbor4ii_vectors_de::typed::{BothShown, RowShown, RowShownWithin};
use std::test::Fail;

const FOREST: &str = "Is(Forest { name: \"F\", trees: [Tree { id: 1, name: \"a\", children: [\
Tree { id: 2, name: \"\", children: [] }] }], border: Pair(Circle(3), Circle(4)) })";

const FORESTS: &[BothShown] = table! {
    (b"\xa3\x64name\x61F\x65trees\x81\xa3\x62id\x01\x64name\x61a\x68children\x81\
\xa3\x62id\x02\x64name\x60\x68children\x80\x66border\xa1\x64Pair\x82\
\xa1\x66Circle\x03\xa1\x66Circle\x04", FOREST),
};

// A tree and a shape are taken whole where they are rejected.
const OTHERS: &[RowShown] = table! {
    (b"\xbf\x65trees\x9f\xff\x64name\x60\x66border\xbf\x66Circle\x18\x03\xff\xff\x01",
        Ok("Is(Forest { name: \"\", trees: [], border: Circle(3) })"), b"\x01"),
    (b"\xa1\x65trees\x81\x81\x05\x02", Ok("Custom(\"a tree is a map\")"), b"\x02"),
    (b"\xa1\x66border\x81\x05\x02", Ok("Custom(\"a shape is a map of one pair\")"), b"\x02"),
    (b"\xa1\x65trees\x80\x02", Ok("Custom(\"a forest has one name\")"), b"\x02"),
    (b"\xa3\x64name\x60\x65trees\x80\x65trees\x80\x02",
        Ok("Custom(\"a forest has one list of trees\")"), b"\x02"),
};

// The map takes a step, the border's map two, and its number one more.
const WITHIN: &[RowShownWithin] = table! {
    (b"\xa3\x64name\x60\x65trees\x80\x66border\xa1\x66Circle\x03", 4,
        Ok("Is(Forest { name: \"\", trees: [], border: Circle(3) })"), b""),
    (b"\xa3\x64name\x60\x65trees\x80\x66border\xa1\x66Circle\x03", 3,
        Err(no_step!("any")), b"\x66Circle\x03"),
};

#[test]
fn forests_are_written_and_read(rt: HostRuntime) -> Result<(), Fail> {
    tries_recipe(rt.alloc(), "Forest", FORESTS, OTHERS, WITHIN)
}

#[test]
fn forests_are_read_back(rt: HostRuntime) {
    described_values_are_read_back::<Forest>();
}
