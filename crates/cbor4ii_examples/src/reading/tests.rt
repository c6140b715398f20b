//! Rows of a struct that is written as an array.
use crate::reading::Reading;
use crate::recipes::tries_recipe;
use cbor4ii::dec::Source;
use cbor4ii::serde::Deserialize;
use cbor4ii_vectors::{eof, mismatch, no_step, require_length, table};
use cbor4ii_vectors_de::typed::{BothShown, RowShown, RowShownWithin, comes_back};
use std::test::Fail;

const NOTED: &str =
    "Is(Reading { sensor: 7, time: 256, mean: -1, note: Some(\"a\"), samples: [] })";

const PLAIN: &str = "Is(Reading { sensor: 0, time: 24, mean: 5, note: None, samples: [4, 500] })";

const READINGS: &[BothShown] = table! {
    (b"\x85\x07\x19\x01\x00\x20\x61a\x80", NOTED),
    (b"\x85\x00\x18\x18\x05\xf6\x82\x04\x19\x01\xf4", PLAIN),
};

// The heads need not be the shortest. Of the array the length has to be definite, of the samples it
// may be indefinite.
const READINGS_READ: &[RowShown] = table! {
    (b"\x98\x05\x18\x00\x18\x18\x05\xf7\x9f\x04\x19\x01\xf4\xff\x01", Ok(PLAIN), b"\x01"),
    // One too few, and one too many.
    (b"\x84\x07\x08\x20\xf6", Err(require_length!("tuple", 4)), b"\x07\x08\x20\xf6"),
    (b"\x86\x07\x08\x20\xf6\x80\x00",
        Err(require_length!("tuple", 6)), b"\x07\x08\x20\xf6\x80\x00"),
    (b"\x9f\x07\x08\x20\xf6\x80\xff", Err(require_length!("tuple")), b"\x07\x08\x20\xf6\x80\xff"),
    (b"\xa0\x00", Err(mismatch!("array", 0xa0)), b"\x00"),
    // In the place of a time, of the samples, and within them.
    (b"\x85\x07\x20\x20\xf6\x80", Err(mismatch!("u32", 0x20)), b"\x20\xf6\x80"),
    (b"\x85\x07\x08\x20\xf6\x60\x01", Err(mismatch!("array", 0x60)), b"\x01"),
    (b"\x85\x07\x08\x20\xf6\x82\x01\x20", Err(mismatch!("u16", 0x20)), b""),
    (b"\x85\x07\x08\x20\xf6\x82\x01", Err(eof!("u16", 1)), b""),
};

const READINGS_WITHIN: &[RowShownWithin] = table! {
    (b"\x85\x07\x08\x20\xf6\x80", 0, Err(no_step!("tuple")), b"\x85\x07\x08\x20\xf6\x80"),
    (b"\x85\x07\x08\x20\x60\x80", 1, Err(no_step!("option")), b"\x60\x80"),
    (b"\x85\x07\x08\x20\xf6\x80", 1, Err(no_step!("seq")), b"\x80"),
    (b"\x85\x00\x18\x18\x05\xf6\x82\x04\x19\x01\xf4", 2, Ok(PLAIN), b""),
};

#[test]
fn readings_are_written_and_read(rt: HostRuntime) -> Result<(), Fail> {
    let alloc = rt.alloc();
    tries_recipe(alloc, "Reading", READINGS, READINGS_READ, READINGS_WITHIN)
}

#[test]
fn a_vector_of_readings_comes_back(rt: HostRuntime) -> Result<(), Fail> {
    comes_back::<Vec<Reading>>(
        rt.alloc(),
        b"\x81\x85\x07\x08\x20\xf6\x81\x01",
        "[Reading { sensor: 7, time: 8, mean: -1, note: None, samples: [1] }]",
    )
}
