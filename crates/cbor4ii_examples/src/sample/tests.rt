//! Rows of a struct that is written part by part.
use crate::recipes::reads_recipe;
use cbor4ii::dec::Source;
use cbor4ii::serde::Deserialize;
use cbor4ii_vectors::{mismatch, no_step, table};
use cbor4ii_vectors_de::typed::{RowShown, RowShownWithin};
use std::test::Fail;

const WITHOUT_NOTE: &str = "Is(Sample { sensor: \"t1\", value: -100, note: None })";

const WITH_NOTE: &str = "Is(Sample { sensor: \"t1\", value: -100, note: Some(\"cold\") })";

const SAMPLES: &[RowShown] = table! {
    // A note that is missing, and fields that are not known.
    (b"\xbf\x65value\x38\x63\x66sensor\x62t1\xff\x01", Ok(WITHOUT_NOTE), b"\x01"),
    (b"\xa4\x64unit\x61K\x66sensor\x62t1\x65value\x38\x63\x64note\x64cold", Ok(WITH_NOTE), b""),
    (b"\xa1\x65value\x38\x63\x01", Ok("Custom(\"a sample has no sensor\")"), b"\x01"),
    (b"\x81\x00", Err(mismatch!("map", 129)), b"\x00"),
    (b"\xa1\x66sensor\x05", Err(mismatch!("str", 5)), b""),
    (b"\xa1\x65value\x61a", Err(mismatch!("i64", 97)), b"\x61a"),
};

const SAMPLES_WITHIN: &[RowShownWithin] = table! {
    (b"\xa0", 0, Err(no_step!("map")), b"\xa0"),
    (b"\xa1\x64note\x60", 1, Err(no_step!("option")), b"\x60"),
};

#[test]
fn fields_may_come_in_any_order(rt: HostRuntime) -> Result<(), Fail> {
    reads_recipe(rt.alloc(), "Sample", SAMPLES, SAMPLES_WITHIN)
}
