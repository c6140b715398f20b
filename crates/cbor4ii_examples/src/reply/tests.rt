//! Rows of a struct of which a field is left out where it is none.
use crate::recipes::tries_recipe;
use cbor4ii::dec::Source;
use cbor4ii::serde::Deserialize;
use cbor4ii_vectors::{mismatch, table};
use cbor4ii_vectors_de::typed::{BothShown, RowShown};
use std::test::Fail;

const REPLIES_BOTH: &[BothShown] = table! {
    (b"\xa1\x66status\x18\xc8", "Is(Reply { status: 200, reason: None, retry: None })"),
    (b"\xa2\x66status\x05\x66reason\x61a",
        "Is(Reply { status: 5, reason: Some(\"a\"), retry: None })"),
    (b"\xa2\x66status\x05\x65retry\x18\x1e",
        "Is(Reply { status: 5, reason: None, retry: Some(30) })"),
    (b"\xa3\x66status\x05\x66reason\x60\x65retry\x00",
        "Is(Reply { status: 5, reason: Some(\"\"), retry: Some(0) })"),
};

// A reason may come first, and is no null.
const REPLIES: &[RowShown] = table! {
    (b"\xa2\x66reason\x60\x66status\x05",
        Ok("Is(Reply { status: 5, reason: Some(\"\"), retry: None })"), b""),
    (b"\xa2\x66reason\xf6\x66status\x05", Err(mismatch!("str", 0xf6)), b"\x66status\x05"),
    (b"\xa0\x01", Ok("Custom(\"a reply has one status\")"), b"\x01"),
    // Of several retries the last counts; the status and the reason come once.
    (b"\xa3\x65retry\x01\x66status\x05\x65retry\x02\x00",
        Ok("Is(Reply { status: 5, reason: None, retry: Some(2) })"), b"\x00"),
    (b"\xa2\x66status\x05\x66status\x05\x00", Ok("Custom(\"a reply has one status\")"), b"\x00"),
    (b"\xa3\x66reason\x60\x66status\x05\x66reason\x60\x00",
        Ok("Custom(\"a reply has one reason\")"), b"\x00"),
};

#[test]
fn a_field_is_left_out_where_it_is_none(rt: HostRuntime) -> Result<(), Fail> {
    tries_recipe(rt.alloc(), "Reply", REPLIES_BOTH, REPLIES, &[])
}
