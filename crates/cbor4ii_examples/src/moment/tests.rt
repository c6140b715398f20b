//! Rows of a tagged time, alone and as a field of a struct.
use crate::moment::{Claim, Moment};
use crate::recipes::tries_recipe;
use cbor4ii::dec::Source;
use cbor4ii::serde::{Deserialize, described_values_are_read_back};
use cbor4ii_vectors::{eof, mismatch, table};
use cbor4ii_vectors_de::typed::{BothShown, RowShown, comes_back};
use std::test::Fail;

// The first is of RFC 8949, Appendix A.
const MOMENTS: &[BothShown] = table! {
    (b"\xc1\x1a\x51\x4b\x67\xb0", "Is(Moment(1363896240))"),
    (b"\xc1\x00", "Is(Moment(0))"),
    (b"\xc1\x20", "Is(Moment(-1))"),
};

// A head may be longer than need be. The time of Appendix A with a part of a second is a float.
const MOMENTS_READ: &[RowShown] = table! {
    (b"\xd8\x01\x18\x05\x00", Ok("Is(Moment(5))"), b"\x00"),
    (b"\xc0\x05", Ok("Custom(\"expected another tag\")"), b"\x05"),
    (b"\xd9\x01\x01\x05", Ok("Custom(\"expected another tag\")"), b"\x05"),
    (b"\x05\x00", Err(mismatch!("tag", 0x05)), b"\x00"),
    (b"", Err(eof!("tag", 1)), b""),
    (b"\xd9\x01", Err(eof!("tag", 2)), b""),
    (b"\xc1\xfb\x41\xd4\x52\xd9\xec\x20\x00\x00", Err(mismatch!("i64", 0xfb)),
        b"\xfb\x41\xd4\x52\xd9\xec\x20\x00\x00"),
};

#[test]
fn moments_are_written_and_read(rt: HostRuntime) -> Result<(), Fail> {
    tries_recipe(rt.alloc(), "Moment", MOMENTS, MOMENTS_READ, &[])
}

#[test]
fn a_claim_comes_back(rt: HostRuntime) -> Result<(), Fail> {
    comes_back::<Claim>(
        rt.alloc(),
        b"\xa2\x66issuer\x63Ulm\x66issued\xc1\x1a\x51\x4b\x67\xb0",
        "Claim { issuer: \"Ulm\", issued: Moment(1363896240) }",
    )
}

#[test]
fn moments_and_claims_are_read_back(rt: HostRuntime) {
    described_values_are_read_back::<Moment>();
    described_values_are_read_back::<Claim>();
}
