//! Rows of a struct whose keys are integers.
use crate::cose_key::CoseKey;
use crate::recipes::tries_recipe;
use cbor4ii::dec::Source;
use cbor4ii::serde::{Deserialize, described_values_are_read_back};
use cbor4ii_vectors::{mismatch, table};
use cbor4ii_vectors_de::typed::{BothShown, RowShown};
use std::test::Fail;

// The second has the public key of RFC 8032 section 7.1, test 1, for EdDSA, which is -8.
const KEYS_BOTH: &[BothShown] = table! {
    (b"\xa3\x01\x01\x20\x06\x21\x42\xab\xcd",
        "Is(CoseKey { kty: 1, alg: None, crv: 6, x: Bytes([171, 205]) })"),
    (b"\xa4\x01\x01\x03\x27\x20\x06\x21\x58\x20\
\xd7\x5a\x98\x01\x82\xb1\x0a\xb7\xd5\x4b\xfe\xd3\xc9\x64\x07\x3a\
\x0e\xe1\x72\xf3\xda\xa6\x23\x25\xaf\x02\x1a\x68\xf7\x07\x51\x1a",
        "Is(CoseKey { kty: 1, alg: Some(-8), crv: 6, x: Bytes([215, 90, 152, 1, 130, 177, 10, 183, \
213, 75, 254, 211, 201, 100, 7, 58, 14, 225, 114, 243, 218, 166, 35, 37, 175, 2, 26, 104, 247, 7, \
81, 26]) })"),
};

// A kid (2) and a text are skipped, and a key may have a longer head.
const KEYS: &[RowShown] = table! {
    (b"\xa5\x21\x41\x05\x02\x41\x06\x61k\x80\x38\x00\x06\x18\x01\x02",
        Ok("Is(CoseKey { kty: 2, alg: None, crv: 6, x: Bytes([5]) })"), b""),
    (b"\xa2\x01\x01\x20\x06\x00", Ok("Custom(\"a key has one x\")"), b"\x00"),
    (b"\xa4\x01\x01\x20\x06\x20\x06\x21\x40\x00", Ok("Custom(\"a key has one crv\")"), b"\x00"),
    (b"\xa5\x01\x01\x03\x27\x20\x06\x21\x40\x03\x27\x00", Ok("Custom(\"a key has one alg\")"),
        b"\x00"),
    (b"\xa1\x01\x61a\x00", Err(mismatch!("i64", 0x61)), b"\x61a\x00"),
};

#[test]
fn keys_are_written_and_read(rt: HostRuntime) -> Result<(), Fail> {
    tries_recipe(rt.alloc(), "CoseKey", KEYS_BOTH, KEYS, &[])
}

#[test]
fn a_key_comes_back(rt: HostRuntime) -> Result<(), Fail> {
    described_values_are_read_back::<CoseKey>();
    Ok(())
}
