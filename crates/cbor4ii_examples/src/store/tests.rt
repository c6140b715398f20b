//! Rows of what a store takes, and of what it rejects.
use crate::store::{StoreError, canonical_bytes, stored_value};
use cbor4ii::Value;
use cbor4ii::error::DecodeError::{Eof, Mismatch, NotCanonical, RequireUtf8};
use cbor4ii::error::Len::Small;
use cbor4ii::error::WholeError::{Decode, Trailing};
use cbor4ii_vectors::table;
use std::test::Fail;

type Encoding = (&'static [u8], &'static [u8]);

// Items, and their canonical encoding.
const ENCODINGS: &[Encoding] = table! {
    (b"\x18\x64", b"\x18\x64"),
    (b"\x19\x00\x64", b"\x18\x64"),
    (b"\x3b\x00\x00\x00\x00\x00\x00\x00\x63", b"\x38\x63"),
    (b"\x9f\x01\x82\x02\x03\x9f\x04\x05\xff\xff", b"\x83\x01\x82\x02\x03\x82\x04\x05"),
    (b"\xbf\x61a\x01\x61b\x9f\x02\x03\xff\xff", b"\xa2\x61a\x01\x61b\x82\x02\x03"),
    (b"\x5f\x42\x01\x02\x43\x03\x04\x05\xff", b"\x45\x01\x02\x03\x04\x05"),
    (b"\x7f\x65strea\x64ming\xff", b"\x69streaming"),
    (b"\xc1\x1b\x00\x00\x00\x00\x51\x4b\x67\xb0", b"\xc1\x1a\x51\x4b\x67\xb0"),
    (b"\xf9\x3c\x00", b"\xf9\x3c\x00"),
    (b"\xf7", b"\xf6"),
    // A bignum is a tag, whose bytes stay as they are.
    (b"\x05", b"\x05"),
    (b"\xc2\x41\x05", b"\xc2\x41\x05"),
    (b"\xc2\x42\x00\x05", b"\xc2\x42\x00\x05"),
    (b"\xc2\x58\x02\x00\x05", b"\xc2\x42\x00\x05"),
};

#[test]
fn an_item_has_one_stored_form(rt: HostRuntime) -> Result<(), Fail> {
    let alloc = rt.alloc();
    for (item, canonical) in ENCODINGS {
        assert_eq!(rt; canonical_bytes(alloc, item)?.as_slice(), *canonical);
        assert_eq!(rt; canonical_bytes(alloc, canonical)?.as_slice(), *canonical);
        stored_value(alloc, canonical)?;
        assert_eq!(rt; stored_value(alloc, item).is_ok(), item == canonical);
    }
    Ok(())
}

#[test]
fn a_stored_value_is_the_item(rt: HostRuntime) -> Result<(), Fail> {
    let value = stored_value(rt.alloc(), b"\x38\x63")?;
    assert_eq!(rt; value, Value::Integer(-100));
    Ok(())
}

type Rejection = (&'static [u8], StoreError);

const NOT_CANONICAL: StoreError = Decode(NotCanonical { name: "canonical" });

const NOT_STORED: &[Rejection] = table! {
    (b"\x18\x05", NOT_CANONICAL),
    (b"\x9f\x01\xff", NOT_CANONICAL),
    (b"\xa1\x61a\x7f\x61b\xff", NOT_CANONICAL),
    (b"\xf7", NOT_CANONICAL),
};

const NO_ITEM: &[Rejection] = table! {
    (b"", Decode(Eof { name: "value", expect: Small(1) })),
    (b"\x82\x01", Decode(Eof { name: "value", expect: Small(1) })),
    (b"\x63ab", Decode(Eof { name: "str", expect: Small(1) })),
    (b"\x62\xff\xff", Decode(RequireUtf8 { name: "str" })),
    (b"\x1c", Decode(Mismatch { name: "u64", found: 0x1c })),
    (b"\x01\x02", Trailing(1)),
    (b"\x82\x01\x02\x03\x04\x05", Trailing(3)),
    (b"\xf6\xff", Trailing(1)),
};

// The row's bytes are rejected as it says.
fn is_rejected<T: Drop>(answer: Result<T, StoreError>, row: &Rejection) -> Result<(), Fail> {
    let (bytes, want) = row;
    match answer.err() {
        Some(error) if error == *want => Ok(()),
        rejection => Err(Fail::new(format_args!("{rejection:?} of {bytes:?}"))),
    }
}

#[test]
fn other_bytes_are_rejected(rt: HostRuntime) -> Result<(), Fail> {
    let alloc = rt.alloc();
    for row in NO_ITEM {
        is_rejected(canonical_bytes(alloc, row.0), row)?;
        is_rejected(stored_value(alloc, row.0), row)?;
    }
    for row in NOT_STORED {
        is_rejected(stored_value(alloc, row.0), row)?;
    }
    Ok(())
}

// An item of RFC 8949, appendix A.
const CUT: &[u8] = b"\x82\x61a\xa1\x61b\x61c";

#[test]
fn an_item_that_is_cut_is_rejected(rt: HostRuntime) -> Result<(), Fail> {
    let alloc = rt.alloc();
    stored_value(alloc, CUT)?;
    for end in 0..CUT.len() {
        match stored_value(alloc, &CUT[..end]) {
            Err(Decode(Eof { .. })) => {}
            _ => return Err(Fail::new(format_args!("{end} bytes are no end"))),
        }
    }
    Ok(())
}
