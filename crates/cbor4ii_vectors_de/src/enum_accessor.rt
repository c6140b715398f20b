//! What is read by the accessor of variants.
use crate::typed::{Got, TypedCalls, calls, no_call, shows};
use cbor4ii::serde::{DecodeError, Deserialize, Deserializer};
use cbor4ii_rw::read::Source;
use cbor4ii_vectors::rows::{Called, CalledWithin};
use cbor4ii_vectors::{eof, mismatch, no_step, require_length, table};
use std::alloc::Global;
use std::test::Fail;

/// The content of the variant A of an enum, by its kind, and a variant of which not even the name
/// was read.
struct Variants;

impl TypedCalls for Variants {
    fn make<S: Source>(name: &str, alloc: Global, de: &mut Deserializer<S>) -> Got<String, S> {
        let mut variant = de.deserialize_enum("Enum", &["A"])?;
        if name == "unread" {
            return shows(alloc, ());
        }
        let found: String = variant.variant(alloc)?;
        if found.as_str() != "A" {
            return Err(DecodeError::Custom("another variant"));
        }
        match name {
            "unit" => shows(alloc, variant.unit_variant()?),
            "newtype" => shows::<u8, _>(alloc, variant.newtype_variant(alloc)?),
            "tuple" => {
                let mut items = variant.tuple_variant(2)?;
                let first: Option<u8> = items.next_element(alloc)?;
                let second: Option<u8> = items.next_element(alloc)?;
                shows(alloc, (first, second))
            }
            "struct" => {
                let entry: Option<(u8, u8)> = variant.struct_variant()?.next_entry(alloc)?;
                shows(alloc, entry)
            }
            "lent" => shows(alloc, u8::deserialize(alloc, variant.content()?)?),
            // The content is opened and not read.
            "opened" => {
                variant.tuple_variant(2)?;
                shows(alloc, ())
            }
            _ => no_call(),
        }
    }
}

const READ: &[Called] = table! {
    ("unit", b"", Err(eof!("enum", 1)), b""),
    ("unit", b"\xa2\x61A", Err(mismatch!("enum", 0xa2)), b"\xa2\x61A"),
    ("unit", b"\xbf\x61A", Err(mismatch!("enum", 0xbf)), b"\xbf\x61A"),
    ("unit", b"\x61B\x01", Ok("Custom(\"another variant\")"), b"\x01"),
    ("unit", b"\xa1\x61A\x01", Err(mismatch!("enum", 0xa1)), b"\x01"),
    ("newtype", b"\x61A\x01", Err(mismatch!("enum", 0x61)), b"\x01"),
    ("lent", b"\xa1\x61A\x05\x06", Ok("5"), b"\x06"),
    ("lent", b"\x61A\x05", Err(mismatch!("enum", 0x61)), b"\x05"),
    ("opened", b"\xa1\x61A\x82\x05\x06", Ok("()"), b"\x05\x06"),
    ("unread", b"\x61A", Ok("()"), b"\x61A"),
};

const WITHIN: &[CalledWithin] = table! {
    ("unit", b"\x61A", 0, Err(no_step!("enum")), b"\x61A"),
    ("unit", b"\x61A\x01", 1, Ok("()"), b"\x01"),
    ("unit", b"\x7f\x61A\xff", 1, Err(no_step!("str")), b"\x61A\xff"),
    ("unit", b"\x7f\x61A\xff", 2, Ok("()"), b""),
    // That the content has another form is said before a step for it is asked.
    ("unit", b"\xa1\x61A\x01", 1, Err(mismatch!("enum", 0xa1)), b"\x01"),
    ("newtype", b"\xa1\x61A\x05\x06", 1, Ok("5"), b"\x06"),
    ("newtype", b"\x61A\x01", 1, Err(mismatch!("enum", 0x61)), b"\x01"),
    ("newtype", b"\xa1\x61A\x20", 1, Err(mismatch!("u8", 0x20)), b""),
    ("tuple", b"\xa1\x61A\x82\x05\x06\x07", 2, Ok("(Some(5), Some(6))"), b"\x07"),
    ("tuple", b"\xa1\x61A\x82\x05\x06\x07", 1, Err(no_step!("tuple")), b"\x82\x05\x06\x07"),
    ("tuple", b"\xa1\x61A\x81\x05", 2, Err(require_length!("tuple", 1)), b"\x05"),
    ("tuple", b"\x61A\x01", 1, Err(mismatch!("enum", 0x61)), b"\x01"),
    ("struct", b"\xa1\x61A\xbf\x05\x06\xff", 2, Ok("Some((5, 6))"), b"\xff"),
    ("struct", b"\xa1\x61A\xbf\x05\x06\xff", 1, Err(no_step!("map")), b"\xbf\x05\x06\xff"),
    ("struct", b"\x61A\x01", 1, Err(mismatch!("enum", 0x61)), b"\x01"),
};

#[test]
fn contents_of_variants(rt: HostRuntime) -> Result<(), Fail> {
    calls::<Variants>(rt.alloc(), READ, WITHIN)
}
