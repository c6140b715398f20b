//! Errors in words for a person.
use cbor4ii_rw::error::ArithmeticOverflow::Overflow;
use cbor4ii_rw::error::DecodeError as Error;
use cbor4ii_rw::error::DecodeError::{
    CastOverflow, Custom, DepthOverflow, Eof, LengthOverflow, Mismatch, NotCanonical, OutOfMemory,
    Read, RequireBorrowed, RequireLength, RequireUtf8, Unsupported,
};
use cbor4ii_rw::error::Len::{Big, Indefinite, Small};
use cbor4ii_vectors::compared::same;
use cbor4ii_vectors::table;
use std::fmt::InlineText;
use std::test::Fail;

const CUT: &str = "the input ends within str, of which 2 bytes are wanted";

const LONG_CUT: &str = "the input ends within str, of which more than 65535 bytes are wanted";

const EXPLAINED: &[(Error<u8>, &str)] = table! {
    (Read(3), "the reader failed: 3"),
    (Mismatch { name: "str", found: 5 }, "expected str, found the byte 0x05"),
    (Unsupported { name: "value", found: 255 }, "the byte 0xff begins no value"),
    (Eof { name: "str", expect: Small(2) }, CUT),
    (Eof { name: "str", expect: Big }, LONG_CUT),
    (RequireLength { name: "tuple", found: Small(3) }, "tuple of another length: 3"),
    (RequireLength { name: "str", found: Indefinite }, "str of another length: indefinite"),
    (RequireBorrowed { name: "raw-value" }, "raw-value is not lent in one piece"),
    (RequireUtf8 { name: "str" }, "str is not UTF-8"),
    (LengthOverflow { name: "bytes", found: Big }, "bytes is too long: more than 65535"),
    (CastOverflow { name: "i8" }, "the number does not fit i8"),
    (Error::ArithmeticOverflow { name: "a", ty: Overflow }, "a computation of a left its range"),
    (DepthOverflow { name: "map" }, "map is nested too deep"),
    (Custom { name: "mine", num: 7 }, "mine: 7"),
    (OutOfMemory, "there is no memory for the value"),
    (NotCanonical { name: "canonical" }, "the encoding is not the canonical one"),
};

fn is_explained(error: &Error<u8>, words: &str) -> Result<(), Fail> {
    let line = InlineText::<96>::of(error.explain());
    same(line.as_str(), words)
}

#[test]
fn errors_are_explained() -> Result<(), Fail> {
    for (error, words) in EXPLAINED {
        is_explained(error, words)?;
    }
    Ok(())
}
