//! Structs and enums whose fields and variants have names of 1, 23, 24, 255 and 256 bytes. The
//! length of a name stands in the first byte of its head, in the next one, or in the next two.
use crate::made::done;
use crate::typed::LONGEST;
use cbor4ii::serde::{Choice, DecodeError, Deserializer, Optional, Otherwise, Unit};
use cbor4ii_rw::error::{Never, StaticStr};
use cbor4ii_rw::read::Source;
use std::alloc::Global;

const NAMES: [StaticStr; 5] = [
    "a",
    LONGEST,
    "abcdefghijklmnopqrstuvwx",
    IN_ONE_BYTE,
    IN_TWO_BYTES,
];

// 255 letters.
const IN_ONE_BYTE: &str = concat!(
    "nnnnnnnnnnnnnnnnnnnnnnnnnnnnnnnnnnnnnnnnnnnnnnnnnnnnnnnnnnnnnnnn",
    "nnnnnnnnnnnnnnnnnnnnnnnnnnnnnnnnnnnnnnnnnnnnnnnnnnnnnnnnnnnnnnnn",
    "nnnnnnnnnnnnnnnnnnnnnnnnnnnnnnnnnnnnnnnnnnnnnnnnnnnnnnnnnnnnnnnn",
    "nnnnnnnnnnnnnnnnnnnnnnnnnnnnnnnnnnnnnnnnnnnnnnnnnnnnnnnnnnnnnnn",
);

// 256 letters.
const IN_TWO_BYTES: &str = concat!(
    "nnnnnnnnnnnnnnnnnnnnnnnnnnnnnnnnnnnnnnnnnnnnnnnnnnnnnnnnnnnnnnnn",
    "nnnnnnnnnnnnnnnnnnnnnnnnnnnnnnnnnnnnnnnnnnnnnnnnnnnnnnnnnnnnnnnn",
    "nnnnnnnnnnnnnnnnnnnnnnnnnnnnnnnnnnnnnnnnnnnnnnnnnnnnnnnnnnnnnnnn",
    "nnnnnnnnnnnnnnnnnnnnnnnnnnnnnnnnnnnnnnnnnnnnnnnnnnnnnnnnnnnnnnnn",
);

type Number = Option<u8>;

type Fields = (Number, (Number, (Number, (Number, (Number, ())))));

/// Reads a struct of these fields, each a number that may be missing.
pub fn read_fields<S: Source>(
    alloc: Global,
    de: &mut Deserializer<S>,
) -> Result<bool, DecodeError<S::Error>> {
    let presences = (Optional, (Optional, (Optional, (Optional, (Optional, ())))));
    done::<Fields, _>(de.deserialize_fields(alloc, "Fields", &NAMES, &[], presences))
}

type OfFive = Choice<(), Choice<(), Choice<(), Choice<(), Choice<(), Never>>>>>;

/// Reads an enum of these variants, which hold nothing.
pub fn read_variant<S: Source>(
    alloc: Global,
    de: &mut Deserializer<S>,
) -> Result<bool, DecodeError<S::Error>> {
    let cases = (
        Unit,
        (Unit, (Unit, (Unit, (Unit, Otherwise("no such variant"))))),
    );
    done::<OfFive, _>(de.deserialize_variant(alloc, "Variant", &NAMES, cases))
}
