//! Names of fields and variants: what they ask of a reader.
use crate::asked::{Row, asks_no_more_than, asks_rows};
use crate::typed::{By, Got, TypedCalls, calls, no_call, shows};
use cbor4ii::serde::{Choice, DecodeError, Deserializer, Holds, Optional, Otherwise, Unit};
use cbor4ii_rw::error::{Never, StaticStr};
use cbor4ii_rw::read::Source;
use cbor4ii_vectors::rows::Called;
use cbor4ii_vectors::table;
use std::alloc::Global;
use std::test::Fail;

// Names of 1, 23, 24, 255 and 256 letters.
const NAMES: [StaticStr; 5] = [
    "n",
    "nnnnnnnnnnnnnnnnnnnnnnn",
    "nnnnnnnnnnnnnnnnnnnnnnnn",
    concat!(
        "nnnnnnnnnnnnnnnnnnnnnnnnnnnnnnnnnnnnnnnnnnnnnnnnnnnnnnnnnnnnnnnn",
        "nnnnnnnnnnnnnnnnnnnnnnnnnnnnnnnnnnnnnnnnnnnnnnnnnnnnnnnnnnnnnnnn",
        "nnnnnnnnnnnnnnnnnnnnnnnnnnnnnnnnnnnnnnnnnnnnnnnnnnnnnnnnnnnnnnnn",
        "nnnnnnnnnnnnnnnnnnnnnnnnnnnnnnnnnnnnnnnnnnnnnnnnnnnnnnnnnnnnnnn",
    ),
    concat!(
        "nnnnnnnnnnnnnnnnnnnnnnnnnnnnnnnnnnnnnnnnnnnnnnnnnnnnnnnnnnnnnnnn",
        "nnnnnnnnnnnnnnnnnnnnnnnnnnnnnnnnnnnnnnnnnnnnnnnnnnnnnnnnnnnnnnnn",
        "nnnnnnnnnnnnnnnnnnnnnnnnnnnnnnnnnnnnnnnnnnnnnnnnnnnnnnnnnnnnnnnn",
        "nnnnnnnnnnnnnnnnnnnnnnnnnnnnnnnnnnnnnnnnnnnnnnnnnnnnnnnnnnnnnnnn",
    ),
];

// A name of 255 bytes with its head: no look asks for more because more may be asked for.
const NAME: usize = 257;

/// A struct of five fields, of which one came.
#[derive(Debug, Drop)]
struct Five(u8);

// The head of the map, the name, and a number. Names of no, of 254 and of 300 letters are those of
// no field: one look skips the number after them.
const FIELDS: &[Row] = table! {
    (b"\xa1\x60", b"", 0, b"\x05", 1, (3, 3), (3, 3)),
    (b"\xa1\x61", b"n", 1, b"\x05", 2, (4, 6), (3, 5)),
    (b"\xa1\x77", b"n", 23, b"\x05", 24, (4, 28), (3, 27)),
    (b"\xa1\x78\x18", b"n", 24, b"\x05", 26, (5, 32), (3, 30)),
    (b"\xa1\x78\xfe", b"n", 254, b"\x05", 256, (5, 262), (3, 260)),
    (b"\xa1\x78\xff", b"n", 255, b"\x05", 255, (7, 263), (3, 261)),
    (b"\xa1\x79\x01\x00", b"n", 256, b"\x05", 256, (6, 264), (5, 263)),
    (b"\xa1\x79\x01\x2c", b"n", 300, b"\x05", 300, (6, 308), (5, 307)),
    // The length in more bytes than need be, and in chunks.
    (b"\xa1\x78\x01", b"n", 1, b"\x05", 3, (5, 9), (3, 7)),
    (b"\xa1\x7f", b"\x61n", 24, b"\xff\x05", 1, (78, 78), (78, 78)),
};

#[test]
fn looks_for_names_of_fields(rt: HostRuntime) -> Result<(), Fail> {
    let alloc = rt.alloc();
    asks_rows::<By<Names>>(alloc, "five", FIELDS)?;
    asks_no_more_than::<By<Names>>(alloc, "five", NAME, FIELDS)
}

/// The name of a variant. The first of them holds a number.
#[derive(Debug, Drop)]
struct Variant;

type OfFive = Choice<u8, Choice<(), Choice<(), Choice<(), Choice<(), Never>>>>>;

impl From<OfFive> for Variant {
    fn from(_variant: OfFive) -> Variant {
        Variant
    }
}

// A look of one byte shows whether something stands after the name.
const VARIANTS: &[Row] = table! {
    (b"\xa1\x61", b"n", 1, b"\x05", 2, (4, 6), (3, 5)),
    (b"\x77", b"n", 23, b"", 24, (3, 27), (2, 26)),
    (b"\x78\x18", b"n", 24, b"", 26, (4, 31), (2, 29)),
    (b"\x78\xff", b"n", 255, b"", 255, (6, 262), (2, 260)),
    (b"\x79\x01\x00", b"n", 256, b"", 256, (5, 263), (4, 262)),
};

#[test]
fn looks_for_names_of_variants(rt: HostRuntime) -> Result<(), Fail> {
    let alloc = rt.alloc();
    asks_rows::<By<Names>>(alloc, "variant", VARIANTS)?;
    asks_no_more_than::<By<Names>>(alloc, "variant", NAME, VARIANTS)
}

/// A struct of two fields whose names have one length and differ in their last letter.
#[derive(Debug, PartialEq, Drop)]
struct Alike(Option<u8>, Option<u8>);

/// The calls of these names.
struct Names;

impl TypedCalls for Names {
    fn make<S: Source>(name: &str, alloc: Global, de: &mut Deserializer<S>) -> Got<String, S> {
        match name {
            "five" => {
                let presences = (Optional, (Optional, (Optional, (Optional, (Optional, ())))));
                match de.deserialize_fields(alloc, "Five", &NAMES, &[], presences)? {
                    (Some(n), (None, (None, (None, (None, ())))))
                    | (None, (Some(n), (None, (None, (None, ())))))
                    | (None, (None, (Some(n), (None, (None, ())))))
                    | (None, (None, (None, (Some(n), (None, ())))))
                    | (None, (None, (None, (None, (Some(n), ()))))) => shows(alloc, Five(n)),
                    _ => Err(DecodeError::Custom("not one field")),
                }
            }
            "variant" => {
                let cases = (
                    Holds,
                    (Unit, (Unit, (Unit, (Unit, Otherwise("no such variant"))))),
                );
                let read: Variant = de.deserialize_variant(alloc, "Variant", &NAMES, cases)?;
                shows(alloc, read)
            }
            "alike" => {
                let presences = (Optional, (Optional, ()));
                let names = ["measured1", "measured2"];
                let (first, (second, ())) = de.deserialize_fields(
                    alloc,
                    "Alike",
                    &names,
                    &[],
                    presences,
                )?;
                shows(alloc, Alike(first, second))
            }
            _ => no_call(),
        }
    }
}

const READ: &[Called] = table! {
    ("alike", b"\xa1\x69measured1\x05", Ok("Alike(Some(5), None)"), b""),
    ("alike", b"\xa1\x69measured2\x05", Ok("Alike(None, Some(5))"), b""),
    ("alike", b"\xa2\x69measured2\x05\x69measured1\x06", Ok("Alike(Some(6), Some(5))"), b""),
    ("alike", b"\xa1\x69measured3\x05", Ok("Alike(None, None)"), b""),
    ("alike", b"\xa1\x68measured\x05", Ok("Alike(None, None)"), b""),
    ("alike", b"\xa1\x6ameasured10\x05", Ok("Alike(None, None)"), b""),
};

#[test]
fn names_that_begin_alike(rt: HostRuntime) -> Result<(), Fail> {
    calls::<Names>(rt.alloc(), READ, &[])
}
