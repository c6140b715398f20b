//! Rows of variants that hold named fields, read in the call of their enum.
use crate::typed::{Got, TypedCalls, calls, no_call, shows};
use cbor4ii::serde::Choice::{First, Other};
use cbor4ii::serde::{
    Choice, Deserializer, FieldWords, Holds, HoldsFields, Once, Optional, Or, Otherwise, Required,
    Unit,
};
use cbor4ii_rw::error::{Never, StaticStr};
use cbor4ii_rw::read::Source;
use cbor4ii_vectors::rows::{Called, CalledWithin};
use cbor4ii_vectors::{eof, mismatch, no_step, table};
use std::alloc::Global;
use std::marker::PhantomData;
use std::test::Fail;

/// Two of the variants have fields, some of them of the same names.
#[derive(Debug, PartialEq, Drop)]
enum Shape {
    Blank,
    Round { x: u8, size: u8 },
    Flat { size: u8, x: u8, note: Option<u8> },
    Line(u8),
}

const SHAPES: [StaticStr; 4] = ["Blank", "Round", "Flat", "Line"];

type Round = (u8, (u8, ()));

type Flat = (u8, (u8, (Option<u8>, ())));

impl From<Choice<(), Choice<Round, Choice<Flat, Choice<u8, Never>>>>> for Shape {
    fn from(shapes: Choice<(), Choice<Round, Choice<Flat, Choice<u8, Never>>>>) -> Shape {
        match shapes {
            First(()) => Shape::Blank,
            Other(First((x, (size, ())))) => Shape::Round { x, size },
            Other(Other(First((size, (x, (note, ())))))) => Shape::Flat { size, x, note },
            Other(Other(Other(First(length)))) => Shape::Line(length),
        }
    }
}

// The fields x and size, in a map of a length, in another order, and in a map of none.
const ROUND: &[u8] = b"\xa1\x65Round\xa2\x61x\x01\x64size\x02";

const TURNED: &[u8] = b"\xa1\x65Round\xa2\x64size\x02\x61x\x01";

const INDEFINITE: &[u8] = b"\xa1\x65Round\xbf\x61x\x01\x64size\x02\xff";

// A field of the other variant is skipped, whatever its value.
const NOTED: &[u8] = b"\xa1\x65Round\xa3\x61x\x01\x64note\x82\x61a\xf6\x64size\x02";

const AGAIN: &[u8] = b"\xa1\x65Round\xa3\x61x\x01\x61x\x03\x64size\x02";

const FLAT: &[u8] = b"\xa1\x64Flat\xa3\x61x\x05\x64note\x09\x64size\x03";

/// The calls of these names.
struct Shapes;

impl TypedCalls for Shapes {
    fn make<S: Source>(name: &str, alloc: Global, de: &mut Deserializer<S>) -> Got<String, S> {
        match name {
            "shape" => {
                let words = FieldWords(&["size", "x", "note"], &["", "not one x"], PhantomData);
                let presences = (Or(7), (Once(Required), (Optional, ())));
                let flat = HoldsFields(words, presences, (Holds, Otherwise("no such shape")));
                let words = FieldWords(&["x", "size"], &["no x", "no size"], PhantomData);
                let round = HoldsFields(words, (Required, (Required, ())), flat);
                let read: Shape = de.deserialize_variant(alloc, "Shape", &SHAPES, (Unit, round))?;
                shows(alloc, read)
            }
            _ => no_call(),
        }
    }
}

const READ: &[Called] = table! {
    ("shape", b"\x65Blank", Ok("Blank"), b""),
    ("shape", b"\xa1\x64Line\x09\x00", Ok("Line(9)"), b"\x00"),
    ("shape", ROUND, Ok("Round { x: 1, size: 2 }"), b""),
    ("shape", TURNED, Ok("Round { x: 1, size: 2 }"), b""),
    ("shape", INDEFINITE, Ok("Round { x: 1, size: 2 }"), b""),
    ("shape", NOTED, Ok("Round { x: 1, size: 2 }"), b""),
    // Of several pairs of one name the last counts.
    ("shape", AGAIN, Ok("Round { x: 3, size: 2 }"), b""),
    ("shape", b"\xa1\x65Round\xa1\x61x\x01\x00", Ok("Custom(\"no size\")"), b"\x00"),
    ("shape", b"\xa1\x65Round\xa0\x00", Ok("Custom(\"no x\")"), b"\x00"),
    ("shape", b"\xa1\x65Round\xa1\x61x\xf6\x00", Err(mismatch!("u8", 246)), b"\x00"),
    ("shape", b"\xa1\x65Round\x80\x00", Err(mismatch!("map", 128)), b"\x00"),
    ("shape", b"\xa1\x65Round", Err(eof!("map", 1)), b""),
    ("shape", b"\xa1\x65Round\xbf\x61x\x01", Err(eof!("break", 1)), b""),
    ("shape", b"\x65Round\xa0", Err(mismatch!("enum", 101)), b"\xa0"),
    ("shape", FLAT, Ok("Flat { size: 3, x: 5, note: Some(9) }"), b""),
    ("shape", b"\xa1\x64Flat\xa1\x61x\x05", Ok("Flat { size: 7, x: 5, note: None }"), b""),
    ("shape", b"\xa1\x64Flat\xa1\x64size\x03\x00", Ok("Custom(\"not one x\")"), b"\x00"),
    ("shape", b"\xa1\x64Flat\xa2\x61x\x05\x61x\x05\x00", Ok("Custom(\"not one x\")"), b"\x00"),
    ("shape", b"\xa1\x64Flat\xa2\x61x\x05\x64note\xf6\x00", Err(mismatch!("u8", 246)), b"\x00"),
    ("shape", b"\x64Flat\x00", Err(mismatch!("enum", 100)), b"\x00"),
    ("shape", b"\xa1\x65Blank\xa0", Err(mismatch!("enum", 161)), b"\xa0"),
    ("shape", b"\xa1\x65Other\xa0", Ok("Custom(\"no such shape\")"), b"\xa0"),
};

const WITHIN: &[CalledWithin] = table! {
    ("shape", ROUND, 0, Err(no_step!("enum")), ROUND),
    ("shape", ROUND, 1, Err(no_step!("map")), b"\xa2\x61x\x01\x64size\x02"),
    ("shape", ROUND, 2, Ok("Round { x: 1, size: 2 }"), b""),
    // What is skipped takes a step of its own, under that of the map.
    ("shape", b"\xa1\x65Round\xa1\x61y\x80", 2, Err(no_step!("ignored-any")), b"\x80"),
    ("shape", b"\xa1\x65Round\xa1\x61y\x80", 3, Ok("Custom(\"no x\")"), b""),
};

#[test]
fn variants_of_fields_are_read(rt: HostRuntime) -> Result<(), Fail> {
    calls::<Shapes>(rt.alloc(), READ, WITHIN)
}
