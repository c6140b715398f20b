//! Rows of structs whose keys are integers, and what their keys ask of a reader.
ghost use Rattle.std.specs.Prelude.{◌≡◌};
ghost use Rattle.cbor4ii.specs.Fields.{no_values};

use crate::asked::{Row as AskedRow, asks_rows};
use crate::presence::Lamp;
use crate::typed::{By, Got, TypedCalls, calls, no_call, shows};
use cbor4ii::serde::{Deserializer, Once, Optional, Required};
use cbor4ii_rw::read::Source;
use cbor4ii_vectors::repeated::repeated;
use cbor4ii_vectors::rows::{Called, CalledWithin, call_by_each};
use cbor4ii_vectors::{eof, mismatch, no_step, require_utf8, table, unsupported};
use std::alloc::Global;
use std::test::Fail;

/// A struct of the keys 1, -2 and 1000, of which the first has to be there and the second may come
/// once.
#[derive(Debug, PartialEq, Drop)]
struct Keyed(u8, Option<u8>, Option<u8>);

impl From<(u8, (Option<u8>, (Option<u8>, ())))> for Keyed {
    ghost from_gives = { λ values k. values ≡ (k.0, (k.1, (k.2, no_values))) };

    fn from(values: (u8, (Option<u8>, (Option<u8>, ())))) -> Keyed {
        let (first, (second, (third, ()))) = values;
        Keyed(first, second, third)
    }
}

// The head of the map, the key, and a number.
const ASKED: &[AskedRow] = table! {
    (b"\xa1", b"\x01", 1, b"\x07", 1, (5, 5), (5, 5)),
    (b"\xa2\x01\x07\x19\x03\xe8", b"", 0, b"\x09", 3, (9, 14), (9, 14)),
    (b"\xa2\x01\x07\x63", b"kty", 1, b"\x09", 4, (10, 16), (10, 16)),
};

#[test]
fn looks_for_keys(rt: HostRuntime) -> Result<(), Fail> {
    asks_rows::<By<Keys>>(rt.alloc(), "keyed", ASKED)
}

/// A struct of the key 0, which has to be there.
#[derive(Debug, PartialEq, Drop)]
struct Zero(u8);

impl From<(u8, ())> for Zero {
    fn from(values: (u8, ())) -> Zero {
        Zero(values.0)
    }
}

/// A struct whose field may be left out, and rejects some values in words.
#[derive(Debug, PartialEq, Drop)]
struct Lit(Option<Lamp>);

impl From<(Option<Lamp>, ())> for Lit {
    fn from(values: (Option<Lamp>, ())) -> Lit {
        Lit(values.0)
    }
}

// 6,000 pairs in a row, of a field that is known and of ones that are not: 0x1770. Of the known one
// the last counts.
#[test]
fn so_many_pairs_are_read(rt: HostRuntime) -> Result<(), Fail> {
    let alloc = rt.alloc();
    let want = Ok("Keyed(5, None, None)");
    let known = repeated(alloc, b"\xb9\x17\x70", b"\x01\x05", 6_000, b"")?;
    call_by_each::<By<Keys>>(alloc, &("keyed", known, 256, want, b""))?;
    let other = repeated(alloc, b"\xb9\x17\x71\x01\x05", b"\x02\x80", 6_000, b"")?;
    call_by_each::<By<Keys>>(alloc, &("keyed", other, 256, want, b""))?;
    let texts = repeated(alloc, b"\xbf\x01\x05", b"\x61x\x80", 6_000, b"\xff")?;
    call_by_each::<By<Keys>>(alloc, &("keyed", texts, 256, want, b""))
}

/// The calls of these names.
struct Keys;

impl TypedCalls for Keys {
    fn make<S: Source>(name: &str, alloc: Global, de: &mut Deserializer<S>) -> Got<String, S> {
        match name {
            "keyed" => {
                let presences = (Required, (Once(Optional), (Optional, ())));
                let read: Keyed = de.deserialize_fields(
                    alloc,
                    "Keyed",
                    &[1, -2, 1000],
                    &["no 1", "two -2"],
                    presences,
                )?;
                shows(alloc, read)
            }
            "zero" => {
                let read: Zero = de.deserialize_fields(
                    alloc,
                    "Zero",
                    &[0],
                    &["no 0"],
                    (Required, ()),
                )?;
                shows(alloc, read)
            }
            "lit" => {
                let read: Lit = de.deserialize_fields(alloc, "Lit", &[1], &[], (Optional, ()))?;
                shows(alloc, read)
            }
            _ => no_call(),
        }
    }
}

const READ: &[Called] = table! {
    ("keyed", b"\xa1\x01\x07", Ok("Keyed(7, None, None)"), b""),
    ("keyed", b"\xa3\x01\x07\x21\x08\x19\x03\xe8\x09", Ok("Keyed(7, Some(8), Some(9))"), b""),
    // In any order, and of any length.
    ("keyed", b"\xbf\x19\x03\xe8\x09\x21\x08\x01\x07\xff\x00", Ok("Keyed(7, Some(8), Some(9))"),
        b"\x00"),
    // Of several pairs of one key the last counts, or the struct is rejected.
    ("keyed", b"\xa2\x01\x07\x01\x08", Ok("Keyed(8, None, None)"), b""),
    ("keyed", b"\xa3\x01\x07\x21\x08\x21\x08\x00", Ok("Custom(\"two -2\")"), b"\x00"),
    ("keyed", b"\xa0\x00", Ok("Custom(\"no 1\")"), b"\x00"),
    ("keyed", b"\xa1\x21\x07\x00", Ok("Custom(\"no 1\")"), b"\x00"),
    // Longer heads of a key, and bignums, are the same integer (RFC 8949 sections 3.1 and 3.4.3).
    ("keyed", b"\xa2\x18\x01\x07\x38\x01\x08", Ok("Keyed(7, Some(8), None)"), b""),
    ("keyed", b"\xa2\x19\x00\x01\x07\x39\x00\x01\x08", Ok("Keyed(7, Some(8), None)"), b""),
    ("keyed", b"\xa2\x01\x07\x1a\x00\x00\x03\xe8\x09", Ok("Keyed(7, None, Some(9))"), b""),
    ("keyed", b"\xa1\x1b\x00\x00\x00\x00\x00\x00\x00\x01\x07", Ok("Keyed(7, None, None)"), b""),
    ("keyed", b"\xa2\xc2\x41\x01\x07\xc3\x41\x01\x08", Ok("Keyed(7, Some(8), None)"), b""),
    // Pairs of other keys are skipped, whatever their values are.
    ("keyed", b"\xa3\x02\x81\xf6\x01\x07\x20\xc1\x00", Ok("Keyed(7, None, None)"), b""),
    ("keyed", b"\xa2\x1b\xff\xff\xff\xff\xff\xff\xff\xff\x61a\x01\x07", Ok("Keyed(7, None, None)"),
        b""),
    ("keyed", b"\xa2\x3b\xff\xff\xff\xff\xff\xff\xff\xff\xa0\x01\x07", Ok("Keyed(7, None, None)"),
        b""),
    ("keyed", b"\xa2\xc2\x49\x01\x00\x00\x00\x00\x00\x00\x00\x00\x00\x01\x07",
        Ok("Keyed(7, None, None)"), b""),
    // Texts, also in chunks, and one that is an integer's encoding.
    ("keyed", b"\xa3\x60\x05\x01\x07\x63kty\x80", Ok("Keyed(7, None, None)"), b""),
    ("keyed", b"\xa2\x7f\x61k\x61y\xff\x05\x01\x07", Ok("Keyed(7, None, None)"), b""),
    ("keyed", b"\xa2\x61\x01\x05\x01\x07", Ok("Keyed(7, None, None)"), b""),
    // What is left where a key or a value is rejected, or cut.
    ("keyed", b"\xa1\x41\x01\x07", Err(mismatch!("i128", 0x41)), b"\x01\x07"),
    ("keyed", b"\xa1\x80\x07", Err(mismatch!("i128", 0x80)), b"\x07"),
    ("keyed", b"\xa1\xf6\x07", Err(mismatch!("i128", 0xf6)), b"\x07"),
    ("keyed", b"\xa1\xc1\x01\x07", Err(mismatch!("i128::tag", 1)), b"\x01\x07"),
    ("keyed", b"\xa1\x61\xff\x07", Err(require_utf8!("str")), b"\x07"),
    ("keyed", b"\xa1", Err(eof!("i128", 1)), b""),
    ("keyed", b"\xa1\x19\x03", Err(eof!("u64", 2)), b""),
    ("keyed", b"\xa1\x63kt", Err(eof!("str", 1)), b""),
    ("keyed", b"\xbf", Err(eof!("break", 1)), b""),
    ("keyed", b"\xa1\x01\xf6\x00", Err(mismatch!("u8", 0xf6)), b"\x00"),
    ("keyed", b"\xa1\x02\xf8\x14", Err(unsupported!("ignored-any", 248)), b"\xf8\x14"),
    ("keyed", b"\x81\x01", Err(mismatch!("map", 0x81)), b"\x01"),
    // A text, also an empty one, is not the key 0.
    ("zero", b"\xa1\x00\x07", Ok("Zero(7)"), b""),
    ("zero", b"\xa2\x60\x05\x00\x07", Ok("Zero(7)"), b""),
    ("zero", b"\xa2\x00\x07\x60\x05", Ok("Zero(7)"), b""),
    ("zero", b"\xa1\x60\x05\x00", Ok("Custom(\"no 0\")"), b"\x00"),
    ("zero", b"\xa1\x61\x00\x05\x00", Ok("Custom(\"no 0\")"), b"\x00"),
    // A field that is rejected in words does not count as left out.
    ("lit", b"\xa0\x00", Ok("Lit(None)"), b"\x00"),
    ("lit", b"\xa1\x01\xa0\x00", Ok("Custom(\"a lamp has a level\")"), b"\x00"),
    ("lit", b"\xa2\x01\xa0\x02\x00\x00", Ok("Custom(\"a lamp has a level\")"), b"\x02\x00\x00"),
};

const WITHIN: &[CalledWithin] = table! {
    // A struct takes one step, and so does what is skipped in it.
    ("keyed", b"\xa1\x01\x07", 0, Err(no_step!("map")), b"\xa1\x01\x07"),
    ("keyed", b"\xa1\x01\x07", 1, Ok("Keyed(7, None, None)"), b""),
    ("keyed", b"\xa2\x01\x07\x02\x80", 1, Err(no_step!("ignored-any")), b"\x80"),
    ("keyed", b"\xa2\x01\x07\x02\x80", 2, Ok("Keyed(7, None, None)"), b""),
};

#[test]
fn structs_whose_keys_are_integers(rt: HostRuntime) -> Result<(), Fail> {
    calls::<Keys>(rt.alloc(), READ, WITHIN)
}
