//! Rows of structs that are read in one call: of how many fields, and which of them are known.
use crate::typed::{By, Got, TypedCalls, calls, no_call, shows};
use cbor4ii::serde::{Deserializer, Optional, Required};
use cbor4ii::types::F64;
use cbor4ii_rw::read::Source;
use cbor4ii_vectors::repeated::repeated;
use cbor4ii_vectors::rows::{Called, call_by_each};
use cbor4ii_vectors::{eof, require_utf8, table, unsupported};
use std::alloc::Global;
use std::test::Fail;

/// A struct of a float and a flag.
type Measured = (F64, (bool, ()));

const FROM_B: &[u8] = b"\xa3\x61a\x61x\x61b\xfb\x3f\xf1\x99\x99\x99\x99\x99\x9a\x61c\xf5";

/// A number that may be missing.
type Number = Option<u8>;

/// A struct of which one field is known.
type One = (Number, ());

/// A struct of two fields, of which one has a name of 24 letters.
#[derive(Debug, PartialEq, Drop)]
struct Long(Number, Number);

/// A struct of two fields.
type Two = (Number, (Number, ()));

/// A struct of four fields, of which no g comes.
type Four = (Number, (Number, (Number, (Number, ()))));

/// A struct of five fields.
type Five = (Number, (Number, (Number, (Number, (Number, ())))));

/// A struct of six fields.
type Six = (Number, (Number, (Number, (Number, (Number, (Number, ()))))));

// The fields f, a, c, e, b and d, each the number of its letter.
const LETTERS: &[u8] = b"\xa6\x61f\x06\x61a\x01\x61c\x03\x61e\x05\x61b\x02\x61d\x04";

// 6,000 pairs in a row, of a field that is known and of one that is not: 0x1770. Of the known one
// the last counts.
#[test]
fn so_many_entries_are_read(rt: HostRuntime) -> Result<(), Fail> {
    let alloc = rt.alloc();
    let want = Ok("(Some(5), ())");
    let known = repeated(alloc, b"\xb9\x17\x70", b"\x61y\x05", 6_000, b"")?;
    call_by_each::<By<Structs>>(alloc, &("one", known, 256, want, b""))?;
    let unknown = repeated(alloc, b"\xbf\x61y\x05", b"\x61x\x80", 6_000, b"\xff")?;
    call_by_each::<By<Structs>>(alloc, &("one", unknown, 256, want, b""))
}

/// The calls of these names.
struct Structs;

impl TypedCalls for Structs {
    fn make<S: Source>(name: &str, alloc: Global, de: &mut Deserializer<S>) -> Got<String, S> {
        let one = (Optional, ());
        let two = (Optional, (Optional, ()));
        let four = (Optional, (Optional, (Optional, (Optional, ()))));
        match name {
            "measured" => {
                let (presences, missing) = ((Required, (Required, ())), ["no b", "no c"]);
                let got = de.deserialize_fields(
                    alloc,
                    "Measured",
                    &["b", "c"],
                    &missing,
                    presences,
                );
                shows::<Measured, _>(alloc, got?)
            }
            "one" => shows::<One, _>(
                alloc,
                de.deserialize_fields(alloc, "One", &["y"], &[], one)?,
            ),
            "long" => {
                let names = ["abcdefghijklmnopqrstuvwx", "a"];
                let (long, (a, ())) = de.deserialize_fields(alloc, "Long", &names, &[], two)?;
                shows(alloc, Long(long, a))
            }
            "two" => {
                let read: Two = de.deserialize_fields(alloc, "Two", &["b", "f"], &[], two)?;
                shows(alloc, read)
            }
            "four" => {
                let names = ["d", "a", "c", "g"];
                let read: Four = de.deserialize_fields(alloc, "Four", &names, &[], four)?;
                shows(alloc, read)
            }
            "five" => {
                let (names, presences) = (["e", "d", "c", "b", "a"], (Optional, four));
                let read: Five = de.deserialize_fields(alloc, "Five", &names, &[], presences)?;
                shows(alloc, read)
            }
            "six" => {
                let names = ["a", "b", "c", "d", "e", "f"];
                let presences = (Optional, (Optional, four));
                let read: Six = de.deserialize_fields(alloc, "Six", &names, &[], presences)?;
                shows(alloc, read)
            }
            _ => no_call(),
        }
    }
}

const READ: &[Called] = table! {
    ("measured", FROM_B, Ok("(F64(4607632778762754458), (true, ()))"), b""),
    ("one", b"\xbf\x61x\x9f\x01\xff\x61y\x02\xff", Ok("(Some(2), ())"), b""),
    ("one", b"\xa0", Ok("(None, ())"), b""),
    // Of several pairs of one name the last counts.
    ("one", b"\xa2\x61y\x02\x61y\x03", Ok("(Some(3), ())"), b""),
    // What is skipped under another name may be no value: a chunk that is an array, a tag, and a
    // text that is not UTF-8.
    ("one", b"\xa2\x61x\x5f\x80\xff\x61y\x02", Ok("(Some(2), ())"), b""),
    ("one", b"\xa2\x61x\xc1\x00\x61y\x02", Ok("(Some(2), ())"), b""),
    ("one", b"\xa2\x61x\x62\xff\xff\x61y\x02", Ok("(Some(2), ())"), b""),
    ("one", b"\xa1\x61x\xf8\x14", Err(unsupported!("ignored-any", 248)), b"\xf8\x14"),
    // The length of a name stands in the first byte, in the next one, or in the next two.
    ("long", b"\xa1\x78\x18abcdefghijklmnopqrstuvwx\x05", Ok("Long(Some(5), None)"), b""),
    ("long", b"\xa1\x79\x00\x18abcdefghijklmnopqrstuvwx\x05", Ok("Long(Some(5), None)"), b""),
    ("long", b"\xa1\x7f\x78\x18abcdefghijklmnopqrstuvwx\xff\x05", Ok("Long(Some(5), None)"), b""),
    ("long", b"\xa1\x78\x01a\x06\x07", Ok("Long(None, Some(6))"), b"\x07"),
    ("long", b"\xa1\x78\x19abcdefghijklmnopqrstuvwxy\x05", Ok("Long(None, None)"), b""),
    ("long", b"\xa1\x77abcdefghijklmnopqrstuvw\x05", Ok("Long(None, None)"), b""),
    ("long", b"\xa1\x78\x02\xff\xff\x05", Err(require_utf8!("str")), b"\x05"),
    ("long", b"\xa1\x78\x18abc", Err(eof!("str", 21)), b""),
    ("long", b"\xa1\x78", Err(eof!("str", 1)), b""),
    ("two", LETTERS, Ok("(Some(2), (Some(6), ()))"), b""),
    ("four", LETTERS, Ok("(Some(4), (Some(1), (Some(3), (None, ()))))"), b""),
    ("five", LETTERS, Ok("(Some(5), (Some(4), (Some(3), (Some(2), (Some(1), ())))))"), b""),
    ("six", LETTERS, Ok("(Some(1), (Some(2), (Some(3), (Some(4), (Some(5), (Some(6), ()))))))"),
        b""),
};

#[test]
fn structs_of_some_fields(rt: HostRuntime) -> Result<(), Fail> {
    calls::<Structs>(rt.alloc(), READ, &[])
}
