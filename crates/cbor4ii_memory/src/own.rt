//! Rows of types of one's own, each read in one call: an array of elements, a struct with integers
//! as keys, a struct of which fields may be left out, a tagged value, and a value with a test.
ghost use Rattle.std.specs.Prelude.{◌≡◌};
ghost use Rattle.std.proofs.Common.{ap};
ghost use Rattle.cbor4ii_memory.specs.Short.{short_words, short_text_words};

use crate::debug_text::Pieces;
use crate::read::{Calls, Left, Row, Told, reads, told};
use crate::tally::{Broken, Tally};
use cbor4ii::serde::{CheckedFrom, Deserializer, Once, Optional, Or, Required, Unmade};
use cbor4ii::types::Bytes;
use cbor4ii_rw::read::Source;
use cbor4ii_vectors::{eof, require_utf8, table};
use std::alloc::Global;

/// An array of a text, a number, a byte string, and a text or null.
#[derive(Debug, Drop)]
struct Elements(String, u8, Bytes<Vec<u8>>, Option<String>);

impl From<(String, (u8, (Bytes<Vec<u8>>, (Option<String>, ()))))> for Elements {
    fn from(elements: (String, (u8, (Bytes<Vec<u8>>, (Option<String>, ()))))) -> Elements {
        let (text, (number, (bytes, (other, ())))) = elements;
        Elements(text, number, bytes, other)
    }
}

/// A struct of the keys 1, -2 and 1000: a number that has to be there, a text that may come once,
/// and a byte string.
#[derive(Debug, Drop)]
struct Keyed(u8, Option<String>, Option<Bytes<Vec<u8>>>);

impl From<(u8, (Option<String>, (Option<Bytes<Vec<u8>>>, ())))> for Keyed {
    fn from(values: (u8, (Option<String>, (Option<Bytes<Vec<u8>>>, ())))) -> Keyed {
        let (number, (text, (bytes, ()))) = values;
        Keyed(number, text, bytes)
    }
}

/// A struct of a number that has to be there, a text that may come once, and a number that is 7
/// where it is left out.
#[derive(Debug, Drop)]
struct Named(u8, Option<String>, u8);

impl From<(u8, (Option<String>, (u8, ())))> for Named {
    fn from(values: (u8, (Option<String>, (u8, ())))) -> Named {
        let (number, (text, (other, ()))) = values;
        Named(number, text, other)
    }
}

/// A text with the tag 32.
#[derive(Debug, Drop)]
struct Tagged(String);

impl From<String> for Tagged {
    fn from(text: String) -> Tagged {
        Tagged(text)
    }
}

/// A text of at most four bytes, in a box: the test takes memory too.
#[derive(Debug, Drop)]
pub struct Short(Box<String>);

impl CheckedFrom<String> for Short {
    ghost words = { short_text_words };

    ghost makes = { λ text short. text ≡ short.0.value };

    fn checked_from(alloc: Global, value: String) -> Result<Short, Unmade> {
        if value.len() > 4 {
            return Err(Unmade::Rejected("longer than four bytes"));
        }
        Ok(Short(Box::new(alloc, value)?))
    }

    ghost fate = { λ v w same. ap short_words same };
}

/// One of these types.
pub struct Own;

impl Calls for Own {
    fn call<S: Source>(name: &str, alloc: Global, reader: &mut S, text: Pieces<'_>) -> Told<S> {
        let de = &mut Deserializer::new(reader);
        match name {
            "deserialize_elements" => told::<Elements, _>(de.deserialize_elements(alloc), text),
            "deserialize_fields by integers" => {
                let presences = (Required, (Once(Optional), (Optional, ())));
                let (keys, missing) = ([1, -2, 1000], ["no 1", "two -2"]);
                let got = de.deserialize_fields(alloc, "Keyed", &keys, &missing, presences);
                told::<Keyed, _>(got, text)
            }
            "deserialize_fields" => {
                let presences = (Required, (Once(Optional), (Or(7), ())));
                let (names, missing) = (["a", "b", "c"], ["no a", "two b"]);
                let got = de.deserialize_fields(alloc, "Named", &names, &missing, presences);
                told::<Named, _>(got, text)
            }
            "deserialize_tagged" => told(de.deserialize_tagged::<String, Tagged>(alloc, 32), text),
            "deserialize_checked" => told(de.deserialize_checked::<String, Short>(alloc), text),
            _ => Ok(false),
        }
    }
}

// A text in chunks is the key of no field, and a bignum may be the key of one.
const ROWS: &[Row] = table! {
    ("deserialize_elements", b"\x84\x62ab\x05\x42\x01\x02\x61c\xff",
        "Elements(\"ab\", 5, Bytes([1, 2]), Some(\"c\"))", b"\xff"),
    ("deserialize_elements", b"\x98\x04\x7f\x61a\xff\x18\xff\x5f\x41\x01\xff\xf6",
        "Elements(\"a\", 255, Bytes([1]), None)", b""),
    ("deserialize_elements", b"\x84\x62ab\x61c\x40\xf6", "Mismatch { name: \"u8\", found: 97 }",
        b"c\x40\xf6"),
    ("deserialize_elements", b"\x84\x62ab\x05\x41", eof!("bytes", 1), b""),
    ("deserialize_fields by integers", b"\xa2\x01\x05\x21\x62ab\x00",
        "Keyed(5, Some(\"ab\"), None)", b"\x00"),
    ("deserialize_fields by integers", b"\xbf\x7f\x61k\xff\x80\x18\x01\x06\x19\x03\xe8\x41\x07\xff",
        "Keyed(6, None, Some(Bytes([7])))", b""),
    ("deserialize_fields by integers", b"\xa2\x21\x61a\xc2\x41\x01\x05",
        "Keyed(5, Some(\"a\"), None)", b""),
    ("deserialize_fields by integers", b"\xa1\x21\x61a\x00", "Custom { name: \"no 1\", num: 0 }",
        b"\x00"),
    ("deserialize_fields by integers", b"\xa3\x01\x05\x21\x61a\x21\x61b\x00",
        "Custom { name: \"two -2\", num: 0 }", b"\x00"),
    ("deserialize_fields by integers", b"\xa2\x21\x61a\x20\xf8\x63",
        "Unsupported { name: \"ignored-any\", found: 248 }", b"\xf8\x63"),
    ("deserialize_fields", b"\xa2\x61a\x05\x61b\x62xy\x00", "Named(5, Some(\"xy\"), 7)", b"\x00"),
    ("deserialize_fields", b"\xbf\x61c\x08\x7f\x61a\xff\x06\xff", "Named(6, None, 8)", b""),
    ("deserialize_fields", b"\xa1\x61b\x61x\x00", "Custom { name: \"no a\", num: 0 }", b"\x00"),
    ("deserialize_fields", b"\xa3\x61a\x05\x61b\x60\x61b\x61x",
        "Custom { name: \"two b\", num: 0 }", b""),
    ("deserialize_tagged", b"\xd8\x20\x62ab\x00", "Tagged(\"ab\")", b"\x00"),
    ("deserialize_tagged", b"\xd9\x00\x20\x7f\x61a\x61b\xff", "Tagged(\"ab\")", b""),
    ("deserialize_tagged", b"\xd8\x20\x62a\xff\x00", require_utf8!("str"), b"\x00"),
    ("deserialize_checked", b"\x62ab\x00", "Short(\"ab\")", b"\x00"),
    ("deserialize_checked", b"\x7f\x62ab\x62cd\xff", "Short(\"abcd\")", b""),
    ("deserialize_checked", b"\x65abcde\x00", LONGER, b"\x00"),
    ("deserialize_checked", b"\x7f\x64abcd\x61e\xff", LONGER, b""),
};

const LONGER: &str = "Custom { name: \"longer than four bytes\", num: 0 }";

// Each reader shows the text whole, which is the key of no field.
const IN_PLACE: &[Row] = table! {
    ("deserialize_fields by integers", b"\xa3\x61z\x81\x05\x02\x80\x01\x07\x00",
        "Keyed(7, None, None)", b"\x00"),
    ("deserialize_fields by integers", b"\xa1\xc2\x41\x01\x07", "Keyed(7, None, None)", b""),
};

/// Each type.
pub fn types(tally: &mut Tally) -> Result<(), Broken> {
    reads::<Own>(tally, Left::AnEnd, ROWS)?;
    reads::<Own>(tally, Left::Never, IN_PLACE)
}
