//! Rows of more parts than have their place reserved before any of them came, of strings that grow
//! by their chunks, and of arrays and tags in one another.
use crate::debug_text::{Pieces, has_debug_text};
use crate::items::Item;
use crate::read::{Calls, Left, Meant, Told, as_core, reads_by_each, reads_over};
use crate::tally::{Broken, Tally};
use crate::typed::Typed;
use cbor4ii::serde::{Deserialize, Deserializer};
use cbor4ii_items::decode::Decode;
use cbor4ii_items::types::Map;
use cbor4ii_rw::read::Source;
use cbor4ii_rw::slice_reader::SliceReader;
use cbor4ii_tree::{Canonical, Value};
use cbor4ii_vectors::table;
use std::alloc::Global;

/// Bytes in parts, each so many times.
type Parts = &'static [(&'static [u8], usize)];

/// A row of bytes in parts, of which nothing is left: its name, the name of its call, the parts,
/// and the text.
type Row = (&'static str, &'static str, Parts, Pieces<'static>);

// Reads each row over each reader, or over a slice alone.
fn grows<C: Calls>(tally: &mut Tally, is_slice: bool, rows: &[Row]) -> Result<(), Broken> {
    for (row, call, parts, text) in rows {
        let Some(bytes) = tally.joined(parts) else {
            continue;
        };
        let meant = Meant {
            row,
            call,
            bytes: &bytes,
            text,
            rest: b"",
            left: Left::AnEnd,
        };
        if is_slice {
            reads_over::<C, _>(tally, &mut SliceReader::new(&bytes), &meant)?;
        } else {
            reads_by_each::<C>(tally, &meant)?;
        }
    }
    Ok(())
}

const ITEMS: &[Row] = table! {
    ("a long String", "String", LONG_TEXT, &[("\"", 1), ("a", 17_000), ("\"", 1)]),
    ("long Bytes", "Bytes", LONG_BYTES, &[("Bytes([5", 1), (", 5", 16_999), ("])", 1)]),
    ("a String in chunks", "String", TEXT_CHUNKS, &[("\"", 1), ("abc", 100), ("\"", 1)]),
    ("Bytes in chunks", "Bytes", BYTES_CHUNKS, CHUNKS),
    ("a long Vec", "Vec", DEFINITE, VEC),
    ("a long indefinite Vec", "Vec", INDEFINITE, VEC),
    ("a long Map", "Map", DEFINITE_PAIRS, MAP),
    ("a long indefinite Map", "Map", INDEFINITE_PAIRS, MAP),
    ("a long array", "Value", DEFINITE, ARRAY),
    ("a long indefinite array", "Value", INDEFINITE, ARRAY),
    ("a long map", "Value", DEFINITE_PAIRS, PAIRS),
    ("a long indefinite map", "Value", INDEFINITE_PAIRS, PAIRS),
    ("a long canonical array", "Canonical", DEFINITE, CANONICAL),
    ("nested arrays", "Value", NEST, &[("Array([", 128), ("])", 128)]),
};

const TYPES: &[Row] = table! {
    ("a long typed Vec", "typed Vec", DEFINITE, VEC),
    ("a long indefinite typed Vec", "typed Vec", INDEFINITE, VEC),
    ("a long typed map", "typed BTreeMap", KEYS, FIVES),
};

// A text and a byte string of 17,000 bytes, more than are reserved before any came.
const LONG_TEXT: Parts = &[(b"\x79\x42\x68", 1), (b"a", 17_000)];

const LONG_BYTES: Parts = &[(b"\x59\x42\x68", 1), (b"\x05", 17_000)];

// 100 chunks of three bytes each.
const TEXT_CHUNKS: Parts = &[(b"\x7f", 1), (b"\x63abc", 100), (b"\xff", 1)];

const BYTES_CHUNKS: Parts = &[(b"\x5f", 1), (b"\x43\x01\x02\x03", 100), (b"\xff", 1)];

const CHUNKS: Pieces<'static> = &[("Bytes([1, 2, 3", 1), (", 1, 2, 3", 99), ("])", 1)];

// 300 items and 300 pairs: 012c. At most 256 have their place reserved.
const DEFINITE: Parts = &[(b"\x99\x01\x2c", 1), (b"\x05", 300)];

const INDEFINITE: Parts = &[(b"\x9f", 1), (b"\x05", 300), (b"\xff", 1)];

const DEFINITE_PAIRS: Parts = &[(b"\xb9\x01\x2c", 1), (b"\x05\x06", 300)];

const INDEFINITE_PAIRS: Parts = &[(b"\xbf", 1), (b"\x05\x06", 300), (b"\xff", 1)];

const VEC: Pieces<'static> = &[("[5", 1), (", 5", 299), ("]", 1)];

const MAP: Pieces<'static> = &[("Map([(5, 6)", 1), (", (5, 6)", 299), ("])", 1)];

const ARRAY: Pieces<'static> = &[("Array([Integer(5)", 1), (", Integer(5)", 299), ("])", 1)];

const PAIRS: Pieces<'static> = table! {
    ("Map([(Integer(5), Integer(6))", 1), (", (Integer(5), Integer(6))", 299), ("])", 1),
};

const CANONICAL: Pieces<'static> = table! {
    ("Canonical(Array([Integer(5)", 1), (", Integer(5)", 299), ("]))", 1),
};

// A map of the keys 0 to 23.
const KEYS: Parts = table! {
    (b"\xb8\x18\x00\x05\x01\x05\x02\x05\x03\x05\x04\x05\x05\x05\x06\x05\x07\x05\x08\x05", 1),
    (b"\x09\x05\x0a\x05\x0b\x05\x0c\x05\x0d\x05\x0e\x05\x0f\x05\x10\x05\x11\x05\x12\x05", 1),
    (b"\x13\x05\x14\x05\x15\x05\x16\x05\x17\x05", 1),
};

const FIVES: Pieces<'static> = table! {
    ("{0: 5, 1: 5, 2: 5, 3: 5, 4: 5, 5: 5, 6: 5, 7: 5, 8: 5, 9: 5, 10: 5, 11: 5, ", 1),
    ("12: 5, 13: 5, 14: 5, 15: 5, 16: 5, 17: 5, 18: 5, 19: 5, 20: 5, 21: 5, ", 1),
    ("22: 5, 23: 5}", 1),
};

// Over a slice alone, since each array or tag takes memory.
const NESTS: &[Row] = table! {
    ("nested canonical arrays", "Canonical", NEST, CANONICAL_NEST),
    ("nested tags", "Value", TAGS, &[("Tag(1, ", 255), ("Integer(0)", 1), (")", 255)]),
};

const TYPED_NESTS: &[Row] = table! {
    ("nested arrays of any kind", "deserialize_any", NEST, &[("Array([", 128), ("])", 128)]),
};

// 127 arrays of one item, one in another, and an empty one inside.
const NEST: Parts = &[(b"\x81", 127), (b"\x80", 1)];

const CANONICAL_NEST: Pieces<'static> = table! {
    ("Canonical(", 1), ("Array([", 128), ("])", 128), (")", 1),
};

// 255 tags, one in another, and an integer inside.
const TAGS: Parts = &[(b"\xc1", 255), (b"\x00", 1)];

/// For how many parts there is a place in what is read.
struct Room;

impl Calls for Room {
    fn call<S: Source>(name: &str, alloc: Global, reader: &mut S, text: Pieces<'_>) -> Told<S> {
        let places = match name {
            "room of a Vec" => <Vec<u8>>::decode(alloc, reader)?.capacity(),
            "room of an array" | "room of a map" => places(&Value::decode(alloc, reader)?),
            "room of a canonical array" => places(&Canonical::decode(alloc, reader)?.0),
            "room of a typed Vec" => {
                let de = &mut Deserializer::new(reader);
                as_core(<Vec<u8>>::deserialize(alloc, de))?.capacity()
            }
            "room of an array of any kind" | "room of a map of any kind" => places(&as_core(
                Deserializer::new(reader).deserialize_any(alloc),
            )?),
            "room of a Map" => <Map<Vec<(u8, u8)>>>::decode(alloc, reader)?.0.capacity(),
            _ => 0,
        };
        Ok(has_debug_text(&places, text))
    }
}

fn places(value: &Value) -> usize {
    match value {
        Value::Array(items) => items.capacity(),
        Value::Map(pairs) => pairs.capacity(),
        _ => 0,
    }
}

// 257 parts, of which 256 have their place reserved before any of them came: the room for them
// doubles once, and is 512.
const ROOMS: &[Row] = table! {
    ("room of a Vec", "room of a Vec", ITEMS_257, &[("512", 1)]),
    ("room of an array", "room of an array", ITEMS_257, &[("512", 1)]),
    ("room of a canonical array", "room of a canonical array", ITEMS_257, &[("512", 1)]),
    ("room of a typed Vec", "room of a typed Vec", ITEMS_257, &[("512", 1)]),
    ("room of an array of any kind", "room of an array of any kind", ITEMS_257, &[("512", 1)]),
    ("room of a Map", "room of a Map", PAIRS_257, &[("512", 1)]),
    ("room of a map", "room of a map", PAIRS_257, &[("512", 1)]),
    ("room of a map of any kind", "room of a map of any kind", PAIRS_257, &[("512", 1)]),
};

const ITEMS_257: Parts = &[(b"\x99\x01\x01", 1), (b"\x05", 257)];

const PAIRS_257: Parts = &[(b"\xb9\x01\x01", 1), (b"\x05\x06", 257)];

/// Items and typed values of many parts, and their room.
pub fn grown(tally: &mut Tally) -> Result<(), Broken> {
    grows::<Item>(tally, false, ITEMS)?;
    grows::<Typed>(tally, false, TYPES)?;
    grows::<Item>(tally, true, NESTS)?;
    grows::<Typed>(tally, true, TYPED_NESTS)?;
    grows::<Room>(tally, true, ROOMS)
}
