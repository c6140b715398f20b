//! Rows of items by their decoders, and of whole items.
use crate::debug_text::Pieces;
use crate::numbers::{DEBT, LESS};
use crate::read::{Calls, Left, Row, Told, reads, says};
use crate::tally::{Broken, Tally};
use cbor4ii_items::canonical::{canonical_buf, canonical_head};
use cbor4ii_items::decode::Decode;
use cbor4ii_items::indefinite::is_break;
use cbor4ii_items::types::{
    Array, Bytes, Map, Maybe, Negative, Nothing, Simple, Tag, UncheckedStr,
};
use cbor4ii_rw::read::Source;
use cbor4ii_tree::{Canonical, IgnoredAny, Value};
use cbor4ii_vectors::{eof, not_canonical, require_utf8, table, unsupported};
use std::alloc::Global;

/// What an item is read as that takes memory.
pub struct Item;

impl Calls for Item {
    fn call<S: Source>(name: &str, alloc: Global, reader: &mut S, text: Pieces<'_>) -> Told<S> {
        match name {
            "String" => says(String::decode(alloc, reader), text),
            "Bytes" => says(<Bytes<Vec<u8>>>::decode(alloc, reader), text),
            "UncheckedStr" => says(<UncheckedStr<Vec<u8>>>::decode(alloc, reader), text),
            "canonical_buf" => says(canonical_buf(alloc, "bytes", 2, reader), text),
            "Vec" => says(<Vec<u8>>::decode(alloc, reader), text),
            "Vec of bool" => says(<Vec<bool>>::decode(alloc, reader), text),
            "Vec of String" => says(<Vec<String>>::decode(alloc, reader), text),
            "Map" => says(<Map<Vec<(u8, u8)>>>::decode(alloc, reader), text),
            "Map of String" => says(<Map<Vec<(String, String)>>>::decode(alloc, reader), text),
            "Vec of Vec" => says(<Vec<Vec<u8>>>::decode(alloc, reader), text),
            "Vec of Option" => says(<Vec<Option<u8>>>::decode(alloc, reader), text),
            "Vec of Nothing" => says(<Vec<Nothing>>::decode(alloc, reader), text),
            "Box" => says(<Box<u8>>::decode(alloc, reader), text),
            "Tag of String" => says(<Tag<String>>::decode(alloc, reader), text),
            "Maybe of String" => says(<Maybe<Option<String>>>::decode(alloc, reader), text),
            "Maybe of Vec" => says(<Maybe<Option<Vec<String>>>>::decode(alloc, reader), text),
            "Option of String" => says(<Option<String>>::decode(alloc, reader), text),
            "Vec of Bytes" => says(<Vec<Bytes<Vec<u8>>>>::decode(alloc, reader), text),
            "Map of a String" => says(<Map<Vec<(String, u8)>>>::decode(alloc, reader), text),
            "Value" | "a rejected Value" => says(Value::decode(alloc, reader), text),
            "Canonical" | "a rejected Canonical" => says(Canonical::decode(alloc, reader), text),
            _ => Ok(false),
        }
    }
}

// Strings, which are read as owned ones.
const STRINGS: &[Row] = table! {
    ("String", b"\x64IETF\x01", "\"IETF\"", b"\x01"),
    ("String", b"\x7f\x65strea\x64ming\xff\x01", "\"streaming\"", b"\x01"),
    ("String", b"\x7f\x65strea\x64ming\xff", "\"streaming\"", b""),
    ("String", b"\x7f\xff", "\"\"", b""),
    ("String", b"\x7f\x61\xc3\x61\xa9\xff", "\"\u{e9}\"", b""),
    ("Bytes", b"\x44\x01\x02\x03\x04\x05", "Bytes([1, 2, 3, 4])", b"\x05"),
    ("Bytes", FIVE_BYTES, "Bytes([1, 2, 3, 4, 5])", b""),
    ("UncheckedStr", b"\x61\xff\x01", "UncheckedStr([255])", b"\x01"),
    ("UncheckedStr", b"\x7f\x61\xff\x61\xfe\xff", "UncheckedStr([255, 254])", b""),
    ("canonical_buf", b"\x44\x01\x02\x03\x04\x05", "[1, 2, 3, 4]", b"\x05"),
};

const FIVE_BYTES: &[u8] = b"\x5f\x42\x01\x02\x43\x03\x04\x05\xff";

const CONTAINERS: &[Row] = table! {
    ("Vec", b"\x83\x01\x02\x03\x04", "[1, 2, 3]", b"\x04"),
    ("Vec", b"\x9f\x01\x18\xff\xff\x04", "[1, 255]", b"\x04"),
    ("Vec", b"\x9f\xff", "[]", b""),
    ("Vec of bool", b"\x9f\xf5\xf4\xff", "[true, false]", b""),
    ("Vec of String", b"\x82\x61a\x62bc\xff", "[\"a\", \"bc\"]", b"\xff"),
    ("Vec of String", b"\x9f\x61a\x7f\x61b\x61c\xff\xff", "[\"a\", \"bc\"]", b""),
    ("Vec of String", b"\x9f\x7f\xff\x61a\xff", "[\"\", \"a\"]", b""),
    ("Vec of String", b"\x82\x7f\xff\x61a", "[\"\", \"a\"]", b""),
    ("Map", b"\xa2\x01\x02\x03\x04\x05", "Map([(1, 2), (3, 4)])", b"\x05"),
    ("Map", b"\xbf\x01\x02\xff", "Map([(1, 2)])", b""),
    ("Map", b"\xa2\x01\x02\x01\x03", "Map([(1, 2), (1, 3)])", b""),
    ("Map of String", b"\xa1\x61a\x61b\x00", "Map([(\"a\", \"b\")])", b"\x00"),
    ("Map of String", b"\xbf\x61a\x61b\x61c\x61d\xff", "Map([(\"a\", \"b\"), (\"c\", \"d\")])",
        b""),
};

// Items within others.
const NESTED: &[Row] = table! {
    ("Vec of Vec", b"\x82\x81\x01\x80\x02", "[[1], []]", b"\x02"),
    ("Vec of Option", b"\x82\xf6\x05\x02", "[None, Some(5)]", b"\x02"),
    ("Vec of Nothing", b"\x83\x00", "[Nothing, Nothing, Nothing]", b"\x00"),
    ("Box", b"\x18\xff\x00", "255", b"\x00"),
    ("Tag of String", b"\xd8\x20\x61a\x00", "Tag(32, \"a\")", b"\x00"),
    ("Maybe of String", b"\x80\x00", "Maybe(None)", b"\x00"),
    ("Maybe of String", b"\x81\x61a", "Maybe(Some(\"a\"))", b""),
    ("Maybe of Vec", b"\x81\x82\x611\x612", "Maybe(Some([\"1\", \"2\"]))", b""),
    ("Option of String", b"\x61a\x00", "Some(\"a\")", b"\x00"),
    ("Vec of Bytes", TWO_STRINGS, "[Bytes([1]), Bytes([2])]", b""),
    ("Map of a String", b"\xa1\x7f\x61k\xff\x01", "Map([(\"k\", 1)])", b""),
};

const TWO_STRINGS: &[u8] = b"\x9f\x5f\x41\x01\xff\x41\x02\xff";

// Whole items.
const VALUES: &[Row] = table! {
    ("Value", b"\x83\x01\x80\xa0\x00", "Array([Integer(1), Array([]), Map([])])", b"\x00"),
    ("Value", b"\x9f\xc1\xf6\xff", "Array([Tag(1, Null)])", b""),
    ("Value", b"\x5f\x42\x01\x02\x41\x03\xff", "Bytes([1, 2, 3])", b""),
    ("Value", b"\x42\x01\x02\x03", "Bytes([1, 2])", b"\x03"),
    ("Value", b"\xd8\x18\x7f\x61x\x61y\xff", "Tag(24, Text(\"xy\"))", b""),
    ("Value", b"\xa1\x61a\x81\x20", "Map([(Text(\"a\"), Array([Integer(-1)]))])", b""),
    ("Value", b"\xbf\x61a\xf4\x01\x61b\xff",
        "Map([(Text(\"a\"), Bool(false)), (Integer(1), Text(\"b\"))])", b""),
    ("Value", FIVE_BYTES, "Bytes([1, 2, 3, 4, 5])", b""),
    ("Value", b"\x7f\x65strea\x64ming\xff", "Text(\"streaming\")", b""),
    ("Value", b"\x9f\xff", "Array([])", b""),
    ("Value", b"\x9f\x01\x82\x02\x03\x9f\x04\x05\xff\xff", ARRAYS, b""),
    ("Value", b"\x83\x01\x82\x02\x03\x9f\x04\x05\xff", ARRAYS, b""),
    ("Value", b"\xbf\x61a\x01\x61b\x9f\x02\x03\xff\xff",
        "Map([(Text(\"a\"), Integer(1)), (Text(\"b\"), Array([Integer(2), Integer(3)]))])", b""),
    ("Value", b"\x82\x61a\xbf\x61b\x61c\xff",
        "Array([Text(\"a\"), Map([(Text(\"b\"), Text(\"c\"))])])", b""),
    ("Value", b"\xbf\x63Fun\xf5\x63Amt\x21\xff",
        "Map([(Text(\"Fun\"), Bool(true)), (Text(\"Amt\"), Integer(-2))])", b""),
    ("Value", b"\x9f\x7f\xff\x61a\xff", "Array([Text(\"\"), Text(\"a\")])", b""),
    ("Value", b"\x82\x7f\xff\x61a", "Array([Text(\"\"), Text(\"a\")])", b""),
    ("Value", b"\xa1\x7f\x61k\xff\x01", "Map([(Text(\"k\"), Integer(1))])", b""),
    ("Value", TWO_STRINGS, "Array([Bytes([1]), Bytes([2])])", b""),
    ("Value", LONG_TAG, "Tag(42, Integer(0))", b""),
    ("Value", b"\xa2\x01\x02\x01\x03", "Map([(Integer(1), Integer(2)), (Integer(1), Integer(3))])",
        b""),
    ("Value", b"\x9f\xf5\xf4\xff", "Array([Bool(true), Bool(false)])", b""),
    ("Value", ONE_TWO, "Array([Array([Text(\"1\"), Text(\"2\")])])", b""),
    ("Value", OPTIONS, "Array([Integer(153), Null, Integer(51)])", b""),
    ("Value", PAIR, "Array([Array([Integer(10), Integer(99999)])])", b""),
};

const LONG_TAG: &[u8] = b"\xdb\x00\x00\x00\x00\x00\x00\x00\x2a\x00";

const ARRAYS: &str =
    "Array([Integer(1), Array([Integer(2), Integer(3)]), Array([Integer(4), Integer(5)])])";

const ONE_TWO: &[u8] = b"\x81\x82\x611\x612";

const OPTIONS: &[u8] = b"\x83\x18\x99\xf6\x18\x33";

const PAIR: &[u8] = b"\x81\x82\x0a\x1a\x00\x01\x86\x9f";

const CANONICAL: &[Row] = table! {
    ("Canonical", b"\x82\xc1\xf6\x80\x00", "Canonical(Array([Tag(1, Null), Array([])]))", b"\x00"),
    ("Canonical", b"\xa1\x61a\x41\x05", "Canonical(Map([(Text(\"a\"), Bytes([5]))]))", b""),
    ("Canonical", b"\x82\x01\x02\x03", "Canonical(Array([Integer(1), Integer(2)]))", b"\x03"),
    ("Canonical", ONE_TWO, "Canonical(Array([Array([Text(\"1\"), Text(\"2\")])]))", b""),
    ("Canonical", OPTIONS, "Canonical(Array([Integer(153), Null, Integer(51)]))", b""),
    ("Canonical", PAIR, "Canonical(Array([Array([Integer(10), Integer(99999)])]))", b""),
};

const REJECTED: &[Row] = table! {
    ("a rejected Value", b"\x82\x01\x62\x61", eof!("str", 1), b""),
    ("a rejected Value", b"\x9f\x62\xff\xff\x00\xff", require_utf8!("str"), b"\x00\xff"),
    ("a rejected Value", b"\xbf\x01\xff", unsupported!("value", 0xff), b"\xff"),
    ("a rejected Value", b"\x81\x61\xff\x00", require_utf8!("str"), b"\x00"),
    ("a rejected Value", b"\xa1\x61\x61\x61\xff\x00", require_utf8!("str"), b"\x00"),
    ("a rejected Value", b"\xa1\x61\x61\xe0", unsupported!("value", 0xe0), b"\xe0"),
    ("a rejected Canonical", b"\x81\x61\xff\x00", require_utf8!("str"), b"\x00"),
    ("a rejected Canonical", b"\xa1\x61\x61\x61\xff\x00", require_utf8!("str"), b"\x00"),
    ("a rejected Canonical", b"\xa1\x61\x61\x18\x05\x00", not_canonical!("canonical"), b"\x00"),
};

/// What takes no memory of an item, or in its place.
struct Taken;

impl Calls for Taken {
    fn call<S: Source>(name: &str, alloc: Global, reader: &mut S, text: Pieces<'_>) -> Told<S> {
        match name {
            "Negative of u8" => says(<Negative<u8>>::decode(alloc, reader), text),
            "Negative of u16" => says(<Negative<u16>>::decode(alloc, reader), text),
            "Negative of u32" => says(<Negative<u32>>::decode(alloc, reader), text),
            "Negative of u64" => says(<Negative<u64>>::decode(alloc, reader), text),
            "Simple" => says(Simple::decode(alloc, reader), text),
            "Nothing" => says(Nothing::decode(alloc, reader), text),
            "IgnoredAny" => says(IgnoredAny::decode(alloc, reader), text),
            "Array::len" => says(Array::len(reader), text),
            "Map::len" => says(Map::len(reader), text),
            "Tag::tag" => says(Tag::tag(reader), text),
            "is_break" => says(is_break(reader), text),
            "canonical_head" => says(canonical_head("tag", 6, reader), text),
            "Option" => says(<Option<u8>>::decode(alloc, reader), text),
            "Tag of u8" => says(<Tag<u8>>::decode(alloc, reader), text),
            _ => Ok(false),
        }
    }
}

const TAKEN: &[Row] = table! {
    ("Negative of u8", b"\x38\x63\x00", "Negative(99)", b"\x00"),
    ("Negative of u16", b"\x39\x03\xe7\x00", "Negative(999)", b"\x00"),
    ("Negative of u32", DEBT, "Negative(999999)", b"\x00"),
    ("Negative of u64", LESS, "Negative(999999999999)", b"\x00"),
    ("Simple", b"\xf8\xff\x00", "Simple(255)", b"\x00"),
    ("Nothing", b"\x00", "Nothing", b"\x00"),
    ("IgnoredAny", b"\x9f\x7f\x61a\xff\xa1\x01\x02\xff\x00", "IgnoredAny", b"\x00"),
    ("IgnoredAny", b"\xbf\x61a\x9f\x5f\x41\x05\xff\xff\xff\x00", "IgnoredAny", b"\x00"),
    ("Array::len", b"\x98\x19\x00", "Some(25)", b"\x00"),
    ("Array::len", b"\x9f\xff", "None", b"\xff"),
    ("Map::len", b"\xb9\x03\xe8\x00", "Some(1000)", b"\x00"),
    ("Map::len", b"\xbf\xff", "None", b"\xff"),
    ("Tag::tag", LONG_TAG, "42", b"\x00"),
    ("is_break", b"\xff\x00", "true", b"\x00"),
    ("is_break", b"\x00", "false", b"\x00"),
    ("canonical_head", b"\xd8\x2a\x00", "42", b"\x00"),
    ("Option", b"\xf6\x00", "None", b"\x00"),
    ("Tag of u8", LONG_TAG, "Tag(42, 0)", b""),
};

/// Items by their decoders, and whole items.
pub fn items(tally: &mut Tally) -> Result<(), Broken> {
    for rows in [STRINGS, CONTAINERS, NESTED, VALUES, CANONICAL, REJECTED] {
        reads::<Item>(tally, Left::AnEnd, rows)?;
    }
    reads::<Taken>(tally, Left::Never, TAKEN)
}
