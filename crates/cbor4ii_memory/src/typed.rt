//! Rows of typed values and of the calls of a deserializer.
use crate::debug_text::{Pieces, has_debug_text};
use crate::read::{Calls, Left, Row, Told, as_core, reads, says, told};
use crate::tally::{Broken, Tally};
use cbor4ii::Value;
use cbor4ii::dec::IgnoredAny;
use cbor4ii::serde::{self, Deserialize, Deserializer, Optional, from_reader, from_slice};
use cbor4ii::types::Bytes;
use cbor4ii_rw::error::{DecodeError, StaticStr};
use cbor4ii_rw::read::Source;
use cbor4ii_vectors::streams::FailingStream;
use cbor4ii_vectors::table;
use std::alloc::Global;
use std::collections::BTreeMap;

/// A type whose values take memory.
pub struct Typed;

impl Calls for Typed {
    fn call<S: Source>(name: &str, alloc: Global, reader: &mut S, text: Pieces<'_>) -> Told<S> {
        let de = &mut Deserializer::new(reader);
        match name {
            "typed String" => told(String::deserialize(alloc, de), text),
            "typed Bytes" => told(<Bytes<Vec<u8>>>::deserialize(alloc, de), text),
            "typed Vec" => told(<Vec<u8>>::deserialize(alloc, de), text),
            "typed Vec of pairs" => told(
                <Option<Vec<(String, Box<u8>)>>>::deserialize(alloc, de),
                text,
            ),
            "typed BTreeMap" => told(<BTreeMap<u8, u8>>::deserialize(alloc, de), text),
            "typed map" => told(
                <BTreeMap<String, Vec<String>>>::deserialize(alloc, de),
                text,
            ),
            "deserialize_any" => told(de.deserialize_any(alloc), text),
            "typed char" => told(char::deserialize(alloc, de), text),
            "typed Box" => told(<Box<u8>>::deserialize(alloc, de), text),
            "typed Option" => told(<Option<String>>::deserialize(alloc, de), text),
            "typed pair" => told(<(String, String)>::deserialize(alloc, de), text),
            "typed triple" => told(<(String, u8, String)>::deserialize(alloc, de), text),
            "typed Value" => told(Value::deserialize(alloc, de), text),
            "options" => told(<Vec<Option<u32>>>::deserialize(alloc, de), text),
            "optional pairs" => told(<Option<Vec<(u128, i128)>>>::deserialize(alloc, de), text),
            "flags" => told(<Vec<bool>>::deserialize(alloc, de), text),
            "texts" => told(<Vec<String>>::deserialize(alloc, de), text),
            "byte strings" => told(<Vec<Bytes<Vec<u8>>>>::deserialize(alloc, de), text),
            "map of a text" => told(<BTreeMap<String, u8>>::deserialize(alloc, de), text),
            _ => Ok(false),
        }
    }
}

const TYPES: &[Row] = table! {
    ("typed String", b"\x64IETF\x01", "\"IETF\"", b"\x01"),
    ("typed String", b"\x7f\x61a\x61b\xff", "\"ab\"", b""),
    ("typed Bytes", b"\x5f\x41\x01\x41\x02\xff", "Bytes([1, 2])", b""),
    ("typed Vec", b"\x83\x01\x02\x03\x04", "[1, 2, 3]", b"\x04"),
    ("typed Vec of pairs", b"\x82\x82\x61a\x01\x82\x61b\x02", "Some([(\"a\", 1), (\"b\", 2)])",
        b""),
    ("typed Vec of pairs", b"\xf6\x01", "None", b"\x01"),
    ("typed BTreeMap", b"\xbf\x03\x04\x01\x02\xff\x00", "{1: 2, 3: 4}", b"\x00"),
    ("typed BTreeMap", b"\xa2\x01\x02\x01\x03", "{1: 3}", b""),
    ("typed map", b"\xa2\x61b\x80\x61a\x82\x61c\x61d", "{\"a\": [\"c\", \"d\"], \"b\": []}", b""),
    ("deserialize_any", b"\xa1\x61a\x82\x41\x05\x20",
        "Map([(Text(\"a\"), Array([Bytes([5]), Integer(-1)]))])", b""),
    ("deserialize_any", b"\x9f\x7f\x61a\xff\xf6\xff\x01", "Array([Text(\"a\"), Null])", b"\x01"),
    ("typed char", b"\x61a\x01", "'a'", b"\x01"),
    ("typed char", b"\x7f\x61\xc3\x61\xa9\xff", "'é'", b""),
    ("typed Box", b"\x18\xff\x00", "255", b"\x00"),
    ("typed Option", b"\x61a\x00", "Some(\"a\")", b"\x00"),
    ("typed pair", b"\x82\x61a\x7f\x61b\xff", "(\"a\", \"b\")", b""),
    ("typed triple", b"\x83\x61a\x05\x61b", "(\"a\", 5, \"b\")", b""),
    ("typed Value", b"\x81\x61a\x00", "Array([Text(\"a\")])", b"\x00"),
    ("options", b"\x83\x18\x99\xf6\x18\x33", "[Some(153), None, Some(51)]", b""),
    ("optional pairs", b"\x81\x82\x0a\x1a\x00\x01\x86\x9f", "Some([(10, 99999)])", b""),
    ("flags", b"\x9f\xf5\xf4\xff", "[true, false]", b""),
    ("texts", b"\x9f\x7f\xff\x61a\xff", "[\"\", \"a\"]", b""),
    ("texts", b"\x82\x7f\xff\x61a", "[\"\", \"a\"]", b""),
    ("byte strings", b"\x9f\x5f\x41\x01\xff\x41\x02\xff", "[Bytes([1]), Bytes([2])]", b""),
    ("map of a text", b"\xa1\x7f\x61k\xff\x01", "{\"k\": 1}", b""),
};

/// A call that takes memory.
struct Call;

impl Calls for Call {
    fn call<S: Source>(name: &str, alloc: Global, reader: &mut S, text: Pieces<'_>) -> Told<S> {
        as_core(make_call(name, alloc, &mut Deserializer::new(reader), text))
    }
}

/// What a deserializer answers: whether what it read has the text that is meant.
type Typing<S> = Result<bool, serde::DecodeError<<S as Source>::Error>>;

fn make_call<S: Source>(
    name: &str,
    alloc: Global,
    de: &mut Deserializer<S>,
    text: Pieces<'_>,
) -> Typing<S> {
    match name {
        "deserialize_char" => says(de.deserialize_char(alloc), text),
        "deserialize_string" => says(de.deserialize_string(alloc), text),
        "deserialize_byte_buf" => says(de.deserialize_byte_buf(alloc), text),
        "deserialize_newtype_struct" => {
            says::<String, _>(de.deserialize_newtype_struct(alloc, "Name"), text)
        }
        "deserialize_from" => says(de.deserialize_from::<String, String>(alloc), text),
        "deserialize_tagged" => says(de.deserialize_tagged::<String, String>(alloc, 32), text),
        "SomeAccessor::value" => says::<Option<String>, _>(
            de.deserialize_option()?.value(alloc),
            text,
        ),
        "SomeAccessor::deserializer" => {
            let mut option = de.deserialize_option()?;
            says(String::deserialize(alloc, option.deserializer()), text)
        }
        "tuple_variant" | "EnumAccessor::content" | "variant and newtype_variant" => variant(
            name, alloc, de, text,
        ),
        "next_key and next_value" => {
            let mut entries = de.deserialize_map()?;
            let key: Option<String> = entries.next_key(alloc)?;
            let value: String = entries.next_value(alloc)?;
            Ok(has_debug_text(&(key, value), text))
        }
        "next_entry" => {
            says::<Option<(String, String)>, _>(de.deserialize_map()?.next_entry(alloc), text)
        }
        "next_element" => {
            let mut items = de.deserialize_seq()?;
            let first: Option<String> = items.next_element(alloc)?;
            let second: Option<String> = items.next_element(alloc)?;
            Ok(has_debug_text(&(first, second), text))
        }
        _ => Ok(false),
    }
}

fn variant<S: Source>(
    name: &str,
    alloc: Global,
    de: &mut Deserializer<S>,
    text: Pieces<'_>,
) -> Typing<S> {
    let mut variant = de.deserialize_enum("Enum", &["A"])?;
    if name == "variant and newtype_variant" {
        let name: String = variant.variant(alloc)?;
        let content: Vec<u8> = variant.newtype_variant(alloc)?;
        return Ok(has_debug_text(&(name, content), text));
    }
    let _: IgnoredAny = variant.variant(alloc)?;
    if name == "EnumAccessor::content" {
        return says(String::deserialize(alloc, variant.content()?), text);
    }
    says::<Option<String>, _>(variant.tuple_variant(2)?.next_element(alloc), text)
}

const CALLS: &[Row] = table! {
    ("deserialize_char", b"\x61a\x01", "'a'", b"\x01"),
    ("deserialize_string", b"\x7f\x61a\x61b\xff\x01", "\"ab\"", b"\x01"),
    ("deserialize_byte_buf", b"\x5f\x41\x01\x41\x02\xff", "[1, 2]", b""),
    ("deserialize_newtype_struct", b"\x61a\x01", "\"a\"", b"\x01"),
    ("deserialize_from", b"\x7f\x61a\x61b\xff\x01", "\"ab\"", b"\x01"),
    ("deserialize_tagged", b"\xd8\x20\x61a\x01", "\"a\"", b"\x01"),
    ("SomeAccessor::value", b"\x61a\x01", "Some(\"a\")", b"\x01"),
    ("SomeAccessor::deserializer", b"\x61a\x01", "\"a\"", b"\x01"),
    ("tuple_variant", b"\xa1\x61A\x82\x61a", "Some(\"a\")", b""),
    ("EnumAccessor::content", b"\xa1\x61A\x61a", "\"a\"", b""),
    ("variant and newtype_variant", b"\xa1\x64List\x82\x01\x02\x03", "(\"List\", [1, 2])", b"\x03"),
    ("next_key and next_value", ONE, "(Some(\"k\"), \"v\")", b""),
    ("next_entry", ONE, "Some((\"k\", \"v\"))", b""),
    ("next_element", b"\x9f\x61a\x7f\x61b\xff\xff", "(Some(\"a\"), Some(\"b\"))", b"\xff"),
};

// {(_ "k"): "v"}.
const ONE: &[u8] = b"\xa1\x7f\x61k\xff\x61v";

/// Structs of fields that may be missing.
struct Struct;

const NAMES: [StaticStr; 12] = ["a", "b", "c", "d", "e", "f", "g", "h", "i", "j", "k", "l"];

/// The longest name that the first look shows with its head: of 23 bytes.
pub const LONGEST: &str = "abcdefghijklmnopqrstuvw";

/// One text, and one to four numbers.
type Text = (Option<String>, ());

type One = (Option<u8>, ());

type Two = (Option<u8>, One);

type Three = (Option<u8>, Two);

type More = (Option<u8>, Three);

/// A text and three numbers, and the fields after them.
type Four<V> = (Option<String>, (Option<u8>, (Option<u8>, (Option<u8>, V))));

/// A text and seven numbers, and the fields after them.
type Eight<V> = Four<(Option<u8>, (Option<u8>, (Option<u8>, (Option<u8>, V))))>;

/// A text, a list and a number.
type Mixed = (Option<String>, (Option<Vec<u8>>, One));

impl Calls for Struct {
    fn call<S: Source>(name: &str, alloc: Global, reader: &mut S, text: Pieces<'_>) -> Told<S> {
        as_core(read_struct(name, alloc, &mut Deserializer::new(reader), text))
    }
}

fn read_struct<S: Source>(
    name: &str,
    alloc: Global,
    de: &mut Deserializer<S>,
    text: Pieces<'_>,
) -> Typing<S> {
    let count: usize = name.parse().unwrap_or(0);
    let (keys, _) = NAMES.split_at(count.min(NAMES.len()));
    let one = (Optional, ());
    let duo = (Optional, (Optional, ()));
    let trio = (Optional, (Optional, (Optional, ())));
    let mixed = ["name", "list", "none"];
    match name {
        "1" => says::<Text, _>(de.deserialize_fields(alloc, "", keys, &[], one), text),
        "2" => says::<(Option<u8>, Text), _>(
            de.deserialize_fields(alloc, "", keys, &[], duo),
            text,
        ),
        "4" => says::<Four<()>, _>(de.deserialize_fields(alloc, "", keys, &[], of4(())), text),
        "5" => says::<Four<One>, _>(de.deserialize_fields(alloc, "", keys, &[], of4(one)), text),
        "6" => says::<Four<Two>, _>(de.deserialize_fields(alloc, "", keys, &[], of4(duo)), text),
        "7" => says::<Four<Three>, _>(de.deserialize_fields(alloc, "", keys, &[], of4(trio)), text),
        "8" => says::<Eight<()>, _>(de.deserialize_fields(alloc, "", keys, &[], of8(())), text),
        "9" => says::<Eight<One>, _>(de.deserialize_fields(alloc, "", keys, &[], of8(one)), text),
        "10" => says::<Eight<Two>, _>(de.deserialize_fields(alloc, "", keys, &[], of8(duo)), text),
        "11" => {
            says::<Eight<Three>, _>(de.deserialize_fields(alloc, "", keys, &[], of8(trio)), text)
        }
        "12" => {
            let all = of8(of4(()));
            says::<Eight<More>, _>(de.deserialize_fields(alloc, "", keys, &[], all), text)
        }
        "mixed" => says::<Mixed, _>(de.deserialize_fields(alloc, "", &mixed, &[], trio), text),
        _ => {
            let names = ["a", LONGEST];
            says::<Two, _>(de.deserialize_fields(alloc, "", &names, &[], duo), text)
        }
    }
}

/// Four fields, before others.
type FourMore<K> = (Optional, (Optional, (Optional, (Optional, K))));

fn of4<K>(others: K) -> FourMore<K> {
    (Optional, (Optional, (Optional, (Optional, others))))
}

fn of8<K>(others: K) -> FourMore<FourMore<K>> {
    of4(of4(others))
}

// {"list": [1, 2], "other": [5], "name": "a"}, and structs by the number of their fields.
const STRUCTS: &[Row] = table! {
    ("mixed", b"\xa3\x64list\x82\x01\x02\x65other\x81\x05\x64name\x61a",
        "(Some(\"a\"), (Some([1, 2]), (None, ())))", b""),
    ("1", b"\xa1\x61a\x61x\x00", "(Some(\"x\"), ())", b"\x00"),
    ("1", b"\xa1\x7f\x61a\xff\x61x", "(Some(\"x\"), ())", b""),
    ("2", b"\xa1\x61b\x61x", "(None, (Some(\"x\"), ()))", b""),
    ("4", b"\xa2\x61a\x61x\x61d\x04", "(Some(\"x\"), (None, (None, (Some(4), ()))))", b""),
    ("5", b"\xa2\x61a\x61x\x61e\x05", "(Some(\"x\"), (None, (None, (None, (Some(5), ())))))", b""),
    ("6", b"\xbf\x61f\x06\x61a\x61x\xff",
        "(Some(\"x\"), (None, (None, (None, (None, (Some(6), ()))))))", b""),
    ("7", b"\xa2\x61a\x61x\x61g\x07",
        "(Some(\"x\"), (None, (None, (None, (None, (None, (Some(7), ())))))))", b""),
    ("8", b"\xa2\x61a\x61x\x61h\x08",
        "(Some(\"x\"), (None, (None, (None, (None, (None, (None, (Some(8), ()))))))))", b""),
    ("9", b"\xa2\x61a\x61x\x61i\x09",
        "(Some(\"x\"), (None, (None, (None, (None, (None, (None, (None, (Some(9), ())))))))))",
        b""),
    ("10", b"\xa2\x61a\x61x\x61j\x0a",
        "(Some(\"x\"), (None, (None, (None, (None, (None, (None, (None, \
(None, (Some(10), ()))))))))))", b""),
    ("11", b"\xa2\x61a\x61x\x61k\x0b",
        "(Some(\"x\"), (None, (None, (None, (None, (None, (None, (None, \
(None, (None, (Some(11), ())))))))))))", b""),
    ("12", b"\xa2\x61a\x61x\x61l\x0c",
        "(Some(\"x\"), (None, (None, (None, (None, (None, (None, (None, \
(None, (None, (None, (Some(12), ()))))))))))))", b""),
};

// Structs of two fields, of which each reader shows each name whole. A field of no known name is
// skipped.
const IN_PLACE: &[Row] = table! {
    ("in place", b"\xbf\x61a\x01\xff\x00", "(Some(1), (None, ()))", b"\x00"),
    ("in place", b"\xa2\x61z\x81\x05\x61a\x02", "(Some(2), (None, ()))", b""),
};

/// The unit, a tagged number, what is skipped, and what is opened and not read.
struct Opened;

impl Calls for Opened {
    fn call<S: Source>(name: &str, alloc: Global, reader: &mut S, text: Pieces<'_>) -> Told<S> {
        as_core(open(name, alloc, &mut Deserializer::new(reader), text))
    }
}

fn open<S: Source>(
    name: &str,
    alloc: Global,
    de: &mut Deserializer<S>,
    text: Pieces<'_>,
) -> Typing<S> {
    let length = match name {
        "typed unit" => return says(<()>::deserialize(alloc, de), text),
        "deserialize_unit" => return says(de.deserialize_unit(), text),
        "deserialize_unit_struct" => return says(de.deserialize_unit_struct("Unit"), text),
        "deserialize_tagged" => return says(de.deserialize_tagged::<u16, u16>(alloc, 1), text),
        "typed IgnoredAny" => return says(IgnoredAny::deserialize(alloc, de), text),
        "deserialize_ignored_any" => return says(de.deserialize_ignored_any(alloc), text),
        "deserialize_option" => return Ok(has_debug_text(
            &de.deserialize_option()?.is_some(),
            text,
        )),
        "deserialize_seq" => de.deserialize_seq()?.size_hint(),
        "deserialize_tuple" => de.deserialize_tuple(2)?.size_hint(),
        "deserialize_tuple_struct" => de.deserialize_tuple_struct("Pair", 2)?.size_hint(),
        "deserialize_map" => de.deserialize_map()?.size_hint(),
        "deserialize_struct" => de.deserialize_struct("One", &["a"])?.size_hint(),
        _ => return open_variant(name, alloc, de, text),
    };
    Ok(has_debug_text(&length, text))
}

// A variant whose name is skipped, and what is opened of it.
fn open_variant<S: Source>(
    name: &str,
    alloc: Global,
    de: &mut Deserializer<S>,
    text: Pieces<'_>,
) -> Typing<S> {
    let mut variant = de.deserialize_enum("Enum", &["A"])?;
    if name == "deserialize_enum" {
        return Ok(has_debug_text(&(), text));
    }
    let _: IgnoredAny = variant.variant(alloc)?;
    let length = match name {
        "tuple_variant" => variant.tuple_variant(2)?.size_hint(),
        "struct_variant" => variant.struct_variant()?.size_hint(),
        _ => return says(variant.unit_variant(), text),
    };
    Ok(has_debug_text(&length, text))
}

const OPENED: &[Row] = table! {
    ("typed unit", b"\x80\x00", "()", b"\x00"),
    ("deserialize_unit", b"\x80\x00", "()", b"\x00"),
    ("deserialize_unit_struct", b"\x80\x00", "()", b"\x00"),
    ("deserialize_tagged", b"\xc1\x19\x01\xf4\x00", "500", b"\x00"),
    ("typed IgnoredAny", SKIPPED, "IgnoredAny", b"\x00"),
    ("deserialize_ignored_any", SKIPPED, "()", b"\x00"),
    ("deserialize_option", b"\xf6\x05", "false", b"\x05"),
    ("deserialize_option", b"\x05\x06", "true", b"\x05\x06"),
    ("deserialize_seq", b"\x83\x01", "Some(3)", b"\x01"),
    ("deserialize_seq", b"\x9f\x01", "None", b"\x01"),
    ("deserialize_tuple", b"\x82\x01", "Some(2)", b"\x01"),
    ("deserialize_tuple_struct", b"\x82\x01", "Some(2)", b"\x01"),
    ("deserialize_map", b"\xa1\x01", "Some(1)", b"\x01"),
    ("deserialize_map", b"\xbf\x01", "None", b"\x01"),
    ("deserialize_struct", b"\xa1\x61a", "Some(1)", b"\x61a"),
    ("deserialize_enum", b"\x61A\x00", "()", b"\x61A\x00"),
    ("deserialize_enum", b"\xa1\x61A\x00", "()", b"\x61A\x00"),
    ("unit_variant", b"\x61A\x00", "()", b"\x00"),
    ("tuple_variant", b"\xa1\x61A\x82\x01", "Some(2)", b"\x01"),
    ("struct_variant", b"\xa1\x61A\xa1\x01", "Some(1)", b"\x01"),
    ("struct_variant", b"\xa1\x61A\xbf\x01", "None", b"\x01"),
};

const SKIPPED: &[u8] = b"\x9f\x7f\x61a\xff\xff\x00";

/// Typed values, and calls by their names.
pub fn types(tally: &mut Tally) -> Result<(), Broken> {
    reads::<Typed>(tally, Left::AnEnd, TYPES)?;
    reads::<Call>(tally, Left::AnEnd, CALLS)?;
    reads::<Struct>(tally, Left::AnEnd, STRUCTS)?;
    reads::<Struct>(tally, Left::Never, IN_PLACE)?;
    reads::<Opened>(tally, Left::Never, OPENED)?;
    firsts(tally)
}

// The calls that read one value off a whole input: ["a", "bc"], and a break after it.
fn firsts(tally: &mut Tally) -> Result<(), Broken> {
    let list = b"\x82\x61a\x62bc\xff".as_slice();
    let text: Pieces<'static> = &[("[\"a\", \"bc\"]", 1)];
    let got: Result<Vec<String>, _> = from_slice(tally.alloc(), list);
    is_first(tally, "from_slice", &told(got, text))?;
    let stream = FailingStream::new(list, 3, usize::MAX);
    let got: Result<Vec<String>, _> = from_reader(tally.alloc(), stream);
    is_first(tally, "from_reader", &told(got, text))
}

fn is_first<E>(
    tally: &mut Tally,
    row: &'static str,
    got: &Result<bool, DecodeError<E>>,
) -> Result<(), Broken> {
    match got {
        Ok(true) => {}
        Ok(false) => return Err(Broken::new(row, "another value is read")),
        Err(DecodeError::OutOfMemory) => tally.refuse(),
        Err(_) => return Err(Broken::new(row, "it is rejected")),
    }
    Ok(())
}
