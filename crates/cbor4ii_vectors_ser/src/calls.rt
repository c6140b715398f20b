//! What calls of a serializer write, by their names.
use crate::tagged::{is_rejected_after, tagged};
use crate::typed::{Put, Typed};
use cbor4ii_rw::buf_writer::BufWriter;
use cbor4ii_rw::error::StaticStr;
use cbor4ii_rw::write::Write;
use cbor4ii_ser::error::EncodeError;
use cbor4ii_ser::listed::FieldValues;
use cbor4ii_ser::serializer::Serializer;
use cbor4ii_tree::Value;
use cbor4ii_vectors::rows::writes;
use cbor4ii_vectors::table;
use std::test::Fail;

/// The calls of this name.
#[derive(Drop)]
struct Named(&'static str);

impl Put for Named {
    fn put<W: Write>(&self, ser: &mut Serializer<W>) -> Result<(), EncodeError<W::Error>> {
        match self.0 {
            // A flag and numbers, by the calls for them.
            "numbers" => {
                ser.serialize_bool(true)?;
                ser.serialize_i8(-1)?;
                ser.serialize_i16(-2)?;
                ser.serialize_i32(-3)?;
                ser.serialize_i64(-4)?;
                ser.serialize_i128(-5)?;
                ser.serialize_u8(1)?;
                ser.serialize_u16(2)?;
                ser.serialize_u32(3)?;
                ser.serialize_u64(4)?;
                ser.serialize_u128(5)?;
                ser.serialize_f16(1)
            }
            // Other values with no part, and one in an option, by the calls for them.
            "other leaves" => {
                ser.serialize_f32(2)?;
                ser.serialize_f64(3)?;
                ser.serialize_char('c')?;
                ser.serialize_str("st")?;
                ser.serialize_bytes(b"\x08")?;
                ser.serialize_none()?;
                ser.serialize_some(&7u8)?;
                ser.serialize_unit()
            }
            // Structs with no name of a field, and variants.
            "variants" => {
                ser.serialize_unit_struct("Nothing")?;
                ser.serialize_unit_variant("Enum", 0, "Unit")?;
                ser.serialize_newtype_struct("Wrapped", &6u8)?;
                ser.serialize_newtype_variant("Enum", 1, "New", &0x999u32)?;
                ser.serialize_newtype_variant("Letters", 0, "A", &"")
            }
            // Arrays of one item, whose length is indefinite, and then known.
            "arrays" => {
                let mut items = ser.serialize_seq(None)?;
                items.serialize_element(&1u8)?;
                items.end()?;
                let mut items = ser.serialize_seq(Some(1))?;
                items.serialize_element(&2u8)?;
                items.end()
            }
            // A map whose length is indefinite.
            "a map" => {
                let mut entries = ser.serialize_map(None)?;
                entries.serialize_key(&3u8)?;
                entries.serialize_value(&4u8)?;
                entries.serialize_entry(&5u8, &6u8)?;
                entries.end()
            }
            // A tuple and a struct without names, of one item each.
            "tuples" => {
                let mut items = ser.serialize_tuple(1)?;
                items.serialize_element(&7u8)?;
                items.end()?;
                let mut items = ser.serialize_tuple_struct("One", 1)?;
                items.serialize_element(&8u8)?;
                items.end()
            }
            // A variant of a text and a flag.
            "a tuple variant" => {
                let mut items = ser.serialize_tuple_variant("Enum", 2, "Tuple", 2)?;
                items.serialize_element(&"123")?;
                items.serialize_element(&false)?;
                items.end()
            }
            // A struct variant, field by field.
            "a struct variant" => {
                let mut fields = ser.serialize_struct_variant("Enum", 4, "E", 1)?;
                fields.serialize_field("a", &1u8)?;
                fields.end()
            }
            _ => put_fields(self.0, ser),
        }
    }
}

/// Structs and variants of several parts.
fn put_fields<W: Write>(name: &str, ser: &mut Serializer<W>) -> Result<(), EncodeError<W::Error>> {
    match name {
        // Structs of one, two and five fields.
        "structs" => {
            ser.serialize_1_field("One", "a", &1u8)?;
            ser.serialize_2_fields("Two", "a", &1u8, "b", &2u8)?;
            ser.serialize_5_fields(
                "Five", "a", &1u8, "b", &2u8, "c", &3u8, "d", &4u8, "e", &5u8,
            )
        }
        // Structs of three and four fields.
        "other structs" => {
            ser.serialize_3_fields("Three", "a", &1u8, "b", &2u8, "c", &3u8)?;
            ser.serialize_4_fields("Four", "a", &1u8, "b", &2u8, "c", &3u8, "d", &4u8)
        }
        // A struct of six fields.
        "six fields" => {
            ser.serialize_6_fields(
                "Six", "a", &1u8, "b", &2u8, "c", &3u8, "d", &4u8, "e", &5u8, "f", &6u8,
            )
        }
        // Variants of fields and of items.
        "variants of parts" => {
            let [one, two, three, four] = &[1u8, 2, 3, 4];
            ser.serialize_variant_of_1_field("Enum", 0, "A", "a", one)?;
            ser.serialize_variant_of_3_fields("Enum", 1, "B", "a", one, "b", two, "c", three)?;
            ser.serialize_variant_of_4_fields(
                "Enum", 2, "C", "a", one, "b", two, "c", three, "d", four,
            )?;
            ser.serialize_variant_of_3_items("Enum", 3, "D", one, two, three)
        }
        // Variants of two fields and of two items.
        "variants of two" => {
            ser.serialize_variant_of_2_fields("Enum", 0, "A", "a", &1u8, "b", &2u8)?;
            ser.serialize_variant_of_2_items("Enum", 1, "B", &1u8, &2u8)
        }
        _ => put_lists(name, ser),
    }
}

/// Structs that are written from a list of their fields in one call, and an array of no element.
fn put_lists<W: Write>(name: &str, ser: &mut Serializer<W>) -> Result<(), EncodeError<W::Error>> {
    match name {
        // Structs of one to four fields.
        "one to four" => {
            let [a, b, c, d] = &[1u8, 2, 3, 4];
            (a,).serialize_fields("One", &NAMES, ser)?;
            (a, b).serialize_fields("Two", &NAMES, ser)?;
            (a, b, c).serialize_fields("Three", &NAMES, ser)?;
            (a, b, c, d).serialize_fields("Four", &NAMES, ser)
        }
        // Structs of five to eight fields.
        "five to eight" => {
            let [a, b, c, d, e, f, g, h] = &[1u8, 2, 3, 4, 5, 6, 7, 8];
            (a, b, c, d, e).serialize_fields("Five", &NAMES, ser)?;
            (a, b, c, d, e, f).serialize_fields("Six", &NAMES, ser)?;
            (a, b, c, d, e, f, g).serialize_fields("Seven", &NAMES, ser)?;
            (a, b, c, d, e, f, g, h).serialize_fields("Eight", &NAMES, ser)
        }
        // Structs of nine to twelve fields.
        "nine to twelve" => {
            let [a, b, c, d, e, f, g, h, i, j, k, l] = &[1u8, 2, 3, 4, 5, 6, 7, 8, 9, 10, 11, 12];
            (a, b, c, d, e, f, g, h, i).serialize_fields("Nine", &NAMES, ser)?;
            (a, b, c, d, e, f, g, h, i, j).serialize_fields("Ten", &NAMES, ser)?;
            (a, b, c, d, e, f, g, h, i, j, k).serialize_fields("Eleven", &NAMES, ser)?;
            (a, b, c, d, e, f, g, h, i, j, k, l).serialize_fields("Twelve", &NAMES, ser)
        }
        // Structs whose keys are integers (RFC 8949 section 3.1), of each length of a head.
        "integers" => {
            let [a, b, c, d, e, f, g, h, i, j, k, l] = &[1u8, 2, 3, 4, 5, 6, 7, 8, 9, 10, 11, 12];
            (a, b, c, d, e, f, g, h, i, j, k, l).serialize_fields("Integers", &KEYS, ser)?;
            (a, b, c, d, e).serialize_fields("Below", &BELOW, ser)
        }
        // No element.
        "no element" => ser.serialize_elements(&()),
        _ => Err(EncodeError::Custom("no calls have this name")),
    }
}

pub const NAMES: [StaticStr; 12] = ["a", "b", "c", "d", "e", "f", "g", "h", "i", "j", "k", "l"];

const NUMBERS: &[u8] = b"\xf5\x20\x21\x22\x23\x24\x01\x02\x03\x04\x05\xf9\x00\x01";

const LEAVES: &[u8] =
    b"\xfa\x00\x00\x00\x02\xfb\x00\x00\x00\x00\x00\x00\x00\x03\x61c\x62st\x41\x08\xf6\x07\x80";

const VARIANTS: &[u8] = b"\x80\x64Unit\x06\xa1\x63New\x19\x09\x99\xa1\x61A\x60";

const STRUCTS: &[u8] = b"\xa1\x61a\x01\xa2\x61a\x01\x61b\x02\
\xa5\x61a\x01\x61b\x02\x61c\x03\x61d\x04\x61e\x05";

const OTHER_STRUCTS: &[u8] = b"\xa3\x61a\x01\x61b\x02\x61c\x03\
\xa4\x61a\x01\x61b\x02\x61c\x03\x61d\x04";

const SIX_FIELDS: &[u8] = b"\xa6\x61a\x01\x61b\x02\x61c\x03\x61d\x04\x61e\x05\x61f\x06";

const VARIANTS_OF_PARTS: &[u8] = b"\xa1\x61A\xa1\x61a\x01\
\xa1\x61B\xa3\x61a\x01\x61b\x02\x61c\x03\
\xa1\x61C\xa4\x61a\x01\x61b\x02\x61c\x03\x61d\x04\
\xa1\x61D\x83\x01\x02\x03";

const VARIANTS_OF_TWO: &[u8] = b"\xa1\x61A\xa2\x61a\x01\x61b\x02\xa1\x61B\x82\x01\x02";

const ONE_TO_FOUR: &[u8] = b"\xa1\x61a\x01\xa2\x61a\x01\x61b\x02\
\xa3\x61a\x01\x61b\x02\x61c\x03\xa4\x61a\x01\x61b\x02\x61c\x03\x61d\x04";

const FIVE_TO_EIGHT: &[u8] = b"\xa5\x61a\x01\x61b\x02\x61c\x03\x61d\x04\x61e\x05\
\xa6\x61a\x01\x61b\x02\x61c\x03\x61d\x04\x61e\x05\x61f\x06\
\xa7\x61a\x01\x61b\x02\x61c\x03\x61d\x04\x61e\x05\x61f\x06\x61g\x07\
\xa8\x61a\x01\x61b\x02\x61c\x03\x61d\x04\x61e\x05\x61f\x06\x61g\x07\x61h\x08";

const NINE_TO_TWELVE: &[u8] = b"\xa9\x61a\x01\x61b\x02\x61c\x03\x61d\x04\x61e\x05\x61f\x06\
\x61g\x07\x61h\x08\x61i\x09\
\xaa\x61a\x01\x61b\x02\x61c\x03\x61d\x04\x61e\x05\x61f\x06\
\x61g\x07\x61h\x08\x61i\x09\x61j\x0a\
\xab\x61a\x01\x61b\x02\x61c\x03\x61d\x04\x61e\x05\x61f\x06\
\x61g\x07\x61h\x08\x61i\x09\x61j\x0a\x61k\x0b\
\xac\x61a\x01\x61b\x02\x61c\x03\x61d\x04\x61e\x05\x61f\x06\
\x61g\x07\x61h\x08\x61i\x09\x61j\x0a\x61k\x0b\x61l\x0c";

const KEYS: [i64; 12] = [
    0,
    23,
    24,
    255,
    256,
    65535,
    65536,
    4_294_967_295,
    4_294_967_296,
    9_223_372_036_854_775_807,
    -1,
    -24,
];

const BELOW: [i64; 5] = [-25, -256, -257, -4_294_967_297, i64::MIN];

const INTEGERS: &[u8] = b"\xac\x00\x01\x17\x02\x18\x18\x03\x18\xff\x04\x19\x01\x00\x05\
\x19\xff\xff\x06\x1a\x00\x01\x00\x00\x07\x1a\xff\xff\xff\xff\x08\
\x1b\x00\x00\x00\x01\x00\x00\x00\x00\x09\x1b\x7f\xff\xff\xff\xff\xff\xff\xff\x0a\x20\x0b\x37\x0c\
\xa5\x38\x18\x01\x38\xff\x02\x39\x01\x00\x03\x3b\x00\x00\x00\x01\x00\x00\x00\x00\x04\
\x3b\x7f\xff\xff\xff\xff\xff\xff\xff\x05";

const CALLS: &[(&str, &[u8])] = table! {
    ("numbers", NUMBERS),
    ("other leaves", LEAVES),
    ("variants", VARIANTS),
    ("arrays", b"\x9f\x01\xff\x81\x02"),
    ("a map", b"\xbf\x03\x04\x05\x06\xff"),
    ("tuples", b"\x81\x07\x81\x08"),
    ("a tuple variant", b"\xa1\x65Tuple\x82\x63123\xf4"),
    ("a struct variant", b"\xa1\x61E\xa1\x61a\x01"),
    ("structs", STRUCTS),
    ("other structs", OTHER_STRUCTS),
    ("six fields", SIX_FIELDS),
    ("variants of parts", VARIANTS_OF_PARTS),
    ("variants of two", VARIANTS_OF_TWO),
    ("one to four", ONE_TO_FOUR),
    ("five to eight", FIVE_TO_EIGHT),
    ("nine to twelve", NINE_TO_TWELVE),
    ("integers", INTEGERS),
    ("no element", b"\x80"),
};

#[test]
fn calls_by_name(rt: HostRuntime) -> Result<(), Fail> {
    for (name, bytes) in CALLS {
        writes(rt.alloc(), &Typed(Named(name)), bytes)?;
    }
    Ok(())
}

#[test]
fn a_serializer_is_not_human_readable(rt: HostRuntime) {
    let ser = Serializer::new(BufWriter::new(Vec::new(rt.alloc())));
    assert!(rt; !ser.is_human_readable());
}

/// A variant and a struct whose content is rejected.
#[derive(Drop)]
struct Around(&'static str, Value);

impl Put for Around {
    fn put<W: Write>(&self, ser: &mut Serializer<W>) -> Result<(), EncodeError<W::Error>> {
        match self.0 {
            "a variant" => ser.serialize_newtype_variant("Enum", 0, "N", &self.1),
            "two fields" => ser.serialize_2_fields("Struct", "a", &1u8, "b", &self.1),
            _ => (&1u8, &self.1, &3u8).serialize_fields("Struct", &NAMES, ser),
        }
    }
}

const REJECTED: &[(&str, &[u8])] = table! {
    ("a variant", b"\xa1\x61N"),
    ("two fields", b"\xa2\x61a\x01\x61b"),
    ("a list", b"\xa3\x61a\x01\x61b"),
};

#[test]
fn what_stands_before_a_tag(rt: HostRuntime) -> Result<(), Fail> {
    let alloc = rt.alloc();
    for (name, bytes) in REJECTED {
        is_rejected_after(alloc, Around(name, tagged(alloc)?), bytes)?;
    }
    Ok(())
}
