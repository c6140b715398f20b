//! Rows of structs that borrow from the input.
ghost use Rattle.std.specs.Prelude.{◌∷◌, [], codes};
ghost use Rattle.cbor4ii_ser.specs.Item.{field, struct_encoding};

use crate::enumeration::Enum;
use crate::label::Label;
use cbor4ii::enc::Write;
use cbor4ii::error::{DecodeError as CoreError, Never};
use cbor4ii::serde::{
    DecodeError, Deserialize, Deserializer, EncodeError, Or, Required, Serialize, Serializer,
    Typed, from_slice,
};
use cbor4ii::types::Bytes;
use cbor4ii::utils::SliceReader;
use cbor4ii_vectors_de::typed::comes_back_lent;
use std::alloc::Global;
use std::collections::BTreeMap;
use std::test::Fail;

const LABEL: &[u8] = b"\xa2\x62id\x05\x64text\x61a";

// The bytes live no longer than the test.
#[test]
fn a_struct_that_borrows_comes_back(rt: HostRuntime) -> Result<(), Fail> {
    let alloc = rt.alloc();
    let bytes = Vec::from_slice(alloc, LABEL)?;
    comes_back_lent::<&[u8], Label<'_>>(alloc, &bytes, &bytes, "Label { id: 5, text: \"a\" }")
}

/// The text of the struct at the beginning of the bytes.
fn text_of(alloc: Global, bytes: &[u8]) -> Result<&str, DecodeError<Never>> {
    let label: Label<'_> = from_slice(alloc, bytes)?;
    Ok(label.text)
}

#[test]
fn a_text_outlives_the_struct_that_borrowed_it(rt: HostRuntime) -> Result<(), Fail> {
    let alloc = rt.alloc();
    let bytes = Vec::from_slice(alloc, LABEL)?;
    assert_eq!(rt; text_of(alloc, &bytes)?, "a");
    Ok(())
}

#[test]
fn a_label_without_a_text_is_rejected(rt: HostRuntime) -> Result<(), Fail> {
    let rejection = text_of(rt.alloc(), b"\xa1\x62id\x05").err();
    assert_eq!(rt;
        rejection,
        Some(DecodeError::Custom("a label has one text"))
    );
    Ok(())
}

#[test]
fn a_label_with_two_texts_is_rejected(rt: HostRuntime) -> Result<(), Fail> {
    let rejection = text_of(rt.alloc(), b"\xa3\x62id\x05\x64text\x61a\x64text\x61a").err();
    assert_eq!(rt;
        rejection,
        Some(DecodeError::Custom("a label has one text"))
    );
    Ok(())
}

#[test]
fn a_text_in_chunks_cannot_be_lent(rt: HostRuntime) -> Result<(), Fail> {
    let rejection = text_of(rt.alloc(), b"\xa1\x64text\x7f\x61a\xff").err();
    let wanted = CoreError::RequireBorrowed { name: "str" };
    assert_eq!(rt; rejection, Some(DecodeError::Core(wanted)));
    Ok(())
}

/// A struct that has a field of each kind.
#[derive(Debug, Drop)]
struct Record<'a> {
    name: char,
    objects: BTreeMap<String, Vec<String>>,
    bytes: Bytes<&'a [u8]>,
    variants: BTreeMap<String, Enum>,
    unit: Option<()>,
    text: &'a str,
}

impl<'a> Serialize for Record<'a> {
    ghost encoding = { λ r. struct_encoding
        (field (codes "name") (⟦<char as Serialize>⟧.encoding r.name)
        ∷ field (codes "objects") (⟦<BTreeMap<String, Vec<String>> as Serialize>⟧.encoding
        r.objects)
        ∷ field (codes "bytes") (⟦<Bytes<&'a [u8]> as Serialize>⟧.encoding r.bytes)
        ∷ field (codes "variants") (⟦<BTreeMap<String, Enum> as Serialize>⟧.encoding r.variants)
        ∷ field (codes "unit") (⟦<Option<()> as Serialize>⟧.encoding r.unit)
        ∷ field (codes "text") (⟦<&'a str as Serialize>⟧.encoding r.text) ∷ []) };

    fn serialize<W: Write>(&self, ser: &mut Serializer<W>) -> Result<(), EncodeError<W::Error>> {
        ser.serialize_6_fields(
            "Record",
            "name",
            &self.name,
            "objects",
            &self.objects,
            "bytes",
            &self.bytes,
            "variants",
            &self.variants,
            "unit",
            &self.unit,
            "text",
            &self.text,
        )
    }
}

impl<'a> Deserialize<SliceReader<'a>> for Record<'a> {
    fn deserialize(
        alloc: Global,
        de: &mut Deserializer<SliceReader<'a>>,
    ) -> Result<Record<'a>, DecodeError<Never>> {
        let names = ["name", "objects", "bytes", "variants", "unit", "text"];
        let missing = ["a field is missing"; 6];
        let presences = (
            Required,
            (Required, (Required, (Required, (Or(None), (Required, ()))))),
        );
        de.deserialize_fields(alloc, "Record", &names, &missing, presences)
    }
}

type Fields<'a> = (
    char,
    (
        BTreeMap<String, Vec<String>>,
        (
            Bytes<&'a [u8]>,
            (BTreeMap<String, Enum>, (Option<()>, (&'a str, ()))),
        ),
    ),
);

impl<'a> From<Fields<'a>> for Record<'a> {
    fn from(fields: Fields<'a>) -> Record<'a> {
        let (name, (objects, (bytes, (variants, (unit, (text, ())))))) = fields;
        Record {
            name,
            objects,
            bytes,
            variants,
            unit,
            text,
        }
    }
}

impl<'a> Typed for Record<'a> {}

const RECORD: &[u8] = b"\xa6\x64name\x61G\
\x67objects\xa2\x63obj\x80\x64obj2\x83\x64obj3\x64obj4\x60\
\x65bytes\x43\x01\x02\x03\
\x68variants\xa4\x64key0\x64Unit\x64key1\xa1\x65Tuple\x82\x65value\xf5\
\x64key2\xa1\x66Struct\xa2\x61x\x01\x61y\x38\x98\x64key3\xa1\x67NewType\x19\x03\xe7\
\x64unit\x80\x64text\x6bhello world";

const RECORD_SHOWN: &str = "Record { name: 'G', \
objects: {\"obj\": [], \"obj2\": [\"obj3\", \"obj4\", \"\"]}, \
bytes: Bytes([1, 2, 3]), \
variants: {\"key0\": Unit, \"key1\": Tuple(\"value\", true), \
\"key2\": Struct { x: 1, y: -153 }, \"key3\": NewType(999)}, \
unit: Some(()), text: \"hello world\" }";

#[test]
fn a_struct_of_each_kind_of_field_comes_back(rt: HostRuntime) -> Result<(), Fail> {
    let alloc = rt.alloc();
    let bytes = Vec::from_slice(alloc, RECORD)?;
    comes_back_lent::<&[u8], Record<'_>>(alloc, &bytes, &bytes, RECORD_SHOWN)
}
