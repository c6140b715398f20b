//! Rows of enums, read by a function, and written and read by the calls for one value.
ghost use Rattle.std.specs.Prelude.{codes};
ghost use Rattle.cbor4ii_ser.specs.Item.{variant_encoding};
ghost use Rattle.cbor4ii_examples.specs.declared.enumeration.tests.Letters.TheVariants.{A};

use crate::enumeration::Enum;
use crate::recipes::tries_recipe;
use cbor4ii::dec::Source;
use cbor4ii::enc::Write;
use cbor4ii::error::{Never, StaticStr};
use cbor4ii::serde::Choice::{First, Other};
use cbor4ii::serde::{
    Choice, DecodeError, Deserialize, Deserializer, EncodeError, FieldWords, Holds, HoldsFields,
    Otherwise, Required, Serialize, Serializer, Typed, Unit, to_writer,
};
use cbor4ii_vectors::{mismatch, no_step, table};
use cbor4ii_vectors_de::typed::{BothShown, RowShown, RowShownWithin, come_back};
use std::alloc::Global;
use std::marker::PhantomData;
use std::test::Fail;

const VARIANTS: &[BothShown] = table! {
    (b"\x64Unit", "Is(Unit)"),
    // 0x999, and then 0x99 and -0x99.
    (b"\xa1\x67NewType\x19\x09\x99", "Is(NewType(2457))"),
    (b"\xa1\x65Tuple\x82\x63123\xf4", "Is(Tuple(\"123\", false))"),
    (b"\xa1\x66Struct\xa2\x61x\x18\x99\x61y\x38\x98", "Is(Struct { x: 153, y: -153 })"),
};

const VARIANTS_READ: &[RowShown] = table! {
    (b"\x64Unit\x00", Ok("Is(Unit)"), b"\x00"),
    (b"\x65Other", Ok("Custom(\"another variant\")"), b""),
    (b"\x66Struct\xa0", Err(mismatch!("enum", 102)), b"\xa0"),
    (b"\xa1\x66Struct\xa1\x61x\x01", Ok("Custom(\"a field is missing\")"), b""),
    (b"\xa1\x64Unit\x01", Err(mismatch!("enum", 161)), b"\x01"),
};

const VARIANTS_WITHIN: &[RowShownWithin] = table! {
    (b"\x64Unit", 0, Err(no_step!("enum")), b"\x64Unit"),
};

#[test]
fn variants_are_written_and_read(rt: HostRuntime) -> Result<(), Fail> {
    tries_recipe(
        rt.alloc(),
        "Enum by hand",
        VARIANTS,
        VARIANTS_READ,
        VARIANTS_WITHIN,
    )
}

impl Typed for Enum {}

const ENUM: [StaticStr; 4] = ["Unit", "NewType", "Tuple", "Struct"];

impl<S: Source> Deserialize<S> for Enum {
    fn deserialize(alloc: Global, de: &mut Deserializer<S>) -> Result<Enum, DecodeError<S::Error>> {
        let words = FieldWords(&["x", "y"], &["a field is missing"; 2], PhantomData);
        let presences = (Required, (Required, ()));
        let others = HoldsFields(words, presences, Otherwise("another variant"));
        let cases = (Unit, (Holds, (Holds, others)));
        de.deserialize_variant(alloc, "Enum", &ENUM, cases)
    }
}

type Variants = Choice<(), Choice<u32, Choice<(String, bool), Choice<(u32, (i32, ())), Never>>>>;

impl From<Variants> for Enum {
    fn from(variants: Variants) -> Enum {
        match variants {
            First(()) => Enum::Unit,
            Other(First(number)) => Enum::NewType(number),
            Other(Other(First((text, flag)))) => Enum::Tuple(text, flag),
            Other(Other(Other(First((x, (y, ())))))) => Enum::Struct { x, y },
        }
    }
}

const VALUES: &[BothShown] = table! {
    (b"\x64Unit", "Unit"),
    // 0x999, and then 0x99 and -0x99.
    (b"\xa1\x67NewType\x19\x09\x99", "NewType(2457)"),
    (b"\xa1\x65Tuple\x82\x63123\xf4", "Tuple(\"123\", false)"),
    (b"\xa1\x66Struct\xa2\x61x\x18\x99\x61y\x38\x98", "Struct { x: 153, y: -153 }"),
};

#[test]
fn variants_come_back(rt: HostRuntime) -> Result<(), Fail> {
    come_back::<Enum>(rt.alloc(), VALUES)
}

/// An enum of one variant, which holds a text.
#[derive(Debug, PartialEq, Drop)]
pub enum Letters {
    A(String),
}

impl Serialize for Letters {
    ghost encoding = { λ l. elim l [
      | A s ↦ variant_encoding (codes "A") (⟦<String as Serialize>⟧.encoding s)
    ] };

    fn serialize<W: Write>(&self, ser: &mut Serializer<W>) -> Result<(), EncodeError<W::Error>> {
        let Letters::A(text) = self;
        ser.serialize_newtype_variant("Letters", 0, "A", text)
    }
}

impl Typed for Letters {}

impl From<Choice<String, Never>> for Letters {
    fn from(letters: Choice<String, Never>) -> Letters {
        match letters {
            First(text) => Letters::A(text),
        }
    }
}

impl<S: Source> Deserialize<S> for Letters {
    fn deserialize(
        alloc: Global,
        de: &mut Deserializer<S>,
    ) -> Result<Letters, DecodeError<S::Error>> {
        let cases = (Holds, Otherwise("another variant"));
        de.deserialize_variant(alloc, "Letters", &["A"], cases)
    }
}

// The empty text of the variant is written into a room that is just as long.
fn is_written_into_room(alloc: Global) -> Result<bool, Fail> {
    let mut room = [0u8; 4];
    to_writer(room.as_mut_slice(), &Letters::A(String::new(alloc)))?;
    Ok(room == *b"\xa1\x61A\x60")
}

#[test]
fn an_empty_text_in_a_variant_comes_back(rt: HostRuntime) -> Result<(), Fail> {
    let alloc = rt.alloc();
    assert!(rt; is_written_into_room(alloc)?);
    come_back::<Letters>(alloc, &[(b"\xa1\x61A\x60", "A(\"\")")])?;
    tries_recipe(
        alloc,
        "Letters",
        &[(b"\xa1\x61A\x60", "Is(A(\"\"))")],
        &[],
        &[],
    )
}
