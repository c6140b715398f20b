//! An enum that is written and read inside other types, as in a vector or a map.
ghost use Rattle.std.specs.Prelude.{◌≡◌, codes};
ghost use Rattle.std.proofs.Common.{refl};
ghost use Rattle.cbor4ii.specs.CodecAgrees.{as_described};
ghost use Rattle.cbor4ii.specs.CodecCases.{enum_codec, unit_variant, variant, variant_of_fields};
ghost use Rattle.cbor4ii.specs.CodecCases.{no_case};
ghost use Rattle.cbor4ii.specs.CodecFields.{with_field_once, no_fields};
ghost use Rattle.cbor4ii.specs.Fields.{no_values};
ghost use Rattle.std.specs.declared.string.ParseError.{Infallible};
ghost use Rattle.cbor4ii.specs.declared.serde.de.cases.Choice.TheVariants.{First, Other};
ghost use Rattle.cbor4ii_examples.specs.declared.event.Event.{Event};

use crate::sample::Sample;
use cbor4ii::dec::Source;
use cbor4ii::enc::Write;
use cbor4ii::error::Never;
use cbor4ii::serde::Choice::{First, Other};
use cbor4ii::serde::{
    AsDescribed, Choice, DecodeError, Described, Deserialize, Deserializer, EncodeError,
    FieldWords, Holds, HoldsFields, Once, Otherwise, Required, Serialize, Serializer, Typed, Unit,
};
use std::alloc::Global;
use std::marker::PhantomData;

/// What happened at a station.
#[derive(Debug, PartialEq, Eq, Drop)]
pub enum Event {
    /// It started.
    Started,
    /// A sensor was read.
    Sampled(Sample),
    /// It was moved, so far east and so far north.
    Moved(i32, i32),
    /// It was given a name.
    Named { id: u32, name: String },
}

/// The variant's name as a text, or a map of the name to the content.
impl Serialize for Event {
    ghost encoding = { ⟦<Event as Described>⟧.codec.encoding };

    fn serialize<W: Write>(&self, ser: &mut Serializer<W>) -> Result<(), EncodeError<W::Error>> {
        match self {
            Event::Started => ser.serialize_unit_variant("Event", 0, "Started"),
            Event::Sampled(first) => ser.serialize_newtype_variant("Event", 1, "Sampled", first),
            Event::Moved(first, second) => {
                ser.serialize_newtype_variant("Event", 2, "Moved", &(*first, *second))
            }
            Event::Named { id, name } => {
                ser.serialize_variant_of_2_fields("Event", 3, "Named", "id", id, "name", name)
            }
        }
    }
}

impl<S: Source> Deserialize<S> for Event {
    fn deserialize(
        alloc: Global,
        de: &mut Deserializer<S>,
    ) -> Result<Event, DecodeError<S::Error>> {
        let variants = ["Started", "Sampled", "Moved", "Named"];
        let others = Otherwise("no such event");
        let names = &["id", "name"];
        let missing = &["a name has one id", "a name has one text"];
        let words = FieldWords(names, missing, PhantomData);
        let presences = (Once(Required), (Once(Required), ()));
        let others = HoldsFields(words, presences, others);
        let others = (Unit, (Holds, (Holds, others)));
        de.deserialize_variant(alloc, "Event", &variants, others)
    }
}

type EventChoice = Choice<
    (),
    Choice<Sample, Choice<(i32, i32), Choice<(u32, (String, ())), Never>>>,
>;

impl From<EventChoice> for Event {
    ghost from_gives = { λ choice e. e ≡ elim choice [
      | First held ↦ Event.Started
      | Other others ↦ elim others [
        | First held ↦ Event.Sampled held
        | Other others ↦ elim others [
          | First held ↦ Event.Moved held.0 held.1
          | Other others ↦ elim others [
            | First held ↦ Event.Named held.0 held.1.0
            | Other others ↦ elim others [ ]
          ]
        ]
      ]
    ] };

    fn from(choice: EventChoice) -> Event {
        match choice {
            First(()) => Event::Started,
            Other(First(first)) => Event::Sampled(first),
            Other(Other(First((first, second)))) => Event::Moved(first, second),
            Other(Other(Other(First(fields)))) => {
                let (id, (name, ())) = fields;
                Event::Named { id, name }
            }
        }
    }
}

impl Typed for Event {
    ghost promise = { ⟦<Event as Described>⟧.codec.promise };
}

impl Described for Event {
    ghost codec = { enum_codec (elim [
      | Event.Started ↦ First tt
      | Event.Sampled first ↦ Other (First first)
      | Event.Moved first second ↦ Other (Other (First (first, second)))
      | Event.Named first second ↦ Other (Other (Other (First (first, (second, no_values)))))
    ])
        (elim [
          | First held ↦ Event.Started
          | Other others ↦ elim others [
            | First held ↦ Event.Sampled held
            | Other others ↦ elim others [
              | First held ↦ Event.Moved held.0 held.1
              | Other others ↦ elim others [
                | First held ↦ Event.Named held.0 held.1.0
                | Other others ↦ elim others [ ]
              ]
            ]
          ]
        ])
        (elim [
          | Event.Started ↦ refl
          | Event.Sampled first ↦ refl
          | Event.Moved first second ↦ refl
          | Event.Named first second ↦ refl
        ])
        (unit_variant (codes "Started")
        (variant (codes "Sampled") ⟦<Sample as Described>⟧.codec
        (variant (codes "Moved") ⟦<(i32, i32) as Described>⟧.codec
        (variant_of_fields (codes "Named")
        (with_field_once (codes "id") (codes "a name has one id") ⟦<u32 as Described>⟧.codec
        (with_field_once (codes "name") (codes "a name has one text") ⟦<String as Described>⟧.codec
        no_fields refl) refl) refl
        (no_case {V = Infallible} (codes "no such event")) refl) refl) refl) refl) };
}

impl AsDescribed for Event {
    ghost agrees = { as_described tt refl };
}

#[cfg(test)]
pub(crate) mod tests;
