//! A struct that borrows from the input.
ghost use Rattle.std.specs.Prelude.{◌≡◌, codes};
ghost use Rattle.std.proofs.Common.{refl};
ghost use Rattle.cbor4ii.specs.CodecAgrees.{as_described};
ghost use Rattle.cbor4ii.specs.CodecFields.{struct_codec, with_field_once, no_fields};
ghost use Rattle.cbor4ii.specs.Fields.{no_values};

use cbor4ii::enc::Write;
use cbor4ii::error::Never;
use cbor4ii::serde::{
    AsDescribed, DecodeError, Described, Deserialize, Deserializer, EncodeError, Once, Required,
    Serialize, Serializer, Typed,
};
use cbor4ii::utils::SliceReader;
use std::alloc::Global;

/// A number and a text, which is borrowed.
#[derive(Debug, PartialEq, Drop)]
pub struct Label<'a> {
    /// The number.
    pub id: u8,
    /// The text, a slice of the input.
    pub text: &'a str,
}

impl<'a> Serialize for Label<'a> {
    ghost encoding = { ⟦<Label<'a> as Described>⟧.codec.encoding };

    fn serialize<W: Write>(&self, ser: &mut Serializer<W>) -> Result<(), EncodeError<W::Error>> {
        ser.serialize_2_fields("Label", "id", &self.id, "text", &self.text)
    }
}

/// Over a slice, which lends parts of itself.
impl<'a> Deserialize<SliceReader<'a>> for Label<'a> {
    fn deserialize(
        alloc: Global,
        de: &mut Deserializer<SliceReader<'a>>,
    ) -> Result<Label<'a>, DecodeError<Never>> {
        let missing = ["a label has one id", "a label has one text"];
        let presences = (Once(Required), (Once(Required), ()));
        de.deserialize_fields(alloc, "Label", &["id", "text"], &missing, presences)
    }
}

impl<'a> From<(u8, (&'a str, ()))> for Label<'a> {
    ghost from_gives = { λ values l. l ≡ record { id = values.0; text = values.1.0 } };

    fn from(values: (u8, (&'a str, ()))) -> Label<'a> {
        let (id, (text, ())) = values;
        Label { id, text }
    }
}

impl<'a> Typed for Label<'a> {
    ghost promise = { ⟦<Label<'a> as Described>⟧.codec.promise };
}

impl<'a> Described for Label<'a> {
    ghost codec = { struct_codec (λ l. (l.id, (l.text, no_values)))
        (λ values. record { id = values.0; text = values.1.0 }) (λ l. refl)
        (with_field_once (codes "id") (codes "a label has one id") ⟦<u8 as Described>⟧.codec
        (with_field_once (codes "text") (codes "a label has one text")
        ⟦<&'a str as Described>⟧.codec
        no_fields refl) refl) refl };
}

impl<'a> AsDescribed for Label<'a> {
    ghost agrees = { as_described tt refl };
}

#[cfg(test)]
mod tests;
