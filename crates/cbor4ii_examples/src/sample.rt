//! A struct that is written part by part, and read in one call.
ghost use Rattle.std.specs.Prelude.{◌≡◌, None, codes};
ghost use Rattle.std.proofs.Common.{refl};
ghost use Rattle.cbor4ii.specs.CodecAgrees.{as_described};
ghost use Rattle.cbor4ii.specs.CodecFields.{struct_codec, with_field, with_field_or, no_fields};
ghost use Rattle.cbor4ii.specs.Fields.{no_values};

use cbor4ii::dec::Source;
use cbor4ii::enc::Write;
use cbor4ii::error::StaticStr;
use cbor4ii::serde::{
    AsDescribed, DecodeError, Described, Deserialize, Deserializer, EncodeError, Or, Required,
    Serialize, Serializer, Typed,
};
use std::alloc::Global;

/// What a sensor measured, and a note where there is one.
#[derive(Debug, PartialEq, Eq, Drop)]
pub struct Sample {
    /// The sensor's name.
    pub sensor: String,
    /// What it measured.
    pub value: i64,
    /// What is to be said of it.
    pub note: Option<String>,
}

/// A map of three fields, in this order; a note that is missing is null.
impl Serialize for Sample {
    ghost encoding = { ⟦<Sample as Described>⟧.codec.encoding };

    fn serialize<W: Write>(&self, ser: &mut Serializer<W>) -> Result<(), EncodeError<W::Error>> {
        let mut fields = ser.serialize_struct("Sample", 3)?;
        fields.serialize_field("sensor", &self.sensor)?;
        fields.serialize_field("value", &self.value)?;
        fields.serialize_field("note", &self.note)?;
        fields.end()
    }
}

/// Its fields may come in any order, and others are skipped. A note that is missing is none.
impl<S: Source> Deserialize<S> for Sample {
    fn deserialize(
        alloc: Global,
        de: &mut Deserializer<S>,
    ) -> Result<Sample, DecodeError<S::Error>> {
        let presences = (Required, (Required, (Or(None), ())));
        de.deserialize_fields(alloc, "Sample", &FIELDS, &MISSING, presences)
    }
}

const FIELDS: [StaticStr; 3] = ["sensor", "value", "note"];

const MISSING: [StaticStr; 3] = ["a sample has no sensor", "a sample has no value", ""];

impl From<(String, (i64, (Option<String>, ())))> for Sample {
    ghost from_gives = { λ values s. s ≡ record {
      sensor = values.0;
      value = values.1.0;
      note = values.1.1.0;
    } };

    fn from(values: (String, (i64, (Option<String>, ())))) -> Sample {
        let (sensor, (value, (note, ()))) = values;
        Sample {
            sensor,
            value,
            note,
        }
    }
}

impl Typed for Sample {
    ghost promise = { ⟦<Sample as Described>⟧.codec.promise };
}

impl Described for Sample {
    ghost codec = { struct_codec (λ s. (s.sensor, (s.value, (s.note, no_values))))
        (λ values. record {
          sensor = values.0;
          value = values.1.0;
          note = values.1.1.0;
        }) (λ s. refl)
        (with_field (codes "sensor") (codes "a sample has no sensor") ⟦<String as Described>⟧.codec
        (with_field (codes "value") (codes "a sample has no value") ⟦<i64 as Described>⟧.codec
        (with_field_or (codes "note") None ⟦<Option<String> as Described>⟧.codec no_fields
        refl) refl)
        refl) refl };
}

impl AsDescribed for Sample {
    ghost agrees = { as_described tt refl };
}

#[cfg(test)]
mod tests;
