//! A struct that is written as an array, with no names.
ghost use Rattle.std.specs.Prelude.{◌≡◌};
ghost use Rattle.std.proofs.Common.{refl};
ghost use Rattle.cbor4ii.specs.CodecAgrees.{as_described};
ghost use Rattle.cbor4ii.specs.CodecElements.{elements_codec, with_element, no_elements};
ghost use Rattle.cbor4ii.specs.Fields.{no_values};

use cbor4ii::dec::Source;
use cbor4ii::enc::Write;
use cbor4ii::serde::{
    AsDescribed, DecodeError, Described, Deserialize, Deserializer, EncodeError, Serialize,
    Serializer, Typed,
};
use std::alloc::Global;

/// What a sensor measured.
#[derive(Debug, PartialEq, Drop)]
pub struct Reading {
    /// The sensor's number.
    pub sensor: u32,
    /// When it measured, in seconds.
    pub time: u32,
    /// The mean of what it measured.
    pub mean: i32,
    /// What is to be said of it.
    pub note: Option<String>,
    /// What it measured.
    pub samples: Vec<u16>,
}

/// An array of five elements, in this order; a note that is missing is null.
impl Serialize for Reading {
    ghost encoding = { ⟦<Reading as Described>⟧.codec.encoding };

    fn serialize<W: Write>(&self, ser: &mut Serializer<W>) -> Result<(), EncodeError<W::Error>> {
        ser.serialize_elements(&(
            &self.sensor,
            (&self.time, (&self.mean, (&self.note, (&self.samples, ())))),
        ))
    }
}

/// An array of exactly five elements, of a definite length.
impl<S: Source> Deserialize<S> for Reading {
    fn deserialize(
        alloc: Global,
        de: &mut Deserializer<S>,
    ) -> Result<Reading, DecodeError<S::Error>> {
        de.deserialize_elements(alloc)
    }
}

impl From<(u32, (u32, (i32, (Option<String>, (Vec<u16>, ())))))> for Reading {
    ghost from_gives = { λ values r. r ≡ record {
      sensor = values.0;
      time = values.1.0;
      mean = values.1.1.0;
      note = values.1.1.1.0;
      samples = values.1.1.1.1.0;
    } };

    fn from(values: (u32, (u32, (i32, (Option<String>, (Vec<u16>, ())))))) -> Reading {
        let (sensor, (time, (mean, (note, (samples, ()))))) = values;
        Reading {
            sensor,
            time,
            mean,
            note,
            samples,
        }
    }
}

impl Typed for Reading {
    ghost promise = { ⟦<Reading as Described>⟧.codec.promise };
}

impl Described for Reading {
    ghost codec = { elements_codec (λ r. (
      r.sensor,
      (r.time, (r.mean, (r.note, (r.samples, no_values)))),
    ))
        (λ values. record {
          sensor = values.0;
          time = values.1.0;
          mean = values.1.1.0;
          note = values.1.1.1.0;
          samples = values.1.1.1.1.0;
        }) (λ r. refl)
        (with_element ⟦<u32 as Described>⟧.codec
        (with_element ⟦<u32 as Described>⟧.codec
        (with_element ⟦<i32 as Described>⟧.codec
        (with_element ⟦<Option<String> as Described>⟧.codec
        (with_element ⟦<Vec<u16> as Described>⟧.codec
        no_elements))))) refl };
}

impl AsDescribed for Reading {
    ghost agrees = { as_described tt refl };
}

#[cfg(test)]
mod tests;
