//! A newtype, which is read and written as what it holds.
ghost use Rattle.std.specs.Prelude.{◌≡◌};
ghost use Rattle.std.proofs.Common.{refl};
ghost use Rattle.cbor4ii.specs.Codec.{codec_of};
ghost use Rattle.cbor4ii.specs.CodecAgrees.{as_described};

use cbor4ii::dec::Source;
use cbor4ii::enc::Write;
use cbor4ii::serde::{
    AsDescribed, DecodeError, Described, Deserialize, Deserializer, EncodeError, Serialize,
    Serializer, Typed,
};
use std::alloc::Global;

/// A length in meters.
#[derive(Debug, PartialEq, Eq, Drop)]
pub struct Meters(pub u32);

impl Serialize for Meters {
    ghost encoding = { ⟦<Meters as Described>⟧.codec.encoding };

    fn serialize<W: Write>(&self, ser: &mut Serializer<W>) -> Result<(), EncodeError<W::Error>> {
        self.0.serialize(ser)
    }
}

impl<S: Source> Deserialize<S> for Meters {
    fn deserialize(
        alloc: Global,
        de: &mut Deserializer<S>,
    ) -> Result<Meters, DecodeError<S::Error>> {
        de.deserialize_from::<u32, Meters>(alloc)
    }
}

impl From<u32> for Meters {
    ghost from_gives = { λ value m. m ≡ record { 0 = value } };

    fn from(value: u32) -> Meters {
        Meters(value)
    }
}

impl Typed for Meters {
    ghost promise = { ⟦<Meters as Described>⟧.codec.promise };
}

impl Described for Meters {
    ghost codec = { codec_of (λ m. m.0) (λ value. record { 0 = value }) (λ m. refl)
        ⟦<u32 as Described>⟧.codec };
}

impl AsDescribed for Meters {
    ghost agrees = { as_described tt refl };
}

#[cfg(test)]
mod tests;
