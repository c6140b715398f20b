//! A tag before an integer, as a newtype: the time of RFC 8949 section 3.4.2. A struct holds it.
ghost use Rattle.std.specs.Prelude.{◌≡◌, codes};
ghost use Rattle.std.proofs.Common.{refl};
ghost use Rattle.cbor4ii.specs.Codec.{codec_of};
ghost use Rattle.cbor4ii.specs.CodecAgrees.{as_described};
ghost use Rattle.cbor4ii.specs.CodecFields.{struct_codec, with_field_once, no_fields};
ghost use Rattle.cbor4ii.specs.CodecItems.{tagged_codec};
ghost use Rattle.cbor4ii.specs.Fields.{no_values};

use cbor4ii::dec::Source;
use cbor4ii::enc::Write;
use cbor4ii::serde::{
    AsDescribed, DecodeError, Described, Deserialize, Deserializer, EncodeError, Once, Required,
    Serialize, Serializer, Typed,
};
use std::alloc::Global;

/// A time, in whole seconds from the beginning of 1970.
#[derive(Debug, PartialEq, Eq, Drop)]
pub struct Moment(pub i64);

impl Serialize for Moment {
    ghost encoding = { ⟦<Moment as Described>⟧.codec.encoding };

    fn serialize<W: Write>(&self, ser: &mut Serializer<W>) -> Result<(), EncodeError<W::Error>> {
        ser.serialize_tagged(1, &self.0)
    }
}

impl<S: Source> Deserialize<S> for Moment {
    fn deserialize(
        alloc: Global,
        de: &mut Deserializer<S>,
    ) -> Result<Moment, DecodeError<S::Error>> {
        de.deserialize_tagged::<i64, Moment>(alloc, 1)
    }
}

impl From<i64> for Moment {
    ghost from_gives = { λ value m. m ≡ record { 0 = value } };

    fn from(value: i64) -> Moment {
        Moment(value)
    }
}

impl Typed for Moment {
    ghost promise = { ⟦<Moment as Described>⟧.codec.promise };
}

impl Described for Moment {
    ghost codec = { codec_of (λ m. m.0) (λ value. record { 0 = value }) (λ m. refl)
        (tagged_codec 1 ⟦<i64 as Described>⟧.codec refl) };
}

impl AsDescribed for Moment {
    ghost agrees = { as_described tt refl };
}

/// Who claims something, and when.
#[derive(Debug, PartialEq, Drop)]
pub struct Claim {
    pub issuer: String,
    pub issued: Moment,
}

impl Serialize for Claim {
    ghost encoding = { ⟦<Claim as Described>⟧.codec.encoding };

    fn serialize<W: Write>(&self, ser: &mut Serializer<W>) -> Result<(), EncodeError<W::Error>> {
        ser.serialize_2_fields("Claim", "issuer", &self.issuer, "issued", &self.issued)
    }
}

impl<S: Source> Deserialize<S> for Claim {
    fn deserialize(
        alloc: Global,
        de: &mut Deserializer<S>,
    ) -> Result<Claim, DecodeError<S::Error>> {
        let missing = ["a claim has one issuer", "a claim was issued once"];
        let presences = (Once(Required), (Once(Required), ()));
        de.deserialize_fields(alloc, "Claim", &["issuer", "issued"], &missing, presences)
    }
}

impl From<(String, (Moment, ()))> for Claim {
    ghost from_gives = { λ values c. c ≡ record { issuer = values.0; issued = values.1.0 } };

    fn from(values: (String, (Moment, ()))) -> Claim {
        let (issuer, (issued, ())) = values;
        Claim { issuer, issued }
    }
}

impl Typed for Claim {
    ghost promise = { ⟦<Claim as Described>⟧.codec.promise };
}

impl Described for Claim {
    ghost codec = { struct_codec (λ c. (c.issuer, (c.issued, no_values)))
        (λ values. record { issuer = values.0; issued = values.1.0 }) (λ c. refl)
        (with_field_once (codes "issuer") (codes "a claim has one issuer")
        ⟦<String as Described>⟧.codec
        (with_field_once (codes "issued") (codes "a claim was issued once")
        ⟦<Moment as Described>⟧.codec
        no_fields refl) refl) refl };
}

impl AsDescribed for Claim {
    ghost agrees = { as_described tt refl };
}

#[cfg(test)]
mod tests;
