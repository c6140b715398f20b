//! A struct whose keys are integers: a COSE_Key of one coordinate (RFC 9052 section 7).
ghost use Rattle.std.specs.Prelude.{◌≡◌, codes};
ghost use Rattle.std.proofs.Common.{refl};
ghost use Rattle.cbor4ii.specs.CodecAgrees.{as_described};
ghost use Rattle.cbor4ii.specs.CodecFields.{struct_codec, with_field_once};
ghost use Rattle.cbor4ii.specs.CodecFields.{with_optional_field_once, no_keys};
ghost use Rattle.cbor4ii.specs.Fields.{no_values};
ghost use Rattle.cbor4ii.specs.Keys.{plus, minus};

use cbor4ii::dec::Source;
use cbor4ii::enc::Write;
use cbor4ii::serde::{
    AsDescribed, DecodeError, Described, Deserialize, Deserializer, EncodeError, FieldValues,
    IfSome, Once, Optional, Required, Serialize, Serializer, Typed,
};
use cbor4ii::types::Bytes;
use std::alloc::Global;

/// A public key on a curve, such as an octet key pair (RFC 9053 section 7.2).
#[derive(Debug, PartialEq, Drop)]
pub struct CoseKey {
    /// The key type, under 1: 1 is an octet key pair.
    pub kty: i64,
    /// The algorithm that the key is for, under 3, where it is restricted to one.
    pub alg: Option<i64>,
    /// The curve, under -1: 6 is Ed25519.
    pub crv: i64,
    /// The x coordinate, under -2.
    pub x: Bytes<Vec<u8>>,
}

/// A map of four fields, or of three where there is no algorithm.
impl Serialize for CoseKey {
    ghost encoding = { ⟦<CoseKey as Described>⟧.codec.encoding };

    fn serialize<W: Write>(&self, ser: &mut Serializer<W>) -> Result<(), EncodeError<W::Error>> {
        let fields = (&self.kty, IfSome(&self.alg), &self.crv, &self.x);
        fields.serialize_fields("COSE_Key", &[1, 3, -1, -2], ser)
    }
}

/// Other keys are skipped, be they integers or texts.
impl<S: Source> Deserialize<S> for CoseKey {
    fn deserialize(
        alloc: Global,
        de: &mut Deserializer<S>,
    ) -> Result<CoseKey, DecodeError<S::Error>> {
        let missing = [
            "a key has one kty",
            "a key has one alg",
            "a key has one crv",
            "a key has one x",
        ];
        let presences = (
            Once(Required),
            (Once(Optional), (Once(Required), (Once(Required), ()))),
        );
        de.deserialize_fields(alloc, "COSE_Key", &[1, 3, -1, -2], &missing, presences)
    }
}

impl From<(i64, (Option<i64>, (i64, (Bytes<Vec<u8>>, ()))))> for CoseKey {
    ghost from_gives = { λ values c. c ≡ record {
      kty = values.0;
      alg = values.1.0;
      crv = values.1.1.0;
      x = values.1.1.1.0;
    } };

    fn from(values: (i64, (Option<i64>, (i64, (Bytes<Vec<u8>>, ()))))) -> CoseKey {
        let (kty, (alg, (crv, (x, ())))) = values;
        CoseKey { kty, alg, crv, x }
    }
}

impl Typed for CoseKey {
    ghost promise = { ⟦<CoseKey as Described>⟧.codec.promise };
}

impl Described for CoseKey {
    ghost codec = { struct_codec (λ c. (c.kty, (c.alg, (c.crv, (c.x, no_values)))))
        (λ values. record {
          kty = values.0;
          alg = values.1.0;
          crv = values.1.1.0;
          x = values.1.1.1.0;
        }) (λ c. refl)
        (with_field_once (plus 1) (codes "a key has one kty") ⟦<i64 as Described>⟧.codec
        (with_optional_field_once (plus 3) (codes "a key has one alg") ⟦<i64 as Described>⟧.codec
        (with_field_once (minus 1) (codes "a key has one crv") ⟦<i64 as Described>⟧.codec
        (with_field_once (minus 2) (codes "a key has one x") ⟦<Bytes<Vec<u8>> as Described>⟧.codec
        no_keys refl) refl) refl) refl) refl };
}

impl AsDescribed for CoseKey {
    ghost agrees = { as_described tt refl };
}

#[cfg(test)]
mod tests;
