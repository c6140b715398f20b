//! A struct of which fields are left out where they are none.
ghost use Rattle.std.specs.Prelude.{◌≡◌, codes};
ghost use Rattle.std.proofs.Common.{refl};
ghost use Rattle.cbor4ii.specs.CodecAgrees.{as_described};
ghost use Rattle.cbor4ii.specs.CodecFields.{struct_codec, with_field_once, with_optional_field};
ghost use Rattle.cbor4ii.specs.CodecFields.{with_optional_field_once, no_fields};
ghost use Rattle.cbor4ii.specs.Fields.{no_values};

use cbor4ii::dec::Source;
use cbor4ii::enc::Write;
use cbor4ii::serde::{
    AsDescribed, DecodeError, Described, Deserialize, Deserializer, EncodeError, FieldValues,
    IfSome, Once, Optional, Required, Serialize, Serializer, Typed,
};
use std::alloc::Global;

/// What a server answers.
#[derive(Debug, PartialEq, Drop)]
pub struct Reply {
    /// The status.
    pub status: u16,
    /// Why, where it is reported.
    pub reason: Option<String>,
    /// After how many seconds to ask again, where it is reported. A proxy may append another one,
    /// which counts.
    pub retry: Option<u32>,
}

/// A map of the fields that are some.
impl Serialize for Reply {
    ghost encoding = { ⟦<Reply as Described>⟧.codec.encoding };

    fn serialize<W: Write>(&self, ser: &mut Serializer<W>) -> Result<(), EncodeError<W::Error>> {
        let fields = (&self.status, IfSome(&self.reason), IfSome(&self.retry));
        fields.serialize_fields("Reply", &["status", "reason", "retry"], ser)
    }
}

/// A field that is missing is none.
impl<S: Source> Deserialize<S> for Reply {
    fn deserialize(
        alloc: Global,
        de: &mut Deserializer<S>,
    ) -> Result<Reply, DecodeError<S::Error>> {
        let missing = ["a reply has one status", "a reply has one reason"];
        let presences = (Once(Required), (Once(Optional), (Optional, ())));
        de.deserialize_fields(
            alloc,
            "Reply",
            &["status", "reason", "retry"],
            &missing,
            presences,
        )
    }
}

impl From<(u16, (Option<String>, (Option<u32>, ())))> for Reply {
    ghost from_gives = { λ values r. r ≡ record {
      status = values.0;
      reason = values.1.0;
      retry = values.1.1.0;
    } };

    fn from(values: (u16, (Option<String>, (Option<u32>, ())))) -> Reply {
        let (status, (reason, (retry, ()))) = values;
        Reply {
            status,
            reason,
            retry,
        }
    }
}

impl Typed for Reply {
    ghost promise = { ⟦<Reply as Described>⟧.codec.promise };
}

impl Described for Reply {
    ghost codec = { struct_codec (λ r. (r.status, (r.reason, (r.retry, no_values))))
        (λ values. record {
          status = values.0;
          reason = values.1.0;
          retry = values.1.1.0;
        }) (λ r. refl)
        (with_field_once (codes "status") (codes "a reply has one status")
        ⟦<u16 as Described>⟧.codec
        (with_optional_field_once (codes "reason") (codes "a reply has one reason")
        ⟦<String as Described>⟧.codec
        (with_optional_field (codes "retry") ⟦<u32 as Described>⟧.codec
        no_fields refl) refl) refl) refl };
}

impl AsDescribed for Reply {
    ghost agrees = { as_described tt refl };
}

#[cfg(test)]
mod tests;
