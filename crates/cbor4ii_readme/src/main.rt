//! A city, written in CBOR and read back.
#![tactic(auto)]

ghost use Rattle.std.specs.Prelude.{◌≡◌, codes};
ghost use Rattle.std.proofs.Common.{refl};
ghost use Rattle.cbor4ii.specs.CodecAgrees.{as_described};
ghost use Rattle.cbor4ii.specs.CodecFields.{struct_codec, with_field_once, no_fields};
ghost use Rattle.cbor4ii.specs.Fields.{no_values};

use cbor4ii::dec::Source;
use cbor4ii::enc::Write;
use cbor4ii::serde::{
    AsDescribed, DecodeError, Described, Deserialize, Deserializer, EncodeError, Once, Required,
    Serialize, Serializer, Typed, from_slice, to_vec,
};
use std::alloc::Global;
use std::process::ExitCode;

#[derive(Debug, PartialEq, Drop)]
pub struct City {
    pub people: u32,
    pub name: String,
}

impl Serialize for City {
    ghost encoding = { ⟦<City as Described>⟧.codec.encoding };

    fn serialize<W: Write>(&self, ser: &mut Serializer<W>) -> Result<(), EncodeError<W::Error>> {
        ser.serialize_2_fields("City", "people", &self.people, "name", &self.name)
    }
}

impl<S: Source> Deserialize<S> for City {
    fn deserialize(alloc: Global, de: &mut Deserializer<S>) -> Result<City, DecodeError<S::Error>> {
        let missing = ["its people come once", "its name comes once"];
        let presences = (Once(Required), (Once(Required), ()));
        de.deserialize_fields(alloc, "City", &["people", "name"], &missing, presences)
    }
}

impl From<(u32, (String, ()))> for City {
    ghost from_gives = { λ values c. c ≡ record { people = values.0; name = values.1.0 } };

    fn from(values: (u32, (String, ()))) -> City {
        let (people, (name, ())) = values;
        City { people, name }
    }
}

impl Typed for City {
    ghost promise = { ⟦<City as Described>⟧.codec.promise };
}

impl Described for City {
    ghost codec = { struct_codec (λ c. (c.people, (c.name, no_values)))
        (λ values. record { people = values.0; name = values.1.0 }) (λ c. refl)
        (with_field_once (codes "people") (codes "its people come once") ⟦<u32 as Described>⟧.codec
        (with_field_once (codes "name") (codes "its name comes once") ⟦<String as Described>⟧.codec
        no_fields refl) refl) refl };
}

impl AsDescribed for City {
    ghost agrees = { as_described tt refl };
}

fn there_and_back(alloc: Global) -> Option<(Vec<u8>, City)> {
    let name = String::from_str(alloc, "Ulm").ok()?;
    let bytes = to_vec(Vec::new(alloc), &City { people: 5, name }).ok()?;
    let city = from_slice(alloc, bytes.as_slice()).ok()?;
    Some((bytes, city))
}

fn main(rt: HostRuntime) -> ExitCode {
    match there_and_back(rt.alloc()) {
        Some(both) if println!(rt; "{both:?}").is_ok() => ExitCode::SUCCESS,
        _ => ExitCode::FAILURE,
    }
}
