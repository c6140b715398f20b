//! Rows of a struct that is read alone: by kinds of its fields, and with no codec.
ghost use Rattle.std.specs.Prelude.{◌≡◌, codes};
ghost use Rattle.cbor4ii.specs.Fields.{no_values};
ghost use Rattle.cbor4ii.specs.Made.{made_from};
ghost use Rattle.cbor4ii.specs.FieldKey.{text_key};
ghost use Rattle.cbor4ii.specs.Presence.{no_more_fields, optional_field, field_or_else};
ghost use Rattle.cbor4ii.specs.Presence.{required_field, struct_from};

use crate::typed::{Got, TypedCalls, calls, no_call, shows};
use cbor4ii::serde::{DecodeError, Deserialize, Deserializer, Optional, Or, Required, Typed};
use cbor4ii_rw::read::Source;
use cbor4ii_vectors::rows::Called;
use cbor4ii_vectors::{mismatch, table};
use std::alloc::Global;
use std::test::Fail;

/// A lamp: how bright it is, after how many seconds it goes out, and its room.
#[derive(Debug, PartialEq, Drop)]
pub(crate) struct Lamp {
    level: u8,
    delay: u8,
    room: Option<u8>,
}

impl<S: Source> Deserialize<S> for Lamp {
    fn deserialize(alloc: Global, de: &mut Deserializer<S>) -> Result<Lamp, DecodeError<S::Error>> {
        let names = ["level", "delay", "room"];
        let presences = (Required, (Or(60), (Optional, ())));
        de.deserialize_fields(alloc, "Lamp", &names, &["a lamp has a level"], presences)
    }
}

impl From<(u8, (u8, (Option<u8>, ())))> for Lamp {
    ghost from_gives = { λ values l. values ≡ (l.level, (l.delay, (l.room, no_values))) };

    fn from(values: (u8, (u8, (Option<u8>, ())))) -> Lamp {
        let (level, (delay, (room, ()))) = values;
        Lamp { level, delay, room }
    }
}

impl Typed for Lamp {
    ghost promise = { made_from (λ values l. values ≡ (l.level, (l.delay, (l.room, no_values))))
        (struct_from
        (required_field (codes "level") (codes "a lamp has a level") ⟦<u8 as Typed>⟧.promise
        (field_or_else (codes "delay") 60 ⟦<u8 as Typed>⟧.promise
        (optional_field (codes "room") ⟦<u8 as Typed>⟧.promise
        (no_more_fields text_key))))) };
}

/// The calls of these names.
struct Lamps;

impl TypedCalls for Lamps {
    fn make<S: Source>(name: &str, alloc: Global, de: &mut Deserializer<S>) -> Got<String, S> {
        match name {
            "lamp" => shows::<Lamp, _>(alloc, Lamp::deserialize(alloc, de)?),
            _ => no_call(),
        }
    }
}

const READ: &[Called] = table! {
    ("lamp", b"\xa1\x65level\x07", Ok("Lamp { level: 7, delay: 60, room: None }"), b""),
    ("lamp", b"\xa3\x64room\x02\x65delay\x05\x65level\x07",
        Ok("Lamp { level: 7, delay: 5, room: Some(2) }"), b""),
    ("lamp", b"\xa1\x65delay\x05\x00", Ok("Custom(\"a lamp has a level\")"), b"\x00"),
    ("lamp", b"\xa2\x65level\x07\x65delay\xf6\x00", Err(mismatch!("u8", 0xf6)), b"\x00"),
};

#[test]
fn a_struct_is_read_alone(rt: HostRuntime) -> Result<(), Fail> {
    calls::<Lamps>(rt.alloc(), READ, &[])
}
