//! Rows of an enum, alone and inside other types.
use crate::event::Event;
use crate::recipes::tries_recipe;
use cbor4ii::dec::Source;
use cbor4ii::enc::Write;
use cbor4ii::serde::{Deserialize, Deserializer, EncodeError, Serialize, Serializer, Typed};
use cbor4ii_vectors::{eof, mismatch, no_step, require_length, table};
use cbor4ii_vectors_de::typed::{BothShown, Got, RowShown, RowShownWithin, comes_back};
use std::alloc::Global;
use std::collections::BTreeMap;
use std::test::Fail;

const SAMPLED: &[u8] = b"\xa1\x67Sampled\xa3\x66sensor\x62t1\x65value\x38\x63\x64note\xf6";

const SAMPLED_SHOWN: &str = "Is(Sampled(Sample { sensor: \"t1\", value: -100, note: None }))";

const NOTED: &[u8] = b"\xa1\x67Sampled\xa3\x66sensor\x62t1\x65value\x38\x63\x64note\x64cold";

const NOTED_SHOWN: &str =
    "Is(Sampled(Sample { sensor: \"t1\", value: -100, note: Some(\"cold\") }))";

const EVENTS: &[BothShown] = table! {
    (b"\x67Started", "Is(Started)"),
    (SAMPLED, SAMPLED_SHOWN),
    (NOTED, NOTED_SHOWN),
    (b"\xa1\x65Moved\x82\x01\x20", "Is(Moved(1, -1))"),
    (b"\xa1\x65Named\xa2\x62id\x19\x01\xf4\x64name\x61a", "Is(Named { id: 500, name: \"a\" })"),
};

const EVENTS_READ: &[RowShown] = table! {
    (b"\x67Stopped\x00", Ok("Custom(\"no such event\")"), b"\x00"),
    (b"\xa1\x65Named\xa0\x00", Ok("Custom(\"a name has one id\")"), b"\x00"),
    (b"\xa1\x65Named\xa3\x62id\x05\x64name\x60\x62id\x05\x00",
        Ok("Custom(\"a name has one id\")"), b"\x00"),
    (b"", Err(eof!("enum", 1)), b""),
    (b"\x05", Err(mismatch!("enum", 5)), b"\x05"),
    (b"\xa1\x67Started\x00", Err(mismatch!("enum", 161)), b"\x00"),
    (b"\x65Moved\x00", Err(mismatch!("enum", 101)), b"\x00"),
    (b"\xa1\x65Moved\x81\x01", Err(require_length!("tuple", 1)), b"\x01"),
    (b"\xa1\x65Moved\x82\x01\xf6", Err(mismatch!("i32", 246)), b"\xf6"),
    (b"\xa1\x65Named\x80", Err(mismatch!("map", 128)), b""),
};

const EVENTS_WITHIN: &[RowShownWithin] = table! {
    (b"\x67Started", 0, Err(no_step!("enum")), b"\x67Started"),
    (b"\x67Started", 1, Ok("Is(Started)"), b""),
    (b"\xa1\x65Moved\x82\x01\x20", 1, Err(no_step!("tuple")), b"\x82\x01\x20"),
    (b"\xa1\x65Moved\x82\x01\x20", 2, Ok("Is(Moved(1, -1))"), b""),
};

#[test]
fn events_are_written_and_read(rt: HostRuntime) -> Result<(), Fail> {
    let alloc = rt.alloc();
    tries_recipe(alloc, "Event", EVENTS, EVENTS_READ, EVENTS_WITHIN)
}

const ARRAY_OF_EVENTS: &[u8] = b"\x83\x67Started\
\xa1\x67Sampled\xa3\x66sensor\x62t1\x65value\x38\x63\x64note\xf6\
\xa1\x65Named\xa2\x62id\x19\x01\xf4\x64name\x61a";

const ARRAY_OF_EVENTS_SHOWN: &str = "[Started, \
Sampled(Sample { sensor: \"t1\", value: -100, note: None }), \
Named { id: 500, name: \"a\" }]";

#[test]
fn a_vector_of_events_comes_back(rt: HostRuntime) -> Result<(), Fail> {
    comes_back::<Vec<Event>>(rt.alloc(), ARRAY_OF_EVENTS, ARRAY_OF_EVENTS_SHOWN)
}

/// Events by their numbers.
#[derive(Debug, Drop)]
pub struct Log(BTreeMap<u8, Event>);

impl Serialize for Log {
    ghost encoding = { λ log. ⟦<BTreeMap<u8, Event> as Serialize>⟧.encoding log.0 };

    fn serialize<W: Write>(&self, ser: &mut Serializer<W>) -> Result<(), EncodeError<W::Error>> {
        self.0.serialize(ser)
    }
}

impl Typed for Log {}

impl<S: Source> Deserialize<S> for Log {
    fn deserialize(alloc: Global, de: &mut Deserializer<S>) -> Got<Log, S> {
        Ok(Log(BTreeMap::deserialize(alloc, de)?))
    }
}

const MAP_OF_EVENTS: &[u8] = b"\xa4\x01\x67Started\x02\
\xa1\x67Sampled\xa3\x66sensor\x62t1\x65value\x38\x63\x64note\xf6\x03\
\xa1\x65Moved\x82\x01\x20\x04\
\xa1\x65Named\xa2\x62id\x19\x01\xf4\x64name\x61a";

const MAP_OF_EVENTS_SHOWN: &str = "Is(Log({1: Started, \
2: Sampled(Sample { sensor: \"t1\", value: -100, note: None }), \
3: Moved(1, -1), 4: Named { id: 500, name: \"a\" }}))";

#[test]
fn a_map_of_events_is_written_and_read(rt: HostRuntime) -> Result<(), Fail> {
    tries_recipe(
        rt.alloc(),
        "Log",
        &[(MAP_OF_EVENTS, MAP_OF_EVENTS_SHOWN)],
        &[],
        &[],
    )
}
