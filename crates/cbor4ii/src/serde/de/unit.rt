//! The unit.
ghost use Rattle.std.specs.Prelude.{true, false};
ghost use Rattle.cbor4ii.specs.Tuples.{RejectsUnit, unit_laws};
ghost use Rattle.cbor4ii.specs.Typed.{input, answer_of, typed_by, Deserializes};

use crate::serde::de::deserialize::{Deserialize, Typed};
use crate::serde::de::deserializer::Deserializer;
use crate::serde::de::error::DecodeError;
use cbor4ii_items::initial::peek;
use cbor4ii_rw::error as core_error;
use cbor4ii_rw::error::StaticStr;
use cbor4ii_rw::read::Source;
use std::alloc::Global;

const UNIT: u8 = 0x80;

impl Typed for () {
    ghost promise = { typed_by RejectsUnit true false unit_laws };
}

/// The unit, read by `Deserializer::deserialize_unit`, with its errors.
impl<S: Source> Deserialize<S> for () {
    fn deserialize(alloc: Global, de: &mut Deserializer<S>) -> Result<(), DecodeError<S::Error>> {
        de.deserialize_unit()
    }
}

impl<S: Source> Deserializer<S> {
    /// The unit: an array of no item, in one byte. It takes no step.
    ///
    /// # Errors
    ///
    /// - `Core` of `Read`: the reader failed. Nothing is taken then
    /// - `Core` of `Eof` by "unit" with 1: no byte is left
    /// - `Core` of `Mismatch` by "unit" with the first byte, which is taken: it is not `80`. It
    ///   comes also where an array of no item is encoded otherwise
    pub fn deserialize_unit(&mut self) -> Result<(), DecodeError<S::Error>>
        ensures { Deserializes ⟦<() as Typed>⟧.promise
            (input S.view self.old) (input S.view self.new) (answer_of result) }
    {
        match peek(&mut self.reader, "unit") {
            Ok(first) => {
                self.reader.advance(1);
                if first == UNIT {
                    return Ok(());
                }
                Err(DecodeError::Core(core_error::DecodeError::Mismatch {
                    name: "unit",
                    found: first,
                }))
            }
            Err(error) => Err(DecodeError::Core(error)),
        }
    }

    /// A struct without fields, read as the unit is. Its name is not encoded.
    ///
    /// # Errors
    ///
    /// Those of `deserialize_unit`.
    pub fn deserialize_unit_struct(&mut self, name: StaticStr) -> Result<(), DecodeError<S::Error>>
        ensures { Deserializes ⟦<() as Typed>⟧.promise
            (input S.view self.old) (input S.view self.new) (answer_of result) }
    {
        self.deserialize_unit()
    }
}
