//! A type that holds values of its own kind, written and read.
ghost use Rattle.std.specs.Prelude.{◌+◌, ◌≤◌, OnOk};
ghost use Rattle.cbor4ii_items.specs.Moves.{Moves};
ghost use Rattle.cbor4ii.specs.Typed.{input, answer_of};
ghost use Rattle.cbor4ii_examples.specs.Nest.{nest_item};

use cbor4ii::dec::Source;
use cbor4ii::enc::Write;
use cbor4ii::error as core_error;
use cbor4ii::serde::{
    DecodeError, Deserialize, Deserializer, EncodeError, Serialize, Serializer, Typed,
};
use std::alloc::Global;

/// Lists in a list: a type that holds values of its own kind.
#[derive(Debug, PartialEq, Drop)]
pub struct Nest {
    /// The lists inside.
    pub inner: Vec<Nest>,
}

/// An array of arrays.
impl Serialize for Nest {
    ghost encoding = { nest_item };

    #[cycle(writing)]
    #[tactic(auto, using(crate::specs::declared::nest::Nest::the_lemmas, cbor4ii_ser::specs::Laws::Inside::values_inside,))]
    fn serialize<W: Write>(&self, ser: &mut Serializer<W>) -> Result<(), EncodeError<W::Error>> {
        self.inner.serialize(ser)
    }
}

/// Nothing is promised of the bytes.
impl Typed for Nest {}

/// Read by `read_nest`, inside other types too.
impl<S: Source> Deserialize<S> for Nest {
    fn deserialize(alloc: Global, de: &mut Deserializer<S>) -> Result<Nest, DecodeError<S::Error>> {
        read_nest(alloc, de)
    }
}

/// Reads an array of arrays, each under a step of its own, which is given back.
///
/// # Errors
///
/// Those of `deserialize_seq` and `starts_element` for the array at which reading fails; `Core` of
/// `OutOfMemory` where there is no memory for a list.
pub fn read_nest<S: Source>(
    alloc: Global,
    de: &mut Deserializer<S>,
) -> Result<Nest, DecodeError<S::Error>>
    ensures moves { Moves (input S.view de.old) (input S.view de.new) (answer_of result) }
    ensures progress { OnOk result
        ((input S.view de.new).bound + 1 ≤ (input S.view de.old).bound) }
{
    let mut inner = Vec::new(alloc);
    let mut parts = de.deserialize_seq()?;
    while parts.starts_element()? {
        let item = read_nest(alloc, parts.deserializer())?;
        if inner.push(item).is_err() {
            return Err(DecodeError::Core(core_error::DecodeError::OutOfMemory));
        }
    }
    Ok(Nest { inner })
}

#[cfg(test)]
mod tests;
