//! Values in a box.
ghost use Rattle.std.specs.Prelude.{◌≡◌, false, IfErr, IsTrue};
ghost use Rattle.cbor4ii_items.specs.Decoding.{Sound};
ghost use Rattle.cbor4ii_items.specs.InputError.{is_out_of_memory};
ghost use Rattle.cbor4ii.specs.Typed.{input, answer_of, as_core, Deserializes};
ghost use Rattle.cbor4ii.specs.TypedParts.{typed_box};

use crate::serde::de::deserialize::{Deserialize, Typed};
use crate::serde::de::deserializer::Deserializer;
use crate::serde::de::error::DecodeError;
use cbor4ii_rw::error as core_error;
use cbor4ii_rw::read::Source;
use std::alloc::Global;

impl<T: Typed> Typed for Box<T> {
    ghost promise = { typed_box T.promise };
}

/// A box is read as what is in it, with its errors. `Core` of `OutOfMemory` comes too where there
/// is no memory for the box; the value was taken then.
impl<S: Source, T: Deserialize<S> + Drop> Deserialize<S> for Box<T> {
    #[inline(always)]
    fn deserialize(alloc: Global, de: &mut Deserializer<S>) -> Result<Box<T>, DecodeError<S::Error>>
        ensures promised { Deserializes (typed_box T.promise)
            (input S.view de.old) (input S.view de.new) (answer_of result) }
        ensures after_item { T.promise.format.takes_memory ≡ false →
            IfErr result (λ error. IsTrue (is_out_of_memory (as_core error)) →
            (v : T) × Sound T.promise.format.reads
            (input S.view de.old) (input S.view de.new) v) }
    {
        let value = match T::deserialize(alloc, de) {
            Ok(value) => value,
            Err(error) => return Err(error),
        };
        match Box::new(alloc, value) {
            Ok(boxed) => Ok(boxed),
            Err(_) => Err(DecodeError::Core(core_error::DecodeError::OutOfMemory)),
        }
    }
}
