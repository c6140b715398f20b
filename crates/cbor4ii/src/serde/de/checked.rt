//! Values that are made of other values by a test, or rejected in words.
ghost use Rattle.std.specs.Prelude.{◌≡◌, ℕ, List, Option, Bool, true, false, IfErr, IsTrue};
ghost use Rattle.cbor4ii_items.specs.Decoding.{Sound};
ghost use Rattle.cbor4ii_items.specs.InputError.{is_out_of_memory};
ghost use Rattle.cbor4ii.specs.Checked.{Checks, checked_from};
ghost use Rattle.cbor4ii.specs.Typed.{input, answer_of, as_core, Deserializes};
ghost use Rattle.cbor4ii.specs.declared.serde.de.checked.Unmade.TheVariants.{OutOfMemory};

use crate::serde::de::deserialize::{Deserialize, Typed};
use crate::serde::de::deserializer::Deserializer;
use crate::serde::de::error::DecodeError;
use cbor4ii_rw::error as core_error;
use cbor4ii_rw::error::StaticStr;
use cbor4ii_rw::read::Source;
use std::alloc::{AllocError, AllocFailed, Global};

/// Why nothing was made of a value.
#[derive(Clone, Copy, Debug, PartialEq, Eq)]
pub enum Unmade {
    /// It is rejected, and the text says why.
    Rejected(StaticStr),
    /// A growth was refused.
    OutOfMemory,
}

impl From<AllocError> for Unmade {
    ghost from_gives = { λ error unmade. unmade ≡ OutOfMemory };

    fn from(error: AllocError) -> Unmade {
        Unmade::OutOfMemory
    }
}

impl<T: Drop> From<AllocFailed<T>> for Unmade {
    ghost from_gives = { λ error unmade. unmade ≡ OutOfMemory };

    fn from(error: AllocFailed<T>) -> Unmade {
        Unmade::OutOfMemory
    }
}

/// A type whose values are made of those of `V` by a test, or rejected in words.
pub trait CheckedFrom<V: Typed>: Sized {
    // The words in which a value is rejected, or none where it is not.
    ghost words: { V → Option (List ℕ) };

    // What may be made of a value that is not rejected.
    ghost makes: { V → Self → Type 0 };

    // Making it may take memory.
    ghost takes_memory: { Bool } = { true };

    /// Makes it of this value. `alloc` gives what memory it needs.
    ///
    /// # Errors
    ///
    /// - `Rejected` with the words that `words` gives: the value is rejected
    /// - `OutOfMemory`: a growth was refused. It comes only where `takes_memory` says so
    fn checked_from(alloc: Global, value: V) -> Result<Self, Unmade>
        ensures { Checks words makes takes_memory value result };

    // A law: values that mean the same are rejected alike.
    ghost fate: { (v w : V) → V.promise.format.same v w → words v ≡ words w };
}

impl<S: Source> Deserializer<S> {
    /// A value that is made of one of another type by a test, as a number below a limit is.
    ///
    /// # Errors
    ///
    /// - those of the other type, with what they leave
    /// - `Custom` in the words of the test: a value was read, and the test rejects it. All of the
    ///   value is taken then
    /// - `Core` of `OutOfMemory`, where the test may take memory: it was refused. All of the value
    ///   is taken then
    pub fn deserialize_checked<V: Deserialize<S>, T: CheckedFrom<V>>(
        &mut self,
        alloc: Global,
    ) -> Result<T, DecodeError<S::Error>>
        ensures promised { Deserializes (checked_from T.words T.makes T.takes_memory V.promise)
            (input S.view self.old) (input S.view self.new) (answer_of result) }
        ensures after_value { V.promise.format.takes_memory ≡ false →
            IfErr result (λ error. IsTrue (is_out_of_memory (as_core error)) →
            (v : V) × Sound V.promise.format.reads
            (input S.view self.old) (input S.view self.new) v) }
    {
        match V::deserialize(alloc, self) {
            Ok(value) => match T::checked_from(alloc, value) {
                Ok(made) => Ok(made),
                Err(Unmade::Rejected(words)) => Err(DecodeError::Custom(words)),
                Err(Unmade::OutOfMemory) => {
                    Err(DecodeError::Core(core_error::DecodeError::OutOfMemory))
                }
            },
            Err(error) => Err(error),
        }
    }
}
