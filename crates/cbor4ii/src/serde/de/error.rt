//! Why a typed value was not read.
ghost use Rattle.std.specs.Prelude.{◌≡◌};
ghost use Rattle.cbor4ii_rw.specs.declared.error.DecodeError.TheVariants.{Read};
ghost use Rattle.cbor4ii.specs.declared.serde.de.error.DecodeError.TheVariants.{Core};
ghost use Rattle.cbor4ii.specs.Typed.{answer_of};

use cbor4ii_rw::error as core_error;
use cbor4ii_rw::error::StaticStr;
use std::error::Error;
use std::fmt;

/// Why a typed value was not read.
#[derive(Clone, Debug, PartialEq, Eq, Drop)]
pub enum DecodeError<E> {
    /// An error of the codec.
    Core(core_error::DecodeError<E>),
    /// A type rejects what it reads, and the text says why. Of this crate's own types it comes
    /// after a whole item that stands for no value of the type: "expected one character" and
    /// "integer out of range". After the head of a tag it is "expected another tag", by
    /// `deserialize_tagged`. A user's own type says when it comes, and what is left then.
    Custom(StaticStr),
}

impl<E> DecodeError<E> {
    /// The reader failed, for this reason.
    pub fn read(error: E) -> DecodeError<E>
        ensures { result ≡ Core (Read error) }
    {
        DecodeError::Core(core_error::DecodeError::Read(error))
    }

    /// This error in words for a person.
    pub fn explain(&self) -> Explained<'_, E> {
        Explained(self)
    }
}

/// An error of a typed value in words for a person, on one line. `DecodeError::explain` answers it.
#[derive(Debug, Drop)]
pub struct Explained<'a, E>(&'a DecodeError<E>);

impl<E: fmt::Display> fmt::Display for Explained<'_, E> {
    fn fmt<W: fmt::Write>(&self, f: &mut fmt::Formatter<W>) -> fmt::Result {
        match self.0 {
            DecodeError::Core(error) => write!(f, "{}", error.explain()),
            DecodeError::Custom(words) => f.write_str(words),
        }
    }
}

impl<E> From<core_error::DecodeError<E>> for DecodeError<E> {
    ghost from_gives = { λ error result. result ≡ Core error };

    fn from(error: core_error::DecodeError<E>) -> DecodeError<E> {
        DecodeError::Core(error)
    }
}

/// The text of `Debug`.
impl<E: fmt::Debug> fmt::Display for DecodeError<E> {
    fn fmt<W: fmt::Write>(&self, f: &mut fmt::Formatter<W>) -> fmt::Result {
        fmt::Debug::fmt(self, f)
    }
}

impl<E: fmt::Debug + Drop> Error for DecodeError<E> {}

#[inline(always)]
pub(crate) fn typed<V, E>(
    answer: Result<V, core_error::DecodeError<E>>,
) -> Result<V, DecodeError<E>>
    ensures { answer_of result ≡ answer }
{
    match answer {
        Ok(value) => Ok(value),
        Err(error) => Err(DecodeError::Core(error)),
    }
}
