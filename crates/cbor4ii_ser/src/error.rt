//! Why a typed value was not written.
ghost use Rattle.std.specs.Prelude.{◌≡◌};
ghost use Rattle.cbor4ii_rw.specs.declared.error.EncodeError.TheVariants.{Write};
ghost use Rattle.cbor4ii_ser.specs.declared.error.EncodeError.TheVariants.{Core};

use cbor4ii_rw::error as core_error;
use cbor4ii_rw::error::StaticStr;
use std::error::Error;
use std::fmt;

/// Why a typed value was not written.
#[derive(Clone, Debug, PartialEq, Eq, Drop)]
pub enum EncodeError<E> {
    /// The codec's own error: the writer failed.
    Core(core_error::EncodeError<E>),
    /// No item stands for the value, for this reason.
    Custom(StaticStr),
}

impl<E> EncodeError<E> {
    /// That the writer failed with this error.
    pub fn write(error: E) -> EncodeError<E>
        ensures { result ≡ Core (Write error) }
    {
        EncodeError::Core(core_error::EncodeError::Write(error))
    }
}

impl<E> From<core_error::EncodeError<E>> for EncodeError<E> {
    ghost from_gives = { λ error result. result ≡ Core error };

    fn from(error: core_error::EncodeError<E>) -> EncodeError<E> {
        EncodeError::Core(error)
    }
}

/// The text of `Debug`.
impl<E: fmt::Debug> fmt::Display for EncodeError<E> {
    fn fmt<W: fmt::Write>(&self, f: &mut fmt::Formatter<W>) -> fmt::Result {
        fmt::Debug::fmt(self, f)
    }
}

impl<E: fmt::Debug + Drop> Error for EncodeError<E> {}
