//! Answers whose error is left in a slot.
//!
//! An error is as large as the reader's error, which may be of any size, and each call clears and
//! fills the room that an answer takes. So what reads a struct answers a value or none, and the
//! error goes through a reference.
ghost use Rattle.std.specs.Prelude.{◌≡◌, Some};
ghost use Rattle.cbor4ii.specs.Answered.{typed_value_or_error, typed_error_left};

use crate::serde::de::error::DecodeError;
use cbor4ii_rw::error as core_error;

#[inline(always)]
pub(crate) fn part<T, E: Drop>(
    answer: Result<T, DecodeError<E>>,
    failure: &mut Option<DecodeError<E>>,
) -> Option<T>
    ensures { answer ≡ typed_value_or_error result failure.new }
{
    match answer {
        Ok(value) => Some(value),
        Err(error) => {
            leave(error, failure);
            None
        }
    }
}

#[inline(always)]
pub(crate) fn leave<E: Drop>(error: E, failure: &mut Option<E>)
    ensures { failure.new ≡ Some error }
{
    *failure = Some(error);
}

#[inline(always)]
pub(crate) fn whole<T, E: Drop>(
    value: Option<T>,
    failure: Option<DecodeError<E>>,
) -> Result<T, DecodeError<E>>
    ensures { result ≡ typed_value_or_error value failure }
{
    match value {
        Some(value) => Ok(value),
        None => Err(left(failure)),
    }
}

/// The error that was left. An empty slot stands for refused memory.
#[inline(always)]
pub(crate) fn left<E>(failure: Option<DecodeError<E>>) -> DecodeError<E>
    ensures { result ≡ typed_error_left failure }
{
    match failure {
        Some(error) => error,
        None => DecodeError::Core(core_error::DecodeError::OutOfMemory),
    }
}
