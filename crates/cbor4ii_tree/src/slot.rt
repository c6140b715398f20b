//! Answers whose error is left in a slot.
//!
//! An error is as large as the reader's error, which may be of any size. So what calls itself,
//! item in item, hands up no more than a value or none, and the error goes through a reference.
ghost use Rattle.std.specs.Prelude.{◌≡◌, ◌∷◌, ◌++◌, [], Some, None, OnSome, IfNone};
ghost use Rattle.cbor4ii_rw.specs.declared.error.DecodeError.TheVariants.{DepthOverflow, Eof};
ghost use Rattle.cbor4ii_rw.specs.declared.error.DecodeError.TheVariants.{NotCanonical};
ghost use Rattle.cbor4ii_rw.specs.declared.error.Len.TheVariants.{Small};
ghost use Rattle.cbor4ii_tree.specs.Inner.Does.{value_or_error, error_left};

use cbor4ii_rw::error::{DecodeError, Len, StaticStr};

#[inline(always)]
pub(crate) fn part<T, E: Drop>(
    answer: Result<T, DecodeError<E>>,
    failure: &mut Option<DecodeError<E>>,
) -> Option<T>
    ensures { answer ≡ value_or_error result failure.new }
{
    match answer {
        Ok(value) => Some(value),
        Err(error) => {
            leave(error, failure);
            None
        }
    }
}

#[cold]
#[inline(never)]
pub(crate) fn leave<E: Drop>(error: E, failure: &mut Option<E>)
    ensures { failure.new ≡ Some error }
{
    *failure = Some(error);
}

#[cold]
#[inline(never)]
pub(crate) fn leave_deep<E: Drop>(name: StaticStr, failure: &mut Option<DecodeError<E>>)
    ensures { failure.new ≡ Some (DepthOverflow name.entry) }
{
    *failure = Some(DecodeError::DepthOverflow { name });
}

#[cold]
#[inline(never)]
pub(crate) fn leave_end<E: Drop>(name: StaticStr, failure: &mut Option<DecodeError<E>>)
    ensures { failure.new ≡ Some (Eof name.entry (Small 1)) }
{
    *failure = Some(DecodeError::Eof {
        name,
        expect: Len::Small(1),
    });
}

#[cold]
#[inline(never)]
pub(crate) fn leave_not_canonical<E: Drop>(name: StaticStr, failure: &mut Option<DecodeError<E>>)
    ensures { failure.new ≡ Some (NotCanonical name.entry) }
{
    *failure = Some(DecodeError::NotCanonical { name });
}

/// An empty slot stands for refused memory.
#[inline(always)]
pub(crate) fn whole<T: Drop, E: Drop>(
    value: Option<T>,
    failure: &mut Option<DecodeError<E>>,
) -> Result<T, DecodeError<E>>
    ensures { result ≡ value_or_error value failure.old }
{
    match value {
        Some(value) => Ok(value),
        None => Err(err(failure)),
    }
}

/// It stays out of line, so that a value costs no look at the slot.
#[cold]
#[inline(never)]
fn err<E: Drop>(failure: &mut Option<DecodeError<E>>) -> DecodeError<E>
    ensures { result ≡ error_left failure.old }
{
    match failure.take() {
        Some(error) => error,
        None => DecodeError::OutOfMemory,
    }
}

/// Where memory is refused, `failure` is left empty.
#[inline(always)]
pub(crate) fn keep<T: Drop, E: Drop>(
    items: &mut Vec<T>,
    item: T,
    failure: &mut Option<DecodeError<E>>,
) -> Option<()>
    ensures kept { OnSome result (items.new.items ≡ items.old.items ++ item ∷ []) }
    ensures memory { IfNone result (failure.new ≡ None) }
{
    match items.push(item) {
        Ok(()) => Some(()),
        Err(_) => {
            *failure = None;
            None
        }
    }
}
