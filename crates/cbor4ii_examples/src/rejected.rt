//! How a test compares what a recipe's function rejects.
use cbor4ii::error::{DecodeError, Never};
use std::fmt::{Debug, InlineText};
use std::test::Fail;

/// The answer is the error of this text. Want of memory is the failure of the test.
pub fn is_rejected<T: Drop, E: Debug + Drop>(
    answer: Result<T, DecodeError<E>>,
    text: &str,
) -> Result<(), Fail> {
    match &answer.err() {
        Some(DecodeError::OutOfMemory) => Err(Fail::from(DecodeError::<Never>::OutOfMemory)),
        Some(error) if InlineText::<128>::of(error).as_str() == text => Ok(()),
        rejection => Err(Fail::new(format_args!("{rejection:?} in the place of {text}"))),
    }
}
