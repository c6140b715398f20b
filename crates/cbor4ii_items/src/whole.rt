//! Inputs that are one item and nothing else.
ghost use Rattle.std.specs.Prelude.{IfErr};
ghost use Rattle.cbor4ii_items.specs.InputError.{input_error_of};
ghost use Rattle.cbor4ii_items.specs.Whole.{DecodesWhole, IsSure, StopsAt, without_byte};

use crate::decode::Decode;
use cbor4ii_rw::error::{DecodeError, ErrorAt, WholeError};
use cbor4ii_rw::input::Input;
use cbor4ii_rw::read::Source;
use std::alloc::Global;

/// Reads `input`, a slice, as one item, with 256 steps. It is accepted exactly where the whole
/// input is an encoding of the type whose steps are at most 256, and there is memory for the value.
/// A type that borrows may reject an input of 2^64 bytes or more.
///
/// # Errors
///
/// - `Decode` of an error of `T::decode` over these bytes
/// - `Trailing`: the input begins with an item, and so many bytes follow it
pub fn decode_whole<I: Input, T: Decode<I::Reader> + Drop>(
    alloc: Global,
    input: I,
) -> Result<T, WholeError<DecodeError<<I::Reader as Source>::Error>>>
    ensures { DecodesWhole T.format (I.bytes input) result }
{
    let mut reader = input.reader();
    let value = T::decode(alloc, &mut reader)?;
    let left = I::left(&reader);
    if left > 0 {
        return Err(WholeError::Trailing(left));
    }
    Ok(value)
}

/// Reads `input`, a slice, as one item, as `decode_whole` does. An error tells its byte, too: how
/// many bytes were taken, so that what it leaves begins there.
///
/// # Errors
///
/// Those of `decode_whole`:
///
/// - `Decode`: the byte is that of the error's rest. Where an input of a user's own failed, it is
///   at most the number of bytes
/// - `Trailing`: the byte is the first one after the item
pub fn decode_whole_at<I: Input, T: Decode<I::Reader> + Drop>(
    alloc: Global,
    input: I,
) -> Result<T, ErrorAt<WholeError<DecodeError<<I::Reader as Source>::Error>>>>
    ensures whole { DecodesWhole T.format (I.bytes input) (without_byte result) }
    ensures at { IfErr result (StopsAt input_error_of T.format.begins (I.bytes input)) }
    ensures exact { IsSure T.format.owned (I.bytes input) →
        IfErr result (StopsAt input_error_of T.format.rejects (I.bytes input)) }
{
    let mut reader = input.reader();
    let length = I::left(&reader);
    let answer = T::decode(alloc, &mut reader);
    let left = I::left(&reader);
    let at = length.saturating_sub(left);
    match answer {
        Ok(value) if left == 0 => Ok(value),
        Ok(_) => Err(ErrorAt {
            at,
            error: WholeError::Trailing(left),
        }),
        Err(error) => Err(ErrorAt {
            at,
            error: WholeError::Decode(error),
        }),
    }
}
