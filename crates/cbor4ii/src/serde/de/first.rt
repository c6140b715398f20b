//! The value at the beginning of an input.
ghost use Rattle.std.specs.Prelude.{◌≡◌, Some, IsTrue, IfErr};
ghost use Rattle.cbor4ii_rw.specs.Input.{limit};
ghost use Rattle.cbor4ii_rw.specs.Stream.{most_bytes, cut_known};
ghost use Rattle.cbor4ii.specs.First.{First, FirstOf, FirstWhole, typed_error_of};
ghost use Rattle.cbor4ii.specs.Typed.{unsaid_rejects};
ghost use Rattle.cbor4ii_items.specs.Whole.{IsSure, StopsAt, without_byte};

use crate::serde::de::deserialize::Deserialize;
use crate::serde::de::deserializer::Deserializer;
use crate::serde::de::error::DecodeError;
use cbor4ii_rw::error::{ErrorAt, WholeError};
use cbor4ii_rw::input::Input;
use cbor4ii_rw::io_reader::IoReader;
use cbor4ii_rw::read::Source;
use std::alloc::Global;
use std::io;
use std::io::BufRead;

/// Reads the value at the beginning of `input`, a slice, with 256 steps. What follows it is left
/// alone.
///
/// # Errors
///
/// - `Core` of `OutOfMemory`: a growth was refused, of a type that takes memory
/// - `Core` of `Read`: only over an input of a user's own whose reader may fail
/// - any other error comes, of an exact type, only where no value whose steps are at most 256
///   begins the slice, and is the one that `rejects` of its format says. Of a type that reports
///   its errors it is one that `begins` of its format says
pub fn from_slice<I: Input, T: Deserialize<I::Reader>>(
    alloc: Global,
    input: I,
) -> Result<T, DecodeError<<I::Reader as Source>::Error>>
    ensures { First T.promise (IsSure T.promise.format.owned (I.bytes input))
        (Some (I.bytes input)) result }
{
    read_first(alloc, input.reader())
}

/// Reads `input`, a slice, as one value, with 256 steps. Of an exact type it is accepted exactly
/// where the whole input is read as a value whose steps are at most 256, and there is memory.
///
/// # Errors
///
/// - `Decode` of an error of `from_slice`
/// - `Trailing`: the input begins with a value, and so many bytes follow it
pub fn from_slice_whole<I: Input, T: Deserialize<I::Reader> + Drop>(
    alloc: Global,
    input: I,
) -> Result<T, WholeError<DecodeError<<I::Reader as Source>::Error>>>
    ensures { FirstWhole T.promise (I.bytes input) result }
{
    let mut de = Deserializer::new(input.reader());
    let value = T::deserialize(alloc, &mut de)?;
    let left = I::left(&de.into_inner());
    if left > 0 {
        return Err(WholeError::Trailing(left));
    }
    Ok(value)
}

/// Reads `input`, a slice, as one value, as `from_slice_whole` does. An error tells its byte, too,
/// as one of `decode_whole_at` does.
///
/// # Errors
///
/// Those of `from_slice_whole`.
pub fn from_slice_whole_at<I: Input, T: Deserialize<I::Reader> + Drop>(
    alloc: Global,
    input: I,
) -> Result<T, ErrorAt<WholeError<DecodeError<<I::Reader as Source>::Error>>>>
    ensures whole { FirstWhole T.promise (I.bytes input) (without_byte result) }
    ensures within { IfErr result (StopsAt typed_error_of unsaid_rejects (I.bytes input)) }
    ensures at { IsTrue T.promise.known →
        IfErr result (StopsAt typed_error_of T.promise.format.begins (I.bytes input)) }
    ensures exact { IsTrue T.promise.exact → IsSure T.promise.format.owned (I.bytes input) →
        IfErr result (StopsAt typed_error_of T.promise.format.rejects (I.bytes input)) }
{
    let source = input.reader();
    let length = I::left(&source);
    let mut de = Deserializer::new(source);
    let answer = T::deserialize(alloc, &mut de);
    let left = I::left(&de.into_inner());
    let at = length.saturating_sub(left);
    match answer {
        Ok(value) if left == 0 => Ok(value),
        Ok(_) => Err(ErrorAt {
            at,
            error: WholeError::Trailing(left),
        }),
        Err(error) => Err(ErrorAt {
            at,
            error: WholeError::Decode(error),
        }),
    }
}

/// Reads the value at the beginning of a stream, with 256 steps. Of a stream, at most 2^64-1 bytes
/// are read. What was taken of `reader` before an error is lost; after a value `reader` follows
/// it, which is tested and not proved, since `reader` is gone then.
///
/// # Errors
///
/// - `Core` of `Read`: the stream failed
/// - `Core` of `OutOfMemory`: a growth was refused, of a type that takes memory
/// - any other error is, of a type that reports its errors, the one that `begins` of its format
///   says. Of an exact type that needs no borrowed slice, it comes only where no value whose steps
///   are at most 256 begins these bytes, and is the one that `rejects` of its format says
pub fn from_reader<R: BufRead + Drop, T: Deserialize<IoReader<R>>>(
    alloc: Global,
    reader: R,
) -> Result<T, DecodeError<io::Error>>
    ensures { First T.promise (IsTrue T.promise.format.owned)
        (cut_known most_bytes (R.Read.remaining reader)) result }
{
    read_first(alloc, IoReader::new(reader))
}

fn read_first<S: Source + Drop, T: Deserialize<S>>(
    alloc: Global,
    reader: S,
) -> Result<T, DecodeError<S::Error>>
    ensures { (S.view reader).budget ≡ Some limit →
        FirstOf T.promise (S.view reader) result }
{
    let mut de = Deserializer::new(reader);
    T::deserialize(alloc, &mut de)
}
