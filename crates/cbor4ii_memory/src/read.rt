//! How a row is read: over a slice, over segments and over a stream.
use crate::debug_text::{Pieces, has_debug_text};
use crate::tally::{Broken, Tally};
use cbor4ii::serde;
use cbor4ii_rw::ask::next_byte;
use cbor4ii_rw::error::DecodeError;
use cbor4ii_rw::io_reader::IoReader;
use cbor4ii_rw::read::Source;
use cbor4ii_rw::segment_reader::SegmentReader;
use cbor4ii_rw::slice_reader::SliceReader;
use cbor4ii_vectors::rows::steps;
use cbor4ii_vectors::streams::FailingStream;
use std::alloc::Global;
use std::fmt::Debug;

// No row has more bytes.
const MOST_BYTES: usize = 20_480;

/// A row: the name of its call, bytes, the text of what is read or of the error, and what is left
/// of the bytes.
pub type Row = (&'static str, &'static [u8], &'static str, &'static [u8]);

/// What a call answers: whether what it read has the text that is meant.
pub type Told<S> = Result<bool, DecodeError<<S as Source>::Error>>;

/// Calls that differ by their names, so that they are tried by one function over each reader.
pub trait Calls {
    /// Makes the call of this name at the beginning of what `reader` has left. What a call of
    /// another name reads has no text that is meant.
    fn call<S: Source>(name: &str, alloc: Global, reader: &mut S, text: Pieces<'_>) -> Told<S>;
}

/// Whether what was read has this text.
pub fn says<T: Debug + Drop, E>(got: Result<T, E>, text: Pieces<'_>) -> Result<bool, E> {
    match got {
        Ok(value) => Ok(has_debug_text(&value, text)),
        Err(error) => Err(error),
    }
}

/// Whether what a deserializer read has this text.
pub fn told<T: Debug + Drop, E>(
    got: Result<T, serde::DecodeError<E>>,
    text: Pieces<'_>,
) -> Result<bool, DecodeError<E>> {
    says(as_core(got), text)
}

/// The answer of calls of a deserializer. An error in words is no other error's.
pub fn as_core<T, E>(got: Result<T, serde::DecodeError<E>>) -> Result<T, DecodeError<E>> {
    match got {
        Ok(value) => Ok(value),
        Err(serde::DecodeError::Core(error)) => Err(error),
        Err(serde::DecodeError::Custom(name)) => Err(DecodeError::Custom { name, num: 0 }),
    }
}

/// What a row is meant to give.
#[derive(Clone, Copy)]
pub struct Meant<'a> {
    /// Its name, and that of its call.
    pub row: &'static str,
    pub call: &'static str,
    pub bytes: &'a [u8],
    /// The text of what is read, or of the error.
    pub text: Pieces<'a>,
    /// What is left of the bytes.
    pub rest: &'a [u8],
    /// What want of memory leaves of the bytes.
    pub left: Left,
}

/// What want of memory leaves of a row's bytes.
#[derive(Clone, Copy, PartialEq)]
pub enum Left {
    /// It never comes.
    Never,
    /// An end of them.
    AnEnd,
    /// What follows the item, which was taken.
    TheRest,
}

/// Makes the call of each row over each reader.
pub fn reads<C: Calls>(tally: &mut Tally, left: Left, rows: &[Row]) -> Result<(), Broken> {
    for (row, bytes, text, rest) in rows {
        let meant = Meant {
            row,
            call: row,
            bytes,
            text: &[(text, 1)],
            rest,
            left,
        };
        reads_by_each::<C>(tally, &meant)?;
    }
    Ok(())
}

/// Makes a call over a slice, over two segments and over a stream that shows three bytes at most.
pub fn reads_by_each<C: Calls>(tally: &mut Tally, meant: &Meant<'_>) -> Result<(), Broken> {
    let bytes = meant.bytes;
    reads_over::<C, _>(tally, &mut SliceReader::new(bytes), meant)?;
    let (first, second) = bytes.split_at(bytes.len() / 2);
    let segments = [first, second];
    reads_over::<C, _>(tally, &mut SegmentReader::new(&segments), meant)?;
    let stream = FailingStream::new(bytes, 3, usize::MAX);
    reads_over::<C, _>(tally, &mut IoReader::new(stream), meant)
}

/// Makes a call over this reader, which holds the row's bytes.
pub fn reads_over<C: Calls, S: Source>(
    tally: &mut Tally,
    reader: &mut S,
    meant: &Meant<'_>,
) -> Result<(), Broken> {
    let budget = steps(reader);
    let got = C::call(meant.call, tally.alloc(), reader, meant.text);
    is_answer(tally, reader, budget, &got, meant)
}

/// Looks at the answer over a reader that had so many steps and the row's bytes. The steps are as
/// before. The row's rest is left, or what want of memory leaves.
pub fn is_answer<S: Source>(
    tally: &mut Tally,
    reader: &mut S,
    budget: u16,
    got: &Told<S>,
    meant: &Meant<'_>,
) -> Result<(), Broken> {
    if steps(reader) != budget {
        return Err(Broken::new(meant.row, "the steps are not as before"));
    }
    match got {
        Ok(true) => {}
        Ok(false) => return Err(Broken::new(meant.row, "another value is read")),
        Err(DecodeError::OutOfMemory) => {
            tally.refuse();
            if is_left(reader, meant) {
                return Ok(());
            }
            return Err(Broken::new(meant.row, "other bytes are left without memory"));
        }
        Err(error) if has_debug_text(error, meant.text) => {}
        Err(_) => return Err(Broken::new(meant.row, "it is rejected, or with another error")),
    }
    if leaves(reader, meant.rest) {
        return Ok(());
    }
    Err(Broken::new(meant.row, "other bytes are left"))
}

/// Takes all that is left: whether it is exactly `rest`.
pub fn leaves<S: Source>(reader: &mut S, rest: &[u8]) -> bool {
    for byte in rest {
        if !matches!(next_byte(reader), Ok(Some(next)) if next == *byte) {
            return false;
        }
    }
    matches!(next_byte(reader), Ok(None))
}

// Takes all that is left: whether want of memory leaves it.
fn is_left<S: Source>(reader: &mut S, meant: &Meant<'_>) -> bool {
    match meant.left {
        Left::Never => false,
        Left::AnEnd => leaves_an_end(reader, meant.bytes),
        Left::TheRest => leaves(reader, meant.rest),
    }
}

/// Takes all that is left: whether it is an end of `bytes`.
pub fn leaves_an_end<S: Source>(reader: &mut S, bytes: &[u8]) -> bool {
    let mut left = [0; MOST_BYTES];
    let mut taken: usize = 0;
    for place in left.iter_mut() {
        match next_byte(reader) {
            Ok(Some(byte)) => *place = byte,
            _ => break,
        }
        taken = taken.saturating_add(1);
    }
    matches!(left.get(..taken), Some(left) if bytes.ends_with(left))
}
