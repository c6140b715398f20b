//! Typed values as rows: read over each reader for tests, and written into each writer for tests.
use cbor4ii::serde::{
    DecodeError, Deserialize, Deserializer, Input, Serialize, from_reader, from_slice, to_vec,
};
use cbor4ii_rw::error as core_error;
use cbor4ii_rw::error::{Never, StaticStr};
use cbor4ii_rw::io_reader::IoReader;
use cbor4ii_rw::read::Source;
use cbor4ii_rw::slice_reader::SliceReader;
use cbor4ii_rw::write::Write;
use cbor4ii_vectors::rows::{
    Called, CalledWithin, Calls, ReadFrom, Row, RowWithin, WriteTo, call_ends_at_each_prefix,
    calls_rows, calls_rows_within, ends_at_each_prefix, reads_texts, reads_texts_within, says,
    writes,
};
use cbor4ii_vectors_ser::typed::{spoil, write_typed};
use std::alloc::Global;
use std::fmt::{Debug, InlineText};
use std::marker::PhantomData;
use std::test::Fail;

// The steps of a reader that is given no other limit.
const STEPS: usize = 256;

/// What calls of a deserializer answer.
pub type Got<T, S> = Result<T, DecodeError<<S as Source>::Error>>;

/// What is read as a typed value: a value, or the error that is no error of the codec.
#[derive(Debug, PartialEq, Drop)]
pub enum Answer<T> {
    /// The value.
    Is(T),
    /// An error in words of its own.
    Custom(StaticStr),
}

/// What calls of a deserializer read: a typed value, or what a row says by itself.
///
/// That it is read is proved once, over any reader, and a test of its rows asks no more of it.
pub trait Take: Sized {
    /// Reads it from the beginning of what `de` has left.
    fn take<S: Source>(alloc: Global, de: &mut Deserializer<S>) -> Got<Self, S>;
}

/// Calls of a deserializer that differ by their names.
pub trait TypedCalls {
    /// The `Debug` text of what the call of this name reads from the beginning of what `de` has
    /// left. Of a name that is none of a call nothing is read, and `no_call` is the answer.
    fn make<S: Source>(name: &str, alloc: Global, de: &mut Deserializer<S>) -> Got<String, S>;
}

/// Types that differ by their names, each by its own `deserialize` and `serialize`.
pub trait TypedNames: TypedCalls {
    /// Writes what is read from the bytes as the type of this name, by `written`. Of a name that is
    /// none of a type the row is spoilt.
    fn again<W: Write>(
        name: &str,
        alloc: Global,
        bytes: &'static [u8],
        writer: &mut W,
    ) -> Result<(), core_error::EncodeError<W::Error>>;
}

/// Writes what is read of the bytes. Where they are rejected, the row is spoilt.
pub fn written<T, W>(
    alloc: Global,
    bytes: &'static [u8],
    writer: &mut W,
) -> Result<(), core_error::EncodeError<W::Error>>
where
    T: Deserialize<SliceReader<'static>> + Serialize + Drop,
    W: Write,
{
    match from_slice::<&'static [u8], T>(alloc, bytes) {
        Ok(value) => write_typed(&value, writer),
        Err(_) => spoil(writer),
    }
}

/// What is read from bytes as the type of this name, to be written again.
#[derive(Drop)]
struct Again<C> {
    name: &'static str,
    alloc: Global,
    bytes: &'static [u8],
    of: PhantomData<C>,
}

impl<C: TypedNames> WriteTo for Again<C> {
    fn write_to<W: Write>(&self, writer: &mut W) -> Result<(), core_error::EncodeError<W::Error>> {
        C::again(self.name, self.alloc, self.bytes, writer)
    }
}

/// What is read from the bytes as the type of this name has the text, and is written as them. Each
/// proper prefix of them is the end of the input.
pub fn goes_both_ways<C: TypedNames>(
    alloc: Global,
    name: &'static str,
    (bytes, text): BothShown,
) -> Result<(), Fail> {
    let of = PhantomData;
    writes(
        alloc,
        &Again::<C> {
            name,
            alloc,
            bytes,
            of,
        },
        bytes,
    )?;
    calls_rows::<By<C>>(alloc, &[(name, bytes, Ok(text), b"")])?;
    call_ends_at_each_prefix::<By<C>>(alloc, name, bytes)
}

/// The calls, of which one that is rejected in words of its own has the text of that error.
pub struct By<C>(PhantomData<C>);

impl<C: TypedCalls> Calls for By<C> {
    fn call<S: Source>(
        name: &str,
        alloc: Global,
        reader: &mut S,
    ) -> Result<String, core_error::DecodeError<S::Error>> {
        match C::make(name, alloc, &mut Deserializer::new(reader)) {
            Ok(text) => Ok(text),
            Err(DecodeError::Core(error)) => Err(error),
            Err(DecodeError::Custom(words)) => says(alloc, Ok(Custom(words))),
        }
    }
}

/// An error in words of its own.
#[derive(Debug, Drop)]
struct Custom(StaticStr);

/// The `Debug` text of what was read.
pub fn shows<T: Debug + Drop, E>(alloc: Global, value: T) -> Result<String, DecodeError<E>> {
    match says(alloc, Ok(value)) {
        Ok(text) => Ok(text),
        Err(error) => Err(DecodeError::Core(error)),
    }
}

/// What a call of no name reads.
pub fn no_call<E>() -> Result<String, DecodeError<E>> {
    Err(DecodeError::Custom("no call has this name"))
}

/// Makes the call of each row, of those without a limit and of those within one.
pub fn calls<C: TypedCalls>(
    alloc: Global,
    rows: &[Called],
    within: &[CalledWithin],
) -> Result<(), Fail> {
    calls_rows::<By<C>>(alloc, rows)?;
    calls_rows_within::<By<C>>(alloc, within)
}

impl<T> Answer<T> {
    /// The answer of calls, or the error of the codec.
    pub fn of<E>(got: Result<T, DecodeError<E>>) -> Result<Answer<T>, core_error::DecodeError<E>> {
        match got {
            Ok(value) => Ok(Answer::Is(value)),
            Err(DecodeError::Custom(text)) => Ok(Answer::Custom(text)),
            Err(DecodeError::Core(error)) => Err(error),
        }
    }
}

impl<T: Take + Debug + Drop> ReadFrom for Answer<T> {
    fn read_from<S: Source>(
        alloc: Global,
        reader: &mut S,
    ) -> Result<Answer<T>, core_error::DecodeError<S::Error>> {
        Answer::of(T::take(alloc, &mut Deserializer::new(reader)))
    }
}

/// An error in words writes nothing.
impl<T: Serialize> WriteTo for Answer<T> {
    fn write_to<W: Write>(&self, writer: &mut W) -> Result<(), core_error::EncodeError<W::Error>> {
        match self {
            Answer::Is(value) => write_typed(value, writer),
            Answer::Custom(_) => Ok(()),
        }
    }
}

/// Bytes, and the text of the answer that is read from them and written as them.
pub type BothShown = (&'static [u8], &'static str);

/// A row that holds the text of the answer.
pub type RowShown = Row<&'static str>;

/// A row within a limit that holds the text of the answer.
pub type RowShownWithin = RowWithin<&'static str>;

/// What each row reads has the row's text, and is written as the row's bytes. Each proper prefix of
/// them is the end of the input.
fn go_shown_both_ways<A>(alloc: Global, rows: &[BothShown]) -> Result<(), Fail>
where
    A: WriteTo + ReadFrom + Debug + Drop,
{
    for (bytes, text) in rows {
        let answer = A::read_from(alloc, &mut SliceReader::new(bytes))?;
        writes(alloc, &answer, bytes)?;
        reads_texts::<A>(alloc, &[(bytes, Ok(text), b"")])?;
        ends_at_each_prefix::<A>(alloc, bytes, STEPS)?;
    }
    Ok(())
}

/// Reads the rows, those without a limit and those within one: each holds the text of the answer.
pub fn reads_all_shown<A>(
    alloc: Global,
    rows: &[RowShown],
    within: &[RowShownWithin],
) -> Result<(), Fail>
where
    A: ReadFrom + Debug + Drop,
{
    reads_texts::<A>(alloc, rows)?;
    reads_texts_within::<A>(alloc, within)
}

/// All rows of one type: those that go both ways, those that are read, and those that are read
/// within a limit. Each holds the text of the answer.
pub fn tries_shown<A>(
    alloc: Global,
    both: &[BothShown],
    rows: &[RowShown],
    within: &[RowShownWithin],
) -> Result<(), Fail>
where
    A: WriteTo + ReadFrom + Debug + Drop,
{
    go_shown_both_ways::<A>(alloc, both)?;
    reads_all_shown::<A>(alloc, rows, within)
}

/// The codec rejects the value with this text. Where memory was refused the row says nothing.
pub fn is_rejected<T: Drop, E: Debug + Drop>(
    got: Result<T, DecodeError<E>>,
    want: &str,
) -> Result<(), Fail> {
    let text = match &got {
        Err(DecodeError::Core(core_error::DecodeError::OutOfMemory)) => {
            return Err(Fail::from(core_error::DecodeError::<Never>::OutOfMemory));
        }
        Err(DecodeError::Core(error)) => InlineText::<128>::of(error),
        Err(DecodeError::Custom(_)) | Ok(_) => InlineText::of("no error of the codec"),
    };
    if text.as_str() == want {
        return Ok(());
    }
    Err(Fail::new(format_args!("{} in the place of {want}", text.as_str())))
}

/// The value at the beginning of the bytes, from a slice and out of a stream, by the calls for one
/// value: it has this text.
pub fn is_at_beginning<T>(alloc: Global, bytes: &'static [u8], text: &str) -> Result<T, Fail>
where
    T: Deserialize<SliceReader<'static>>
        + Deserialize<IoReader<&'static [u8]>>
        + PartialEq
        + Debug
        + Drop,
{
    let value: T = from_slice(alloc, bytes)?;
    let streamed: T = from_reader(alloc, bytes)?;
    if value == streamed && format!(in alloc; "{value:?}")?.as_str() == text {
        return Ok(value);
    }
    Err(Fail::new(format_args!("{value:?}, {streamed:?} in the place of {text}")))
}

/// The calls for one value read the bytes, from a slice and out of a stream, and write them back.
/// The value has this text.
pub fn comes_back<T>(alloc: Global, bytes: &'static [u8], text: &str) -> Result<(), Fail>
where
    T: Deserialize<SliceReader<'static>>
        + Deserialize<IoReader<&'static [u8]>>
        + Serialize
        + PartialEq
        + Debug
        + Drop,
{
    let value: T = is_at_beginning(alloc, bytes, text)?;
    is_written_as(alloc, &value, bytes)
}

/// The calls for one value read each row's bytes and write them back. The value has the row's text.
pub fn come_back<T>(alloc: Global, rows: &[BothShown]) -> Result<(), Fail>
where
    T: Deserialize<SliceReader<'static>>
        + Deserialize<IoReader<&'static [u8]>>
        + Serialize
        + PartialEq
        + Debug
        + Drop,
{
    for (bytes, text) in rows {
        comes_back::<T>(alloc, bytes, text)?;
    }
    Ok(())
}

/// The calls for one value read the bytes from a slice, and write them back. The slice need not
/// live for good: a value may borrow from it. `input` is the slice of these bytes.
pub fn comes_back_lent<I: Input, T>(
    alloc: Global,
    input: I,
    bytes: &[u8],
    text: &str,
) -> Result<(), Fail>
where
    T: Deserialize<I::Reader> + Serialize + Debug + Drop,
{
    match from_slice::<I, T>(alloc, input) {
        Ok(value) => {
            if format!(in alloc; "{value:?}")?.as_str() != text {
                return Err(Fail::new(format_args!("{value:?} in the place of {text}")));
            }
            is_written_as(alloc, &value, bytes)
        }
        Err(error) => Err(Fail::new(format_args!("{error:?} in the place of {text}"))),
    }
}

/// The value is written as these bytes, by the call for one value.
fn is_written_as<T: Serialize>(alloc: Global, value: &T, bytes: &[u8]) -> Result<(), Fail> {
    let written = to_vec(Vec::new(alloc), value)?;
    if written.as_slice() == bytes {
        return Ok(());
    }
    Err(Fail::new(format_args!("{written:?} in the place of {bytes:?}")))
}
