//! Rows of items that are kept as their bytes, as typed values: over slices, over segments and out
//! of streams, and as a struct's field. Nothing of a rejected item is taken.
use cbor4ii::serde::{DecodeError, Deserialize, Deserializer, Required};
use cbor4ii::{BoxedRawValue, RawValue};
use cbor4ii_rw::error as core_error;
use cbor4ii_rw::io_reader::IoReader;
use cbor4ii_rw::read::Source;
use cbor4ii_rw::segment_reader::SegmentReader;
use cbor4ii_rw::slice_reader::SliceReader;
use cbor4ii_vectors::readers::TestReader;
use cbor4ii_vectors::rows::{RowWithin, leaves, steps};
use cbor4ii_vectors::streams::FailingStream;
use cbor4ii_vectors::{eof, mismatch, no_step, require_borrowed, table, unsupported};
use std::alloc::Global;
use std::fmt::InlineText;
use std::io::ErrorKind;
use std::test::Fail;

/// An item that is kept as its bytes.
trait Kept {
    fn item(&self) -> &[u8];
}

impl Kept for RawValue<'static> {
    fn item(&self) -> &[u8] {
        self.as_bytes()
    }
}

impl Kept for BoxedRawValue {
    fn item(&self) -> &[u8] {
        self.as_bytes()
    }
}

/// Bytes, how many steps there are, the item that is kept or the text of the codec's error, and
/// what is left.
type Row = RowWithin<&'static [u8]>;

const CUT_OFF: &str = eof!("ignored-any", 1);

const NO_STEP: &str = no_step!("ignored-any");

const NOT_LENT: &str = require_borrowed!("raw-value");

const FOUND_1C: &str = mismatch!("ignored-any", 0x1c);

// Where all that is left is lent, as over a slice and in one segment.
const LENT: &[Row] = table! {
    (b"\x82\x01\x02\x03", 256, Ok(b"\x82\x01\x02"), b"\x03"),
    (b"\x5f\x80\xff\x00", 256, Ok(b"\x5f\x80\xff"), b"\x00"),
    (b"\x61\xff\x00", 256, Ok(b"\x61\xff"), b"\x00"),
    (b"\x81\x00", 2, Ok(b"\x81\x00"), b""),
    (b"", 256, Err(CUT_OFF), b""),
    (b"\x82\x01", 256, Err(CUT_OFF), b"\x82\x01"),
    (b"\x19\x00", 256, Err(CUT_OFF), b"\x19\x00"),
    (b"\x3a", 256, Err(eof!("ignored-any", 4)), b"\x3a"),
    (b"\x5f\x42", 256, Err(eof!("ignored-any", 2)), b"\x5f\x42"),
    (b"\x5a\x00\x01\x00\x00", 256, Err(eof!("ignored-any", Big)), b"\x5a\x00\x01\x00\x00"),
    (b"\x63\x61\x61", 256, Err(CUT_OFF), b"\x63\x61\x61"),
    (b"\xb9\x00", 256, Err(eof!("ignored-any", 2)), b"\xb9\x00"),
    (b"\xdb\x00\x00", 256, Err(eof!("tag", 8)), b"\xdb\x00\x00"),
    (b"\x9f\x01", 256, Err(eof!("break", 1)), b"\x9f\x01"),
    (b"\x1c", 256, Err(FOUND_1C), b"\x1c"),
    (b"\x81\x1c", 256, Err(FOUND_1C), b"\x81\x1c"),
    (b"\x5f\xdc\xff", 256, Err(mismatch!("tag", 0xdc)), b"\x5f\xdc\xff"),
    (b"\xff", 256, Err(unsupported!("ignored-any", 0xff)), b"\xff"),
    (b"\x82\x00\xe0", 256, Err(unsupported!("ignored-any", 0xe0)), b"\x82\x00\xe0"),
    (b"\xf8\x14", 256, Err(unsupported!("ignored-any", 0xf8)), b"\xf8\x14"),
    (b"\x00", 0, Err(NO_STEP), b"\x00"),
    (b"\x81\x00", 1, Err(NO_STEP), b"\x81\x00"),
    (b"\x81\x1c", 1, Err(NO_STEP), b"\x81\x1c"),
};

// In two segments that are cut after the first byte: what the first one holds is lent.
const CUT: &[Row] = table! {
    (b"\x00\x1c", 256, Ok(b"\x00"), b"\x1c"),
    (b"\x1c\x00", 256, Err(FOUND_1C), b"\x1c\x00"),
    (b"\x81\x00", 256, Err(CUT_OFF), b"\x81\x00"),
    (b"\x81\x1c", 256, Err(CUT_OFF), b"\x81\x1c"),
    (b"\x81\x00", 1, Err(NO_STEP), b"\x81\x00"),
    (b"\x9f\xff", 256, Err(eof!("break", 1)), b"\x9f\xff"),
    (b"\x19\x01\x00", 256, Err(eof!("ignored-any", 2)), b"\x19\x01\x00"),
};

// Out of a stream, which lends nothing.
const STREAMED: &[Row] = table! {
    (b"", 256, Err(CUT_OFF), b""),
    (b"\x00", 256, Err(NOT_LENT), b"\x00"),
    (b"\x00", 0, Err(NOT_LENT), b"\x00"),
    (b"\x1c", 256, Err(NOT_LENT), b"\x1c"),
    (b"\x81\x00", 1, Err(NOT_LENT), b"\x81\x00"),
    (b"\x9f\x01", 256, Err(NOT_LENT), b"\x9f\x01"),
};

// A struct whose one field, "a", is kept. An item that is rejected is left.
const PAIRS: &[Row] = table! {
    (b"\xa1\x61a\x81\x00\x01", 3, Ok(b"\x81\x00"), b"\x01"),
    (b"\xa1\x61a", 256, Err(CUT_OFF), b""),
    (b"\xa1\x61a\x82\x01", 256, Err(CUT_OFF), b"\x82\x01"),
    (b"\xa1\x61a\x1c", 256, Err(FOUND_1C), b"\x1c"),
    (b"\xa1\x61a\x81\x1c", 256, Err(FOUND_1C), b"\x81\x1c"),
    (b"\xa1\x61a\xff", 256, Err(unsupported!("ignored-any", 0xff)), b"\xff"),
    (b"\xa1\x61a\x81\x00", 2, Err(NO_STEP), b"\x81\x00"),
};

/// Reads a row's item, and what is left of its bytes, with the steps as before.
fn reads<S, T>(alloc: Global, reader: S, row: &Row) -> Result<(), Fail>
where
    S: Source + Drop,
    T: Deserialize<S> + Kept + Drop,
{
    let mut de = Deserializer::new(reader);
    let got = T::deserialize(alloc, &mut de);
    is_read(got, de.into_inner(), row)
}

/// Reads a row's item as a struct's one field, and what is left, with the steps as before.
fn reads_pair<S, T>(alloc: Global, reader: S, row: &Row) -> Result<(), Fail>
where
    S: Source + Drop,
    T: Deserialize<S> + Kept + Drop,
{
    let mut de = Deserializer::new(reader);
    let got: Result<(T, ()), _> = de.deserialize_fields(
        alloc,
        "Pair",
        &["a"],
        &["no pair"],
        (Required, ()),
    );
    is_read(got.map(|(item, ())| item), de.into_inner(), row)
}

/// Whether the answer is the row's, and what is left of the reader. A row of a growth that was
/// refused says nothing.
fn is_read<S, T>(
    got: Result<T, DecodeError<S::Error>>,
    mut reader: S,
    row: &Row,
) -> Result<(), Fail>
where
    S: Source + Drop,
    T: Kept + Drop,
{
    let (bytes, limit, want, rest) = *row;
    let is_wanted = match &got {
        Ok(kept) => want == Ok(kept.item()),
        Err(DecodeError::Core(error)) => want == Err(InlineText::<128>::of(error).as_str()),
        Err(DecodeError::Custom(_)) => false,
    };
    if is_wanted && steps(&mut reader) as usize == limit {
        return leaves(&mut reader, bytes, rest);
    }
    if let Err(DecodeError::Core(core_error::DecodeError::OutOfMemory)) = &got {
        return Err(Fail::new("there is no memory"));
    }
    Err(Fail::new(format_args!("not {want:?} of {bytes:?}")))
}

/// The bytes as two segments, which are cut after so many.
fn cut(
    alloc: Global,
    bytes: &'static [u8],
    place: usize,
    limit: usize,
) -> Result<SegmentReader<'static>, Fail> {
    let (first, second) = bytes.split_at(place.min(bytes.len()));
    let segments = vec![in alloc; first, second]?.leak();
    Ok(SegmentReader::with_limit(segments, limit))
}

fn keeps_lent(alloc: Global, rows: &[Row]) -> Result<(), Fail> {
    for row in rows {
        let (bytes, limit, _, _) = *row;
        reads::<_, RawValue<'static>>(alloc, SliceReader::with_limit(bytes, limit), row)?;
        reads::<_, BoxedRawValue>(alloc, SliceReader::with_limit(bytes, limit), row)?;
        reads::<_, RawValue<'static>>(alloc, cut(alloc, bytes, 0, limit)?, row)?;
        reads::<_, BoxedRawValue>(alloc, cut(alloc, bytes, 0, limit)?, row)?;
    }
    Ok(())
}

#[test]
fn items_that_are_lent(rt: HostRuntime) -> Result<(), Fail> {
    keeps_lent(rt.alloc(), LENT)
}

fn keeps_cut(alloc: Global, rows: &[Row]) -> Result<(), Fail> {
    for row in rows {
        let (bytes, limit, _, _) = *row;
        reads::<_, RawValue<'static>>(alloc, cut(alloc, bytes, 1, limit)?, row)?;
        reads::<_, BoxedRawValue>(alloc, cut(alloc, bytes, 1, limit)?, row)?;
    }
    Ok(())
}

#[test]
fn items_that_are_cut(rt: HostRuntime) -> Result<(), Fail> {
    keeps_cut(rt.alloc(), CUT)
}

fn keeps_streamed(alloc: Global, rows: &[Row]) -> Result<(), Fail> {
    for row in rows {
        let (bytes, limit, _, _) = *row;
        for most in [1, usize::MAX] {
            let stream = FailingStream::new(bytes, most, usize::MAX);
            reads::<_, BoxedRawValue>(alloc, IoReader::with_limit(stream, limit), row)?;
        }
        reads::<_, BoxedRawValue>(alloc, TestReader::short(bytes, limit), row)?;
        fails_at_once(alloc, bytes, limit)?;
    }
    Ok(())
}

#[test]
fn items_of_streams(rt: HostRuntime) -> Result<(), Fail> {
    keeps_streamed(rt.alloc(), STREAMED)
}

/// A reader that fails as it is asked: its error, and nothing is taken.
fn fails_at_once(alloc: Global, bytes: &'static [u8], limit: usize) -> Result<(), Fail> {
    let row = (bytes, limit, Err("Read(Failure)"), bytes);
    reads::<_, BoxedRawValue>(alloc, TestReader::long(bytes, limit).failing_after(0), &row)?;
    reads::<_, BoxedRawValue>(
        alloc,
        TestReader::short(bytes, limit).failing_after(0),
        &row,
    )?;
    let stream = FailingStream::new(bytes, 1, 0);
    let mut de = Deserializer::new(IoReader::with_limit(stream, limit));
    let is_fault = match BoxedRawValue::deserialize(alloc, &mut de) {
        Err(DecodeError::Core(core_error::DecodeError::Read(error))) => {
            error.kind() == ErrorKind::Other
        }
        _ => false,
    };
    let mut reader = de.into_inner();
    let is_kept = steps(&mut reader) as usize == limit && reader.taken() == 0;
    let stream = reader.into_inner();
    if is_fault && is_kept && stream.remaining() == bytes {
        return Ok(());
    }
    Err(Fail::new(format_args!("no fault of {bytes:?}")))
}

fn keeps_pairs(alloc: Global, rows: &[Row]) -> Result<(), Fail> {
    for row in rows {
        let (bytes, limit, _, _) = *row;
        reads_pair::<_, RawValue<'static>>(alloc, SliceReader::with_limit(bytes, limit), row)?;
        reads_pair::<_, BoxedRawValue>(alloc, SliceReader::with_limit(bytes, limit), row)?;
        reads_pair::<_, RawValue<'static>>(alloc, cut(alloc, bytes, 3, limit)?, row)?;
        reads_pair::<_, BoxedRawValue>(alloc, cut(alloc, bytes, 3, limit)?, row)?;
    }
    Ok(())
}

#[test]
fn items_that_are_fields(rt: HostRuntime) -> Result<(), Fail> {
    keeps_pairs(rt.alloc(), PAIRS)
}
