//! Rows of what is borrowed from the input, or copied where a reader does not lend it.
use crate::debug_text::Pieces;
use crate::read::{Left, Meant, Told, as_core, is_answer, says, told};
use crate::tally::{Broken, Tally};
use crate::values::value;
use cbor4ii::serde::{Deserialize, Deserializer};
use cbor4ii_items::types::{Bytes, Map, UncheckedStr};
use cbor4ii_rw::error::{DecodeError, EncodeError, Never};
use cbor4ii_rw::io_reader::IoReader;
use cbor4ii_rw::long::FillLong;
use cbor4ii_rw::read::Source;
use cbor4ii_rw::segment_reader::SegmentReader;
use cbor4ii_rw::slice_reader::SliceReader;
use cbor4ii_tree::{BoxedRawValue, NoMemory, RawValue, Value};
use cbor4ii_vectors::items::Lent;
use cbor4ii_vectors::rows::{ReadBy, steps};
use cbor4ii_vectors::streams::FailingStream;
use cbor4ii_vectors::{require_borrowed, table};
use std::alloc::Global;
use std::borrow::{CowSlice, CowStr};
use std::fmt::Debug;
use std::io;

/// The reader over a stream that a row is read over.
type Stream = IoReader<FailingStream<'static>>;

/// A row: its name, bytes, the same in segments, the text of what is read, and what is left of
/// them.
type LentRow = (
    &'static str,
    &'static [u8],
    &'static [&'static [u8]],
    &'static str,
    &'static [u8],
);

// Reads the row over a slice and over its segments.
fn lends<T>(tally: &mut Tally, left: Left, lent: LentRow) -> Result<(), Broken>
where
    T: ReadBy<SliceReader<'static>> + ReadBy<SegmentReader<'static>> + Debug + Drop,
{
    let (row, bytes, segments, text, rest) = lent;
    let meant = Meant {
        row,
        call: row,
        bytes,
        text: &[(text, 1)],
        rest,
        left,
    };
    lends_over::<T, _>(tally, &mut SliceReader::new(bytes), &meant)?;
    lends_over::<T, _>(tally, &mut SegmentReader::new(segments), &meant)
}

fn lends_over<T: ReadBy<S> + Debug + Drop, S: Source>(
    tally: &mut Tally,
    reader: &mut S,
    meant: &Meant<'_>,
) -> Result<(), Broken> {
    let budget = steps(reader);
    let got = says(T::read_by(tally.alloc(), reader), meant.text);
    is_answer(tally, reader, budget, &got, meant)
}

// Strings that are lent where they stand whole, and copied where they do not.
const COPIED: &[Meant<'static>; 3] = table! {
    Meant { row: "CowStr", call: "", bytes: b"\x64IETF\x01", text: &[("Lent(\"IETF\")", 1)],
        rest: b"\x01", left: Left::AnEnd },
    Meant { row: "Bytes of CowSlice", call: "", bytes: b"\x5f\x42\x01\x02\x41\x03\xff",
        text: &[("Lent(Bytes([1, 2, 3]))", 1)], rest: b"", left: Left::AnEnd },
    Meant { row: "UncheckedStr of CowSlice", call: "", bytes: b"\x62\xff\xfe",
        text: &[("Lent(UncheckedStr([255, 254]))", 1)], rest: b"", left: Left::AnEnd },
};

type Unchecked<'a> = Lent<UncheckedStr<CowSlice<'a, u8, Global>>>;

// Strings and an item that are borrowed, and take no memory. Items that are kept as a copy of their
// bytes: [1, 2] with 3 after it, two of them in an array, and one in a map under a key, with a
// longer head than needed.
const LENT_ITEMS: &[LentRow; 8] = table! {
    ("str", b"\x64IETF\x01", &[b"\x64IETF", b"\x01"], "Lent(\"IETF\")", b"\x01"),
    ("Bytes of a slice", b"\x42\x01\x02\x03", &[b"\x42", b"\x01\x02\x03"],
        "Lent(Bytes([1, 2]))", b"\x03"),
    ("text", b"\x61\xff\x01", &[b"\x61\xff", b"\x01"], "Lent(UncheckedStr([255]))", b"\x01"),
    ("RawValue", ITEM, &[ITEM], "Lent(RawValue([130, 1, 2]))", b"\x03"),
    ("BoxedRawValue", ITEM, CUT, "Lent(BoxedRawValue([130, 1, 2]))", b"\x03"),
    ("typed BoxedRawValue", ITEM, CUT, "Typed(BoxedRawValue([130, 1, 2]))", b"\x03"),
    ("Vec of BoxedRawValue", b"\x82\x18\x05\x80\x03", &[b"\x82\x18\x05\x80\x03"],
        "Lent([BoxedRawValue([24, 5]), BoxedRawValue([128])])", b"\x03"),
    ("Map of BoxedRawValue", b"\xa1\x63bar\xa1\x65value\x18\x99",
        &[b"\xa1\x63bar\xa1\x65value\x18\x99"],
        "Lent(Map([(\"bar\", BoxedRawValue([161, 101, 118, 97, 108, 117, 101, 24, 153]))]))", b""),
};

const ITEM: &[u8] = b"\x82\x01\x02\x03";

const CUT: &[&[u8]] = &[b"\x82\x01\x02", b"\x03"];

/// A typed value that is kept as a copy of its bytes.
#[derive(Debug, Drop)]
struct Typed(BoxedRawValue);

impl<S: FillLong> ReadBy<S> for Typed {
    fn read_by(alloc: Global, reader: &mut S) -> Result<Self, DecodeError<S::Error>> {
        let de = &mut Deserializer::new(reader);
        Ok(Typed(as_core(BoxedRawValue::deserialize(alloc, de))?))
    }
}

fn lent_texts(tally: &mut Tally, meant: &Meant<'_>) -> Result<(), Broken> {
    let mut slice = SliceReader::new(meant.bytes);
    lends_over::<Lent<CowStr<'_, Global>>, _>(tally, &mut slice, meant)?;
    let segments = [b"\x64IE".as_slice(), b"TF\x01"];
    let mut reader = SegmentReader::new(&segments);
    lends_over::<Lent<CowStr<'_, Global>>, _>(tally, &mut reader, meant)?;
    let mut stream = IoReader::new(FailingStream::new(meant.bytes, 3, usize::MAX));
    lends_over::<Lent<CowStr<'_, Global>>, _>(tally, &mut stream, meant)
}

fn lent_bytes(tally: &mut Tally, meant: &Meant<'_>) -> Result<(), Broken> {
    let mut slice = SliceReader::new(meant.bytes);
    lends_over::<Lent<Bytes<CowSlice<'_, u8, Global>>>, _>(tally, &mut slice, meant)?;
    let segments = [b"\x5f\x42\x01".as_slice(), b"\x02\x41\x03\xff"];
    let mut reader = SegmentReader::new(&segments);
    lends_over::<Lent<Bytes<CowSlice<'_, u8, Global>>>, _>(tally, &mut reader, meant)?;
    let mut stream = IoReader::new(FailingStream::new(meant.bytes, 3, usize::MAX));
    lends_over::<Lent<Bytes<CowSlice<'_, u8, Global>>>, _>(tally, &mut stream, meant)
}

fn lent_unchecked(tally: &mut Tally, meant: &Meant<'_>) -> Result<(), Broken> {
    lends_over::<Unchecked<'_>, _>(tally, &mut SliceReader::new(meant.bytes), meant)?;
    let segments = [b"\x62\xff".as_slice(), b"\xfe"];
    let mut reader = SegmentReader::new(&segments);
    lends_over::<Unchecked<'_>, _>(tally, &mut reader, meant)?;
    let mut stream = IoReader::new(FailingStream::new(meant.bytes, 3, usize::MAX));
    lends_over::<Unchecked<'_>, _>(tally, &mut stream, meant)
}

/// Items that are borrowed, where the reader lends them, and such as are kept as a copy of their
/// bytes: the item was taken where memory is refused.
pub fn items(tally: &mut Tally) -> Result<(), Broken> {
    let [text, bytes, unchecked] = COPIED;
    lent_texts(tally, text)?;
    lent_bytes(tally, bytes)?;
    lent_unchecked(tally, unchecked)?;
    let [text, bytes, unchecked, raw, kept, typed, both, pair] = *LENT_ITEMS;
    lends::<Lent<&'static str>>(tally, Left::Never, text)?;
    lends::<Lent<Bytes<&'static [u8]>>>(tally, Left::Never, bytes)?;
    lends::<Lent<UncheckedStr<&'static [u8]>>>(tally, Left::Never, unchecked)?;
    lends::<Lent<RawValue<'static>>>(tally, Left::Never, raw)?;
    lends::<Lent<BoxedRawValue>>(tally, Left::TheRest, kept)?;
    lends::<Typed>(tally, Left::TheRest, typed)?;
    lends::<Lent<Vec<BoxedRawValue>>>(tally, Left::AnEnd, both)?;
    lends::<Lent<Map<Vec<(String, BoxedRawValue)>>>>(tally, Left::AnEnd, pair)?;
    match value(tally, b"\x9f\x18\x05\xff")? {
        Some(value) => keeps_value(tally, &value),
        None => Ok(()),
    }
}

// The canonical encoding of [5], and a copy of it.
fn keeps_value(tally: &mut Tally, value: &Value) -> Result<(), Broken> {
    let kept = match BoxedRawValue::from_value(tally.alloc(), value) {
        Ok(kept) => kept,
        Err(EncodeError::Write(_)) => {
            tally.refuse();
            return Ok(());
        }
    };
    let copy = kept.try_clone();
    if kept.as_bytes() != b"\x81\x05".as_slice() {
        return Err(Broken::new("BoxedRawValue::from_value", "it is another item"));
    }
    match copy {
        Ok(copy) if copy.as_bytes() == b"\x81\x05".as_slice() => {}
        Ok(_) => return Err(Broken::new("BoxedRawValue::try_clone", "it is another item")),
        Err(NoMemory) => tally.refuse(),
    }
    Ok(())
}

/// How a string is read that may be borrowed.
#[derive(Clone, Copy)]
enum Way {
    Text,
    TextByName,
    Identifier,
    LentText,
    Bytes,
    BytesByName,
    LentBytes,
}

/// A reader by whose name strings are read that may be borrowed.
trait Borrows: Source {
    /// Reads the string.
    fn string(way: Way, alloc: Global, de: &mut Deserializer<Self>, text: Pieces<'_>) -> Told<Self>;
}

impl Borrows for SliceReader<'static> {
    fn string(
        way: Way,
        alloc: Global,
        de: &mut Deserializer<SliceReader<'static>>,
        text: Pieces<'_>,
    ) -> Result<bool, DecodeError<Never>> {
        match way {
            Way::Text => told(<CowStr<'static, Global>>::deserialize(alloc, de), text),
            Way::TextByName => told(de.deserialize_str(alloc), text),
            Way::Identifier => told(de.deserialize_identifier(alloc), text),
            Way::LentText => told(<&'static str>::deserialize(alloc, de), text),
            Way::Bytes => told(<Bytes<Content>>::deserialize(alloc, de), text),
            Way::BytesByName => told(de.deserialize_bytes(alloc), text),
            Way::LentBytes => told(<Bytes<&'static [u8]>>::deserialize(alloc, de), text),
        }
    }
}

impl Borrows for SegmentReader<'static> {
    fn string(
        way: Way,
        alloc: Global,
        de: &mut Deserializer<SegmentReader<'static>>,
        text: Pieces<'_>,
    ) -> Result<bool, DecodeError<Never>> {
        match way {
            Way::Text => told(<CowStr<'static, Global>>::deserialize(alloc, de), text),
            Way::TextByName => told(de.deserialize_str(alloc), text),
            Way::Identifier => told(de.deserialize_identifier(alloc), text),
            Way::LentText => told(<&'static str>::deserialize(alloc, de), text),
            Way::Bytes => told(<Bytes<Content>>::deserialize(alloc, de), text),
            Way::BytesByName => told(de.deserialize_bytes(alloc), text),
            Way::LentBytes => told(<Bytes<&'static [u8]>>::deserialize(alloc, de), text),
        }
    }
}

impl Borrows for Stream {
    fn string(
        way: Way,
        alloc: Global,
        de: &mut Deserializer<Stream>,
        text: Pieces<'_>,
    ) -> Result<bool, DecodeError<io::Error>> {
        match way {
            Way::Text => told(<CowStr<'static, Global>>::deserialize(alloc, de), text),
            Way::TextByName => told(de.deserialize_str(alloc), text),
            Way::Identifier => told(de.deserialize_identifier(alloc), text),
            Way::LentText => told(<&'static str>::deserialize(alloc, de), text),
            Way::Bytes => told(<Bytes<Content>>::deserialize(alloc, de), text),
            Way::BytesByName => told(de.deserialize_bytes(alloc), text),
            Way::LentBytes => told(<Bytes<&'static [u8]>>::deserialize(alloc, de), text),
        }
    }
}

/// The content of a byte string.
type Content = CowSlice<'static, u8, Global>;

/// A row: its name, how it is read, bytes, the same in segments, the text of what is read, and what
/// is left of them.
type StringRow = (
    &'static str,
    Way,
    &'static [u8],
    &'static [&'static [u8]],
    &'static str,
    &'static [u8],
);

/// Which readers a row is read over.
#[derive(Clone, Copy, PartialEq)]
enum Over {
    SliceAndSegments,
    SegmentsAndStream,
    Each,
}

// Reads each row over these readers.
fn reads(
    tally: &mut Tally,
    left: Left,
    over: Over,
    rows: &'static [StringRow],
) -> Result<(), Broken> {
    for (row, way, bytes, segments, text, rest) in rows {
        let meant = Meant {
            row,
            call: row,
            bytes,
            text: &[(text, 1)],
            rest,
            left,
        };
        reads_string(tally, *way, SegmentReader::new(segments), &meant)?;
        if over != Over::SegmentsAndStream {
            reads_string(tally, *way, SliceReader::new(bytes), &meant)?;
        }
        if over != Over::SliceAndSegments {
            let stream = FailingStream::new(bytes, 3, usize::MAX);
            reads_string(tally, *way, IoReader::new(stream), &meant)?;
        }
    }
    Ok(())
}

fn reads_string<S: Borrows + Drop>(
    tally: &mut Tally,
    way: Way,
    mut reader: S,
    meant: &Meant<'_>,
) -> Result<(), Broken> {
    let budget = steps(&mut reader);
    let mut de = Deserializer::new(reader);
    let got = S::string(way, tally.alloc(), &mut de, meant.text);
    is_answer(tally, &mut de.into_inner(), budget, &got, meant)
}

// Texts and byte strings that are lent whole, and take no memory.
const LENT: &[StringRow] = table! {
    ("typed CowStr", Way::Text, TWO, &[b"\x62", b"ab\x01"], "\"ab\"", b"\x01"),
    ("deserialize_str", Way::TextByName, TWO, &[TWO], "\"ab\"", b"\x01"),
    ("deserialize_identifier", Way::Identifier, TWO, &[TWO], "\"ab\"", b"\x01"),
    ("typed str", Way::LentText, TWO, &[TWO], "\"ab\"", b"\x01"),
    ("typed CowSlice", Way::Bytes, EIGHT, &[b"\x42\x08\x09", b"\x01"], "Bytes([8, 9])", b"\x01"),
    ("deserialize_bytes", Way::BytesByName, EIGHT, &[EIGHT], "[8, 9]", b"\x01"),
    ("typed slice", Way::LentBytes, EIGHT, &[EIGHT], "Bytes([8, 9])", b"\x01"),
};

const TWO: &[u8] = b"\x62ab\x01";

const EIGHT: &[u8] = b"\x42\x08\x09\x01";

// Texts and byte strings that no segment has whole: they are copied. What has to be lent is
// rejected then.
const CUT_STRINGS: &[StringRow] = table! {
    ("typed CowStr", Way::Text, TWO, &[b"\x62a", b"b\x01"], "\"ab\"", b"\x01"),
    ("deserialize_str", Way::TextByName, TWO, &[b"\x62a", b"b\x01"], "\"ab\"", b"\x01"),
    ("deserialize_identifier", Way::Identifier, TWO, &[b"\x62a", b"b\x01"], "\"ab\"", b"\x01"),
    ("typed str", Way::LentText, TWO, &[b"\x62a", b"b\x01"], require_borrowed!("str"), b"\x01"),
    ("typed CowSlice", Way::Bytes, EIGHT, HALVES, "Bytes([8, 9])", b"\x01"),
    ("deserialize_bytes", Way::BytesByName, EIGHT, HALVES, "[8, 9]", b"\x01"),
    ("typed slice", Way::LentBytes, EIGHT, HALVES, NOT_LENT, b"\x01"),
};

const HALVES: &[&[u8]] = &[b"\x42\x08", b"\x09\x01"];

const NOT_LENT: &str = require_borrowed!("bytes");

// Texts and byte strings of indefinite length, which are copied from each reader.
const CHUNKED: &[StringRow] = table! {
    ("typed CowStr", Way::Text, CHUNKS, &[CHUNKS], "\"ab\"", b"\x01"),
    ("deserialize_str", Way::TextByName, CHUNKS, &[CHUNKS], "\"ab\"", b"\x01"),
    ("deserialize_identifier", Way::Identifier, CHUNKS, &[CHUNKS], "\"ab\"", b"\x01"),
    ("typed str", Way::LentText, CHUNKS, &[CHUNKS], require_borrowed!("str"), b"\x01"),
    ("typed CowSlice", Way::Bytes, BYTE_CHUNKS, &[BYTE_CHUNKS], "Bytes([8, 9])", b"\x01"),
    ("deserialize_bytes", Way::BytesByName, BYTE_CHUNKS, &[BYTE_CHUNKS], "[8, 9]", b"\x01"),
    ("typed slice", Way::LentBytes, BYTE_CHUNKS, &[BYTE_CHUNKS], NOT_LENT, b"\x01"),
};

const CHUNKS: &[u8] = b"\x7f\x61a\x61b\xff\x01";

const BYTE_CHUNKS: &[u8] = b"\x5f\x41\x08\x41\x09\xff\x01";

/// Typed strings that are borrowed where a reader lends them, and the calls for them.
pub fn strings(tally: &mut Tally) -> Result<(), Broken> {
    reads(tally, Left::Never, Over::SliceAndSegments, LENT)?;
    reads(tally, Left::AnEnd, Over::SegmentsAndStream, CUT_STRINGS)?;
    reads(tally, Left::AnEnd, Over::Each, CHUNKED)
}
