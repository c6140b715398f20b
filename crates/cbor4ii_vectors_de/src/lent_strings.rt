//! Rows of strings that are borrowed where the reader lends them, by each way to read.
use crate::growth::{LETTERS, Shape, lettered};
use cbor4ii::serde::{DecodeError, Deserialize, Deserializer};
use cbor4ii::types::Bytes;
use cbor4ii_rw::error as core_error;
use cbor4ii_rw::error::Never;
use cbor4ii_rw::io_reader::IoReader;
use cbor4ii_rw::read::Source;
use cbor4ii_rw::segment_reader::SegmentReader;
use cbor4ii_rw::slice_reader::SliceReader;
use cbor4ii_vectors::rows::{Answered, Content, Trial, Way};
use cbor4ii_vectors::streams::FailingStream;
use cbor4ii_vectors::{mismatch, no_step, require_borrowed, require_utf8, rows, table};
use std::alloc::{AllocError, Global};
use std::borrow::{CowSlice, CowStr};
use std::io;
use std::test::Fail;

/// How a string is read.
#[derive(Clone, Copy, PartialEq)]
pub enum Kind {
    Text,
    TextByName,
    Identifier,
    BorrowedText,
    Bytes,
    BytesByName,
    BorrowedBytes,
}

/// A reader by whose name strings are read that may be borrowed.
trait Strings: Source {
    /// The content, borrowed or owned.
    fn string(
        kind: Kind,
        alloc: Global,
        de: &mut Deserializer<Self>,
    ) -> Result<CowSlice<'static, u8, Global>, DecodeError<Self::Error>>;
}

fn content(text: CowStr<'static, Global>) -> CowSlice<'static, u8, Global> {
    match text {
        CowStr::Borrowed(text) => CowSlice::Borrowed(text.as_bytes()),
        CowStr::Owned(text) => CowSlice::Owned(text.into_bytes()),
    }
}

/// The string that is read so. It stands once for the readers that lend what they lend in
/// different ways.
macro_rules! read_as {
    ($kind:ident, $alloc:ident, $de:ident) => {
        match $kind {
            Kind::Text => Ok(content(CowStr::deserialize($alloc, $de)?)),
            Kind::TextByName => Ok(content($de.deserialize_str($alloc)?)),
            Kind::Identifier => Ok(content($de.deserialize_identifier($alloc)?)),
            Kind::BorrowedText => {
                let text = <&'static str>::deserialize($alloc, $de)?;
                Ok(CowSlice::Borrowed(text.as_bytes()))
            }
            Kind::Bytes => Ok(<Bytes<CowSlice<'static, u8, Global>>>::deserialize($alloc, $de)?.0),
            Kind::BytesByName => $de.deserialize_bytes($alloc),
            Kind::BorrowedBytes => {
                let bytes = <Bytes<&'static [u8]>>::deserialize($alloc, $de)?;
                Ok(CowSlice::Borrowed(bytes.0))
            }
        }
    };
}

impl Strings for SliceReader<'static> {
    fn string(
        kind: Kind,
        alloc: Global,
        de: &mut Deserializer<SliceReader<'static>>,
    ) -> Result<CowSlice<'static, u8, Global>, DecodeError<Never>> {
        read_as!(kind, alloc, de)
    }
}

impl Strings for SegmentReader<'static> {
    fn string(
        kind: Kind,
        alloc: Global,
        de: &mut Deserializer<SegmentReader<'static>>,
    ) -> Result<CowSlice<'static, u8, Global>, DecodeError<Never>> {
        read_as!(kind, alloc, de)
    }
}

impl Strings for IoReader<FailingStream<'static>> {
    fn string(
        kind: Kind,
        alloc: Global,
        de: &mut Deserializer<IoReader<FailingStream<'static>>>,
    ) -> Result<CowSlice<'static, u8, Global>, DecodeError<io::Error>> {
        read_as!(kind, alloc, de)
    }
}

/// What a string is read as: its content, and whether it is borrowed, or the text of the codec's
/// error.
type Want = Result<(&'static [u8], bool), &'static str>;

impl<S: Strings> Way<Content, S> for Kind {
    fn read(&self, alloc: Global, reader: S) -> Answered<Content, S> {
        let mut de = Deserializer::new(reader);
        let got = match S::string(*self, alloc, &mut de) {
            Ok(content) => Content::of(alloc, content),
            Err(DecodeError::Core(error)) => Err(error),
            Err(DecodeError::Custom(name)) => Err(core_error::DecodeError::Custom { name, num: 0 }),
        };
        (got, de.into_inner())
    }
}

/// What is read of this way: a type that is always borrowed rejects what is not lent.
fn wanted(kind: Kind, alloc: Global, want: Want) -> Result<rows::Want<Content>, AllocError> {
    match (kind, want) {
        (Kind::BorrowedText, Ok((_, false))) => Ok(Err(require_borrowed!("str"))),
        (Kind::BorrowedBytes, Ok((_, false))) => Ok(Err(require_borrowed!("bytes"))),
        (_, Ok((content, is_borrowed))) => Ok(Ok(Content::new(alloc, content, is_borrowed)?)),
        (_, Err(rejection)) => Ok(Err(rejection)),
    }
}

/// A string that is read in this way: its bytes, and what is left of them.
#[derive(Drop)]
struct Lent {
    kind: Kind,
    alloc: Global,
    bytes: &'static [u8],
    rest: &'static [u8],
}

impl Lent {
    /// The answer over this reader, the bytes that are left, and the steps as before.
    fn over<S: Strings + Drop>(&self, reader: S, want: Want) -> Result<(), Fail> {
        let want = wanted(self.kind, self.alloc, want)?;
        Trial::new(&self.kind, self.alloc, self.bytes, &want, self.rest).over(reader)
    }

    /// Over two segments that are cut here.
    fn cut(&self, place: usize, want: Want) -> Result<(), Fail> {
        let want = wanted(self.kind, self.alloc, want)?;
        Trial::new(&self.kind, self.alloc, self.bytes, &want, self.rest).in_two_segments(place)
    }

    /// Over segments of one byte each, so that each byte is shown alone, and lent.
    fn by_byte(&self, want: Want) -> Result<(), Fail> {
        let mut parts: Vec<&'static [u8]> = Vec::with_capacity(self.alloc, self.bytes.len())?;
        for byte in self.bytes.chunks(1) {
            parts.push(byte)?;
        }
        self.over(SegmentReader::new(parts.leak()), want)
    }

    /// Out of streams that show a byte at a time, as many as a buffer holds, and all that is left.
    fn streamed(&self, want: Want) -> Result<(), Fail> {
        for most in [1, BUFFER, usize::MAX] {
            let stream = FailingStream::new(self.bytes, most, usize::MAX);
            self.over(IoReader::new(stream), want)?;
        }
        Ok(())
    }

    /// The same, also of one that fails at one look or another, which is the answer then.
    fn failing(&self, want: Want) -> Result<(), Fail> {
        self.streamed(want)?;
        let want = wanted(self.kind, self.alloc, want)?;
        let trial = Trial::new(&self.kind, self.alloc, self.bytes, &want, self.rest);
        trial.failing_at_each_look(1, true)
    }

    /// A string whose content is all between its head and the rest: over a slice, over segments
    /// that cut it at each place, and out of streams.
    fn definite(&self, content: &'static [u8]) -> Result<(), Fail> {
        self.over(SliceReader::new(self.bytes), Ok((content, true)))?;
        let end = self.bytes.len().saturating_sub(self.rest.len());
        let head = end.saturating_sub(content.len());
        for place in 1..self.bytes.len() {
            self.cut(place, Ok((content, place <= head || end <= place)))?;
        }
        self.by_byte(Ok((content, content.len() <= 1)))?;
        self.failing(Ok((content, false)))
    }

    /// A string that no reader lends, or that is rejected: over the same readers, one answer.
    fn alike(&self, want: Want) -> Result<(), Fail> {
        self.over(SliceReader::new(self.bytes), want)?;
        for place in 1..self.bytes.len() {
            self.cut(place, want)?;
        }
        self.by_byte(want)?;
        self.failing(want)
    }

    /// A string of too many bytes to try each cut and each fault: over a slice, over segments of
    /// which one holds it all, over two that each hold a half of it, and out of streams. `lent` is
    /// what it is read as where all of it is lent.
    fn many(&self, lent: Want, copied: Want) -> Result<(), Fail> {
        let end = self.bytes.len().saturating_sub(self.rest.len());
        self.over(SliceReader::new(self.bytes), lent)?;
        self.cut(end, lent)?;
        self.cut(end / 2, copied)?;
        self.streamed(copied)
    }
}

fn read_by(kind: Kind, alloc: Global, bytes: &'static [u8], rest: &'static [u8]) -> Lent {
    Lent {
        kind,
        alloc,
        bytes,
        rest,
    }
}

/// How many bytes a stream with a buffer shows at once.
const BUFFER: usize = 4_096;

/// Bytes of a string that is borrowed where its content is lent whole, its content, and what is
/// left of them.
type Definite = (&'static [u8], &'static [u8], &'static [u8]);

/// Bytes that are read alike over each reader, what they are read as, and what is left of them.
type Alike = (&'static [u8], Want, &'static [u8]);

/// Each row, by each way to read.
fn reads_rows(
    kinds: &[Kind],
    alloc: Global,
    counted: &[Definite],
    alike: &[Alike],
) -> Result<(), Fail> {
    for kind in kinds {
        for (bytes, content, rest) in counted {
            read_by(*kind, alloc, bytes, rest).definite(content)?;
        }
        for (bytes, want, rest) in alike {
            read_by(*kind, alloc, bytes, rest).alike(*want)?;
        }
    }
    Ok(())
}

/// The row, by each way to read, where no step is left to take.
fn reads_with_no_step(kinds: &[Kind], alloc: Global, row: Alike) -> Result<(), Fail> {
    let (bytes, want, rest) = row;
    for kind in kinds {
        let reader = SliceReader::with_limit(bytes, 0);
        read_by(*kind, alloc, bytes, rest).over(reader, want)?;
    }
    Ok(())
}

/// How many letters a long string has: 0x012c. It is cut at each place, and read with each fault.
const FEW: usize = 300;

/// What follows a long string.
const AFTER: &[u8] = b"\x01";

/// Strings of 300 letters, by each way to read: one that is counted, and others in chunks.
fn reads_long(
    kinds: &[Kind],
    alloc: Global,
    counted: &Shape,
    in_chunks: &[Shape],
) -> Result<(), Fail> {
    let content = lettered(alloc, &(b"", b"", b""), FEW)?;
    let bytes = lettered(alloc, counted, FEW)?;
    for kind in kinds {
        read_by(*kind, alloc, bytes, AFTER).definite(content)?;
    }
    for shape in in_chunks {
        let bytes = lettered(alloc, shape, FEW)?;
        for kind in kinds {
            read_by(*kind, alloc, bytes, AFTER).alike(Ok((content, false)))?;
        }
    }
    Ok(())
}

/// Strings of 20,000 letters, more than are reserved before any came, by each way to read: one that
/// is counted, and others in chunks.
fn reads_longer(
    kinds: &[Kind],
    alloc: Global,
    counted: &Shape,
    in_chunks: &[Shape],
) -> Result<(), Fail> {
    let content = lettered(alloc, &(b"", b"", b""), LETTERS)?;
    let bytes = lettered(alloc, counted, LETTERS)?;
    let copied = Ok((content, false));
    for kind in kinds {
        read_by(*kind, alloc, bytes, AFTER).many(Ok((content, true)), copied)?;
    }
    for shape in in_chunks {
        let bytes = lettered(alloc, shape, LETTERS)?;
        for kind in kinds {
            read_by(*kind, alloc, bytes, AFTER).many(copied, copied)?;
        }
    }
    Ok(())
}

const TEXTS_DEFINITE: &[Definite] = table! {
    (b"\x64IETF\x01", b"IETF", b"\x01"),
    (b"\x62\xc3\xbc", b"\xc3\xbc", b""),
    (b"\x63123", b"123", b""),
    (b"\x671234567", b"1234567", b""),
};

const TEXTS_ALIKE: &[Alike] = table! {
    (b"\x7f\x61a\x61b\xff\x01", Ok((b"ab", false)), b"\x01"),
    (b"\x7f\x61a\xff", Ok((b"a", false)), b""),
    (b"\x41\x41", Err(mismatch!("str", 0x41)), b"\x41"),
    (b"\x62\xff\xff\x01", Err(require_utf8!("str")), b"\x01"),
};

const LONG_TEXT: Shape = (b"\x79\x01\x2c", b"", b"\x01");

// One chunk of all letters, and a chunk for each.
const LONG_TEXTS_IN_CHUNKS: &[Shape] = table! {
    (b"\x7f\x79\x01\x2c", b"", b"\xff\x01"),
    (b"\x7f", b"\x61", b"\xff\x01"),
};

const LONGER_TEXT: Shape = (b"\x79\x4e\x20", b"", b"\x01");

const LONGER_TEXTS_IN_CHUNKS: &[Shape] = table! {
    (b"\x7f\x79\x4e\x20", b"", b"\xff\x01"),
    (b"\x7f", b"\x61", b"\xff\x01"),
};

const TEXT_WITH_NO_STEP: Alike = (b"\x7f\x61a\xff", Err(no_step!("str")), b"\x61a\xff");

/// The rows of texts, by each of these ways to read.
pub fn reads_texts(kinds: &[Kind], alloc: Global) -> Result<(), Fail> {
    reads_rows(kinds, alloc, TEXTS_DEFINITE, TEXTS_ALIKE)?;
    reads_with_no_step(kinds, alloc, TEXT_WITH_NO_STEP)?;
    reads_long(kinds, alloc, &LONG_TEXT, LONG_TEXTS_IN_CHUNKS)?;
    reads_longer(kinds, alloc, &LONGER_TEXT, LONGER_TEXTS_IN_CHUNKS)
}

const BYTE_STRINGS_DEFINITE: &[Definite] = table! {
    (b"\x44\x01\x02\x03\x04\xff", b"\x01\x02\x03\x04", b"\xff"),
    (b"\x43123", b"123", b""),
};

const BYTE_STRINGS_ALIKE: &[Alike] = table! {
    (b"\x5f\x41\x01\x41\x02\xff", Ok((b"\x01\x02", false)), b""),
    (b"\x5f\x41a\xff", Ok((b"a", false)), b""),
    (b"\x61\x61a", Err(mismatch!("bytes", 0x61)), b"\x61a"),
};

const LONG_BYTE_STRING: Shape = (b"\x59\x01\x2c", b"", b"\x01");

// One chunk of all bytes, and a chunk for each.
const LONG_BYTE_STRINGS_IN_CHUNKS: &[Shape] = table! {
    (b"\x5f\x59\x01\x2c", b"", b"\xff\x01"),
    (b"\x5f", b"\x41", b"\xff\x01"),
};

const LONGER_BYTE_STRING: Shape = (b"\x59\x4e\x20", b"", b"\x01");

const LONGER_BYTE_STRINGS_IN_CHUNKS: &[Shape] = table! {
    (b"\x5f\x59\x4e\x20", b"", b"\xff\x01"),
    (b"\x5f", b"\x41", b"\xff\x01"),
};

const BYTE_STRING_WITH_NO_STEP: Alike = (b"\x5f\x41a\xff", Err(no_step!("bytes")), b"\x41a\xff");

/// The rows of byte strings, by each of these ways to read.
pub fn reads_byte_strings(kinds: &[Kind], alloc: Global) -> Result<(), Fail> {
    reads_rows(kinds, alloc, BYTE_STRINGS_DEFINITE, BYTE_STRINGS_ALIKE)?;
    reads_with_no_step(kinds, alloc, BYTE_STRING_WITH_NO_STEP)?;
    reads_long(kinds, alloc, &LONG_BYTE_STRING, LONG_BYTE_STRINGS_IN_CHUNKS)?;
    reads_longer(
        kinds,
        alloc,
        &LONGER_BYTE_STRING,
        LONGER_BYTE_STRINGS_IN_CHUNKS,
    )
}
