//! What is tried of a string that is borrowed where a reader lends it, and owned otherwise.
use cbor4ii_items::decode::Decode;
use cbor4ii_items::types::{Bytes, UncheckedStr};
use cbor4ii_rw::segment_reader::SegmentReader;
use cbor4ii_rw::slice_reader::SliceReader;
use cbor4ii_vectors::readers::TestReader;
use cbor4ii_vectors::rows::{Answered, Content, Stream, Way};
use std::alloc::Global;
use std::borrow::{CowSlice, CowStr};

/// What is read.
#[derive(Clone, Copy)]
pub enum Kind {
    Text,
    Unchecked,
    Bytes,
}

/// What is read has this content, borrowed or owned. It stands once for the readers, which lend in
/// different ways.
macro_rules! read_as {
    ($kind:expr, $alloc:ident, $reader:ident) => {{
        let mut reader = $reader;
        let got = match $kind {
            Kind::Text => match CowStr::decode($alloc, &mut reader) {
                Ok(text) => Content::of_text($alloc, text),
                Err(error) => Err(error),
            },
            Kind::Unchecked => match UncheckedStr::<Lent>::decode($alloc, &mut reader) {
                Ok(text) => Content::of($alloc, text.0),
                Err(error) => Err(error),
            },
            Kind::Bytes => match Bytes::<Lent>::decode($alloc, &mut reader) {
                Ok(bytes) => Content::of($alloc, bytes.0),
                Err(error) => Err(error),
            },
        };
        (got, reader)
    }};
}

type Lent = CowSlice<'static, u8, Global>;

type Read<S> = Answered<Content, S>;

impl Way<Content, SliceReader<'static>> for Kind {
    fn read(&self, alloc: Global, reader: SliceReader<'static>) -> Read<SliceReader<'static>> {
        read_as!(self, alloc, reader)
    }
}

impl Way<Content, SegmentReader<'static>> for Kind {
    fn read(&self, alloc: Global, reader: SegmentReader<'static>) -> Read<SegmentReader<'static>> {
        read_as!(self, alloc, reader)
    }
}

impl Way<Content, TestReader<'static>> for Kind {
    fn read(&self, alloc: Global, reader: TestReader<'static>) -> Read<TestReader<'static>> {
        read_as!(self, alloc, reader)
    }
}

impl Way<Content, Stream> for Kind {
    fn read(&self, alloc: Global, reader: Stream) -> Read<Stream> {
        read_as!(self, alloc, reader)
    }
}
