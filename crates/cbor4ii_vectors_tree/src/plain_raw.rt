//! Rows of items that are kept as their bytes.
use cbor4ii_items::decode::{Decodable, Decode};
use cbor4ii_items::types::Map;
use cbor4ii_rw::error::{DecodeError, Len, Never, WholeError};
use cbor4ii_rw::read::Source;
use cbor4ii_rw::segment_reader::SegmentReader;
use cbor4ii_rw::slice_reader::SliceReader;
use cbor4ii_tree::{BoxedRawValue, PlainRawValue, RawValue};
use cbor4ii_vectors::readers::TestReader;
use cbor4ii_vectors::repeated::repeated;
use cbor4ii_vectors::rows::{Answered, Content, Stream, Want, Way};
use cbor4ii_vectors::table;
use std::alloc::{AllocError, Global};
use std::borrow::CowSlice;
use std::test::Fail;

// Items of RFC 8949, appendix A.
const KEPT: &[&[u8]] = table! {
    b"\x18\x64",
    b"\xf9\x3c\x00",
    b"\x7f\x65strea\x64ming\xff",
    b"\xbf\x61a\x01\x61b\x9f\x02\x03\xff\xff",
};

#[test]
fn a_plain_item_is_kept(rt: HostRuntime) -> Result<(), Fail> {
    let alloc = rt.alloc();
    for item in KEPT {
        let plain = PlainRawValue::new(alloc, item)?;
        assert_eq!(rt; plain.as_bytes(), *item);
        assert_eq!(rt; plain.as_raw().as_bytes(), *item);
    }
    Ok(())
}

// 6,000 integers, and a text of as many letters: 0x1770.
const LONG: &[(&[u8], &[u8])] = table! {
    (b"\x99\x17\x70", b"\x05"),
    (b"\x79\x17\x70", b"a"),
};

#[test]
fn long_items_are_kept(rt: HostRuntime) -> Result<(), Fail> {
    let alloc = rt.alloc();
    for &(head, part) in LONG {
        let item = repeated(alloc, head, part, 6_000, b"")?;
        let plain = PlainRawValue::new(alloc, item)?;
        assert_eq!(rt; plain.as_bytes(), item);
        let value = plain.as_raw().to_value(alloc)?;
        assert_eq!(rt; BoxedRawValue::from_value(alloc, &value)?.as_bytes(), item);
    }
    Ok(())
}

// A text that is no UTF-8, and an array as a chunk (RFC 8949, section 3.2.3).
#[test]
fn other_items_are_rejected(rt: HostRuntime) {
    let alloc = rt.alloc();
    let text = WholeError::Decode(DecodeError::RequireUtf8 { name: "str" });
    assert_eq!(rt; PlainRawValue::new(alloc, b"\x61\xff").err(), Some(text));
    let chunk = WholeError::Decode(DecodeError::Mismatch {
        name: "bytes",
        found: 0x80,
    });
    assert_eq!(rt;
        PlainRawValue::new(alloc, b"\x5f\x80\xff").err(),
        Some(chunk)
    );
    let more = PlainRawValue::new(alloc, b"\xf6\xff").err();
    assert_eq!(rt; more, Some(WholeError::Trailing(1)));
}

// The bytes, the item at their beginning, and what follows it.
type Beginning = (&'static [u8], &'static [u8], &'static [u8]);

const BEGINNINGS: &[Beginning] = table! {
    (b"\x18\x64", b"\x18\x64", b""),
    (b"\xf9\x3c\x00\xff", b"\xf9\x3c\x00", b"\xff"),
    (b"\x82\x18\x05\x9f\xff\x01\x02", b"\x82\x18\x05\x9f\xff", b"\x01\x02"),
};

#[test]
fn the_item_at_the_beginning_is_kept(rt: HostRuntime) -> Result<(), Fail> {
    for (bytes, item, rest) in BEGINNINGS {
        let mut reader = SliceReader::new(bytes);
        let plain = PlainRawValue::decode(rt.alloc(), &mut reader)?;
        assert_eq!(rt; plain.as_bytes(), *item);
        assert_eq!(rt; reader.remaining(), *rest);
    }
    Ok(())
}

// The bytes, the error, and what is left then.
type Rejection = (&'static [u8], DecodeError<Never>, &'static [u8]);

const NO_BEGINNINGS: &[Rejection] = table! {
    (b"", DecodeError::Eof { name: "value", expect: Len::Small(1) }, b""),
    (b"\x82\x01", DecodeError::Eof { name: "value", expect: Len::Small(1) }, b""),
    (b"\x5f\x80\xff", DecodeError::Mismatch { name: "bytes", found: 0x80 }, b"\xff"),
    (b"\x61\xff\x00", DecodeError::RequireUtf8 { name: "str" }, b"\x00"),
    (b"\xff", DecodeError::Unsupported { name: "value", found: 0xff }, b"\xff"),
};

#[test]
fn other_beginnings_are_rejected(rt: HostRuntime) -> Result<(), Fail> {
    for (bytes, error, rest) in NO_BEGINNINGS {
        let mut reader = SliceReader::new(bytes);
        match PlainRawValue::decode(rt.alloc(), &mut reader) {
            Err(found) if found == *error => assert_eq!(rt; reader.remaining(), *rest),
            answer => return Err(Fail::new(format_args!("{answer:?} of {bytes:?}"))),
        }
    }
    Ok(())
}

/// How an item is kept: lent, or as a copy of its bytes. It stands alone, or under the one key of a
/// map.
#[derive(Clone, Copy)]
pub enum Kept {
    Lent,
    Copied,
    LentUnderKey,
    CopiedUnderKey,
}

impl Kept {
    /// What a row wants of the item that is kept so.
    pub fn wanted(self, alloc: Global, want: Want<&[u8]>) -> Result<Want<Content>, AllocError> {
        let is_lent = matches!(self, Kept::Lent | Kept::LentUnderKey);
        match want {
            Ok(item) => Ok(Ok(Content::new(alloc, item, is_lent)?)),
            Err(rejection) => Ok(Err(rejection)),
        }
    }
}

/// What is read has these bytes, lent or copied. It stands once for the readers, which lend in
/// different ways.
macro_rules! read_as {
    ($kept:expr, $alloc:ident, $reader:ident) => {{
        let mut reader = $reader;
        let got = match $kept {
            Kept::Lent => lent($alloc, RawValue::decode($alloc, &mut reader)),
            Kept::Copied => copied($alloc, BoxedRawValue::decode($alloc, &mut reader)),
            Kept::LentUnderKey => lent($alloc, under_key($alloc, &mut reader)),
            Kept::CopiedUnderKey => copied($alloc, under_key($alloc, &mut reader)),
        };
        (got, reader)
    }};
}

type Read<S> = Answered<Content, S>;

impl Way<Content, SliceReader<'static>> for Kept {
    fn read(&self, alloc: Global, reader: SliceReader<'static>) -> Read<SliceReader<'static>> {
        read_as!(self, alloc, reader)
    }
}

impl Way<Content, SegmentReader<'static>> for Kept {
    fn read(&self, alloc: Global, reader: SegmentReader<'static>) -> Read<SegmentReader<'static>> {
        read_as!(self, alloc, reader)
    }
}

impl Way<Content, TestReader<'static>> for Kept {
    fn read(&self, alloc: Global, reader: TestReader<'static>) -> Read<TestReader<'static>> {
        read_as!(self, alloc, reader)
    }
}

impl Way<Content, Stream> for Kept {
    fn read(&self, alloc: Global, reader: Stream) -> Read<Stream> {
        read_as!(self, alloc, reader)
    }
}

fn lent<E>(
    alloc: Global,
    got: Result<RawValue<'static>, DecodeError<E>>,
) -> Result<Content, DecodeError<E>> {
    Content::of(alloc, CowSlice::Borrowed(got?.as_bytes()))
}

fn copied<E>(
    alloc: Global,
    got: Result<BoxedRawValue, DecodeError<E>>,
) -> Result<Content, DecodeError<E>> {
    match Content::new(alloc, got?.as_bytes(), false) {
        Ok(content) => Ok(content),
        Err(_) => Err(DecodeError::OutOfMemory),
    }
}

// The value under the one key of a map.
fn under_key<S: Source, T: Decodable + Decode<S> + Drop>(
    alloc: Global,
    reader: &mut S,
) -> Result<T, DecodeError<S::Error>> {
    let mut map = <Map<Vec<(String, T)>>>::decode(alloc, reader)?;
    match (map.0.pop(), map.0.is_empty()) {
        (Some((_, value)), true) => Ok(value),
        _ => Err(DecodeError::Custom {
            name: "not one pair",
            num: 0,
        }),
    }
}

/// {"bar": {"value": 0x99}}, of which the item under "bar" is kept.
pub const MAP: &[u8] = b"\xa1\x63bar\xa1\x65value\x18\x99";

pub const ITEM: &[u8] = b"\xa1\x65value\x18\x99";
