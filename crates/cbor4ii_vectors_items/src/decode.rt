//! Rows of what decoders and encoders have alike, and of items of indefinite length.
use crate::rw::shown::takes;
use cbor4ii_items::decode::{ArrayStart, Decodable};
use cbor4ii_items::indefinite::{follows, is_break};
use cbor4ii_items::types::{F16, Map, Maybe, Negative, Nothing, Simple, Tag};
use cbor4ii_rw::error::DecodeError;
use cbor4ii_rw::read::Source;
use cbor4ii_rw::slice_reader::SliceReader;
use cbor4ii_vectors::compared::same;
use cbor4ii_vectors::rows::{ReadFrom, Row, reads_rows, writes_in};
use cbor4ii_vectors::{eof, table};
use std::alloc::Global;
use std::borrow::CowStr;
use std::fmt::InlineText;
use std::test::Fail;

// Nothing takes no byte, and what may be nothing alone may take none.
#[test]
fn types_that_always_read_a_byte() -> Result<(), Fail> {
    let may_take_none = [
        Nothing::is_never_empty(),
        <Option<Nothing>>::is_never_empty(),
        <Box<Nothing>>::is_never_empty(),
    ];
    let always = [
        u8::is_never_empty(),
        <Negative<u64>>::is_never_empty(),
        i128::is_never_empty(),
        <&str>::is_never_empty(),
        String::is_never_empty(),
        <CowStr<'static, Global>>::is_never_empty(),
        Simple::is_never_empty(),
        bool::is_never_empty(),
        F16::is_never_empty(),
        <Option<u8>>::is_never_empty(),
        <Box<u8>>::is_never_empty(),
        <Tag<Nothing>>::is_never_empty(),
        <Maybe<Option<Nothing>>>::is_never_empty(),
        <Vec<Nothing>>::is_never_empty(),
        <Map<Vec<(Nothing, Nothing)>>>::is_never_empty(),
    ];
    same((may_take_none, always), ([false; 3], [true; 15]))
}

#[test]
fn beginnings_of_arrays_are_compared() -> Result<(), Fail> {
    let two = ArrayStart(Some(2));
    same(
        [
            two != ArrayStart(None),
            ArrayStart(None) == ArrayStart(None),
        ],
        [true; 2],
    )
}

#[test]
fn a_reference_to_a_value(rt: HostRuntime) -> Result<(), Fail> {
    writes_in(rt.alloc(), &&255u8, b"\x18\xff", 1)
}

// Whether a break was taken.
#[derive(Clone, Copy, Debug, PartialEq)]
struct Break(bool);

impl ReadFrom for Break {
    fn read_from<S: Source>(
        _alloc: Global,
        reader: &mut S,
    ) -> Result<Break, DecodeError<S::Error>> {
        Ok(Break(is_break(reader)?))
    }
}

const BREAKS: &[Row<Break>] = table! {
    (b"\xff\x00", Ok(Break(true)), b"\x00"),
    (b"\x00", Ok(Break(false)), b"\x00"),
    (b"", Err(eof!("break", 1)), b""),
};

#[test]
fn breaks(rt: HostRuntime) -> Result<(), Fail> {
    reads_rows(rt.alloc(), BREAKS)
}

// Whether a part follows, or the error, has this text.
fn says<S: Source>(reader: &mut S, len: &mut Option<usize>, text: &str) -> Result<(), Fail> {
    let got = follows(reader, len);
    same(InlineText::<64>::of(format_args!("{got:?}")).as_str(), text)
}

#[test]
fn parts_are_counted_down() -> Result<(), Fail> {
    let mut reader = SliceReader::new(b"\xff");
    let mut len = Some(2);
    for more in ["Ok(true)", "Ok(true)", "Ok(false)", "Ok(false)"] {
        says(&mut reader, &mut len, more)?;
    }
    same(reader.remaining(), b"\xff")
}

// Whether a part follows has this text, and this is the length then.
fn leaves<S: Source>(
    reader: &mut S,
    len: &mut Option<usize>,
    text: &str,
    left: Option<usize>,
) -> Result<(), Fail> {
    says(reader, len, text)?;
    same(*len, left)
}

// After the break no part follows, whatever stands there.
#[test]
fn a_break_ends_the_parts() -> Result<(), Fail> {
    let mut reader = SliceReader::new(b"\x01\xff\xff");
    let mut len = None;
    leaves(&mut reader, &mut len, "Ok(true)", None)?;
    takes(&mut reader, &[Some(1)])?;
    leaves(&mut reader, &mut len, "Ok(false)", Some(0))?;
    leaves(&mut reader, &mut len, "Ok(false)", Some(0))?;
    same(reader.remaining(), b"\xff")
}

const END: &str = "Err(Eof { name: \"break\", expect: Small(1) })";

// Where no byte is left a break or a part is missing, and the length stays indefinite.
#[test]
fn no_byte_where_a_part_may_follow() -> Result<(), Fail> {
    let mut len = None;
    says(&mut SliceReader::new(b""), &mut len, END)?;
    same(len, None)
}
