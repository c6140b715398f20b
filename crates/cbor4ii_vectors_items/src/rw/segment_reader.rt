//! Slices that stand one after another: what is shown and lent of them, and rows over them.
use crate::cow_rows::Kind;
use crate::rw::shown::{gives, shows, shows_each};
use cbor4ii_items::decode::{Decodable, Decode};
use cbor4ii_rw::read::Source;
use cbor4ii_rw::segment_reader::SegmentReader;
use cbor4ii_vectors::compared::same;
use cbor4ii_vectors::rows::{Content, Trial, Want, reads_text_over};
use cbor4ii_vectors::{eof, require_length, table};
use std::alloc::Global;
use std::fmt::Debug;
use std::test::Fail;

const ABCDE: &[&[u8]] = &[b"", b"ab", b"", b"cde", b""];

#[test]
fn segments_give_their_bytes(rt: HostRuntime) -> Result<(), Fail> {
    let is_lent = gives(rt.alloc(), &mut SegmentReader::new(ABCDE), 2)?;
    same(is_lent, true)
}

#[test]
fn what_is_left_is_counted() -> Result<(), Fail> {
    let mut segments = SegmentReader::new(ABCDE);
    let whole = segments.remaining();
    shows(&mut segments, 1, b"a", 1)?;
    let after_a = segments.remaining();
    shows(&mut segments, 9, b"b", 1)?;
    let none = SegmentReader::new(&[]).remaining();
    same([none, whole, after_a, segments.remaining()], [0, 5, 4, 3])
}

const AB_AND_C: &[&[u8]] = &[b"", b"ab", b"c"];

#[test]
fn no_more_is_shown_than_a_segment_has() -> Result<(), Fail> {
    shows_each(
        &mut SegmentReader::new(AB_AND_C),
        &[(0, b""), (1, b"a"), (9, b"ab")],
    )
}

#[test]
fn a_look_may_ask_segments_for_all_bytes() -> Result<(), Fail> {
    same(SegmentReader::new(&[]).window(), usize::MAX)
}

// A row: the segments, their bytes, the text of what is read, and what is left of the bytes.
type Row = (
    &'static [&'static [u8]],
    &'static [u8],
    Want<&'static str>,
    &'static [u8],
);

fn reads_row<T>(alloc: Global, row: &Row) -> Result<(), Fail>
where
    T: Decodable + Decode<SegmentReader<'static>> + Debug + Drop,
{
    let (segments, bytes, want, rest) = row;
    reads_text_over::<T, _>(alloc, &mut SegmentReader::new(segments), bytes, want, rest)
}

fn reads_segments<T>(alloc: Global, rows: &[Row]) -> Result<(), Fail>
where
    T: Decodable + Decode<SegmentReader<'static>> + Debug + Drop,
{
    for row in rows {
        reads_row::<T>(alloc, row)?;
    }
    Ok(())
}

const NUMBER: &[u8] = b"\x1b\x01\x02\x03\x04\x05\x06\x07\x08";

// Cut at each place.
const NUMBERS: &[Row] = table! {
    (&[b"\x1b", b"\x01\x02\x03\x04\x05\x06\x07\x08"], NUMBER, Ok("72623859790382856"), b""),
    (&[b"\x1b\x01", b"\x02\x03\x04\x05\x06\x07\x08"], NUMBER, Ok("72623859790382856"), b""),
    (&[b"\x1b\x01\x02", b"\x03\x04\x05\x06\x07\x08"], NUMBER, Ok("72623859790382856"), b""),
    (&[b"\x1b\x01\x02\x03", b"\x04\x05\x06\x07\x08"], NUMBER, Ok("72623859790382856"), b""),
    (&[b"\x1b\x01\x02\x03\x04", b"\x05\x06\x07\x08"], NUMBER, Ok("72623859790382856"), b""),
    (&[b"\x1b\x01\x02\x03\x04\x05", b"\x06\x07\x08"], NUMBER, Ok("72623859790382856"), b""),
    (&[b"\x1b\x01\x02\x03\x04\x05\x06", b"\x07\x08"], NUMBER, Ok("72623859790382856"), b""),
    (&[b"\x1b\x01\x02\x03\x04\x05\x06\x07", b"\x08"], NUMBER, Ok("72623859790382856"), b""),
};

#[test]
fn a_number_in_two_segments(rt: HostRuntime) -> Result<(), Fail> {
    reads_segments::<u64>(rt.alloc(), NUMBERS)
}

const LENT: &[Row] = table! {
    (&[b"", b"\x62aa", b""], b"\x62aa", Ok("\"aa\""), b""),
    (&[b"\x62a", b"a"], b"\x62aa", Err(require_length!("str", 1)), b"aa"),
    (&[b"\x62", b"aa\x01"], b"\x62aa\x01", Ok("\"aa\""), b"\x01"),
    (&[b"\x62aa", b"\x01"], b"\x62aa\x01", Ok("\"aa\""), b"\x01"),
    (&[b"\x64IE", b"", b"TF"], b"\x64IETF", Err(require_length!("str", 2)), b"IETF"),
    (&[b"\x60", b"\x01"], b"\x60\x01", Ok("\"\""), b"\x01"),
    (&[], b"", Err(eof!("str", 1)), b""),
    (&[b"", b""], b"", Err(eof!("str", 1)), b""),
};

// A text is lent where it stands in one segment.
#[test]
fn texts_lent_of_segments(rt: HostRuntime) -> Result<(), Fail> {
    reads_segments::<&'static str>(rt.alloc(), LENT)
}

const OWNED: &[Row] = table! {
    (&[b"", b"\x62aa", b""], b"\x62aa", Ok("\"aa\""), b""),
    (&[b"\x62a", b"a"], b"\x62aa", Ok("\"aa\""), b""),
    (&[b"\x62", b"aa"], b"\x62aa", Ok("\"aa\""), b""),
    (&[b"\x62", b"a", b"", b"a"], b"\x62aa", Ok("\"aa\""), b""),
};

// An owned text is read wherever the segments end.
#[test]
fn owned_texts_of_segments(rt: HostRuntime) -> Result<(), Fail> {
    reads_segments::<String>(rt.alloc(), OWNED)
}

// Segments of a string, its bytes, its content, and whether that is borrowed from them.
const BORROWED_OR_OWNED: &[(Kind, &'static [&'static [u8]], &'static [u8], &[u8], bool)] = table! {
    (Kind::Text, &[b"", b"\x62aa", b""], b"\x62aa", b"aa", true),
    (Kind::Text, &[b"\x62", b"aa"], b"\x62aa", b"aa", true),
    (Kind::Text, &[b"\x62a", b"a"], b"\x62aa", b"aa", false),
    (Kind::Unchecked, &[b"", b"\x62\xffa", b""], b"\x62\xffa", b"\xffa", true),
    (Kind::Unchecked, &[b"\x62", b"\xffa"], b"\x62\xffa", b"\xffa", true),
    (Kind::Unchecked, &[b"\x62\xff", b"a"], b"\x62\xffa", b"\xffa", false),
    (Kind::Unchecked, &[b"\x7f\x61", b"a\xff"], b"\x7f\x61a\xff", b"a", false),
    (Kind::Bytes, &[b"", b"\x42\x01\x02", b""], b"\x42\x01\x02", b"\x01\x02", true),
    (Kind::Bytes, &[b"\x42", b"\x01\x02"], b"\x42\x01\x02", b"\x01\x02", true),
    (Kind::Bytes, &[b"\x42\x01", b"\x02"], b"\x42\x01\x02", b"\x01\x02", false),
    (Kind::Bytes, &[b"\x5f\x41", b"\x01\xff"], b"\x5f\x41\x01\xff", b"\x01", false),
};

#[test]
fn strings_borrowed_or_owned_of_segments(rt: HostRuntime) -> Result<(), Fail> {
    for &(kind, segments, bytes, content, is_borrowed) in BORROWED_OR_OWNED {
        let want = Ok(Content::new(rt.alloc(), content, is_borrowed)?);
        let trial = Trial::new(&kind, rt.alloc(), bytes, &want, b"");
        trial.over(SegmentReader::new(segments))?;
    }
    Ok(())
}
