//! Readers and writers after references.
use crate::rw::read::WANTED_OF_ABC;
use crate::rw::shown::{gives, shows_each};
use cbor4ii_items::decode::Decode;
use cbor4ii_items::encode::Encode;
use cbor4ii_rw::ask::lend;
use cbor4ii_rw::buf_writer::BufWriter;
use cbor4ii_rw::io_reader::IoReader;
use cbor4ii_rw::read::{Read, Source};
use cbor4ii_rw::segment_reader::SegmentReader;
use cbor4ii_rw::slice_reader::SliceReader;
use cbor4ii_rw::write::Write;
use cbor4ii_vectors::compared::same;
use cbor4ii_vectors::readers::Counting;
use cbor4ii_vectors::streams::FailingStream;
use std::alloc::Global;
use std::fmt::InlineText;
use std::test::Fail;

#[test]
fn a_reader_after_a_reference_gives_its_bytes(rt: HostRuntime) -> Result<(), Fail> {
    let mut after = SliceReader::new(b"abcde");
    let is_lent = gives(rt.alloc(), &mut &mut after, 3)?;
    same((is_lent, after.remaining()), (true, b"".as_slice()))
}

#[test]
fn as_much_is_shown_as_is_wanted_of_what_is_after() -> Result<(), Fail> {
    shows_each(&mut &mut SliceReader::new(b"abc"), WANTED_OF_ABC)
}

// How many bytes a look may ask for, which each of the three readers says, and another does not.
#[test]
fn a_look_may_ask_for_as_many_bytes_after_a_reference() -> Result<(), Fail> {
    let windows = [
        window(&&mut SliceReader::new(b"")),
        window(&&mut SegmentReader::new(&[])),
        window(&&mut IoReader::new(b"".as_slice())),
        window(&&mut Counting::new(b"")),
    ];
    same(windows, [usize::MAX, usize::MAX, usize::MAX, 1])
}

fn window<S: Source>(reader: &S) -> usize {
    reader.window()
}

// Which readers have all that is left in memory, as they are and after a reference.
#[test]
fn slices_and_segments_are_in_memory() -> Result<(), Fail> {
    let said = [
        SliceReader::new(b"").is_in_memory(),
        SegmentReader::new(&[]).is_in_memory(),
        IoReader::new(b"".as_slice()).is_in_memory(),
        Counting::new(b"").is_in_memory(),
        is_in_memory(&&mut SliceReader::new(b"")),
        is_in_memory(&&mut IoReader::new(b"".as_slice())),
    ];
    same(said, [true, true, false, false, true, false])
}

fn is_in_memory<S: Source>(reader: &S) -> bool {
    reader.is_in_memory()
}

// A reader behind a reference fails as the reader does.
#[test]
fn a_failure_after_a_reference() -> Result<(), Fail> {
    let mut reader = IoReader::new(FailingStream::new(b"abc", 2, 0));
    fill_fails_once(&mut &mut reader, "Some(Kind(Other))")
}

// The next fill fails with an error of this text, and the one after it does not.
fn fill_fails_once<'de, R: Read<'de>>(reader: &mut R, error: &str) -> Result<(), Fail> {
    let mut failure = None;
    let has_failed = lend(reader, 1, &mut failure).is_none();
    let text = InlineText::<64>::of(format_args!("{failure:?}"));
    same(text.as_str(), error)?;
    let goes_on = lend(reader, 1, &mut failure).is_some();
    same([has_failed, goes_on], [true; 2])
}

// Reads by the bounds alone.
fn read<T: Decode<S>, S: Source>(alloc: Global, reader: &mut S) -> Result<T, Fail> {
    Ok(T::decode(alloc, reader)?)
}

// The next text is this one, which is lent, or owned.
fn lends<'de, R: Read<'de>>(alloc: Global, reader: &mut R, want: &str) -> Result<(), Fail> {
    let text: &str = read(alloc, reader)?;
    same(text, want)
}

fn owns<S: Source>(alloc: Global, reader: &mut S, want: &str) -> Result<(), Fail> {
    let text: String = read(alloc, reader)?;
    same(text.as_str(), want)
}

#[test]
fn references_to_readers(rt: HostRuntime) -> Result<(), Fail> {
    let alloc = rt.alloc();
    let mut reader = SliceReader::new(b"\x63123\x61a");
    lends(alloc, &mut &mut reader, "123")?;
    let left = reader.remaining();
    owns(alloc, &mut &mut reader, "a")?;
    same([left, reader.remaining()], [b"\x61a".as_slice(), b""])
}

// Writes by the bound alone.
fn write<W: Write>(text: &str, writer: &mut W) -> Result<(), Fail> {
    Ok(text.encode(writer)?)
}

#[test]
fn references_to_writers(rt: HostRuntime) -> Result<(), Fail> {
    let mut writer = BufWriter::new(Vec::new(rt.alloc()));
    write("123", &mut &mut writer)?;
    write("a", &mut &mut writer)?;
    same(writer.buffer(), b"\x63123\x61a")
}
