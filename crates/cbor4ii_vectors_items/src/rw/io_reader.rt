//! What a reader over a stream shows, what it takes of the stream, and how the stream fails.
use crate::rw::shown::{fails, gives, shows, shows_each, takes};
use cbor4ii_rw::io_reader::IoReader;
use cbor4ii_rw::read::Source;
use cbor4ii_vectors::compared::same;
use cbor4ii_vectors::rows::reads_text_over;
use cbor4ii_vectors::streams::FailingStream;
use std::alloc::Global;
use std::io::BufReader;
use std::test::Fail;

#[test]
fn a_stream_gives_its_bytes(rt: HostRuntime) -> Result<(), Fail> {
    let mut stream = IoReader::new(b"abcde".as_slice());
    let is_lent = gives(rt.alloc(), &mut stream, 2)?;
    same((is_lent, stream.taken()), (false, 5))
}

const ALL_OF_ABC: &[(usize, &[u8])] = &[(0, b"abc"), (1, b"abc"), (9, b"abc")];

#[test]
fn all_that_a_stream_has_is_shown() -> Result<(), Fail> {
    shows_each(&mut IoReader::new(b"abc".as_slice()), ALL_OF_ABC)
}

#[test]
fn a_look_may_ask_a_stream_for_all_bytes() -> Result<(), Fail> {
    same(IoReader::new(b"".as_slice()).window(), usize::MAX)
}

#[test]
fn a_stream_keeps_what_was_not_taken() -> Result<(), Fail> {
    let mut reader = IoReader::new(b"abcde".as_slice());
    shows(&mut reader, 1, b"abcde", 2)?;
    let taken = reader.taken();
    same((taken, reader.into_inner()), (2, b"cde".as_slice()))
}

// A stream behind a reference has lost what was taken once the reader is gone.
#[test]
fn a_dropped_reader_keeps_what_was_not_taken() -> Result<(), Fail> {
    let mut stream = b"cde".as_slice();
    shows(&mut IoReader::new(&mut stream), 1, b"cde", 1)?;
    same(stream, b"de")
}

// A byte is taken, the next look fails, and another goes on with these.
fn goes_on<S: Source>(reader: &mut S, after: &[Option<u8>]) -> Result<(), Fail> {
    takes(reader, &[Some(b'a')])?;
    fails(reader, FAILURE)?;
    takes(reader, after)
}

const FAILURE: &str = "Some(Kind(Other))";

// The byte that was taken before the failure left the stream at that look, and the one that was
// taken after it leaves when the reader is dropped.
#[test]
fn a_dropped_reader_that_failed_keeps_what_was_not_taken() -> Result<(), Fail> {
    let mut stream = FailingStream::new(b"abc", 2, 1);
    goes_on(&mut IoReader::new(&mut stream), &[Some(b'b')])?;
    same(stream.remaining(), b"c")
}

// Two bytes are shown, one is taken, and the next look fails: the stream has lost that one byte.
#[test]
fn a_stream_that_fails_loses_no_byte() -> Result<(), Fail> {
    let mut reader = IoReader::new(FailingStream::new(b"abc", 2, 1));
    shows(&mut reader, 1, b"ab", 1)?;
    fails(&mut reader, FAILURE)?;
    let taken = reader.taken();
    same(
        (taken, reader.into_inner().remaining()),
        (1, b"bc".as_slice()),
    )
}

// Another look goes on after the byte that was taken.
#[test]
fn a_stream_goes_on_after_a_failure() -> Result<(), Fail> {
    let mut reader = IoReader::new(FailingStream::new(b"abc", 2, 1));
    goes_on(&mut reader, &[Some(b'b'), Some(b'c'), None])?;
    same(reader.taken(), 3)
}

const CHUNKS: &[u8] = b"\x7f\x65strea\x64ming\xff\x01";

fn reads_chunks<S: Source>(alloc: Global, reader: &mut S) -> Result<(), Fail> {
    reads_text_over::<String, _>(alloc, reader, CHUNKS, &Ok("\"streaming\""), b"\x01")
}

// A stream behind a buffer of std, whatever its capacity.
#[test]
fn a_buffered_stream(rt: HostRuntime) -> Result<(), Fail> {
    let alloc = rt.alloc();
    for capacity in [1, 4, 64] {
        let stream = BufReader::with_capacity(alloc, capacity, CHUNKS)?;
        reads_chunks(alloc, &mut IoReader::new(stream))?;
    }
    Ok(())
}
