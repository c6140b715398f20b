//! Tests of looks, of a slice as a reader, and of steps.
use crate::rw::shown::{gives, shows_each, takes};
use cbor4ii_items::decode::Decode;
use cbor4ii_rw::ask::{lend, look};
use cbor4ii_rw::error::DecodeError;
use cbor4ii_rw::io_reader::IoReader;
use cbor4ii_rw::read::{Reference, Source};
use cbor4ii_rw::segment_reader::SegmentReader;
use cbor4ii_rw::slice_reader::SliceReader;
use cbor4ii_vectors::compared::same;
use cbor4ii_vectors::readers::{Asked, Asks};
use cbor4ii_vectors::rows::steps;
use cbor4ii_vectors::streams::FailingStream;
use std::io::{self, ErrorKind};
use std::test::Fail;

const A_AND_B: &[Option<u8>] = &[Some(b'a'), Some(b'b'), None, None];

const PARTS: &[&[u8]] = &[b"a", b"b"];

#[test]
fn bytes_are_taken_one_by_one() -> Result<(), Fail> {
    takes(&mut SliceReader::new(b"ab"), A_AND_B)?;
    takes(&mut SegmentReader::new(PARTS), A_AND_B)?;
    takes(&mut IoReader::new(b"ab".as_slice()), A_AND_B)
}

const ASKS: Asks = Asks {
    looks: 3,
    ends: 1,
    largest: 1,
    come: 3,
};

// One look for each byte, and one at the end. None wants a byte more.
#[test]
fn a_byte_is_wanted_alone() -> Result<(), Fail> {
    let mut reader = Asked::new(b"ab");
    takes(&mut reader, &[Some(b'a'), Some(b'b'), None])?;
    same(reader.asks(), ASKS)
}

// A stream that fails at its first look, with another error than test streams have by themselves.
fn reset() -> IoReader<FailingStream<'static>> {
    IoReader::new(FailingStream::new(b"\x05", 1, 0).failing_with(ErrorKind::ConnectionReset))
}

fn is_reset(error: &io::Error) -> bool {
    error.kind() == ErrorKind::ConnectionReset
}

// A look that fails puts the stream's error into this slot.
fn look_is_reset(mut failure: Option<io::Error>) -> bool {
    let mut reader = reset();
    look(&mut reader, 1, &mut failure).is_none()
        && matches!(&failure, Some(error) if is_reset(error))
}

// A fill that fails puts the stream's error into this slot.
fn lend_is_reset(mut failure: Option<io::Error>) -> bool {
    let mut reader = reset();
    lend(&mut reader, 1, &mut failure).is_none()
        && matches!(&failure, Some(error) if is_reset(error))
}

// Also where the slot holds the error of another look.
#[test]
fn the_error_of_a_stream_is_handed_on(rt: HostRuntime) {
    assert!(rt; look_is_reset(None));
    assert!(rt; lend_is_reset(None));
    assert!(rt; look_is_reset(Some(io::Error::from(ErrorKind::TimedOut))));
    assert!(rt; lend_is_reset(Some(io::Error::from(ErrorKind::TimedOut))));
}

#[test]
fn a_decoder_hands_the_error_of_a_stream_on(rt: HostRuntime) {
    let fault = u8::decode(rt.alloc(), &mut reset());
    assert!(rt; matches!(&fault, Err(DecodeError::Read(error)) if is_reset(error)));
}

// How many bytes are taken of "abc", and these.
const CUTS: &[(usize, &[u8])] = &[(0, b""), (2, b"ab"), (3, b"abc"), (9, b"abc")];

fn is_cut(len: usize, cut: &[u8]) -> Result<(), Fail> {
    let long = Reference::Long(b"abc".as_slice()).take(len);
    let short = Reference::Short(b"abc".as_slice()).take(len);
    let are_kept = matches!(long, Reference::Long(_)) && matches!(short, Reference::Short(_));
    same((long.as_ref(), short.as_ref(), are_kept), (cut, cut, true))
}

#[test]
fn references_are_cut() -> Result<(), Fail> {
    for (len, cut) in CUTS {
        is_cut(*len, cut)?;
    }
    Ok(())
}

#[test]
fn a_slice_gives_its_bytes(rt: HostRuntime) -> Result<(), Fail> {
    let is_lent = gives(rt.alloc(), &mut SliceReader::new(b"abcde"), 2)?;
    same(is_lent, true)
}

/// How many bytes of "abc" are wanted, and those that are shown.
pub const WANTED_OF_ABC: &[(usize, &[u8])] = &[(0, b""), (1, b"a"), (9, b"abc")];

#[test]
fn as_much_is_shown_as_is_wanted() -> Result<(), Fail> {
    shows_each(&mut SliceReader::new(b"abc"), WANTED_OF_ABC)
}

#[test]
fn a_look_may_ask_a_slice_for_all_bytes() -> Result<(), Fail> {
    same(SliceReader::new(b"").window(), usize::MAX)
}

// So many steps may be taken, and so many again once they are given back.
fn counts<S: Source>(reader: &mut S, want: u16) -> bool {
    steps(reader) == want && steps(reader) == want
}

#[test]
fn steps_are_counted() -> Result<(), Fail> {
    let mut slice = SliceReader::new(b"");
    let slices = [
        counts(&mut slice, 256),
        counts(&mut &mut slice, 256),
        counts(&mut SliceReader::with_limit(b"", 1), 1),
    ];
    let segments = [
        counts(&mut SegmentReader::new(&[]), 256),
        counts(&mut SegmentReader::with_limit(&[], 2), 2),
    ];
    let streams = [
        counts(&mut IoReader::new(b"".as_slice()), 256),
        counts(&mut IoReader::with_limit(b"".as_slice(), 0), 0),
    ];
    same(
        (slices, segments, streams),
        ([true; 3], [true; 2], [true; 2]),
    )
}

// Where usize's greatest number of steps is left, or one less, two may be given back, and no fewer
// are left than `steps` counts.
fn stays_full<S: Source>(reader: &mut S) -> bool {
    reader.step_out();
    reader.step_out();
    steps(reader) == 300
}

fn each_stays_full(limit: usize) -> [bool; 4] {
    [
        stays_full(&mut SliceReader::with_limit(b"", limit)),
        stays_full(&mut SegmentReader::with_limit(&[], limit)),
        stays_full(&mut IoReader::with_limit(b"".as_slice(), limit)),
        stays_full(&mut &mut SliceReader::with_limit(b"", limit)),
    ]
}

#[test]
fn a_full_budget_stays_full() -> Result<(), Fail> {
    let full = [each_stays_full(usize::MAX - 1), each_stays_full(usize::MAX)];
    same(full, [[true; 4]; 2])
}

// The steps of a budget of one, and of one step more that was given back.
fn grows<S: Source>(reader: &mut S) -> bool {
    let one = steps(reader);
    reader.step_out();
    one == 1 && steps(reader) == 2
}

#[test]
fn a_budget_that_is_not_full_grows() -> Result<(), Fail> {
    let grown = [
        grows(&mut SliceReader::with_limit(b"", 1)),
        grows(&mut SegmentReader::with_limit(&[], 1)),
        grows(&mut IoReader::with_limit(b"".as_slice(), 1)),
    ];
    same(grown, [true; 3])
}

#[test]
fn readers_say_how_many_steps_are_left() -> Result<(), Fail> {
    let mut slice = SliceReader::with_limit(b"", 3);
    let mut segments = SegmentReader::with_limit(&[], 2);
    let mut stream = IoReader::new(b"".as_slice());
    let taken = [slice.step_in(), segments.step_in(), stream.step_in()];
    let left = [slice.steps(), segments.steps(), stream.steps()];
    stream.step_out();
    same((taken, left, stream.steps()), ([true; 3], [2, 1, 255], 256))
}
