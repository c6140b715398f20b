//! The chunks that a text in pieces is written in: up to 255 bytes are held back for each.
use crate::by_pieces::{EMPTY, writes_text};
use crate::pieces::{Parts, letters};
use cbor4ii_rw::write::Write;
use cbor4ii_ser::text::{Text, TextFault, TextWriter};
use std::alloc::Global;
use std::test::Fail;

// A text of so many letters is written as these parts.
fn writes_letters(alloc: Global, count: usize, parts: Parts<'_>) -> Result<(), Fail> {
    writes_text(alloc, letters(alloc, count)?, parts)
}

// So many letters, with an empty piece before and after, are written as these parts.
fn writes_between(alloc: Global, count: usize, parts: Parts<'_>) -> Result<(), Fail> {
    writes_text(alloc, ("", (letters(alloc, count)?, "")), parts)
}

// Two pieces of so many letters each are written as these parts.
fn writes_two(alloc: Global, first: usize, second: usize, parts: Parts<'_>) -> Result<(), Fail> {
    let text = (letters(alloc, first)?, letters(alloc, second)?);
    writes_text(alloc, text, parts)
}

const THREE: Parts<'static> = &[(b"\x63", 3)];

const ONE_CHUNK: Parts<'static> = &[(b"\x78\xff", 255)];

#[test]
fn short_texts(rt: HostRuntime) -> Result<(), Fail> {
    let alloc = rt.alloc();
    writes_text(alloc, "", EMPTY)?;
    writes_text(alloc, ("a", "aa"), THREE)?;
    writes_two(alloc, 200, 55, ONE_CHUNK)
}

const TWO_CHUNKS: Parts<'static> = &[(b"\x7f\x78\xc8", 200), (b"\x78\x38", 56), (b"\xff", 0)];

const LONG: Parts<'static> = &[(b"\x7f\x79\x01\x2c", 300), (b"\xff", 0)];

const LEAST_LONG: Parts<'static> = &[(b"\x7f\x79\x01\x00", 256), (b"\xff", 0)];

#[test]
fn long_texts(rt: HostRuntime) -> Result<(), Fail> {
    let alloc = rt.alloc();
    writes_two(alloc, 200, 56, TWO_CHUNKS)?;
    writes_letters(alloc, 300, LONG)?;
    writes_between(alloc, 256, LEAST_LONG)
}

/// A text twice, one after the other.
#[derive(Clone, Copy)]
struct Twice<T>(T);

impl<T: Text + Copy> Text for Twice<T> {
    ghost pieces = { λ text. ⟦<(T, T) as Text>⟧.pieces (text.0, text.0) };

    ghost fails_itself = { λ text. ⟦<(T, T) as Text>⟧.fails_itself (text.0, text.0) };

    fn write_to<W: Write>(&self, out: &mut TextWriter<'_, W>) -> Result<(), TextFault> {
        (self.0, self.0).write_to(out)
    }
}

type SixteenTimes<T> = Twice<Twice<Twice<Twice<T>>>>;

// 256 pieces of one letter.
const ONES: SixteenTimes<SixteenTimes<&str>> = Twice(Twice(Twice(Twice(Twice(Twice(Twice(Twice(
    "a",
))))))));

// A piece of so many letters, and 257 of one letter after it, are written as these parts.
fn writes_before_ones(alloc: Global, first: usize, parts: Parts<'_>) -> Result<(), Fail> {
    writes_text(alloc, (letters(alloc, first)?, (ONES, "a")), parts)
}

const PIECES: Parts<'static> = &[
    (b"\x7f\x79\x01\x01", 257),
    (b"\x78\xff", 255),
    (b"\x62", 2),
    (b"\xff", 0),
];

#[test]
fn a_long_piece_and_many_short_ones(rt: HostRuntime) -> Result<(), Fail> {
    writes_before_ones(rt.alloc(), 257, PIECES)
}
