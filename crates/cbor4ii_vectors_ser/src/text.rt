//! Texts in pieces: of no piece, rejected by themselves, and over a writer that fails.
ghost use Rattle.std.specs.Prelude.{◌∷◌, [], true, false};

use crate::by_pieces::{ByPieces, EMPTY, writes_text};
use crate::pieces::{Parts, joined, letters};
use crate::typed::Rejected;
use cbor4ii_rw::write::Write;
use cbor4ii_ser::text::{Text, TextFault, TextWriter};
use cbor4ii_vectors::rows::writes;
use cbor4ii_vectors::writers::FailingWriter;
use std::alloc::Global;
use std::test::Fail;

/// A text of no piece.
#[derive(Drop)]
struct NoPiece;

impl Text for NoPiece {
    ghost pieces = { λ _. [] };

    ghost fails_itself = { λ _. false };

    fn write_to<W: Write>(&self, _out: &mut TextWriter<'_, W>) -> Result<(), TextFault> {
        Ok(())
    }
}

#[test]
fn a_text_of_no_piece(rt: HostRuntime) -> Result<(), Fail> {
    writes_text(rt.alloc(), NoPiece, EMPTY)
}

// The text fails by itself, and these parts stand before that.
fn is_rejected_after<T: Text + Drop>(alloc: Global, text: T, parts: Parts<'_>) -> Result<(), Fail> {
    let rejected = Rejected(ByPieces(text), "text refused");
    writes(alloc, &rejected, &joined(alloc, parts)?)?;
    Ok(())
}

/// A text that rejects after one piece.
#[derive(Drop)]
struct Rejecting<'a>(&'a str);

impl<'a> Text for Rejecting<'a> {
    ghost pieces = { λ text. text.0.now ∷ [] };

    ghost fails_itself = { λ _. true };

    fn write_to<W: Write>(&self, out: &mut TextWriter<'_, W>) -> Result<(), TextFault> {
        out.write_str(self.0)?;
        Err(TextFault)
    }
}

const FIRST_CHUNK: Parts<'static> = &[(b"\x7f\x78\xc8", 200)];

#[test]
fn a_text_that_rejects(rt: HostRuntime) -> Result<(), Fail> {
    let alloc = rt.alloc();
    is_rejected_after(alloc, Rejecting("ab"), &[])?;
    let first = letters(alloc, 200)?;
    let second = letters(alloc, 56)?;
    is_rejected_after(alloc, (first, Rejecting(&second)), FIRST_CHUNK)
}

// Of the second nothing is written, though it is too long to be held back.
#[test]
fn a_text_after_one_that_rejects(rt: HostRuntime) -> Result<(), Fail> {
    let alloc = rt.alloc();
    is_rejected_after(alloc, (Rejecting("ab"), letters(alloc, 256)?), &[])
}

// Letters until they are pushed, which fails; then everything fails.
fn keeps_the_error(writer: &mut FailingWriter) -> bool {
    let mut text = TextWriter::new(writer);
    for _ in 0..255 {
        if text.write_str("a").is_err() {
            return false;
        }
    }
    text.write_str("a").is_err()
        && text.is_error()
        && text.write_str("").is_err()
        && text.flush().is_err()
}

#[test]
fn a_text_writer_keeps_the_writers_error(rt: HostRuntime) -> Result<(), Fail> {
    let mut writer = FailingWriter::new(Vec::with_capacity(rt.alloc(), 1)?, 1);
    assert!(rt; keeps_the_error(&mut writer));
    assert_eq!(rt; writer.buffer(), b"\x7f".as_slice());
    assert_eq!(rt; writer.failures(), 1);
    Ok(())
}
