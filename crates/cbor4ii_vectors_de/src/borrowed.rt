//! Rows of strings that are borrowed from the input where the reader lends them: they are owned
//! otherwise, or rejected.
use crate::lent_strings::{Kind, reads_byte_strings, reads_texts};
use crate::typed::{comes_back_lent, is_rejected};
use cbor4ii::serde::{DecodeError, from_reader, from_slice};
use cbor4ii::types::Bytes;
use cbor4ii_rw::error as core_error;
use cbor4ii_vectors::require_borrowed;
use cbor4ii_vectors::streams::FailingStream;
use std::alloc::Global;
use std::borrow::CowStr;
use std::io::{self, BufRead, ErrorKind};
use std::test::Fail;

#[test]
fn texts(rt: HostRuntime) -> Result<(), Fail> {
    reads_texts(TEXTS, rt.alloc())
}

#[test]
fn byte_strings(rt: HostRuntime) -> Result<(), Fail> {
    reads_byte_strings(BYTE_STRINGS, rt.alloc())
}

const TEXTS: &[Kind] = &[
    Kind::Text,
    Kind::TextByName,
    Kind::Identifier,
    Kind::BorrowedText,
];

const BYTE_STRINGS: &[Kind] = &[Kind::Bytes, Kind::BytesByName, Kind::BorrowedBytes];

// Texts and a byte string that are parts of bytes which the test makes.
#[test]
fn strings_that_are_lent_come_back(rt: HostRuntime) -> Result<(), Fail> {
    let alloc = rt.alloc();
    let text = Vec::from_slice(alloc, b"\x63123")?;
    comes_back_lent::<&[u8], &str>(alloc, &text, &text, "\"123\"")?;
    comes_back_lent::<&[u8], CowStr<'_, Global>>(alloc, &text, &text, "\"123\"")?;
    let bytes = Vec::from_slice(alloc, b"\x43123")?;
    comes_back_lent::<&[u8], Bytes<&[u8]>>(alloc, &bytes, &bytes, "Bytes([49, 50, 51])")
}

const NOT_LENT: &str = require_borrowed!("str");

#[test]
fn a_text_that_is_not_lent_is_rejected(rt: HostRuntime) -> Result<(), Fail> {
    let alloc = rt.alloc();
    let got = from_slice::<&[u8], &str>(alloc, b"\x7f\x61a\xff".as_slice());
    is_rejected(got, NOT_LENT)?;
    let got = from_reader::<&[u8], &str>(alloc, b"\x61a".as_slice());
    is_rejected(got, NOT_LENT)
}

// A text of one letter, and what follows it.
const LETTER: &[u8] = b"\x61\x61\x06";

/// Whether the stream's fault is the answer where a text is to be lent out of it. Where it is not,
/// the answer is that the text is not lent.
fn fails_before_a_text<R: BufRead>(alloc: Global, stream: &mut R) -> Result<bool, Fail> {
    let got: Result<&'static str, DecodeError<io::Error>> = from_reader(alloc, stream);
    let is_fault = matches!(
        &got,
        Err(DecodeError::Core(core_error::DecodeError::Read(error)))
            if error.kind() == ErrorKind::Other
    );
    if is_fault {
        return Ok(true);
    }
    is_rejected(got, NOT_LENT)?;
    Ok(false)
}

/// Whether a stream of single bytes that fails at this look does, which is the answer then, and the
/// letter is left in it. Where it does not, the text was taken, and what follows it is left.
fn fails_at_look(alloc: Global, looks: usize) -> Result<bool, Fail> {
    let mut stream = FailingStream::new(LETTER, 1, looks);
    let is_fault = fails_before_a_text(alloc, &mut stream)?;
    let left = stream.remaining();
    let is_left = if is_fault {
        left == LETTER || (looks > 0 && left == b"\x61\x06".as_slice())
    } else {
        left == b"\x06".as_slice()
    };
    if is_left && is_fault == stream.has_failed() {
        return Ok(is_fault);
    }
    Err(Fail::new(format_args!("{left:?} is left at look {looks}")))
}

/// A stream that fails at its first look, at its second, and so on until none is left to fail.
fn fails_at_each_look(alloc: Global) -> Result<(), Fail> {
    for looks in 0..64 {
        if !fails_at_look(alloc, looks)? {
            return Ok(());
        }
    }
    Err(Fail::new("too many looks"))
}

#[test]
fn a_fault_before_a_text_that_is_not_lent(rt: HostRuntime) -> Result<(), Fail> {
    fails_at_each_look(rt.alloc())
}
