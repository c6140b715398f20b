//! Rows of strings that are borrowed from the input where a reader lends them, and owned otherwise.
use crate::cow_rows::Kind;
use crate::strings::chunks::in_chunks;
use cbor4ii_rw::slice_reader::SliceReader;
use cbor4ii_vectors::compared::same;
use cbor4ii_vectors::items::Lent;
use cbor4ii_vectors::readers::TestReader;
use cbor4ii_vectors::rows::{ByType, Content, Trial, Want, Way, reads_all};
use cbor4ii_vectors::{eof, mismatch, require_length, require_utf8, table};
use std::alloc::Global;
use std::borrow::CowStr;
use std::test::Fail;

// Who lends a string's content: no reader, one that lends all that is left, or one of a byte too.
#[derive(Clone, Copy, PartialEq)]
enum Lender {
    Never,
    Whole,
    ByByte,
}

const READ: &[(Kind, &'static [u8], &[u8], Lender)] = table! {
    (Kind::Text, b"\x62aa", b"aa", Lender::Whole),
    (Kind::Text, b"\x60", b"", Lender::ByByte),
    (Kind::Text, b"\x7f\x61a\xff", b"a", Lender::Never),
    (Kind::Unchecked, b"\x60", b"", Lender::ByByte),
    (Kind::Unchecked, b"\x61\xff", b"\xff", Lender::ByByte),
    (Kind::Unchecked, b"\x7f\x61\xff\xff", b"\xff", Lender::Never),
    (Kind::Bytes, b"\x41\x01", b"\x01", Lender::ByByte),
    (Kind::Bytes, b"\x42\x01\x02", b"\x01\x02", Lender::Whole),
    (Kind::Bytes, b"\x5f\x41\x01\xff", b"\x01", Lender::Never),
};

// The content is borrowed where the reader lends it.
fn decodes_lent(
    kind: Kind,
    alloc: Global,
    bytes: &'static [u8],
    content: &[u8],
    lender: Lender,
) -> Result<(), Fail> {
    let want = Ok(Content::new(alloc, content, lender != Lender::Never)?);
    let trial = Trial::new(&kind, alloc, bytes, &want, b"").within(1);
    trial.lent()?;
    trial.waits_for_nothing_after()?;
    let want = Ok(Content::new(alloc, content, lender == Lender::ByByte)?);
    Trial::new(&kind, alloc, bytes, &want, b"").over(TestReader::long(bytes, 1))?;
    let want = Ok(Content::new(alloc, content, false)?);
    Trial::new(&kind, alloc, bytes, &want, b"")
        .within(1)
        .copied()
}

#[test]
fn borrowed_or_owned(rt: HostRuntime) -> Result<(), Fail> {
    for &(kind, bytes, content, lender) in READ {
        decodes_lent(kind, rt.alloc(), bytes, content, lender)?;
    }
    Ok(())
}

const REJECTED_TEXTS: &[(&[u8], &str, &[u8])] = table! {
    (b"", eof!("str", 1), b""),
    (b"\x62\xff\xff", require_utf8!("str"), b""),
    (b"\x63\xed\xa0\x80\x01", require_utf8!("str"), b"\x01"),
    (b"\x62\xff", eof!("str", 1), b""),
    (b"\x7f\x41\x61\xff", mismatch!("str", 0x41), b"\x61\xff"),
    (b"\x7f\x61\xff\xff\x01", require_utf8!("str"), b"\x01"),
    (b"\x7f\x61a", eof!("break", 1), b""),
};

// Over every reader, cut at each place and with each fault.
fn texts_alike(
    alloc: Global,
    bytes: &'static [u8],
    want: &Want<Lent<CowStr<'static, Global>>>,
    rest: &[u8],
) -> Result<(), Fail> {
    Trial::new(&ByType, alloc, bytes, want, rest).over_each()
}

#[test]
fn rejected_texts(rt: HostRuntime) -> Result<(), Fail> {
    for &(bytes, rejection, rest) in REJECTED_TEXTS {
        texts_alike(rt.alloc(), bytes, &Err(rejection), rest)?;
    }
    Ok(())
}

const REJECTED: &[(Kind, &'static [u8], &'static str, &[u8])] = table! {
    (Kind::Unchecked, b"\x40\x01", mismatch!("str", 0x40), b"\x01"),
    (Kind::Bytes, b"\x43\x01", eof!("bytes", 2), b""),
    (Kind::Bytes, b"\x5f\x5f\xff\xff", require_length!("bytes"), b"\xff\xff"),
};

#[test]
fn rejected(rt: HostRuntime) -> Result<(), Fail> {
    for &(kind, bytes, rejection, rest) in REJECTED {
        Trial::new(&kind, rt.alloc(), bytes, &Err(rejection), rest)
            .within(1)
            .over_each()?;
    }
    Ok(())
}

// One fill lives as long as the input, and the next does not: then the content is copied.
#[test]
fn borrowed_and_owned_in_turn(rt: HostRuntime) -> Result<(), Fail> {
    let alloc = rt.alloc();
    let reader = TestReader::in_turn(b"\x62aa\x41\x01", 1);
    let (first, reader) = Kind::Text.read(alloc, reader);
    same(first, Ok(Content::new(alloc, b"aa", true)?))?;
    let (second, reader) = Kind::Bytes.read(alloc, reader);
    same(second, Ok(Content::new(alloc, b"\x01", false)?))?;
    same(reader.remaining(), b"")
}

// Each reader gives the same content, borrowed or owned.
#[test]
fn texts_over_each_reader(rt: HostRuntime) -> Result<(), Fail> {
    for bytes in [b"\x62aa".as_slice(), b"\x7f\x61a\x61a\xff"] {
        let text = Ok(Lent(CowStr::Borrowed("aa")));
        texts_alike(rt.alloc(), bytes, &text, b"")?;
    }
    Ok(())
}

// Here a decoder is the first that takes memory, so that each of its growths can be refused.
//
// An indefinite-length text of 1024 chunks of 16 bytes, which might be borrowed if it were counted.
#[test]
fn texts_that_might_be_borrowed(rt: HostRuntime) -> Result<(), Fail> {
    let bytes = in_chunks(0x7f, 0x70);
    let mut slice = SliceReader::new(&bytes);
    let text: CowStr<'_, Global> = reads_all(rt.alloc(), &mut slice, &bytes)?;
    same(text.as_bytes(), &[0x70; 16384])
}
