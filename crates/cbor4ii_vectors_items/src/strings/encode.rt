//! Rows of strings that are written.
//!
//! An owned text is written in the rows of `owned.rt`, which go both ways.
use cbor4ii_items::encode::Encode;
use cbor4ii_items::types::{Bytes, UncheckedStr};
use cbor4ii_rw::buf_writer::BufWriter;
use cbor4ii_rw::error::EncodeError;
use cbor4ii_vectors::compared::same;
use cbor4ii_vectors::readers::Failure;
use cbor4ii_vectors::repeated::repeated;
use cbor4ii_vectors::rows::writes_rows;
use cbor4ii_vectors::table;
use cbor4ii_vectors::writers::{FailingWriter, PushLengths};
use std::alloc::Global;
use std::test::Fail;

const TEXTS: &[(&str, &[u8], usize)] = table! {
    ("", b"\x60", 2),
    ("a", b"\x61a", 2),
    ("IETF", b"\x64IETF", 2),
    ("\"\\", b"\x62\x22\x5c", 2),
    ("\u{fc}", b"\x62\xc3\xbc", 2),
    ("\u{6c34}", b"\x63\xe6\xb0\xb4", 2),
    ("\u{10151}", b"\x64\xf0\x90\x85\x91", 2),
};

const UNCHECKED_TEXTS: &[(UncheckedStr<&[u8]>, &[u8], usize)] = table! {
    (UncheckedStr(b""), b"\x60", 2),
    (UncheckedStr(b"a"), b"\x61a", 2),
    (UncheckedStr(b"IETF"), b"\x64IETF", 2),
    (UncheckedStr(b"\x22\x5c"), b"\x62\x22\x5c", 2),
    (UncheckedStr(b"\xc3\xbc"), b"\x62\xc3\xbc", 2),
    (UncheckedStr(b"\xe6\xb0\xb4"), b"\x63\xe6\xb0\xb4", 2),
    (UncheckedStr(b"\xf0\x90\x85\x91"), b"\x64\xf0\x90\x85\x91", 2),
    (UncheckedStr(b"\xff"), b"\x61\xff", 2),
};

const BYTE_STRINGS: &[(Bytes<&[u8]>, &[u8], usize)] = table! {
    (Bytes(b""), b"\x40", 2),
    (Bytes(b"\x01\x02\x03\x04"), b"\x44\x01\x02\x03\x04", 2),
    (Bytes(b"123"), b"\x43123", 2),
};

#[test]
fn written_strings(rt: HostRuntime) -> Result<(), Fail> {
    let alloc = rt.alloc();
    writes_rows(alloc, TEXTS)?;
    writes_rows(alloc, UNCHECKED_TEXTS)?;
    writes_rows(alloc, BYTE_STRINGS)
}

// A string of so many letters a is a head and a content, each a push, however long it is.
const LONG: &[(usize, &[u8], &[u8])] = table! {
    (100, b"\x58\x64", b"\x78\x64"),
    (101, b"\x58\x65", b"\x78\x65"),
    (5_000, b"\x59\x13\x88", b"\x79\x13\x88"),
    (100_000, b"\x5a\x00\x01\x86\xa0", b"\x7a\x00\x01\x86\xa0"),
};

fn is_in_two_pushes<T: Encode>(
    alloc: Global,
    value: &T,
    head: &[u8],
    content: &[u8],
) -> Result<(), Fail> {
    let mut pushes = PushLengths::new(alloc);
    value.encode(&mut pushes)?;
    same(pushes.lengths(), [head.len(), content.len()].as_slice())?;
    let mut writer = BufWriter::new(Vec::new(alloc));
    value.encode(&mut writer)?;
    let bytes = repeated(alloc, head, content, 1, b"")?;
    same(writer.buffer() == bytes, true)
}

#[test]
fn long_strings_are_two_pushes(rt: HostRuntime) -> Result<(), Fail> {
    let alloc = rt.alloc();
    for &(count, bytes_head, text_head) in LONG {
        let text = String::from_utf8(vec![in alloc; b'a'; count]?)?;
        let content = text.as_bytes();
        is_in_two_pushes(alloc, &text.as_str(), text_head, content)?;
        is_in_two_pushes(alloc, &Bytes(content), bytes_head, content)?;
        is_in_two_pushes(alloc, &UncheckedStr(content), text_head, content)?;
    }
    Ok(())
}

#[test]
fn a_head_without_its_content(rt: HostRuntime) -> Result<(), Fail> {
    let alloc = rt.alloc();
    let mut writer = FailingWriter::new(Vec::with_capacity(alloc, 3)?, 1);
    let got = "ab".encode(&mut writer);
    same(
        (got, writer.buffer()),
        (Err(EncodeError::Write(Failure)), b"\x62".as_slice()),
    )
}
