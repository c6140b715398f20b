//! Rows of owned strings: RFC 8949 Appendix A, what follows them, and errors.
use cbor4ii_items::decode::Decode;
use cbor4ii_rw::io_reader::IoReader;
use cbor4ii_rw::read::Source;
use cbor4ii_rw::slice_reader::SliceReader;
use cbor4ii_vectors::compared::same;
use cbor4ii_vectors::items::{items_go_both_ways, reads_items};
use cbor4ii_vectors::rows::{Called, reads_all};
use cbor4ii_vectors::{eof, mismatch, require_length, require_utf8, table};
use std::alloc::Global;
use std::test::Fail;

// A text that is joined from the chunks of a stream.
#[test]
fn a_text_of_a_stream(rt: HostRuntime) -> Result<(), Fail> {
    let mut stream = IoReader::new(b"\x7f\x65strea\x64ming\xff".as_slice());
    let text = String::decode(rt.alloc(), &mut stream)?;
    same((text.as_str(), stream.taken()), ("streaming", 13))
}

// A string is written in two pushes, one for its head and one for its content, also an empty one.
const TEXTS: &[(&[u8], &str, usize)] = table! {
    (b"\x60", "\"\"", 2),
    (b"\x61a", "\"a\"", 2),
    (b"\x62aa", "\"aa\"", 2),
    (b"\x64IETF", "\"IETF\"", 2),
    (b"\x62\x22\x5c", "\"\\\"\\\\\"", 2),
    (b"\x62\xc3\xbc", "\"\u{fc}\"", 2),
    (b"\x63\xe6\xb0\xb4", "\"\u{6c34}\"", 2),
    (b"\x64\xf0\x90\x85\x91", "\"\u{10151}\"", 2),
};

const LONG_HEADS_OF_TEXTS: &[Called] = table! {
    ("String", b"\x78\x02aa\xff", Ok("\"aa\""), b"\xff"),
};

#[test]
fn texts(rt: HostRuntime) -> Result<(), Fail> {
    let alloc = rt.alloc();
    items_go_both_ways(alloc, "String", TEXTS)?;
    reads_items(alloc, LONG_HEADS_OF_TEXTS)
}

const UNCHECKED_TEXTS: &[Called] = table! {
    ("UncheckedStr<Vec<u8>>", b"\x60", Ok("UncheckedStr([])"), b""),
    ("UncheckedStr<Vec<u8>>", b"\x61a", Ok("UncheckedStr([97])"), b""),
    ("UncheckedStr<Vec<u8>>", b"\x64IETF", Ok("UncheckedStr([73, 69, 84, 70])"), b""),
    ("UncheckedStr<Vec<u8>>", b"\x62\x22\x5c", Ok("UncheckedStr([34, 92])"), b""),
    ("UncheckedStr<Vec<u8>>", b"\x62\xc3\xbc", Ok("UncheckedStr([195, 188])"), b""),
    ("UncheckedStr<Vec<u8>>", b"\x63\xe6\xb0\xb4", Ok("UncheckedStr([230, 176, 180])"), b""),
    ("UncheckedStr<Vec<u8>>", b"\x64\xf0\x90\x85\x91",
        Ok("UncheckedStr([240, 144, 133, 145])"), b""),
    ("UncheckedStr<Vec<u8>>", b"\x61\xff", Ok("UncheckedStr([255])"), b""),
};

#[test]
fn unchecked_texts(rt: HostRuntime) -> Result<(), Fail> {
    reads_items(rt.alloc(), UNCHECKED_TEXTS)
}

const BYTE_STRINGS: &[Called] = table! {
    ("Bytes<Vec<u8>>", b"\x40", Ok("Bytes([])"), b""),
    ("Bytes<Vec<u8>>", b"\x44\x01\x02\x03\x04", Ok("Bytes([1, 2, 3, 4])"), b""),
    ("Bytes<Vec<u8>>", b"\x43123", Ok("Bytes([49, 50, 51])"), b""),
    ("Bytes<Vec<u8>>", b"\x58\x01\x07\x08", Ok("Bytes([7])"), b"\x08"),
};

#[test]
fn byte_strings(rt: HostRuntime) -> Result<(), Fail> {
    reads_items(rt.alloc(), BYTE_STRINGS)
}

const REJECTED_TEXTS: &[Called] = table! {
    ("String", b"\x7f\x61a\x7f\xff", Err(require_length!("str")), b"\xff"),
    ("String", b"\x7f\x1c", Err(mismatch!("str", 0x1c)), b""),
    ("String", b"", Err(eof!("str", 1)), b""),
    ("String", b"\x00", Err(mismatch!("str", 0x00)), b""),
    ("String", b"\x62\xff", Err(eof!("str", 1)), b""),
    ("String", b"\x63ab", Err(eof!("str", 1)), b""),
    ("String", b"\x7a\x86", Err(eof!("str", 4)), b""),
    ("String", b"\x62\xff\xff", Err(require_utf8!("str")), b""),
    ("String", b"\x63\xed\xa0\x80", Err(require_utf8!("str")), b""),
    ("String", b"\x7f\x61\xff\xff\x01", Err(require_utf8!("str")), b"\x01"),
    ("String", b"\x7f\x41\x61\xff", Err(mismatch!("str", 0x41)), b"\x61\xff"),
    ("String", b"\x7f\x7f\xff\xff", Err(require_length!("str")), b"\xff\xff"),
    ("String", b"\x7f\x61a", Err(eof!("break", 1)), b""),
    ("String", b"\x7f\x63a", Err(eof!("str", 2)), b""),
};

#[test]
fn rejected_texts(rt: HostRuntime) -> Result<(), Fail> {
    reads_items(rt.alloc(), REJECTED_TEXTS)
}

// A text of 4 bytes and 1019 zeros after it, which a stream shows all at once.
#[test]
fn a_text_before_many_bytes(rt: HostRuntime) -> Result<(), Fail> {
    let alloc = rt.alloc();
    let mut bytes = vec![in alloc; 0; 1024]?;
    bytes[..5].copy_from_slice(b"\x64test");
    reads_items(
        alloc,
        &[("String", bytes.leak(), Ok("\"test\""), &[0; 1019])],
    )
}

// In the tests below a decoder is the first that takes memory, so that each of its growths can be
// refused in turn.
//
// A text of 20000 bytes, more than are reserved before any came.
fn long_text() -> [u8; 20003] {
    let mut bytes = [b'a'; 20003];
    bytes[..3].copy_from_slice(b"\x79\x4e\x20");
    bytes
}

fn reads_long_text<S: Source>(alloc: Global, reader: &mut S, bytes: &[u8]) -> Result<(), Fail> {
    let text: String = reads_all(alloc, reader, bytes)?;
    same(text.as_bytes(), &[b'a'; 20000])
}

#[test]
fn long_texts(rt: HostRuntime) -> Result<(), Fail> {
    let bytes = long_text();
    reads_long_text(rt.alloc(), &mut SliceReader::new(&bytes), &bytes)
}

#[test]
fn long_texts_of_a_stream(rt: HostRuntime) -> Result<(), Fail> {
    let bytes = long_text();
    reads_long_text(rt.alloc(), &mut IoReader::new(bytes.as_slice()), &bytes)
}
