//! Bytes of more parts than are reserved before the first of them is read.
use cbor4ii_vectors::rows::{ReadFrom, reads_by_each};
use cbor4ii_vectors::table;
use cbor4ii_vectors_ser::pieces;
use std::alloc::Global;
use std::fmt::Debug;
use std::test::Fail;

/// How many parts an array or a map has: 0x1770. At most 256 are reserved.
pub const PARTS: u16 = 6_000;

/// How many letters a text has: 0x4e20. At most 16384 bytes are reserved.
pub const LETTERS: usize = 20_000;

/// What stands before the parts, before or after each of them, and after the last one.
pub type Shape = (&'static [u8], &'static [u8], &'static [u8]);

/// Arrays of 6,000 numbers, of a known and of an indefinite length.
pub const ARRAYS: &[Shape] = table! {
    (b"\x99\x17\x70", b"", b""),
    (b"\x9f", b"", b"\xff"),
};

/// Maps of 6,000 numbers, each with a 5 after it.
pub const MAPS: &[Shape] = table! {
    (b"\xb9\x17\x70", b"\x05", b""),
    (b"\xbf", b"\x05", b"\xff"),
};

// The bytes of 6,000 parts of this shape: the numbers from 0 on, each in two bytes after its head.
fn numbered(alloc: Global, shape: &Shape) -> Result<&'static [u8], Fail> {
    let (prefix, at_each, end) = *shape;
    let mut bytes = Vec::new(alloc);
    bytes.extend_from_slice(prefix)?;
    for number in 0..PARTS {
        bytes.push(0x19)?;
        bytes.extend_from_slice(number.to_be_bytes().as_slice())?;
        bytes.extend_from_slice(at_each)?;
    }
    bytes.extend_from_slice(end)?;
    Ok(bytes.leak())
}

/// The bytes of each shape are read as the value, whole and over streams.
pub fn grows<A>(alloc: Global, shapes: &[Shape], answer: A) -> Result<(), Fail>
where
    A: ReadFrom + PartialEq + Debug + Drop,
{
    let want = Ok(answer);
    for shape in shapes {
        reads_by_each(alloc, numbered(alloc, shape)?, 256, &want, b"")?;
    }
    Ok(())
}

// What stands before the letters, before each of them, and after them: a text of definite length,
// and one of an indefinite length with a chunk for each letter.
const TEXTS: &[Shape] = table! {
    (b"\x79\x4e\x20", b"", b""),
    (b"\x7f", b"\x61", b"\xff"),
};

/// A text of so many letters: each is an a, but the last one is a z.
pub fn text_of(alloc: Global, letters: usize) -> Result<String, Fail> {
    let mut text = pieces::letters(alloc, letters.saturating_sub(1))?;
    text.push_str("z")?;
    Ok(text)
}

/// The bytes of the text of so many letters in this shape.
pub fn lettered(alloc: Global, shape: &Shape, letters: usize) -> Result<&'static [u8], Fail> {
    let (prefix, at_each, end) = *shape;
    let text = text_of(alloc, letters)?;
    let mut bytes = Vec::new(alloc);
    bytes.extend_from_slice(prefix)?;
    for letter in text.as_bytes() {
        bytes.extend_from_slice(at_each)?;
        bytes.push(*letter)?;
    }
    bytes.extend_from_slice(end)?;
    Ok(bytes.leak())
}

/// A text of 20,000 letters is read as the value in each shape, whole and over streams.
pub fn grows_by_letters<A>(alloc: Global, answer: A) -> Result<(), Fail>
where
    A: ReadFrom + PartialEq + Debug + Drop,
{
    let want = Ok(answer);
    for shape in TEXTS {
        reads_by_each(alloc, lettered(alloc, shape, LETTERS)?, 256, &want, b"")?;
    }
    Ok(())
}
