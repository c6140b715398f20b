//! Rows of the next item of a sequence, and of its end.
use cbor4ii_items::decode::Decode;
use cbor4ii_items::sequence::{is_at_end, next_item};
use cbor4ii_items::types::Bytes;
use cbor4ii_rw::error::{DecodeError, Never};
use cbor4ii_rw::read::Source;
use cbor4ii_rw::slice_reader::SliceReader;
use cbor4ii_vectors::asked::looks_at_most;
use cbor4ii_vectors::compared::same;
use cbor4ii_vectors::readers::{Asked, Failure, TestReader};
use cbor4ii_vectors::repeated::repeated;
use cbor4ii_vectors::rows::{ReadFrom, Row, reads_by_each, reads_rows};
use cbor4ii_vectors::{eof, mismatch, table};
use std::alloc::{AllocError, Global};
use std::test::Fail;

/// The next item, or none at the end.
#[derive(Debug, PartialEq, Drop)]
struct Next<T>(Option<T>);

impl ReadFrom for Next<u16> {
    fn read_from<S: Source>(alloc: Global, reader: &mut S) -> Result<Self, DecodeError<S::Error>> {
        Ok(Next(next_item(alloc, reader)?))
    }
}

impl ReadFrom for Next<Vec<u8>> {
    fn read_from<S: Source>(alloc: Global, reader: &mut S) -> Result<Self, DecodeError<S::Error>> {
        Ok(Next(next_item(alloc, reader)?))
    }
}

impl ReadFrom for Next<Bytes<Vec<u8>>> {
    fn read_from<S: Source>(alloc: Global, reader: &mut S) -> Result<Self, DecodeError<S::Error>> {
        Ok(Next(next_item(alloc, reader)?))
    }
}

/// Whether no byte is left.
#[derive(Debug, PartialEq, Drop)]
struct End(bool);

impl ReadFrom for End {
    fn read_from<S: Source>(_alloc: Global, reader: &mut S) -> Result<Self, DecodeError<S::Error>> {
        Ok(End(is_at_end(reader)?))
    }
}

const NUMBERS: &[Row<Next<u16>>] = table! {
    (b"\x05\x06", Ok(Next(Some(5))), b"\x06"),
    (b"\x19\x01\x00", Ok(Next(Some(256))), b""),
    (b"\x18", Err(eof!("u16", 1)), b""),
    (b"\x20\x05", Err(mismatch!("u16", 0x20)), b"\x05"),
    (b"\xff", Err(mismatch!("u16", 0xff)), b""),
};

#[test]
fn the_next_item(rt: HostRuntime) -> Result<(), Fail> {
    reads_rows(rt.alloc(), NUMBERS)
}

// Each reader that shows nothing is at the end, which takes no step.
const ENDS: &[Row<Next<u16>>] = table! {
    (b"", Ok(Next(None)), b""),
};

const ENDS_SEEN: &[Row<End>] = table! {
    (b"", Ok(End(true)), b""),
    (b"\x05", Ok(End(false)), b"\x05"),
    (b"\xff\xff", Ok(End(false)), b"\xff\xff"),
};

#[test]
fn the_end_of_a_sequence(rt: HostRuntime) -> Result<(), Fail> {
    let alloc = rt.alloc();
    for (bytes, want, rest) in ENDS {
        reads_by_each(alloc, bytes, 0, want, rest)?;
    }
    for (bytes, want, rest) in ENDS_SEEN {
        reads_by_each(alloc, bytes, 0, want, rest)?;
    }
    Ok(())
}

// A reader that fails at its first look: neither is at the end then.
#[test]
fn a_fault_is_no_end(rt: HostRuntime) -> Result<(), Fail> {
    let mut reader = TestReader::whole(b"\x05", 1).failing_after(0);
    same(is_at_end(&mut reader), Err(DecodeError::Read(Failure)))?;
    let mut reader = TestReader::whole(b"", 1).failing_after(0);
    let next: Result<Option<u16>, _> = next_item(rt.alloc(), &mut reader);
    same(next, Err(DecodeError::Read(Failure)))
}

// The most looks, over readers that show what is wanted and one byte at a time, of which no look
// asks for a byte beyond the item; and whether a look finds the end.
const ASKED: &[(&[u8], usize, usize)] = table! {
    (b"", 1, 1),
    (b"\x05", 2, 2),
    (b"\x19\x01\x00", 3, 6),
};

fn asks_rows<T: ReadFrom>(
    alloc: Global,
    rows: &[(&'static [u8], usize, usize)],
) -> Result<(), Fail> {
    for &(bytes, looks, by_byte) in rows {
        let most = bytes.len().max(1);
        let reader = Asked::new(bytes).refusing_above(most);
        looks_at_most::<T>(alloc, reader, bytes, true, looks, most)?;
        let reader = Asked::new(bytes).refusing_above(most).showing(1);
        looks_at_most::<T>(alloc, reader, bytes, true, by_byte, most)?;
    }
    Ok(())
}

// Where a look may ask for 4,096 bytes, the look for the end asks for one all the same.
#[test]
fn the_end_is_looked_for_by_one_byte(rt: HostRuntime) -> Result<(), Fail> {
    let alloc = rt.alloc();
    asks_rows::<Next<u16>>(alloc, ASKED)?;
    for bytes in [b"".as_slice(), b"\x05", b"\x05\x06"] {
        let mut reader = Asked::new(bytes).wide().refusing_above(1);
        same(is_at_end(&mut reader), Ok(bytes.is_empty()))?;
        same((reader.asks().looks, reader.asks().largest), (1, 1))?;
    }
    Ok(())
}

// How many numbers 5 there are up to the end, or none where another item comes.
fn count_fives(alloc: Global, bytes: &[u8]) -> Result<Option<usize>, DecodeError<Never>> {
    let mut reader = SliceReader::new(bytes);
    let mut count: usize = 0;
    for _ in 0..=bytes.len() {
        match next_item(alloc, &mut reader)? {
            Some(5u8) => count = count.saturating_add(1),
            Some(_) => return Ok(None),
            None => return Ok(Some(count)),
        }
    }
    Ok(None)
}

#[test]
fn a_sequence_of_many_items(rt: HostRuntime) -> Result<(), Fail> {
    let alloc = rt.alloc();
    let items = repeated(alloc, b"", b"\x05", 5_000, b"")?;
    same(count_fives(alloc, items)?, Some(5_000))?;
    same(count_fives(alloc, b"")?, Some(0))
}

fn fives(alloc: Global, count: usize) -> Result<Vec<u8>, AllocError> {
    vec![in alloc; 5u8; count]
}

// 5,000 parts, 0x1388, and 100,000 bytes, 0x186a0: memory is found for each of them.
#[test]
fn an_item_of_many_parts(rt: HostRuntime) -> Result<(), Fail> {
    let alloc = rt.alloc();
    let want = Ok(Next(Some(fives(alloc, 5_000)?)));
    let parts = repeated(alloc, b"\x99\x13\x88", b"\x05", 5_000, b"\x05")?;
    reads_by_each(alloc, parts, 256, &want, b"\x05")?;
    let want = Ok(Next(Some(Bytes(fives(alloc, 100_000)?))));
    let bytes = repeated(alloc, b"\x5a\x00\x01\x86\xa0", b"\x05", 100_000, b"\x05")?;
    reads_by_each(alloc, bytes, 256, &want, b"\x05")
}
