//! Rows of lengths that are false: fewer parts follow them, and little memory is taken for them.
use crate::items::Item;
use crate::read::{Calls, leaves, leaves_an_end};
use crate::tally::{Broken, Tally};
use crate::typed::Typed;
use cbor4ii_rw::error::DecodeError;
use cbor4ii_rw::io_reader::IoReader;
use cbor4ii_rw::read::Source;
use cbor4ii_rw::slice_reader::SliceReader;
use cbor4ii_vectors::rows::steps;
use cbor4ii_vectors::streams::FailingStream;
use cbor4ii_vectors::table;

// 2^16, 2^63 and 2^64 - 1 items or pairs, of which none or one key comes.
const ARRAYS: &[&[u8]] = table! {
    b"\x9a\x00\x01\x00\x00",
    b"\x9b\x80\x00\x00\x00\x00\x00\x00\x00",
    b"\x9b\xff\xff\xff\xff\xff\xff\xff\xff",
};

const MAPS: &[&[u8]] = table! {
    b"\xba\x00\x01\x00\x00",
    b"\xbb\x80\x00\x00\x00\x00\x00\x00\x00",
    b"\xbb\xff\xff\xff\xff\xff\xff\xff\xff\x00",
};

const MAPS_OF_TEXTS: &[&[u8]] = table! {
    b"\xba\x00\x01\x00\x00",
    b"\xbb\x80\x00\x00\x00\x00\x00\x00\x00",
    b"\xbb\xff\xff\xff\xff\xff\xff\xff\xff\x61a",
};

// Texts of 2^16, of 2^60 and of 2^63 - 1 bytes, of which none or one comes.
const TEXTS: &[&[u8]] = table! {
    b"\x7a\x00\x01\x00\x00",
    b"\x7b\x10\x00\x00\x00\x00\x00\x00\x00",
    b"\x7b\x7f\xff\xff\xff\xff\xff\xff\xff\x61",
};

// 2^16 and 2^60 bytes.
const BYTES: &[&[u8]] = table! {
    b"\x5a\x00\x01\x00\x00",
    b"\x5b\x10\x00\x00\x00\x00\x00\x00\x00",
};

// A text of 2^60 bytes as a chunk.
const CHUNKS: &[&[u8]] = table! {
    b"\x7f\x7b\x10\x00\x00\x00\x00\x00\x00\x00",
};

/// A row: the name of its call, and the inputs.
type Row = (&'static str, &'static [&'static [&'static [u8]]]);

const ITEMS: &[Row] = table! {
    ("String", &[TEXTS, CHUNKS]),
    ("Bytes", &[BYTES]),
    ("UncheckedStr", &[TEXTS]),
    ("Vec", &[ARRAYS]),
    ("Vec of Vec", &[ARRAYS]),
    ("Map", &[MAPS]),
    ("Map of String", &[MAPS_OF_TEXTS]),
    ("Value", &[ARRAYS, MAPS, TEXTS, BYTES, CHUNKS]),
    ("Canonical", &[ARRAYS, MAPS, TEXTS, BYTES]),
};

const TYPES: &[Row] = table! {
    ("typed String", &[TEXTS]),
    ("typed Bytes", &[BYTES]),
    ("typed Vec", &[ARRAYS]),
    ("typed BTreeMap", &[MAPS]),
    ("deserialize_any", &[ARRAYS, MAPS, TEXTS, BYTES, CHUNKS]),
};

/// Items and typed values.
pub fn false_lengths(tally: &mut Tally) -> Result<(), Broken> {
    ends::<Item>(tally, ITEMS)?;
    ends::<Typed>(tally, TYPES)
}

// Over a slice and over a stream the input ends too early, whatever the length says.
fn ends<C: Calls>(tally: &mut Tally, rows: &[Row]) -> Result<(), Broken> {
    for (row, tables) in rows {
        for inputs in *tables {
            for bytes in *inputs {
                ends_over::<C, _>(tally, row, &mut SliceReader::new(bytes), bytes)?;
                let stream = FailingStream::new(bytes, 3, usize::MAX);
                ends_over::<C, _>(tally, row, &mut IoReader::new(stream), bytes)?;
            }
        }
    }
    Ok(())
}

fn ends_over<C: Calls, S: Source>(
    tally: &mut Tally,
    row: &'static str,
    reader: &mut S,
    bytes: &[u8],
) -> Result<(), Broken> {
    let budget = steps(reader);
    let got = C::call(row, tally.alloc(), reader, &[]);
    if steps(reader) != budget {
        return Err(Broken::new(row, "the steps are not as before"));
    }
    match &got {
        Err(DecodeError::Eof { .. }) if leaves(reader, b"") => Ok(()),
        Err(DecodeError::OutOfMemory) => {
            tally.refuse();
            if leaves_an_end(reader, bytes) {
                return Ok(());
            }
            Err(Broken::new(row, "other bytes are left without memory"))
        }
        _ => Err(Broken::new(row, "a false length is not the end of the input")),
    }
}
