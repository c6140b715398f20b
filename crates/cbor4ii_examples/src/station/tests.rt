//! Rows of the record that is read and written by hand.
use crate::station::Station;
use cbor4ii::dec::{Decode, Source};
use cbor4ii::error::DecodeError;
use cbor4ii_vectors::rows::{
    ReadFrom, Row, RowWithin, reads_texts, reads_texts_within, texts_go_both_ways,
};
use cbor4ii_vectors::{eof, mismatch, no_step, require_length, require_utf8, table};
use std::alloc::Global;
use std::test::Fail;

impl ReadFrom for Station {
    fn read_from<S: Source>(alloc: Global, reader: &mut S) -> Result<Self, DecodeError<S::Error>> {
        Station::decode(alloc, reader)
    }
}

// An array of stations.
#[derive(Debug, Drop)]
struct StationList(Vec<Station>);

impl ReadFrom for StationList {
    fn read_from<S: Source>(alloc: Global, reader: &mut S) -> Result<Self, DecodeError<S::Error>> {
        Ok(StationList(Vec::decode(alloc, reader)?))
    }
}

const STATION: &str = "Station { id: 5, name: \"abc\" }";

const STATIONS: &[Row<&str>] = table! {
    (b"\x9f\x05\x63abc\xff\x00", Ok(STATION), b"\x00"),
    (b"\x98\x02\x18\x05\x63abc\x00", Ok(STATION), b"\x00"),
    (b"\x82\x05\x7f\x61a\x62bc\xff\x00", Ok(STATION), b"\x00"),
    (b"\x9f\x05\x78\x03abc\xff\x00", Ok(STATION), b"\x00"),
};

const STATION_TWICE: &str =
    "StationList([Station { id: 5, name: \"abc\" }, Station { id: 5, name: \"abc\" }])";

const TWO_STATIONS: &[Row<&str>] = table! {
    (b"\x82\x82\x05\x63abc\x9f\x05\x63abc\xff", Ok(STATION_TWICE), b""),
};

#[test]
fn stations_are_written_and_read(rt: HostRuntime) -> Result<(), Fail> {
    let alloc = rt.alloc();
    texts_go_both_ways::<Station>(alloc, &[(b"\x82\x05\x63abc", STATION, 4)])?;
    reads_texts::<Station>(alloc, STATIONS)?;
    reads_texts::<StationList>(alloc, TWO_STATIONS)
}

const REJECTED_STATIONS: &[Row<&str>] = table! {
    (b"", Err(eof!("array", 1)), b""),
    (b"\xa2\x05", Err(mismatch!("array", 162)), b"\x05"),
    (b"\x81\x05", Err(require_length!("station", 1)), b"\x05"),
    (b"\x83\x05", Err(require_length!("station", 3)), b"\x05"),
    (b"\x82\x60\x60", Err(mismatch!("u64", 96)), b"\x60"),
    (b"\x82\x05", Err(eof!("str", 1)), b""),
    (b"\x82\x05\x61\xff", Err(require_utf8!("str")), b""),
    (b"\x9f\xff", Err(mismatch!("u64", 255)), b""),
    (b"\x9f\x05\x60", Err(eof!("break", 1)), b""),
    (b"\x9f\x05\x60\x00\xff", Err(require_length!("station")), b"\x00\xff"),
};

const STEPS: &[RowWithin<&str>] = table! {
    (b"\x82\x05\x7f\x61a\xff", 0, Err(no_step!("str")), b"\x61a\xff"),
};

#[test]
fn other_bytes_are_rejected(rt: HostRuntime) -> Result<(), Fail> {
    let alloc = rt.alloc();
    reads_texts::<Station>(alloc, REJECTED_STATIONS)?;
    reads_texts_within::<Station>(alloc, STEPS)
}
