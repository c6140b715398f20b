//! Records of a log that come from a stream, each written again in its canonical encoding.
use crate::shapes;
use cbor4ii_bench_kit::digest::Digest;
use cbor4ii_bench_kit::fault::Fault;
use cbor4ii_bench_kit::noise::Noise;
use cbor4ii_bench_kit::sink::Sink;
use cbor4ii_items::decode::Decode;
use cbor4ii_items::encode::Encode;
use cbor4ii_rw::ask::look;
use cbor4ii_rw::buf_writer::BufWriter;
use cbor4ii_rw::io_reader::IoReader;
use cbor4ii_rw::io_writer::IoWriter;
use cbor4ii_tree::Value;
use std::alloc::Global;
use std::io::{self, BufReader};

/// So many records are in a stream.
const RECORDS: u64 = 400;

/// One stream of records.
pub fn round(alloc: Global, noise: &mut Noise, digest: &mut Digest) -> Result<(), Fault> {
    let mut writer = BufWriter::new(Vec::new(alloc));
    for i in 0..RECORDS {
        let ts = 1_700_000_000_000 + noise.below(1 << 30) + i;
        shapes::record(&mut writer, noise, ts)?;
    }
    rewrite(alloc, writer.buffer(), digest)
}

/// Reads one value after another out of a stream of `input`, and writes each in its canonical
/// encoding to a stream.
pub fn rewrite(alloc: Global, input: &[u8], digest: &mut Digest) -> Result<(), Fault> {
    let mut reader = IoReader::new(BufReader::new(alloc, input)?);
    let mut writer = IoWriter::new(io::BufWriter::new(alloc, Sink::new(digest))?);
    for _ in 0..u64::MAX {
        let mut failure = None;
        match look(&mut reader, 1, &mut failure) {
            Some([]) => break,
            Some(_) => {}
            None => return Err(Fault("a stream failed")),
        }
        Value::decode(alloc, &mut reader)?.encode(&mut writer)?;
    }
    writer.flush()?;
    Ok(())
}
