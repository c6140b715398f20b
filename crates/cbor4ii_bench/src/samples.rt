//! Samples of sensors that come from a stream, each written again in its canonical encoding.
use crate::ingest::rewrite;
use crate::shapes;
use cbor4ii_bench_kit::digest::Digest;
use cbor4ii_bench_kit::fault::Fault;
use cbor4ii_bench_kit::noise::Noise;
use cbor4ii_rw::buf_writer::BufWriter;
use std::alloc::Global;

/// So many samples are in a stream.
const SAMPLES: u64 = 1000;

/// One stream of samples.
pub fn round(alloc: Global, noise: &mut Noise, digest: &mut Digest) -> Result<(), Fault> {
    let mut writer = BufWriter::new(Vec::new(alloc));
    for i in 0..SAMPLES {
        shapes::sample(&mut writer, noise, 1_700_000_000_000 + i)?;
    }
    rewrite(alloc, writer.buffer(), digest)
}
