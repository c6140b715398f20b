//! Texts of letters of one, two and three bytes, read as a value and as a vector of strings, and
//! written again.
use crate::words::{ASCII, GREEK, JAPANESE, text};
use cbor4ii::serde::{from_slice, to_vec};
use cbor4ii_bench_kit::digest::Digest;
use cbor4ii_bench_kit::fault::Fault;
use cbor4ii_bench_kit::noise::Noise;
use cbor4ii_items::decode::Decode;
use cbor4ii_items::encode::Encode;
use cbor4ii_items::types::Array;
use cbor4ii_rw::buf_writer::BufWriter;
use cbor4ii_rw::slice_reader::SliceReader;
use cbor4ii_tree::Value;
use std::alloc::Global;

/// So many texts of each kind of letters are in a round.
const TEXTS: usize = 200;

/// A text has at most so many words.
const WORDS: u32 = 16;

/// So often the texts are read and written.
const PASSES: u64 = 4;

/// One round of texts.
pub fn round(alloc: Global, noise: &mut Noise, digest: &mut Digest) -> Result<(), Fault> {
    for words in [&ASCII, &GREEK, &JAPANESE] {
        let mut writer = BufWriter::new(Vec::new(alloc));
        Array::bounded(TEXTS, &mut writer)?;
        for _ in 0..TEXTS {
            text(alloc, noise, words, WORDS)?.encode(&mut writer)?;
        }
        for _ in 0..PASSES {
            as_value(alloc, writer.buffer(), digest)?;
            as_strings(alloc, writer.buffer(), digest)?;
        }
    }
    Ok(())
}

fn as_value(alloc: Global, texts: &[u8], digest: &mut Digest) -> Result<(), Fault> {
    let value = Value::decode(alloc, &mut SliceReader::new(texts))?;
    let mut again = BufWriter::new(Vec::new(alloc));
    value.encode(&mut again)?;
    digest.bytes(again.buffer());
    Ok(())
}

fn as_strings(alloc: Global, texts: &[u8], digest: &mut Digest) -> Result<(), Fault> {
    let strings: Vec<String> = from_slice(alloc, texts)?;
    digest.bytes(&to_vec(Vec::new(alloc), &strings)?);
    Ok(())
}
