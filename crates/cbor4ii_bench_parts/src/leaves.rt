//! Vectors of one kind of leaf, written into memory and to a buffered stream, and read from a slice
//! and from a buffered stream. And short vectors, read from a stream.
use cbor4ii::serde::{DecodeError, Deserialize, Deserializer, Serialize, to_vec, to_writer};
use cbor4ii_bench_kit::digest::Digest;
use cbor4ii_bench_kit::fault::Fault;
use cbor4ii_bench_kit::noise::Noise;
use cbor4ii_bench_kit::sink::Sink;
use cbor4ii_items::types::{F16, F32, F64};
use cbor4ii_rw::io_reader::IoReader;
use cbor4ii_rw::read::Source;
use cbor4ii_rw::slice_reader::SliceReader;
use std::alloc::Global;
use std::io::{self, BufReader, BufWriter, Write};

/// So many leaves are in a vector.
const LEAVES: u64 = 400;

/// So many short vectors there are, of three integers each.
const VECTORS: u64 = 200;

/// So often they are written and read.
const PASSES: u64 = 8;

/// A kind of leaf.
pub trait Leaf: Serialize + Drop {
    /// Any of this kind.
    fn any(noise: &mut Noise) -> Self;

    /// Its number, or its bits. Of a negative number n, -1 - n.
    fn number(&self) -> u64;

    /// Reads a vector of this kind.
    ///
    /// # Errors
    ///
    /// Those of the vector.
    fn read<S: Source>(alloc: Global, de: &mut Deserializer<S>) -> Leaves<Self, S>;
}

/// A vector of leaves, or why there is none.
type Leaves<T, S> = Result<Vec<T>, DecodeError<<S as Source>::Error>>;

impl Leaf for u8 {
    fn any(noise: &mut Noise) -> u8 {
        noise.below(255) as u8
    }

    fn number(&self) -> u64 {
        *self as u64
    }

    fn read<S: Source>(alloc: Global, de: &mut Deserializer<S>) -> Leaves<u8, S> {
        Vec::deserialize(alloc, de)
    }
}

impl Leaf for u16 {
    fn any(noise: &mut Noise) -> u16 {
        noise.below(65_535) as u16
    }

    fn number(&self) -> u64 {
        *self as u64
    }

    fn read<S: Source>(alloc: Global, de: &mut Deserializer<S>) -> Leaves<u16, S> {
        Vec::deserialize(alloc, de)
    }
}

impl Leaf for i8 {
    fn any(noise: &mut Noise) -> i8 {
        let number = noise.below(127) as i8;
        if noise.below(2) == 0 {
            number
        } else {
            -1 - number
        }
    }

    fn number(&self) -> u64 {
        if *self < 0 {
            (-1 - *self) as u64
        } else {
            *self as u64
        }
    }

    fn read<S: Source>(alloc: Global, de: &mut Deserializer<S>) -> Leaves<i8, S> {
        Vec::deserialize(alloc, de)
    }
}

impl Leaf for i16 {
    fn any(noise: &mut Noise) -> i16 {
        let number = noise.below(32_767) as i16;
        if noise.below(2) == 0 {
            number
        } else {
            -1 - number
        }
    }

    fn number(&self) -> u64 {
        if *self < 0 {
            (-1 - *self) as u64
        } else {
            *self as u64
        }
    }

    fn read<S: Source>(alloc: Global, de: &mut Deserializer<S>) -> Leaves<i16, S> {
        Vec::deserialize(alloc, de)
    }
}

impl Leaf for bool {
    fn any(noise: &mut Noise) -> bool {
        noise.below(2) == 0
    }

    fn number(&self) -> u64 {
        u64::from(*self)
    }

    fn read<S: Source>(alloc: Global, de: &mut Deserializer<S>) -> Leaves<bool, S> {
        Vec::deserialize(alloc, de)
    }
}

impl Leaf for F16 {
    fn any(noise: &mut Noise) -> F16 {
        F16(noise.below(65_535) as u16)
    }

    fn number(&self) -> u64 {
        self.0 as u64
    }

    fn read<S: Source>(alloc: Global, de: &mut Deserializer<S>) -> Leaves<F16, S> {
        Vec::deserialize(alloc, de)
    }
}

impl Leaf for F32 {
    fn any(noise: &mut Noise) -> F32 {
        F32((noise.any() >> 32) as u32)
    }

    fn number(&self) -> u64 {
        self.0 as u64
    }

    fn read<S: Source>(alloc: Global, de: &mut Deserializer<S>) -> Leaves<F32, S> {
        Vec::deserialize(alloc, de)
    }
}

impl Leaf for F64 {
    fn any(noise: &mut Noise) -> F64 {
        F64(noise.any())
    }

    fn number(&self) -> u64 {
        self.0
    }

    fn read<S: Source>(alloc: Global, de: &mut Deserializer<S>) -> Leaves<F64, S> {
        Vec::deserialize(alloc, de)
    }
}

/// A type of its own, so that what is written to it is compiled apart from what other works write.
#[derive(Drop)]
struct Stream<'a>(Sink<'a>);

impl Write for Stream<'_> {
    fn write(&mut self, bytes: &[u8]) -> io::Result<usize> {
        self.0.write(bytes)
    }

    fn flush(&mut self) -> io::Result<()> {
        self.0.flush()
    }
}

/// One vector of a kind of leaf.
pub fn round<T: Leaf>(alloc: Global, noise: &mut Noise, digest: &mut Digest) -> Result<(), Fault> {
    let mut leaves = Vec::new(alloc);
    for _ in 0..LEAVES {
        leaves.push(T::any(noise))?;
    }
    for _ in 0..PASSES {
        let bytes = to_vec(Vec::new(alloc), &leaves)?;
        digest.bytes(&bytes);
        write_to_stream(alloc, &leaves, digest)?;
        read_from_slice::<T>(alloc, &bytes, digest)?;
        read_from_stream::<T>(alloc, &bytes, digest)?;
    }
    Ok(())
}

fn write_to_stream<T: Serialize>(
    alloc: Global,
    value: &Vec<T>,
    digest: &mut Digest,
) -> Result<(), Fault> {
    let mut writer = to_writer(BufWriter::new(alloc, Stream(Sink::new(digest)))?, value)?;
    writer.flush()?;
    Ok(())
}

fn read_from_slice<T: Leaf>(alloc: Global, bytes: &[u8], digest: &mut Digest) -> Result<(), Fault> {
    let mut de = Deserializer::new(SliceReader::new(bytes));
    join(&T::read(alloc, &mut de)?, digest);
    Ok(())
}

fn read_from_stream<T: Leaf>(
    alloc: Global,
    bytes: &[u8],
    digest: &mut Digest,
) -> Result<(), Fault> {
    let mut de = Deserializer::new(IoReader::new(BufReader::new(alloc, bytes)?));
    join(&T::read(alloc, &mut de)?, digest);
    Ok(())
}

fn join<T: Leaf>(leaves: &[T], digest: &mut Digest) {
    for leaf in leaves {
        digest.number(leaf.number());
    }
}

/// Vectors of three integers, one after another.
pub fn threes(alloc: Global, noise: &mut Noise, digest: &mut Digest) -> Result<(), Fault> {
    let mut bytes = Vec::new(alloc);
    for _ in 0..VECTORS {
        let numbers = vec![in alloc; noise.uneven(), noise.uneven(), noise.uneven()]?;
        bytes = to_vec(bytes, &numbers)?;
    }
    for _ in 0..PASSES {
        read_threes(alloc, &bytes, digest)?;
    }
    Ok(())
}

// Reads the vectors of a buffered stream of these bytes, and joins their integers.
fn read_threes(alloc: Global, bytes: &[u8], digest: &mut Digest) -> Result<(), Fault> {
    let mut de = Deserializer::new(IoReader::new(BufReader::new(alloc, bytes)?));
    for _ in 0..VECTORS {
        let numbers: Vec<u64> = Vec::deserialize(alloc, &mut de)?;
        for number in &numbers {
            digest.number(*number);
        }
    }
    Ok(())
}
