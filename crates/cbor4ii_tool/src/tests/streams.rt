//! Streams that fail once, at a place that is given.
use std::alloc::Global;
use std::io::{self, ErrorKind, Read, Write};

/// Bytes to be read. The read after `good_reads` others fails, and later ones do not.
#[derive(Drop)]
pub struct Input {
    pub left: &'static [u8],
    pub good_reads: usize,
}

impl Read for Input {
    fn read(&mut self, buf: &mut [u8]) -> io::Result<usize> {
        if self.good_reads == 0 {
            self.good_reads = usize::MAX;
            return Err(io::Error::from(ErrorKind::Other));
        }
        self.good_reads -= 1;
        self.left.read(buf)
    }
}

/// Bytes that were written. The write after `good_writes` others fails, and later ones do not.
#[derive(Drop)]
pub struct Output {
    pub written: Vec<u8>,
    pub good_writes: usize,
    /// Whether each flush fails.
    pub stays: bool,
    /// How many bytes there were at the last flush.
    pub flushed: usize,
}

impl Output {
    /// One that does not fail, with room for what the rows write.
    pub fn new(alloc: Global) -> io::Result<Output> {
        Ok(Output {
            written: Vec::with_capacity(alloc, 512)?,
            good_writes: usize::MAX,
            stays: false,
            flushed: 0,
        })
    }
}

impl Write for Output {
    fn write(&mut self, buf: &[u8]) -> io::Result<usize> {
        if self.good_writes == 0 {
            self.good_writes = usize::MAX;
            return Err(io::Error::from(ErrorKind::Other));
        }
        self.good_writes -= 1;
        self.written.extend_from_slice(buf)?;
        Ok(buf.len())
    }

    fn flush(&mut self) -> io::Result<()> {
        if self.stays {
            return Err(io::Error::from(ErrorKind::Other));
        }
        self.flushed = self.written.len();
        Ok(())
    }
}
