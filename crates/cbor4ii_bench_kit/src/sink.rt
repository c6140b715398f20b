//! A stream that keeps a digest of what is written to it, and nothing else.
use crate::digest::Digest;
use std::io::{self, Write};

/// A stream into a digest.
#[derive(Drop)]
pub struct Sink<'a> {
    digest: &'a mut Digest,
}

impl<'a> Sink<'a> {
    /// A stream into `digest`.
    pub fn new(digest: &'a mut Digest) -> Sink<'a> {
        Sink { digest }
    }
}

impl Write for Sink<'_> {
    fn write(&mut self, bytes: &[u8]) -> io::Result<usize> {
        self.digest.bytes(bytes);
        Ok(bytes.len())
    }

    fn flush(&mut self) -> io::Result<()> {
        Ok(())
    }
}
