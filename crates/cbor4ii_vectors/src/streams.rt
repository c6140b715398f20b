//! Streams that fail, for the readers and writers over streams.
use std::io::{self, BufRead, ErrorKind, Read, Write};

/// A stream that shows at most so many bytes at a time, fails at one look or where nothing is left,
/// and goes on after it.
#[derive(Drop)]
pub struct FailingStream<'a> {
    bytes: &'a [u8],
    most: usize,
    // How often it shows bytes before it fails.
    looks: usize,
    fails_at_end: bool,
    kind: ErrorKind,
    has_failed: bool,
}

impl<'a> FailingStream<'a> {
    /// A stream of `bytes`, that shows at most `most` of them, so many times before it fails.
    pub fn new(bytes: &'a [u8], most: usize, looks: usize) -> FailingStream<'a> {
        FailingStream {
            bytes,
            most,
            looks,
            fails_at_end: false,
            kind: ErrorKind::Other,
            has_failed: false,
        }
    }

    /// Makes the stream fail in the place of showing that nothing is left.
    pub fn failing_at_end(self) -> FailingStream<'a> {
        FailingStream {
            fails_at_end: true,
            ..self
        }
    }

    /// Makes the stream fail with an error of this kind, where it fails.
    pub fn failing_with(self, kind: ErrorKind) -> FailingStream<'a> {
        FailingStream { kind, ..self }
    }

    /// The bytes that are left.
    pub fn remaining(&self) -> &'a [u8] {
        self.bytes
    }

    /// Whether it failed.
    pub fn has_failed(&self) -> bool {
        self.has_failed
    }
}

impl Read for FailingStream<'_> {
    fn read(&mut self, buf: &mut [u8]) -> io::Result<usize> {
        self.bytes.read(buf)
    }
}

impl BufRead for FailingStream<'_> {
    fn fill_buf(&mut self) -> io::Result<&[u8]> {
        let is_due = self.looks == 0 || (self.fails_at_end && self.bytes.is_empty());
        if is_due && !self.has_failed {
            self.has_failed = true;
            return Err(io::Error::from(self.kind));
        }
        self.looks = self.looks.saturating_sub(1);
        Ok(&self.bytes[..self.bytes.len().min(self.most)])
    }

    fn consume(&mut self, amount: usize) {
        self.bytes = &self.bytes[amount.min(self.bytes.len())..];
    }
}

/// A stream that takes one byte at a time into memory, fails at one of them and goes on after it.
/// It may fail at each flush.
#[derive(Drop)]
pub struct FailingSink {
    bytes: Vec<u8>,
    // How many bytes it takes before it fails.
    room: usize,
    has_failed: bool,
    flushes: usize,
    // Why a flush fails, or none where it does not.
    flush_failure: Option<ErrorKind>,
}

impl FailingSink {
    /// A stream behind what stands in `bytes`, that takes so many bytes before it fails.
    pub fn new(bytes: Vec<u8>, room: usize) -> FailingSink {
        FailingSink {
            bytes,
            room,
            has_failed: false,
            flushes: 0,
            flush_failure: None,
        }
    }

    /// Makes each flush of the stream fail with an error of this kind.
    pub fn failing_at_flush(self, kind: ErrorKind) -> FailingSink {
        FailingSink {
            flush_failure: Some(kind),
            ..self
        }
    }

    /// What it holds.
    pub fn buffer(&self) -> &[u8] {
        &self.bytes
    }

    /// Whether it failed.
    pub fn has_failed(&self) -> bool {
        self.has_failed
    }

    /// How often it was flushed.
    pub fn flushes(&self) -> usize {
        self.flushes
    }
}

impl Write for FailingSink {
    fn write(&mut self, buf: &[u8]) -> io::Result<usize> {
        let [first, ..] = buf else {
            return Ok(0);
        };
        if self.room == 0 && !self.has_failed {
            self.has_failed = true;
            return Err(io::Error::from(ErrorKind::Other));
        }
        self.room = self.room.saturating_sub(1);
        match self.bytes.push(*first) {
            Ok(()) => Ok(1),
            Err(_) => Err(io::Error::from(ErrorKind::OutOfMemory)),
        }
    }

    fn flush(&mut self) -> io::Result<()> {
        self.flushes = self.flushes.saturating_add(1);
        match self.flush_failure {
            Some(kind) => Err(io::Error::from(kind)),
            None => Ok(()),
        }
    }
}
