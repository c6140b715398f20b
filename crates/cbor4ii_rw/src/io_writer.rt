//! A writer into a stream.
ghost use Rattle.std.specs.Prelude.{◌≡◌, OnOk, OnErr, false, true};
ghost use Rattle.cbor4ii_rw.specs.Reader.{Keeps};
ghost use Rattle.cbor4ii_rw.specs.Writer.{Appends, one_more};
ghost use Rattle.cbor4ii_rw.specs.Written.{stream_output, is_flushed};

use crate::write::Write;
use std::io;

/// A writer into a stream, which knows whether the stream was flushed since the last push. It is
/// not atomic: a push that fails may have written a slice of its input, and after an error nothing
/// is known of the stream.
#[derive(Debug, Drop)]
pub struct IoWriter<W: io::Write> {
    inner: W,
    failures: u64,
    flushed: bool,
}

impl<W: io::Write> IoWriter<W> {
    /// A writer that appends to what `inner` holds, which has not failed yet. It is not flushed,
    /// since what `inner` holds may not be.
    pub fn new(inner: W) -> IoWriter<W>
        ensures written { (stream_output W.contents result).written ≡ W.contents inner }
        ensures failures { (stream_output W.contents result).failures ≡ 0 }
        ensures unflushed { is_flushed result ≡ false }
    {
        IoWriter {
            inner,
            failures: 0,
            flushed: false,
        }
    }

    /// Flushes the stream, which holds what it held before.
    ///
    /// # Errors
    ///
    /// `io::Error`: the stream failed, which is counted. The writer is flushed then only if it was
    /// before.
    pub fn flush(&mut self) -> Result<(), io::Error>
        ensures keeps { Keeps (stream_output W.contents self.old).written
            (stream_output W.contents self.new).written }
        ensures flushed { OnOk result (is_flushed self.new ≡ true) }
        ensures counts { OnOk result ((stream_output W.contents self.new).failures
            ≡ (stream_output W.contents self.old).failures) }
        ensures failed { OnErr result ((stream_output W.contents self.new).failures
            ≡ one_more (stream_output W.contents self.old).failures) }
        ensures unchanged { OnErr result (is_flushed self.new ≡ is_flushed self.old) }
    {
        match self.inner.flush() {
            Ok(()) => {
                self.flushed = true;
                Ok(())
            }
            Err(error) => Err(self.failed(error)),
        }
    }

    /// Whether the stream was flushed, and nothing was pushed since.
    pub fn is_flushed(&self) -> bool
        ensures { result ≡ is_flushed self.now }
    {
        self.flushed
    }

    /// The stream.
    pub fn into_inner(self) -> W
        ensures { W.contents result ≡ (stream_output W.contents self).written }
    {
        self.inner
    }

    #[cold]
    #[inline(never)]
    fn failed(&mut self, error: io::Error) -> io::Error
        ensures error { result ≡ error }
        ensures inner { self.new.inner ≡ self.old.inner }
        ensures flushed { self.new.flushed ≡ self.old.flushed }
        ensures counts { self.new.failures ≡ one_more self.old.failures }
    {
        self.failures = self.failures.saturating_add(1);
        error
    }
}

/// A push writes all of its input to the stream, which is then not flushed.
///
/// # Errors
///
/// `io::Error`: the stream failed, which is counted. A slice of the input may be written then, and
/// the writer is not flushed.
impl<W: io::Write> Write for IoWriter<W> {
    type Error = io::Error;

    ghost atomic = { false };

    ghost view = { stream_output W.contents };

    fn push(&mut self, input: &[u8]) -> Result<(), io::Error>
        ensures appends { OnOk result (Appends input.now
            (stream_output W.contents self.old).written
            (stream_output W.contents self.new).written) }
        ensures counts { OnOk result ((stream_output W.contents self.new).failures
            ≡ (stream_output W.contents self.old).failures) }
        ensures failed { OnErr result ((stream_output W.contents self.new).failures
            ≡ one_more (stream_output W.contents self.old).failures) }
        ensures unflushed { is_flushed self.new ≡ false }
    {
        self.flushed = false;
        // An error is large over some streams, so nothing but an error is moved.
        match self.inner.write_all(input) {
            Ok(()) => Ok(()),
            Err(error) => Err(self.failed(error)),
        }
    }
}
