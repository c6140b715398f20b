//! Tests of writers into memory and into streams.
use cbor4ii_rw::buf_writer::BufWriter;
use cbor4ii_rw::io_writer::IoWriter;
use cbor4ii_rw::write::Write;
use cbor4ii_vectors::compared::same;
use cbor4ii_vectors::streams::FailingSink;
use std::alloc::Global;
use std::fmt::InlineText;
use std::io::{self, ErrorKind};
use std::test::Fail;

#[test]
fn a_buffer_appends(rt: HostRuntime) -> Result<(), Fail> {
    let mut writer = BufWriter::new(vec![in rt.alloc(); 9]?);
    writer.push(b"ab")?;
    Write::push(&mut &mut writer, b"")?;
    same(writer.buffer(), b"\tab")?;
    writer.clear();
    writer.push(b"c")?;
    same(writer.into_inner().as_slice(), b"c")
}

// The ten digits, over and over.
fn are_digits(bytes: &[u8]) -> Result<(), Fail> {
    for (i, byte) in bytes.iter().enumerate() {
        same(usize::from(*byte), 48 + i % 10)?;
    }
    Ok(())
}

// Whichever growth is refused, each push appends all of its input or nothing. One push at most is
// refused, and none where memory is found.
#[test]
fn a_refused_growth_appends_nothing(rt: HostRuntime) -> Result<(), Fail> {
    let mut writer = BufWriter::new(Vec::new(rt.alloc()));
    let mut kept: usize = 0;
    for _ in 0..40 {
        if writer.push(b"0123456789").is_ok() {
            kept = kept.saturating_add(10);
        }
        same(writer.buffer().len(), kept)?;
    }
    same(kept >= 390, true)?;
    are_digits(writer.buffer())
}

// 40 pushes of 10 bytes, for which the buffer grows again and again. Its memory is for what it has
// to hold, or for twice what it held, if that is more: 10 bytes, 20, 40, 80, 160, 320 and 640.
#[test]
fn a_buffer_grows(rt: HostRuntime) -> Result<(), Fail> {
    let mut writer = BufWriter::new(Vec::new(rt.alloc()));
    for _ in 0..40 {
        writer.push(b"0123456789")?;
    }
    are_digits(writer.buffer())?;
    let len = writer.buffer().len();
    same((len, writer.into_inner().capacity()), (400, 640))
}

/// A stream into memory, which counts its writes.
#[derive(Drop)]
struct CountingSink {
    bytes: Vec<u8>,
    writes: usize,
}

impl io::Write for CountingSink {
    fn write(&mut self, buf: &[u8]) -> io::Result<usize> {
        self.writes = self.writes.saturating_add(1);
        match self.bytes.extend_from_slice(buf) {
            Ok(()) => Ok(buf.len()),
            Err(_) => Err(io::Error::from(ErrorKind::OutOfMemory)),
        }
    }

    fn flush(&mut self) -> io::Result<()> {
        Ok(())
    }
}

fn counting(alloc: Global) -> IoWriter<CountingSink> {
    IoWriter::new(CountingSink {
        bytes: Vec::new(alloc),
        writes: 0,
    })
}

// Each of these is pushed.
fn pushes<W: Write>(writer: &mut W, inputs: &[&[u8]]) -> Result<(), Fail> {
    for input in inputs {
        writer.push(input)?;
    }
    Ok(())
}

#[test]
fn a_stream_is_appended_to(rt: HostRuntime) -> Result<(), Fail> {
    let mut writer = IoWriter::new(Vec::new(rt.alloc()));
    pushes(&mut writer, &[b"ab", b"c"])?;
    same(writer.into_inner().as_slice(), b"abc")
}

// In how many writes a push reaches the stream, no clause says.
#[test]
fn a_push_is_one_write(rt: HostRuntime) -> Result<(), Fail> {
    let mut writer = counting(rt.alloc());
    pushes(&mut writer, &[b"abc", b"d"])?;
    let sink = writer.into_inner();
    same((sink.bytes.as_slice(), sink.writes), (b"abcd", 2))
}

// That a push succeeds where the stream does not fail, no clause says.
#[test]
fn a_push_of_70000_bytes_is_one_write(rt: HostRuntime) -> Result<(), Fail> {
    let input = vec![in rt.alloc(); b'a'; 70_000]?;
    let mut writer = counting(rt.alloc());
    pushes(&mut writer, &[&input])?;
    let sink = writer.into_inner();
    same((sink.bytes == input, sink.writes), (true, 1))
}

// This push fails, with an error of this text.
fn push_fails<W: Write>(writer: &mut W, input: &[u8], error: &str) -> Result<(), Fail> {
    let failed = writer.push(input);
    same(
        InlineText::<64>::of(format_args!("{failed:?}")).as_str(),
        error,
    )
}

// Of a push that a stream refuses, the stream may hold a part.
#[test]
fn a_write_that_fails_is_reported(rt: HostRuntime) -> Result<(), Fail> {
    let mut writer = IoWriter::new(FailingSink::new(Vec::with_capacity(rt.alloc(), 3)?, 2));
    pushes(&mut writer, &[b"a"])?;
    push_fails(&mut writer, b"bc", "Err(Kind(Other))")?;
    pushes(&mut writer, &[b"d"])?;
    same(writer.into_inner().buffer(), b"abd")
}

fn is_timed_out(flushed: &io::Result<()>) -> bool {
    matches!(flushed, Err(error) if error.kind() == ErrorKind::TimedOut)
}

// Which error a flush hands on, no clause says.
#[test]
fn a_flush_that_fails_is_reported(rt: HostRuntime) -> Result<(), Fail> {
    let sink = FailingSink::new(Vec::new(rt.alloc()), 0).failing_at_flush(ErrorKind::TimedOut);
    let mut writer = IoWriter::new(sink);
    let is_reported = is_timed_out(&writer.flush());
    let is_flushed = writer.is_flushed();
    same(
        (is_reported, is_flushed, writer.into_inner().flushes()),
        (true, false, 1),
    )
}

// What was not flushed is flushed now.
fn flushes(writer: &mut IoWriter<FailingSink>) -> Result<(), Fail> {
    let was_flushed = writer.is_flushed();
    writer.flush()?;
    same([was_flushed, writer.is_flushed()], [false, true])
}

// No clause says that a flush reaches the stream.
#[test]
fn a_flush_reaches_the_stream(rt: HostRuntime) -> Result<(), Fail> {
    let mut writer = IoWriter::new(FailingSink::new(Vec::with_capacity(rt.alloc(), 1)?, 9));
    flushes(&mut writer)?;
    pushes(&mut writer, &[b"a"])?;
    flushes(&mut writer)?;
    same(writer.into_inner().flushes(), 2)
}
