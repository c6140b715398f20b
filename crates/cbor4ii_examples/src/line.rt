//! A server that answers one request after another over a line, such as a socket. It waits for no
//! byte that a request does not need.
ghost use Rattle.std.specs.Prelude.{◌≡◌, ◌≤◌, ◌<◌, ◌+◌, IfOk, IfErr, IfSome, IfNone};
ghost use Rattle.cbor4ii_rw.specs.Line.{line_view, taken_of};

use cbor4ii::serde::{DecodeError, Deserialize, Deserializer, EncodeError, Serialize, to_vec};
use cbor4ii::utils::{Line, LineReader, TryReserveError};
use std::alloc::Global;

/// A request was not answered.
#[derive(Debug, PartialEq, Drop)]
pub struct Fault<E> {
    /// How many bytes stand before the request.
    pub at: u64,
    /// Why.
    pub error: Refusal<E>,
}

/// Why a request was not answered.
#[derive(Debug, PartialEq, Drop)]
pub enum Refusal<E> {
    /// What came is no request, or the line failed or was closed within one.
    Request(DecodeError<E>),
    /// The answer was not written: there is no memory, or no item stands for it.
    Answer(EncodeError<TryReserveError>),
    /// The answer was not sent.
    Send(E),
}

/// Answers one request after another until the line is closed between two of them, and counts
/// them. The reader goes on where this stops.
///
/// # Errors
///
/// Each request before that of the fault was answered.
///
/// - `Request`: as `next_request` rejects it
/// - `Answer`, `Send`: it was read, and not answered
pub fn serve<L: Line + Drop, T, A, F>(
    mut reader: LineReader<L>,
    alloc: Global,
    mut answer: F,
) -> (LineReader<L>, Result<u64, Fault<L::Error>>)
where
    T: Deserialize<LineReader<L>>,
    A: Serialize + Drop,
    F: FnMut(T) -> A + Drop,
    requires { F.IsAlwaysCallable answer }
    ensures count { IfOk result.1 (λ count. taken_of reader + count ≤ taken_of result.0) }
    ensures before { IfErr result.1 (λ fault. taken_of reader ≤ fault.at) }
    ensures within { IfErr result.1 (λ fault. fault.at ≤ taken_of result.0) }
    ensures budget { (line_view result.0).budget ≡ (line_view reader).budget }
{
    let mut count = 0;
    // A request takes a byte at least, and the reader fewer than 2^64.
    for _ in 0..u64::MAX {
        let at = reader.taken();
        let (left, request) = next_request(reader, alloc);
        reader = left;
        let request = match request {
            Ok(Some(request)) => request,
            Ok(None) => break,
            Err(fault) => return (reader, Err(fault)),
        };
        if let Err(error) = send_answer(&mut reader, alloc, &answer(request)) {
            return (reader, Err(Fault { at, error }));
        }
        count += 1;
    }
    (reader, Ok(count))
}

/// The next request, or none where the line is closed before its first byte; and the reader.
///
/// # Errors
///
/// `Request` of an error of `T`: `Core` of `Eof` where the line is closed within the request, and
/// of `Read` where it failed. The byte of the fault is that at which the request begins.
pub fn next_request<L: Line + Drop, T: Deserialize<LineReader<L>>>(
    mut reader: LineReader<L>,
    alloc: Global,
) -> (LineReader<L>, Result<Option<T>, Fault<L::Error>>)
    ensures request { IfOk result.1 (λ next. IfSome next
        (λ _. taken_of reader < taken_of result.0)) }
    ensures closed { IfOk result.1 (λ next. IfNone next (taken_of result.0 ≡ taken_of reader)) }
    ensures byte { IfErr result.1 (λ fault. fault.at ≡ taken_of reader) }
    ensures within { IfErr result.1 (λ fault. fault.at ≤ taken_of result.0) }
    ensures budget { (line_view result.0).budget ≡ (line_view reader).budget }
{
    let at = reader.taken();
    let (reader, answer) = match reader.is_closed() {
        Ok(true) => return (reader, Ok(None)),
        Ok(false) => take_request(reader, alloc),
        Err(error) => (reader, Err(DecodeError::read(error))),
    };
    match answer {
        Ok(request) => (reader, Ok(Some(request))),
        Err(error) => {
            let error = Refusal::Request(error);
            (reader, Err(Fault { at, error }))
        }
    }
}

/// Reads a request.
fn take_request<L: Line + Drop, T: Deserialize<LineReader<L>>>(
    reader: LineReader<L>,
    alloc: Global,
) -> (LineReader<L>, Result<T, DecodeError<L::Error>>)
    ensures request { IfOk result.1 (λ _. taken_of reader < taken_of result.0) }
    ensures within { taken_of reader ≤ taken_of result.0 }
    ensures budget { (line_view result.0).budget ≡ (line_view reader).budget }
{
    let mut de = Deserializer::new(reader);
    let answer = T::deserialize(alloc, &mut de);
    (de.into_inner(), answer)
}

/// Writes an answer, and sends it.
fn send_answer<L: Line + Drop, A: Serialize>(
    reader: &mut LineReader<L>,
    alloc: Global,
    answer: &A,
) -> Result<(), Refusal<L::Error>>
    ensures { line_view reader.new ≡ line_view reader.old }
{
    match to_vec(Vec::new(alloc), answer) {
        Ok(bytes) => reader.send(&bytes).map_err(Refusal::Send),
        Err(error) => Err(Refusal::Answer(error)),
    }
}

#[cfg(test)]
mod tests;
