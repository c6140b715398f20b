//! A log: events one after another, out of parts that are cut anywhere, or out of a stream.
ghost use Rattle.std.specs.Prelude.{◌≡◌, ◌+◌, ◌≤◌, IfOk, IfErr, OnSome};
ghost use Rattle.cbor4ii_items.specs.Decoding.{Decodes};
ghost use Rattle.cbor4ii_items.specs.ItemOrEnd.{item_or_end};
ghost use Rattle.cbor4ii_rw.specs.Stream.{most_bytes, cut_known};
ghost use Rattle.cbor4ii_rw.specs.View.{IfKnown};
ghost use Rattle.cbor4ii.specs.Typed.{answer_of, Deserializes};
ghost use Rattle.cbor4ii_examples.specs.Log.{says_cut, IsBatch, IsFault, Replays, ReplayStops};

use crate::event::Event;
use cbor4ii::dec::{Source, is_at_end};
use cbor4ii::error::{DecodeError as CoreError, Never};
use cbor4ii::serde::{DecodeError, Deserialize, Deserializer, Typed};
use cbor4ii::utils::{IoReader, SliceReader};
use std::alloc::Global;
use std::io::{self, BufRead};

/// The whole events at the beginning of a part of a log.
#[derive(Debug, PartialEq, Drop)]
pub struct Batch {
    /// The events, in their order.
    pub events: Vec<Event>,
    /// How many bytes they take. What is left goes before the next part.
    pub taken: usize,
}

/// An event was not read.
#[derive(Debug, Drop)]
pub struct Fault<E> {
    /// How many bytes stand before the event.
    pub at: u64,
    /// Why.
    pub error: DecodeError<E>,
}

impl<E> Fault<E> {
    /// Whether the log ends inside the event, so that more of it is to come.
    pub fn is_cut(&self) -> bool
        ensures { result ≡ says_cut self.now.error }
    {
        ends_early(&self.error)
    }
}

/// Reads each whole event of `part`, which may end inside one.
///
/// # Errors
///
/// Those of `next_event` for the event at which reading fails, but for `Eof`. `Core` of
/// `OutOfMemory` where there is no memory for the batch.
pub fn whole_events(alloc: Global, part: &[u8]) -> Result<Batch, Fault<Never>>
    ensures batch { IfOk result (IsBatch ⟦<Event as Typed>⟧.promise.format part.now) }
    ensures fault { IfErr result (IsFault ⟦<Event as Typed>⟧.promise.format part.now) }
{
    let mut reader = SliceReader::new(part);
    let mut events = Vec::new(alloc);
    loop {
        let taken = part.len().saturating_sub(reader.remaining().len());
        let (left, next) = next_event(alloc, reader);
        reader = left;
        match next {
            Ok(Some(event)) => {
                if events.push(event).is_err() {
                    let error = DecodeError::Core(CoreError::OutOfMemory);
                    return Err(Fault {
                        at: taken as u64,
                        error,
                    });
                }
            }
            Ok(None) => return Ok(Batch { events, taken }),
            Err(error) if ends_early(&error) => return Ok(Batch { events, taken }),
            Err(error) => return Err(Fault {
                at: taken as u64,
                error,
            }),
        }
    }
}

/// Hands each event of a stream to `handle`, as soon as it was read.
///
/// # Errors
///
/// Those of `next_event` for the event at which reading fails. Each one before it was handed on.
/// Where the event is cut, reading goes on at its first byte, once more of it is there.
pub fn replay<R: BufRead + Drop, F: FnMut(Event) + Drop>(
    alloc: Global,
    stream: R,
    mut handle: F,
) -> Result<(), Fault<io::Error>>
    requires { F.IsAlwaysCallable handle }
    ensures whole { IfOk result (λ _. IfKnown (cut_known most_bytes (R.Read.remaining stream))
        (Replays (λ before event after. F.step before event tt after)
        ⟦<Event as Typed>⟧.promise.format handle)) }
    ensures stops { IfErr result (λ fault.
        IfKnown (cut_known most_bytes (R.Read.remaining stream))
        (λ bytes. ReplayStops (λ before event after. F.step before event tt after)
        ⟦<Event as Typed>⟧.promise.format handle bytes fault)) }
{
    let mut reader = IoReader::new(stream);
    loop {
        let at = reader.taken();
        let (left, next) = next_event(alloc, reader);
        reader = left;
        match next {
            Ok(Some(event)) => handle(event),
            Ok(None) => return Ok(()),
            Err(error) => return Err(Fault { at, error }),
        }
    }
}

/// The next event, or none where no byte is left; and the reader, with what is left.
///
/// # Errors
///
/// Those of `Event`: `Core` of `Eof` where the input ends inside the event, and of `Read` where the
/// reader failed.
pub fn next_event<S: Source>(
    alloc: Global,
    mut reader: S,
) -> (S, Result<Option<Event>, DecodeError<S::Error>>)
    ensures decodes { Decodes (item_or_end ⟦<Event as Typed>⟧.promise.format)
        (S.view reader) (S.view result.0) (answer_of result.1) }
    ensures progress { IfOk result.1 (λ next. OnSome next
        ((S.view result.0).bound + 1 ≤ (S.view reader).bound)) }
{
    match is_at_end(&mut reader) {
        Ok(true) => (reader, Ok(None)),
        Ok(false) => {
            let (reader, answer) = read_event(alloc, reader);
            match answer {
                Ok(event) => (reader, Ok(Some(event))),
                Err(error) => (reader, Err(error)),
            }
        }
        Err(error) => (reader, Err(DecodeError::Core(error))),
    }
}

// Reads an event.
fn read_event<S: Source>(alloc: Global, reader: S) -> (S, Result<Event, DecodeError<S::Error>>)
    ensures { Deserializes ⟦<Event as Typed>⟧.promise
        (S.view reader) (S.view result.0) (answer_of result.1) }
{
    let mut de = Deserializer::new(reader);
    let answer = Event::deserialize(alloc, &mut de);
    (de.into_inner(), answer)
}

// Whether this says that the input ends too early.
fn ends_early<E>(error: &DecodeError<E>) -> bool
    ensures { result ≡ says_cut error.now }
{
    matches!(error, DecodeError::Core(CoreError::Eof { .. }))
}

#[cfg(test)]
mod tests;
