//! Rows of a log that is cut at each place, of one that goes on with other bytes, and of streams.
use crate::event::Event;
use crate::log::{Fault, replay, whole_events};
use cbor4ii::error::DecodeError::{Eof, Mismatch, OutOfMemory, Read};
use cbor4ii::error::{Len, Never};
use cbor4ii::serde::DecodeError;
use cbor4ii::serde::DecodeError::{Core, Custom};
use cbor4ii_vectors::streams::FailingStream;
use cbor4ii_vectors::table;
use std::alloc::Global;
use std::fmt::Debug;
use std::io::{self, BufRead};
use std::test::Fail;

// Three events, of 8, 10 and 21 bytes.
const LOG: &[u8] = b"\x67Started\
\xa1\x65Moved\x82\x01\x20\
\xa1\x65Named\xa2\x62id\x19\x01\xf4\x64name\x61a";

const REPORTED: &str = "[Started, Moved(1, -1), Named { id: 500, name: \"a\" }]";

// Where each event ends.
const ENDS: [usize; 4] = [0, 8, 18, 39];

// How many bytes the whole events take of the first bytes of the log.
fn whole_within(end: usize) -> usize {
    let mut whole = 0;
    for mark in ENDS {
        if mark <= end {
            whole = mark;
        }
    }
    whole
}

// What is left of the first part goes before the second one.
fn read_in_two(alloc: Global, end: usize) -> Result<String, Fail> {
    let (first, second) = LOG.split_at(end.min(LOG.len()));
    let mut bytes = Vec::from_slice(alloc, first)?;
    let mut batch = whole_events(alloc, &bytes).map_err(failed)?;
    if batch.taken != whole_within(end) {
        return Err(Fail::new(format_args!("{} bytes taken of {end}", batch.taken)));
    }
    bytes.drain(..batch.taken);
    bytes.extend_from_slice(second)?;
    let mut rest = whole_events(alloc, &bytes).map_err(failed)?;
    batch.events.append(&mut rest.events)?;
    Ok(format!(in alloc; "{:?}", batch.events)?)
}

fn failed<E: Debug + Drop>(fault: Fault<E>) -> Fail {
    Fail::new(format_args!("{fault:?}"))
}

#[test]
fn a_log_is_cut_anywhere(rt: HostRuntime) -> Result<(), Fail> {
    for end in 0..=LOG.len() {
        assert_eq!(rt; read_in_two(rt.alloc(), end)?.as_str(), REPORTED);
    }
    Ok(())
}

type Row = (&'static [u8], u64, DecodeError<Never>);

// After a whole event comes what is none, and an event whose content is none.
const FAULTS: &[Row] = table! {
    (b"\x05", 0, Core(Mismatch { name: "enum", found: 5 })),
    (b"\x67Started\x05", 8, Core(Mismatch { name: "enum", found: 5 })),
    (b"\x67Started\xa1\x65Moved\x82\x01\xf6", 8, Core(Mismatch { name: "i32", found: 0xf6 })),
    (b"\x67Started\x67Stopped", 8, Custom("no such event")),
};

#[test]
fn a_fault_tells_its_event(rt: HostRuntime) -> Result<(), Fail> {
    for (bytes, at, error) in FAULTS {
        match whole_events(rt.alloc(), bytes) {
            Ok(batch) => return Err(Fail::new(format_args!("{batch:?} of {bytes:?}"))),
            Err(fault) => {
                assert_eq!(rt; fault.at, *at);
                assert_eq!(rt; &fault.error, error);
                assert!(rt; !fault.is_cut());
            }
        }
    }
    Ok(())
}

// Only `Eof` says that the log is cut.
#[test]
fn want_of_memory_is_no_cut(rt: HostRuntime) {
    let faults: [(DecodeError<Never>, bool); 3] = [
        (Core(OutOfMemory), false),
        (Custom("no such event"), false),
        (
            Core(Eof {
                name: "enum",
                expect: Len::Small(1),
            }),
            true,
        ),
    ];
    for (error, is_cut) in faults {
        assert_eq!(rt; Fault { at: 0, error }.is_cut(), is_cut);
    }
}

// What a stream of these bytes hands on, and how it ends.
fn replayed<R: BufRead + Drop>(
    alloc: Global,
    stream: R,
) -> Result<(String, Result<(), Fault<io::Error>>), Fail> {
    let mut events = Vec::new(alloc);
    let outcome = replay(alloc, stream, |event: Event| {
        let _ = events.push(event);
    });
    Ok((format!(in alloc; "{events:?}")?, outcome))
}

// One byte at a time.
#[test]
fn a_stream_is_replayed(rt: HostRuntime) -> Result<(), Fail> {
    let stream = FailingStream::new(LOG, 1, usize::MAX);
    let (reported, outcome) = replayed(rt.alloc(), stream)?;
    assert_eq!(rt; reported.as_str(), REPORTED);
    assert!(rt; outcome.is_ok());
    Ok(())
}

#[test]
fn a_stream_that_is_cut_tells_it(rt: HostRuntime) -> Result<(), Fail> {
    for end in 0..=LOG.len() {
        let (_, outcome) = replayed(rt.alloc(), &LOG[..end])?;
        let whole = whole_within(end);
        match outcome {
            Ok(()) => assert_eq!(rt; whole, end),
            Err(fault) => {
                assert_eq!(rt; fault.at, whole as u64);
                assert!(rt; fault.is_cut() && whole < end);
            }
        }
    }
    Ok(())
}

// It fails in the place of telling that nothing is left.
#[test]
fn a_stream_that_fails_tells_it(rt: HostRuntime) -> Result<(), Fail> {
    let stream = FailingStream::new(&LOG[..18], 1, usize::MAX).failing_at_end();
    let (reported, outcome) = replayed(rt.alloc(), stream)?;
    assert_eq!(rt; reported.as_str(), "[Started, Moved(1, -1)]");
    match outcome {
        Err(fault) => {
            assert!(rt; matches!(&fault.error, Core(Read(_))));
            assert!(rt; fault.at == 18 && !fault.is_cut());
            Ok(())
        }
        Ok(()) => Err(Fail::new(format_args!("the stream did not fail"))),
    }
}
