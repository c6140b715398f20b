//! Parts that hold no other, read as many at a time as one look shows.
ghost use Rattle.std.specs.Prelude.{◌≤◌, length, take, IsTrue};
ghost use Rattle.cbor4ii_items.specs.Budget.{CostFits};
ghost use Rattle.cbor4ii_items.specs.Decoding.{DecodesIf};
ghost use Rattle.cbor4ii_items.specs.Head.{IsBytes};
ghost use Rattle.cbor4ii_items.specs.Lent.{Stays};
ghost use Rattle.cbor4ii_items.specs.Sequences.{count_of, in_list};
ghost use Rattle.cbor4ii.specs.ShownParts.{PutsParts, TakesParts};
ghost use Rattle.cbor4ii.specs.Typed.{input, parts_answer};

use crate::serde::de::deserializer::Deserializer;
use crate::serde::de::error::DecodeError;
use crate::serde::de::parts::Sequence;
use cbor4ii_items::reserve::items_ahead;
use cbor4ii_rw::ask::look;
use cbor4ii_rw::error as core_error;
use cbor4ii_rw::read::Source;
use std::alloc::Global;

#[derive(Clone, Copy)]
struct Run {
    /// The bytes of its parts.
    size: usize,
    /// Whether there was memory for each of them.
    has_memory: bool,
}

/// Reads as many parts at a time as one look shows, and one by itself after each look. It is out of
/// line, so that what holds such parts takes a small frame.
#[inline(never)]
pub(crate) fn take_runs<S: Source, Q: Sequence<S>>(
    alloc: Global,
    de: &mut Deserializer<S>,
    count: usize,
) -> Result<Vec<Q::Part>, DecodeError<S::Error>>
    ensures { DecodesIf Q.exact (count_of in_list Q.part count)
        (input S.view de.old) (input S.view de.new) (parts_answer result) }
{
    let mut parts = Vec::new(alloc);
    if parts.reserve(items_ahead(count)).is_err() {
        return Err(DecodeError::Core(core_error::DecodeError::OutOfMemory));
    }
    let steps = step_left(&mut de.reader);
    while parts.len() < count {
        match take_run::<S, Q>(&mut de.reader, steps, count, &mut parts) {
            Ok(true) => {}
            Ok(false) => return Err(DecodeError::Core(core_error::DecodeError::OutOfMemory)),
            Err(error) => return Err(DecodeError::Core(core_error::DecodeError::Read(error))),
        }
        if parts.len() < count {
            let part = Q::take_part(alloc, de)?;
            match parts.push(part) {
                Ok(()) => {}
                Err(_) => return Err(DecodeError::Core(core_error::DecodeError::OutOfMemory)),
            }
        }
    }
    Ok(parts)
}

/// One where a step is left, else 0.
#[inline(always)]
fn step_left<S: Source>(reader: &mut S) -> u8
    ensures fits { CostFits result (S.view reader.old).budget }
    ensures stays { Stays (S.view reader.old) (S.view reader.new) }
{
    if !reader.step_in() {
        return 0;
    }
    reader.step_out();
    1
}

/// Takes the parts that one look shows, up to `count` in all. False is refused memory.
#[inline(always)]
fn take_run<S: Source, Q: Sequence<S>>(
    reader: &mut S,
    steps: u8,
    count: usize,
    parts: &mut Vec<Q::Part>,
) -> Result<bool, S::Error>
    requires { CostFits steps (S.view reader.old).budget }
    ensures run { TakesParts Q.part.reads (S.view reader.old) (S.view reader.new)
        parts.old.items parts.new.items result }
    ensures few { length parts.old.items ≤ count → length parts.new.items ≤ count }
{
    let mut failure = None;
    let want = reader.window();
    let run = match look(reader, want, &mut failure) {
        Some(shown) => put_run::<S, Q>(shown, steps, count, parts),
        None => return Err(failure.unwrap()),
    };
    reader.advance(run.size);
    Ok(run.has_memory)
}

#[inline(always)]
fn put_run<S: Source, Q: Sequence<S>>(
    shown: &[u8],
    steps: u8,
    count: usize,
    parts: &mut Vec<Q::Part>,
) -> Run
    ensures within { result.size ≤ length shown.now }
    ensures bytes { IsBytes (take result.size shown.now) }
    ensures put { IsTrue result.has_memory → PutsParts Q.part.reads shown.now steps
        parts.old.items parts.new.items result.size }
    ensures few { length parts.old.items ≤ count → length parts.new.items ≤ count }
{
    let mut size = 0;
    while parts.len() < count {
        let Some((part, bytes)) = Q::shown_part(&shown[size..], steps) else {
            return Run {
                size,
                has_memory: true,
            };
        };
        size += bytes;
        if parts.push(part).is_err() {
            return Run {
                size,
                has_memory: false,
            };
        }
    }
    Run {
        size,
        has_memory: true,
    }
}
