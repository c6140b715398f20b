//! Items skipped, those that hold others with all that they hold: one cycle of calls.
ghost use Rattle.std.specs.Prelude.{◌+◌, ◌*◌, ◌≤◌, OnOk, IsTrue};
ghost use Rattle.cbor4ii_rw.specs.Reader.{KeepsAllButBudget};
ghost use Rattle.cbor4ii_tree.specs.Inner.Ahead.{Awaits, SkipsSome, RejectsSome, SkipsSomeUnder};
ghost use Rattle.cbor4ii_tree.specs.Inner.Ahead.{RejectsSomeUnder, GoesUnder, CountsSome};
ghost use Rattle.cbor4ii_tree.specs.Inner.Ahead.{CountsWent};
ghost use Rattle.cbor4ii_tree.specs.Basis.Cost.{Budget};
ghost use Rattle.cbor4ii_tree.specs.Inner.Deeper.{Deeper, FollowsInside, with_budget};
ghost use Rattle.cbor4ii_tree.specs.Inner.Does.{Does, DoesApart, Lowers, MayStay, Spares, Taking};
ghost use Rattle.cbor4ii_tree.specs.Inner.Does.{value_or_error, done_or_error};
ghost use Rattle.cbor4ii_tree.specs.Inner.Skipping.{SkipsOne, RejectsSkippingOne, SkipsItems};
ghost use Rattle.cbor4ii_tree.specs.Inner.Skipping.{RejectsSkippingItems, SkipsIndefinite};
ghost use Rattle.cbor4ii_tree.specs.Inner.Skipping.{RejectsSkippingIndefinite, SkipsPairs};
ghost use Rattle.cbor4ii_tree.specs.Inner.Skipping.{RejectsSkippingPairs, SkipsUnder};
ghost use Rattle.cbor4ii_tree.specs.Inner.Skipping.{RejectsSkippingUnder, SkipsAfter};
ghost use Rattle.cbor4ii_tree.specs.Inner.Skipping.{RejectsSkippingAfter};

use crate::ahead::{Ahead, Among};
use crate::bytes_ahead::BytesAhead;
use crate::skip::initial::After;
use crate::skip::next::{skip_content, take_ahead};
use crate::skip::step::{give_back, skip_without_step};
use crate::slot::part;
use crate::unseen::{ends, skip_head};
use cbor4ii_rw::error::DecodeError;
use cbor4ii_rw::read::Source;

/// How far one look led.
#[derive(Clone, Copy)]
pub(crate) enum Went {
    /// So many items were skipped, or none where a break was taken.
    Past(u64),
    /// A head was taken, and so many items are left of its own.
    Into(u64),
}

pub(crate) fn skip_item<S: Source, F: BytesAhead<S>>(
    prefix: &mut F,
    reader: &mut S,
) -> Result<(), DecodeError<S::Error>>
    ensures does { Does (λ xs _ ys. SkipsOne (F.view prefix.old reader.old).budget xs ys)
        (RejectsSkippingOne (F.view prefix.old reader.old).budget)
        (F.view prefix.old reader.old) (F.view prefix.new reader.new) result }
    ensures spares { Spares result }
    ensures progress { OnOk result
        ((F.view prefix.new reader.new).bound + 1 ≤ (F.view prefix.old reader.old).bound) }
    ensures stays { IsTrue F.apart → KeepsAllButBudget (S.view reader.old) (S.view reader.new) }
{
    let mut failure = None;
    match skip_some(prefix, reader, Among::Items(1), &mut failure) {
        Some(_) => Ok(()),
        None => Err(failure.unwrap()),
    }
}

/// Skips an item, or a run of them, and answers how many; or takes a break, and answers 0. An error
/// goes to `failure`: no large answer is handed up from level to level.
#[cycle(skip)]
#[inline(always)]
fn skip_some<S: Source, F: BytesAhead<S>>(
    prefix: &mut F,
    reader: &mut S,
    among: Among,
    failure: &mut Option<DecodeError<S::Error>>,
) -> Option<u64>
    requires { Awaits among }
    ensures { DoesApart (SkipsSome among) (RejectsSome among) (CountsSome among)
        F.apart (S.view reader.old) (S.view reader.new) (F.view prefix.old reader.old)
        (F.view prefix.new reader.new) (value_or_error result failure.new) }
{
    if !reader.step_in() {
        return skip_without_step(prefix, reader, among, failure);
    }
    let outcome = some_inside(prefix, reader, among, failure);
    reader.step_out();
    outcome
}

/// As `skip_some`, where the step was taken.
#[cycle(skip)]
#[inline(always)]
fn some_inside<S: Source, F: BytesAhead<S>>(
    prefix: &mut F,
    reader: &mut S,
    among: Among,
    failure: &mut Option<DecodeError<S::Error>>,
) -> Option<u64>
    requires { Awaits among }
    ensures { DoesApart (SkipsSomeUnder among) (RejectsSomeUnder among) (CountsSome among)
        F.apart (S.view reader.old) (S.view reader.new) (F.view prefix.old reader.old)
        (F.view prefix.new reader.new) (value_or_error result failure.new) }
{
    match go_some(prefix, reader, among, failure) {
        Some(Went::Past(count)) => Some(count),
        Some(Went::Into(count)) => {
            if skip_items(prefix, reader, count, failure) {
                Some(1)
            } else {
                None
            }
        }
        None => None,
    }
}

/// As `some_inside`, but of a counted container or a tag it takes the head alone.
#[cycle(skip)]
#[inline(always)]
fn go_some<S: Source, F: BytesAhead<S>>(
    prefix: &mut F,
    reader: &mut S,
    among: Among,
    failure: &mut Option<DecodeError<S::Error>>,
) -> Option<Went>
    requires { Awaits among }
    ensures { DoesApart (GoesUnder among) (RejectsSomeUnder among) (CountsWent among)
        F.apart (S.view reader.old) (S.view reader.new) (F.view prefix.old reader.old)
        (F.view prefix.new reader.new) (value_or_error result failure.new) }
{
    match take_ahead(prefix, reader, among, failure) {
        Some(Ahead::Run(count, _)) => Some(Went::Past(count)),
        Some(Ahead::Head(_, After::Items(count))) => Some(Went::Into(count)),
        Some(Ahead::Head(_, trailing)) => {
            if skip_after(prefix, reader, trailing, failure) {
                Some(Went::Past(1))
            } else {
                None
            }
        }
        Some(Ahead::Break) => Some(Went::Past(0)),
        Some(Ahead::Unseen) => match skip_unseen(prefix, reader, among, failure) {
            Some(count) => Some(Went::Past(count)),
            None => None,
        },
        None => None,
    }
}

#[cycle(skip)]
#[inline(always)]
fn skip_after<S: Source, F: BytesAhead<S>>(
    prefix: &mut F,
    reader: &mut S,
    trailing: After,
    failure: &mut Option<DecodeError<S::Error>>,
) -> bool
    ensures { DoesApart (Taking (SkipsAfter trailing)) (RejectsSkippingAfter trailing) MayStay
        F.apart (S.view reader.old) (S.view reader.new) (F.view prefix.old reader.old)
        (F.view prefix.new reader.new) (done_or_error result failure.new) }
{
    match trailing {
        After::Nothing => true,
        After::Bytes(count) => skip_content(prefix, reader, count, failure),
        After::Items(count) => skip_items(prefix, reader, count, failure),
        After::Twice(count) => skip_twice(prefix, reader, count, failure),
        After::Indefinite => skip_indefinite(prefix, reader, failure),
        After::PairsToBreak => skip_indefinite_pairs(prefix, reader, failure),
    }
}

#[cycle(skip)]
fn skip_items<S: Source, F: BytesAhead<S>>(
    prefix: &mut F,
    reader: &mut S,
    count: u64,
    failure: &mut Option<DecodeError<S::Error>>,
) -> bool
    ensures { DoesApart (Taking (SkipsItems count)) (RejectsSkippingItems count) MayStay
        F.apart (S.view reader.old) (S.view reader.new) (F.view prefix.old reader.old)
        (F.view prefix.new reader.new) (done_or_error result failure.new) }
{
    let (done, depth) = skip_inward(prefix, reader, count, failure);
    give_back(reader, depth);
    done
}

/// Where the last of the items holds items in turn, it goes on with these in its place, and keeps
/// the step; it answers how many steps it kept.
#[cycle(skip)]
#[inline(always)]
fn skip_inward<S: Source, F: BytesAhead<S>>(
    prefix: &mut F,
    reader: &mut S,
    count: u64,
    failure: &mut Option<DecodeError<S::Error>>,
) -> (bool, u64)
    ensures skips { DoesApart (Taking (SkipsItems count)) (RejectsSkippingItems count) MayStay
        F.apart (S.view reader.old) (S.view reader.new) (F.view prefix.old reader.old)
        (with_budget (F.view prefix.old reader.old).budget (F.view prefix.new reader.new))
        (done_or_error result.0 failure.new) }
    ensures deeper { Deeper result.1 (F.view prefix.old reader.old).budget
        (F.view prefix.new reader.new).budget }
{
    let mut depth = 0;
    let mut left = count;
    while left > 0 {
        match skip_next(prefix, reader, left, &mut depth, failure) {
            Some(now) => left = now,
            None => return (false, depth),
        }
    }
    (true, depth)
}

/// Skips some of so many items, and answers how many are left then. Of the last, where it holds a
/// count of items or is a tag, it takes the head alone, and answers that count. Its step is kept,
/// and counted in `depth`.
#[cycle(skip)]
#[inline(always)]
fn skip_next<S: Source, F: BytesAhead<S>>(
    prefix: &mut F,
    reader: &mut S,
    left: u64,
    depth: &mut u64,
    failure: &mut Option<DecodeError<S::Error>>,
) -> Option<u64>
    requires { 1 ≤ left }
    ensures skips { DoesApart (FollowsInside left (F.view prefix.new reader.new).budget)
        (RejectsSkippingItems left) Lowers
        F.apart (S.view reader.old) (S.view reader.new) (F.view prefix.old reader.old)
        (with_budget (F.view prefix.old reader.old).budget (F.view prefix.new reader.new))
        (value_or_error result failure.new) }
    ensures deeper { (outer : Budget) →
        Deeper depth.old outer (F.view prefix.old reader.old).budget →
        Deeper depth.new outer (F.view prefix.new reader.new).budget }
{
    if !reader.step_in() {
        return skip_without_step(prefix, reader, Among::Items(left), failure);
    }
    match go_some(prefix, reader, Among::Items(left), failure) {
        Some(Went::Into(count)) => {
            if left == 1 && *depth < u64::MAX {
                *depth += 1;
                return Some(count);
            }
            let done = skip_items(prefix, reader, count, failure);
            reader.step_out();
            if done { Some(left - 1) } else { None }
        }
        Some(Went::Past(some)) => {
            reader.step_out();
            Some(left - some)
        }
        None => {
            reader.step_out();
            None
        }
    }
}

#[cycle(skip)]
#[cold]
#[inline(never)]
fn skip_twice<S: Source, F: BytesAhead<S>>(
    prefix: &mut F,
    reader: &mut S,
    count: u64,
    failure: &mut Option<DecodeError<S::Error>>,
) -> bool
    ensures { DoesApart (Taking (SkipsItems (2 * count))) (RejectsSkippingItems (2 * count)) MayStay
        F.apart (S.view reader.old) (S.view reader.new) (F.view prefix.old reader.old)
        (F.view prefix.new reader.new) (done_or_error result failure.new) }
{
    if !skip_items(prefix, reader, count, failure) {
        return false;
    }
    skip_items(prefix, reader, count, failure)
}

#[cycle(skip)]
fn skip_indefinite<S: Source, F: BytesAhead<S>>(
    prefix: &mut F,
    reader: &mut S,
    failure: &mut Option<DecodeError<S::Error>>,
) -> bool
    ensures { DoesApart (Taking SkipsIndefinite) RejectsSkippingIndefinite MayStay
        F.apart (S.view reader.old) (S.view reader.new) (F.view prefix.old reader.old)
        (F.view prefix.new reader.new) (done_or_error result failure.new) }
{
    loop {
        match skip_some(prefix, reader, Among::Indefinite, failure) {
            Some(0) => return true,
            Some(_) => {}
            None => return false,
        }
    }
}

/// Skips pairs up to a break. No break may come after a key.
#[cycle(skip)]
fn skip_indefinite_pairs<S: Source, F: BytesAhead<S>>(
    prefix: &mut F,
    reader: &mut S,
    failure: &mut Option<DecodeError<S::Error>>,
) -> bool
    ensures { DoesApart (Taking SkipsPairs) RejectsSkippingPairs MayStay
        F.apart (S.view reader.old) (S.view reader.new) (F.view prefix.old reader.old)
        (F.view prefix.new reader.new) (done_or_error result failure.new) }
{
    let mut keyed = false;
    loop {
        let some = match skip_some(prefix, reader, Among::in_map(keyed), failure) {
            Some(some) => some,
            None => return false,
        };
        if some == 0 {
            return true;
        }
        if some % 2 == 1 {
            // A key waits for its value now, or waits no longer.
            keyed = !keyed;
        }
    }
}

/// Goes byte by byte, or takes a break where one may come; the step was taken.
#[cycle(skip)]
#[cold]
#[inline(never)]
fn skip_unseen<S: Source, F: BytesAhead<S>>(
    prefix: &mut F,
    reader: &mut S,
    among: Among,
    failure: &mut Option<DecodeError<S::Error>>,
) -> Option<u64>
    requires { Awaits among }
    ensures { DoesApart (SkipsSomeUnder among) (RejectsSomeUnder among) (CountsSome among)
        F.apart (S.view reader.old) (S.view reader.new) (F.view prefix.old reader.old)
        (F.view prefix.new reader.new) (value_or_error result failure.new) }
{
    let ended = match part(ends(prefix, reader, among), failure) {
        Some(ended) => ended,
        None => return None,
    };
    if ended {
        return Some(0);
    }
    if skip_inside(prefix, reader, failure) {
        return Some(1);
    }
    None
}

/// Goes byte by byte; the step was taken.
#[cycle(skip)]
fn skip_inside<S: Source, F: BytesAhead<S>>(
    prefix: &mut F,
    reader: &mut S,
    failure: &mut Option<DecodeError<S::Error>>,
) -> bool
    ensures { DoesApart (Taking SkipsUnder) RejectsSkippingUnder Lowers
        F.apart (S.view reader.old) (S.view reader.new) (F.view prefix.old reader.old)
        (F.view prefix.new reader.new) (done_or_error result failure.new) }
{
    match part(skip_head(prefix, reader), failure) {
        Some(trailing) => skip_after(prefix, reader, trailing, failure),
        None => false,
    }
}
