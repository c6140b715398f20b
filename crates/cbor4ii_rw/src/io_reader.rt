//! A reader over a stream.
ghost use Rattle.std.specs.Prelude.{◌≡◌, ◌+◌, ◌-◌, ◌≤◌, [], length, Some, true, IsTrue, IfSome};
ghost use Rattle.std.specs.Prelude.{IfOk};
ghost use Rattle.std.specs.Prelude.{IsOk, MatchResult};
ghost use Rattle.std.specs.Borrow.{sem};
ghost use Rattle.std.specs.Io.{StartsWith};
ghost use Rattle.std.specs.Io.BufRead.{Rests, FillKeeps, DropsConsumable};
ghost use Rattle.cbor4ii_rw.specs.contracts.io_reader.IoReader.{the_row};
ghost use Rattle.cbor4ii_rw.specs.View.{IfKnown};
ghost use Rattle.cbor4ii_rw.specs.Reader.{Keeps, IsPrefix, IsEnough, Shows, ReaderFails};
ghost use Rattle.cbor4ii_rw.specs.Reference.{bytes_of, IsLong, IsSubslice};
ghost use Rattle.cbor4ii_rw.specs.Stream.{most_bytes, cut_within, cut_known, stream_left};
ghost use Rattle.cbor4ii_rw.specs.Stream.{stream_view, TallyMoves};

use crate::ask::look;
use crate::long::FillLong;
use crate::read::{Read, Reference, Source};
use crate::steps::{self, NESTING_LIMIT};
use std::io::{self, BufRead};

#[derive(Clone, Copy, Debug)]
struct Tally {
    // How many bytes the last fill showed, and how many of them were advanced since.
    shown: usize,
    used: usize,
    // How many were advanced in all.
    taken: u64,
    failures: u64,
    steps: usize,
}

/// A reader over a stream. It shows whatever the stream has ready, always `Short`, and hands on
/// the stream's errors; how much is ready, and which error it is, no clause says. It takes at most
/// 2^64-1 bytes, and then answers as at the end.
///
/// What was advanced leaves the stream at the next look, in `into_inner`, and when the reader is
/// dropped. An error changes none of that: the bytes that are left stay known, so that to look
/// again, or to take the stream back, loses no byte and repeats none.
#[derive(Debug)]
pub struct IoReader<R: BufRead> {
    // In this order: the proof of `show_all` takes the struct apart.
    inner: R,
    tally: Tally,
}

/// What was advanced leaves the stream.
impl<R: BufRead + Drop> Drop for IoReader<R> {
    fn drop(self) {
        let IoReader { mut inner, tally } = self;
        inner.consume(tally.used);
    }
}

impl<R: BufRead> IoReader<R> {
    /// A reader over `inner`, with `NESTING_LIMIT` steps, of which nothing was taken yet.
    pub fn new(inner: R) -> IoReader<R>
        ensures known { (stream_view R.Read.remaining R.consumable_len result).known
            ≡ cut_known most_bytes (R.Read.remaining inner) }
        ensures stream { stream_left R.Read.remaining R.consumable_len result
            ≡ R.Read.remaining inner }
        ensures taken { (stream_view R.Read.remaining R.consumable_len result).taken ≡ Some 0 }
        ensures failures { (stream_view R.Read.remaining R.consumable_len result).failures ≡ 0 }
        ensures budget { (stream_view R.Read.remaining R.consumable_len result).budget
            ≡ Some NESTING_LIMIT }
    {
        IoReader::with_limit(inner, NESTING_LIMIT)
    }

    /// A reader over `inner`, with `limit` steps, of which nothing was taken yet.
    pub fn with_limit(inner: R, limit: usize) -> IoReader<R>
        ensures known { (stream_view R.Read.remaining R.consumable_len result).known
            ≡ cut_known most_bytes (R.Read.remaining inner) }
        ensures stream { stream_left R.Read.remaining R.consumable_len result
            ≡ R.Read.remaining inner }
        ensures taken { (stream_view R.Read.remaining R.consumable_len result).taken ≡ Some 0 }
        ensures failures { (stream_view R.Read.remaining R.consumable_len result).failures ≡ 0 }
        ensures budget { (stream_view R.Read.remaining R.consumable_len result).budget
            ≡ Some limit }
    {
        IoReader {
            inner,
            tally: Tally {
                shown: 0,
                used: 0,
                taken: 0,
                failures: 0,
                steps: limit,
            },
        }
    }

    /// The stream, which has lost exactly the bytes that were taken, after an error too.
    pub fn into_inner(self) -> R
        ensures stream { Keeps (stream_left R.Read.remaining R.consumable_len self)
            (R.Read.remaining result) }
        ensures known { let view = stream_view R.Read.remaining R.consumable_len self in
            Keeps view.known (cut_known view.bound (R.Read.remaining result)) }
    {
        let IoReader {
            mut inner,
            tally: Tally { used, .. },
        } = self;
        inner.consume(used);
        inner
    }

    /// How many bytes were taken. 2^64-1 less this many may still be taken.
    pub fn taken(&self) -> u64
        ensures taken { (stream_view R.Read.remaining R.consumable_len self.now).taken
            ≡ Some result }
        ensures left { result + (stream_view R.Read.remaining R.consumable_len self.now).bound
            ≡ most_bytes }
    {
        self.tally.taken
    }

    /// How many steps are left.
    pub fn steps(&self) -> usize
        ensures { (stream_view R.Read.remaining R.consumable_len self.now).budget ≡ Some result }
    {
        self.tally.steps
    }

    // Takes from the stream what was advanced, and forgets what it showed.
    fn settle(&mut self)
        ensures stream { DropsConsumable (R.Read.remaining self.old.inner)
            (R.Read.remaining self.new.inner) (R.consumable_len self.old.inner)
            self.old.tally.used }
        ensures tally { self.new.tally ≡ record self.old.tally { shown = 0; used = 0 } }
    {
        if self.tally.used > 0 {
            self.inner.consume(self.tally.used);
        }
        self.tally.shown = 0;
        self.tally.used = 0;
    }
}

/// It shows what the stream has ready, whatever is wanted, up to 2^64-1 bytes in all. Where these
/// were taken it shows none, and asks nothing of the stream.
///
/// # Errors
///
/// `io::Error`: the stream failed, which is counted. Nothing is taken then, and the bytes that are
/// left stay known. Once 2^64-1 bytes were taken, `show` never fails.
impl<R: BufRead> Source for IoReader<R> {
    type Error = io::Error;

    ghost view = { stream_view R.Read.remaining R.consumable_len };

    fn show(&mut self, want: usize) -> Result<&[u8], io::Error>
        ensures prefix { IfOk result (λ shown. IfKnown
            (stream_view R.Read.remaining R.consumable_len self.old).known
            (IsPrefix want shown.now)) }
        ensures bounded { IfOk result (λ shown. length shown.now
            ≤ (stream_view R.Read.remaining R.consumable_len self.old).bound) }
        ensures ended { (stream_view R.Read.remaining R.consumable_len self.old).bound ≡ 0
            → IsOk result }
        ensures* after_borrow { sem 𝓛 (Rests (the_row R.row) self.entry (λ new.
            let before = stream_view R.Read.remaining R.consumable_len self.old in
            let after = stream_view R.Read.remaining R.consumable_len new in
            MatchResult result (λ shown. Shows shown.now before after)
            (λ _. ReaderFails before after))) }
    {
        let most = u64::MAX - self.tally.taken;
        if most == 0 {
            return Ok(&[]);
        }
        self.settle();
        match show_all(self) {
            Ok(bytes) => {
                let shown = (bytes.len() as u64).min(most) as usize;
                Ok(&bytes[..shown])
            }
            Err(error) => Err(error),
        }
    }

    #[inline(always)]
    fn window(&self) -> usize {
        usize::MAX
    }

    fn advance(&mut self, n: usize) {
        prove!(n <= self.tally.shown);
        self.tally.used += n;
        self.tally.taken += n as u64;
    }

    fn step_in(&mut self) -> bool {
        steps::step_in(&mut self.tally.steps)
    }

    fn step_out(&mut self) {
        steps::step_out(&mut self.tally.steps);
    }

    ghost known_within_bound = { λ reader. cut_within (most_bytes - reader.tally.taken)
        (stream_left R.Read.remaining R.consumable_len reader) };
}

/// It lends what it shows, always `Short`. Its errors are those of `show`.
impl<'de, R: BufRead> Read<'de> for IoReader<R> {
    fn fill<'short>(&'short mut self, want: usize) -> Result<Reference<'de, 'short>, io::Error>
        ensures prefix { IfOk result (λ shown. IfKnown
            (stream_view R.Read.remaining R.consumable_len self.old).known
            (IsPrefix want (bytes_of shown))) }
        ensures bounded { IfOk result (λ shown. length (bytes_of shown)
            ≤ (stream_view R.Read.remaining R.consumable_len self.old).bound) }
        ensures enough { let before = stream_view R.Read.remaining R.consumable_len self.old in
            IsTrue before.zero_copy →
            IfOk result (λ shown. IfKnown before.known (IsEnough want (bytes_of shown))) }
        ensures long { let before = stream_view R.Read.remaining R.consumable_len self.old in
            IsTrue before.zero_copy → IfOk result IsLong }
        ensures place { IfOk result
            (λ shown. IsSubslice shown (stream_view R.Read.remaining R.consumable_len self.old)) }
        ensures short { IfOk result (λ shown. ¬ IsLong shown) }
        ensures ended { (stream_view R.Read.remaining R.consumable_len self.old).bound ≡ 0
            → IsOk result }
        ensures* after_borrow { sem 𝓛 (Rests (the_row R.row) self.entry (λ new.
            let before = stream_view R.Read.remaining R.consumable_len self.old in
            let after = stream_view R.Read.remaining R.consumable_len new in
            MatchResult result (λ shown. Shows (bytes_of shown) before after)
            (λ _. ReaderFails before after))) }
    {
        match self.show(want) {
            Ok(bytes) => Ok(Reference::Short(bytes)),
            Err(error) => Err(error),
        }
    }
}

/// It lends nothing: none where a byte is left, and no bytes at the end. Its errors are those of
/// `show`.
impl<R: BufRead> FillLong for IoReader<R> {
    type Long = [u8; 0];

    ghost never_borrows = { true };

    fn fill_long(&mut self, want: usize) -> Result<Option<[u8; 0]>, io::Error> {
        let mut failure = None;
        match look(self, want, &mut failure) {
            Some([]) => Ok(Some([])),
            Some(_) => Ok(None),
            None => Err(failure.unwrap()),
        }
    }
}

/// Shows all that the stream shows, and counts it.
fn show_all<'s, R: BufRead>(reader: &'s mut IoReader<R>) -> io::Result<&'s [u8]>
    ensures prefix { IfSome (R.Read.remaining reader.old.inner)
        (λ left. IfOk result (λ shown. StartsWith left shown.now)) }
    ensures end { IfSome (R.Read.remaining reader.old.inner)
        (λ left. IfOk result (λ shown. length shown.now ≡ 0 → left ≡ [])) }
    ensures* after_borrow { sem 𝓛 (Rests (the_row R.row) reader.entry (λ new.
        FillKeeps (R.Read.remaining reader.old.inner) (R.Read.remaining new.inner)
        (R.consumable_len new.inner) result
        × TallyMoves reader.old.tally new.tally result)) }
{
    show_inner(&mut reader.inner, &mut reader.tally)
}

fn show_inner<'s, R: BufRead>(inner: &'s mut R, tally: &mut Tally) -> io::Result<&'s [u8]>
    ensures prefix { IfSome (R.Read.remaining inner.old)
        (λ left. IfOk result (λ shown. StartsWith left shown.now)) }
    ensures end { IfSome (R.Read.remaining inner.old)
        (λ left. IfOk result (λ shown. length shown.now ≡ 0 → left ≡ [])) }
    ensures* after_borrow { sem 𝓛 (Rests R.row inner.entry (λ new.
        FillKeeps (R.Read.remaining inner.old) (R.Read.remaining new)
        (R.consumable_len new) result)) }
    ensures counted { TallyMoves tally.old tally.new result }
{
    match inner.fill_buf() {
        Ok(bytes) => {
            tally.shown = bytes.len();
            Ok(bytes)
        }
        Err(error) => {
            tally.failures = tally.failures.saturating_add(1);
            Err(error)
        }
    }
}
