//! Readers for tests: a decoder has to answer alike however its input is shown.
ghost use Rattle.std.specs.Prelude.{◌≡◌, ◌≤◌, None, Some, IsTrue, take, false};
ghost use Rattle.std.proofs.Common.{rules};
ghost use Rattle.cbor4ii_rw.specs.Reader.{ReaderFails, StepsIn, step_back};
ghost use Rattle.cbor4ii_rw.specs.View.{IfKnown};
ghost use Rattle.cbor4ii_vectors.specs.Reports.{test_view, counting_view, asked_view};

use cbor4ii_rw::error::Never;
use cbor4ii_rw::long::FillLong;
use cbor4ii_rw::read::{Read, Reference, Source};
use cbor4ii_rw::steps::{step_in, step_out};

/// That a test reader or a test writer failed, as it had to.
#[derive(Clone, Copy, Debug, PartialEq, Eq)]
pub struct Failure;

/// Shows one byte at a time, what is wanted or all that is left, which outlives the fill or does
/// not, or a byte and all in turn. It counts steps or lets items nest without a limit, and may fail
/// at one show, where nothing is left, or where fewer bytes are left than are wanted. It goes on
/// after that, so that a decoder which passes over a failure is found out, or it has lost what was
/// left.
#[derive(Drop)]
pub struct TestReader<'a> {
    bytes: &'a [u8],
    // None where items may nest without a limit.
    steps: Option<usize>,
    // Whether the next show is of all that is left, and whether the next fill lasts.
    is_whole: bool,
    is_long: bool,
    takes_turns: bool,
    // Whether a show that is not of all is of what is wanted, and not of one byte.
    shows_wanted: bool,
    // How often it shows before it fails.
    shows: usize,
    fails_at_end: bool,
    // Whether it waits for all that is wanted. Where that never comes it fails.
    waits: bool,
    failures: u64,
    // Whether a failure loses what is left, and whether one did.
    forgets: bool,
    has_forgotten: bool,
}

impl<'a> TestReader<'a> {
    /// A reader with `limit` steps that shows one byte at a time, which does not outlive the fill.
    pub fn short(bytes: &'a [u8], limit: usize) -> TestReader<'a>
        ensures known { (test_view result).known ≡ Some bytes.now }
        ensures budget { (test_view result).budget ≡ Some limit }
        ensures failures { (test_view result).failures ≡ 0 }
    {
        TestReader::new(bytes, Some(limit), false, false)
    }

    /// A reader with `limit` steps that shows one byte at a time, which lives as long as the input.
    pub fn long(bytes: &'a [u8], limit: usize) -> TestReader<'a>
        ensures known { (test_view result).known ≡ Some bytes.now }
        ensures budget { (test_view result).budget ≡ Some limit }
        ensures failures { (test_view result).failures ≡ 0 }
    {
        TestReader::new(bytes, Some(limit), false, true)
    }

    /// A reader with `limit` steps that shows all that is left, whatever is wanted, which lives as
    /// long as the input.
    pub fn whole(bytes: &'a [u8], limit: usize) -> TestReader<'a>
        ensures known { (test_view result).known ≡ Some bytes.now }
        ensures budget { (test_view result).budget ≡ Some limit }
        ensures failures { (test_view result).failures ≡ 0 }
        ensures whole { IsTrue (test_view result).zero_copy }
    {
        TestReader::new(bytes, Some(limit), true, true)
    }

    /// A reader that shows all that is left, whatever is wanted, which lives as long as the input.
    /// It lets items nest without a limit.
    pub fn unlimited(bytes: &'a [u8]) -> TestReader<'a>
        ensures known { (test_view result).known ≡ Some bytes.now }
        ensures budget { (test_view result).budget ≡ None }
        ensures failures { (test_view result).failures ≡ 0 }
        ensures whole { IsTrue (test_view result).zero_copy }
    {
        TestReader::new(bytes, None, true, true)
    }

    /// A reader with `limit` steps whose first fill is of all that is left, which lives as long as
    /// the input, and whose second is of one byte, which does not outlive it, and so on in turn. It
    /// shows all that is left and one byte in turn.
    pub fn in_turn(bytes: &'a [u8], limit: usize) -> TestReader<'a>
        ensures known { (test_view result).known ≡ Some bytes.now }
        ensures budget { (test_view result).budget ≡ Some limit }
        ensures failures { (test_view result).failures ≡ 0 }
    {
        TestReader {
            takes_turns: true,
            ..TestReader::new(bytes, Some(limit), true, true)
        }
    }

    /// A reader with `limit` steps that shows as many bytes as are wanted, which live as long as
    /// the input.
    pub fn wanted(bytes: &'a [u8], limit: usize) -> TestReader<'a>
        ensures known { (test_view result).known ≡ Some bytes.now }
        ensures budget { (test_view result).budget ≡ Some limit }
        ensures failures { (test_view result).failures ≡ 0 }
    {
        TestReader {
            shows_wanted: true,
            ..TestReader::new(bytes, Some(limit), false, true)
        }
    }

    /// A reader that fails at no show which comes.
    fn new(bytes: &'a [u8], steps: Option<usize>, is_whole: bool, is_long: bool) -> TestReader<'a>
        ensures known { (test_view result).known ≡ Some bytes.now }
        ensures budget { (test_view result).budget ≡ steps }
        ensures failures { (test_view result).failures ≡ 0 }
        ensures whole { IsTrue is_long → (test_view result).zero_copy ≡ is_whole }
    {
        TestReader {
            bytes,
            steps,
            is_whole,
            is_long,
            takes_turns: false,
            shows_wanted: false,
            shows: usize::MAX,
            fails_at_end: false,
            waits: false,
            failures: 0,
            forgets: false,
            has_forgotten: false,
        }
    }

    /// Makes the reader fail after it showed so many times.
    pub fn failing_after(self, shows: usize) -> TestReader<'a>
        ensures { test_view result ≡ test_view self.entry }
    {
        TestReader { shows, ..self }
    }

    /// Makes the reader fail in the place of showing that nothing is left.
    pub fn failing_at_end(self) -> TestReader<'a>
        ensures { test_view result ≡ test_view self.entry }
    {
        TestReader {
            fails_at_end: true,
            ..self
        }
    }

    /// Makes the reader wait for all that is wanted before it shows some, and fail where fewer
    /// bytes are left, since these never come. Where usize's greatest number is wanted, that is all
    /// that is left.
    pub fn waiting(self) -> TestReader<'a>
        ensures { test_view result ≡ test_view self.entry }
    {
        TestReader {
            waits: true,
            ..self
        }
    }

    /// Makes the reader lose what is left where it fails.
    pub fn forgetting(self) -> TestReader<'a>
        ensures known { (test_view result).known ≡ (test_view self.entry).known }
        ensures budget { (test_view result).budget ≡ (test_view self.entry).budget }
        ensures failures { (test_view result).failures ≡ (test_view self.entry).failures }
    {
        TestReader {
            forgets: true,
            ..self
        }
    }

    /// The bytes that are left.
    pub fn remaining(&self) -> &'a [u8]
        ensures { IfKnown (test_view self.now).known (λ xs. result.now ≡ xs) }
    {
        self.bytes
    }

    /// How often it failed: once at most.
    pub fn failures(&self) -> u64
        ensures { (test_view self.now).failures ≡ result }
    {
        self.failures
    }

    /// The steps that are left, or none where items may nest without a limit.
    pub fn steps(&self) -> Option<usize>
        ensures { (test_view self.now).budget ≡ result }
    {
        self.steps
    }

    /// Whether it waits for bytes that never come.
    fn waits_for_ever(&self, want: usize) -> bool {
        self.waits && want != usize::MAX && want > self.bytes.len()
    }

    /// Whether this show, of which so many bytes are wanted, fails. It is counted then.
    fn fails(&mut self, want: usize) -> bool
        ensures kept { result ≡ false → test_view self.new ≡ test_view self.old }
        ensures broken { IsTrue result → ReaderFails (test_view self.old) (test_view self.new) }
    {
        let is_at_end = self.fails_at_end && self.bytes.is_empty();
        let is_due = self.shows == 0 || is_at_end || self.waits_for_ever(want);
        if is_due && self.failures == 0 {
            self.failures = 1;
            if self.forgets {
                self.bytes = &[];
                self.has_forgotten = true;
            }
            return true;
        }
        self.shows = self.shows.saturating_sub(1);
        false
    }

    /// Whether this show is of all that is left.
    fn shows_whole(&mut self) -> bool
        ensures kept { test_view self.new ≡ test_view self.old }
        ensures bytes { self.new.bytes.now ≡ self.old.bytes.now }
        ensures whole { IsTrue (test_view self.old).zero_copy → IsTrue result }
    {
        let is_whole = self.is_whole;
        self.is_whole = is_whole != self.takes_turns;
        is_whole
    }

    /// Whether the next fill is of all that is left.
    fn fills_whole(&self) -> bool
        ensures { IsTrue (test_view self.now).zero_copy → IsTrue result }
    {
        if self.takes_turns {
            self.is_long
        } else {
            self.is_whole
        }
    }

    /// Whether this fill lives as long as the input.
    fn fills_long(&mut self) -> bool
        ensures kept { test_view self.new ≡ test_view self.old }
        ensures bytes { self.new.bytes.now ≡ self.old.bytes.now }
        ensures whole { IsTrue (test_view self.old).zero_copy → IsTrue result }
    {
        let is_long = self.is_long;
        self.is_long = is_long != self.takes_turns;
        is_long
    }

    /// How many bytes it shows where it does not show all: what is wanted, or one.
    fn part(&self, want: usize) -> usize
        ensures { 1 ≤ want → 1 ≤ result }
    {
        if self.shows_wanted { want } else { 1 }
    }

    /// What it shows: all that is left, or so many bytes of it.
    fn prefix(&self, is_whole: bool, part: usize) -> &'a [u8]
        ensures whole { IsTrue is_whole → result.now ≡ self.now.bytes.now }
        ensures part { is_whole ≡ false → result.now ≡ take part self.now.bytes.now }
    {
        if is_whole {
            return self.bytes;
        }
        &self.bytes[..self.bytes.len().min(part)]
    }
}

/// Takes one of the steps, or answers false where none is left.
fn take_step(steps: &mut Option<usize>) -> bool
    ensures { StepsIn steps.old steps.new result }
{
    match steps {
        None => true,
        Some(left) => step_in(left),
    }
}

/// Gives one step back. usize's greatest number stays.
fn give_step(steps: &mut Option<usize>)
    ensures { steps.new ≡ step_back steps.old }
{
    if let Some(left) = steps {
        step_out(left);
    }
}

impl Source for TestReader<'_> {
    type Error = Failure;

    ghost view = { test_view };

    fn show(&mut self, want: usize) -> Result<&[u8], Failure> {
        if self.fails(want) {
            return Err(Failure);
        }
        let is_whole = self.shows_whole();
        Ok(self.prefix(is_whole, self.part(want)))
    }

    fn advance(&mut self, n: usize) {
        self.bytes = &self.bytes[n..];
    }

    fn step_in(&mut self) -> bool {
        take_step(&mut self.steps)
    }

    fn step_out(&mut self) {
        give_step(&mut self.steps);
    }

    ghost known_within_bound = { λ reader xs is. Prim.search rules };
}

impl<'de> Read<'de> for TestReader<'de> {
    fn fill<'short>(&'short mut self, want: usize) -> Result<Reference<'de, 'short>, Failure> {
        if self.fails(want) {
            return Err(Failure);
        }
        let is_whole = self.fills_whole();
        let part = self.part(want);
        if self.fills_long() {
            return Ok(Reference::Long(self.prefix(is_whole, part)));
        }
        Ok(Reference::Short(self.prefix(is_whole, part)))
    }
}

/// It lends what it shows, where that outlives the fill.
impl<'de> FillLong for TestReader<'de> {
    type Long = &'de [u8];

    ghost never_borrows = { false };

    fn fill_long(&mut self, want: usize) -> Result<Option<&'de [u8]>, Failure> {
        if self.fails(want) {
            return Err(Failure);
        }
        let is_whole = self.fills_whole();
        let prefix = self.prefix(is_whole, self.part(want));
        if self.fills_long() || prefix.is_empty() {
            return Ok(Some(prefix));
        }
        Ok(None)
    }
}

/// Shows at most what is wanted, which outlives the fill, and counts its shows and fills, and how
/// often it is asked to advance.
#[derive(Drop)]
pub struct Counting<'a> {
    bytes: &'a [u8],
    shows: usize,
    advances: usize,
}

impl<'a> Counting<'a> {
    /// A reader over `bytes`, which lets items nest without a limit.
    pub fn new(bytes: &'a [u8]) -> Counting<'a>
        ensures known { (counting_view result).known ≡ Some bytes.now }
    {
        Counting {
            bytes,
            shows: 0,
            advances: 0,
        }
    }

    /// How often it was asked to show bytes.
    pub fn shows(&self) -> usize {
        self.shows
    }

    /// How often it was asked to take bytes.
    pub fn advances(&self) -> usize {
        self.advances
    }
}

impl Source for Counting<'_> {
    type Error = Never;

    ghost view = { counting_view };

    fn show(&mut self, want: usize) -> Result<&[u8], Never> {
        self.shows = self.shows.saturating_add(1);
        Ok(&self.bytes[..self.bytes.len().min(want)])
    }

    fn advance(&mut self, n: usize) {
        self.advances = self.advances.saturating_add(1);
        self.bytes = &self.bytes[n..];
    }

    fn step_in(&mut self) -> bool {
        true
    }

    fn step_out(&mut self) {}

    ghost known_within_bound = { λ reader xs is. Prim.search rules };
}

impl<'de> Read<'de> for Counting<'de> {
    fn fill<'short>(&'short mut self, want: usize) -> Result<Reference<'de, 'short>, Never> {
        self.shows = self.shows.saturating_add(1);
        Ok(Reference::Long(&self.bytes[..self.bytes.len().min(want)]))
    }
}

impl<'de> FillLong for Counting<'de> {
    type Long = &'de [u8];

    ghost never_borrows = { false };

    fn fill_long(&mut self, want: usize) -> Result<Option<&'de [u8]>, Never> {
        self.shows = self.shows.saturating_add(1);
        Ok(Some(&self.bytes[..self.bytes.len().min(want)]))
    }
}

/// What was asked of a reader.
#[derive(Clone, Copy, Debug, PartialEq, Eq)]
pub struct Asks {
    /// How often it was asked to show bytes.
    pub looks: usize,
    /// How often it had none to show.
    pub ends: usize,
    /// The most bytes that were wanted at once.
    pub largest: usize,
    /// How many bytes had to have come, where it waits for all that is wanted.
    pub come: usize,
}

/// Shows at most what is wanted, and counts what it is asked for. It may show no more than so many
/// bytes at a time, and may fail where more than so many are wanted. It lets items nest without a
/// limit.
#[derive(Drop)]
pub struct Asked<'a> {
    bytes: &'a [u8],
    taken: usize,
    asks: Asks,
    // How many bytes it shows at most; one where this is none.
    prefix: usize,
    // For how many bytes a look may ask, whatever the item needs; one where this is none.
    window: usize,
    // It fails where more is wanted.
    most: usize,
    failures: u64,
}

impl<'a> Asked<'a> {
    /// A reader over `bytes` of which nothing was asked yet. It shows what is wanted, and says of
    /// itself no more than a reader has to.
    pub fn new(bytes: &'a [u8]) -> Asked<'a>
        ensures known { (asked_view result).known ≡ Some bytes.now }
    {
        let asks = Asks {
            looks: 0,
            ends: 0,
            largest: 0,
            come: 0,
        };
        Asked {
            bytes,
            taken: 0,
            asks,
            prefix: usize::MAX,
            window: 1,
            most: usize::MAX,
            failures: 0,
        }
    }

    /// Makes the reader show at most so many bytes at a time, and one at least.
    pub fn showing(self, prefix: usize) -> Asked<'a> {
        Asked { prefix, ..self }
    }

    /// Makes the reader let a look ask for 4,096 bytes.
    pub fn wide(self) -> Asked<'a> {
        self.with_window(4_096)
    }

    /// Makes the reader let a look ask for so many bytes, and for one at least.
    pub fn with_window(self, window: usize) -> Asked<'a> {
        Asked { window, ..self }
    }

    /// Makes the reader fail where more than so many bytes are wanted.
    pub fn refusing_above(self, most: usize) -> Asked<'a> {
        Asked { most, ..self }
    }

    /// What was asked of it.
    pub fn asks(&self) -> Asks {
        self.asks
    }

    /// Counts a look that wants so many bytes.
    fn count(&mut self, want: usize)
        ensures kept { asked_view self.new ≡ asked_view self.old }
        ensures bytes { self.new.bytes.now ≡ self.old.bytes.now }
    {
        self.asks.looks = self.asks.looks.saturating_add(1);
        if self.bytes.is_empty() {
            self.asks.ends = self.asks.ends.saturating_add(1);
        }
        self.asks.largest = self.asks.largest.max(want);
        self.asks.come = self.asks.come.max(self.taken.saturating_add(want));
    }
}

impl Source for Asked<'_> {
    type Error = Failure;

    ghost view = { asked_view };

    fn show(&mut self, want: usize) -> Result<&[u8], Failure> {
        self.count(want);
        if want > self.most {
            self.failures = self.failures.saturating_add(1);
            return Err(Failure);
        }
        let prefix = want.min(self.prefix.max(1));
        Ok(&self.bytes[..self.bytes.len().min(prefix)])
    }

    fn window(&self) -> usize {
        self.window.max(1)
    }

    fn advance(&mut self, n: usize) {
        self.taken = self.taken.saturating_add(n);
        self.bytes = &self.bytes[n..];
    }

    fn step_in(&mut self) -> bool {
        true
    }

    fn step_out(&mut self) {}

    ghost known_within_bound = { λ reader xs is. Prim.search rules };
}
