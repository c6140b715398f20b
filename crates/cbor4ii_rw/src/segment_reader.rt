//! A reader over borrowed segments.
ghost use Rattle.std.specs.Prelude.{◌≡◌, ◌≤◌, ◌^◌, ◌-◌, min, [], Some, false, length, nat_lt};
ghost use Rattle.std.specs.Prelude.{IsTrue, IfOk, IfErr, IfSome, IfNone, IsSome, MatchResult};
ghost use Rattle.std.proofs.Common.{rules};
ghost use Rattle.std.specs.Borrow.{sem};
ghost use Rattle.std.specs.Io.BufRead.{Rests};
ghost use mir.Syntax.{named};
ghost use Rattle.cbor4ii_rw.specs.contracts.segment_reader.SegmentReader.{the_row};
ghost use Rattle.cbor4ii_rw.specs.View.{IfKnown};
ghost use Rattle.cbor4ii_rw.specs.Reader.{IsPrefix, IsEnough, Shows, ReaderFails};
ghost use Rattle.cbor4ii_rw.specs.Long.{FillsLong, BorrowsNone};
ghost use Rattle.cbor4ii_rw.specs.Reference.{bytes_of, IsLong, IsSubslice};
ghost use Rattle.cbor4ii_rw.specs.Segments.{joined_segments, full_count, rest_of, full_of};
ghost use Rattle.cbor4ii_rw.specs.Segments.{shown_segment, segment_view};

use crate::error::Never;
use crate::long::FillLong;
use crate::read::{Read, Reference, Source};
use crate::steps::{self, NESTING_LIMIT};

/// A reader over borrowed segments, one after another, empty ones among them. It never fails, and
/// shows what is wanted of the first segment that has bytes, or all of it, always `Long`. With at
/// most one segment left that has bytes, it is zero-copy.
#[derive(Clone, Debug, Drop)]
pub struct SegmentReader<'de> {
    current: &'de [u8],
    // Those after the current one.
    segments: &'de [&'de [u8]],
    steps: usize,
}

impl<'de> SegmentReader<'de> {
    /// A reader over `segments`, with `NESTING_LIMIT` steps.
    pub fn new(segments: &'de [&'de [u8]]) -> SegmentReader<'de>
        ensures known { (segment_view result).known ≡ Some (joined_segments segments.now) }
        ensures whole { (segment_view result).zero_copy ≡ nat_lt (full_count segments.now) 2 }
        ensures budget { (segment_view result).budget ≡ Some NESTING_LIMIT }
    {
        SegmentReader::with_limit(segments, NESTING_LIMIT)
    }

    /// A reader over `segments`, with `limit` steps.
    pub fn with_limit(segments: &'de [&'de [u8]], limit: usize) -> SegmentReader<'de>
        ensures known { (segment_view result).known ≡ Some (joined_segments segments.now) }
        ensures whole { (segment_view result).zero_copy ≡ nat_lt (full_count segments.now) 2 }
        ensures budget { (segment_view result).budget ≡ Some limit }
    {
        SegmentReader {
            current: &[],
            segments,
            steps: limit,
        }
    }

    /// How many bytes are left; at most 2^64-1 are counted.
    pub fn remaining(&self) -> usize
        ensures { result ≡ min (length (rest_of self.now)) (2 ^ 64 - 1) }
    {
        let mut left = self.current.len();
        let mut segments = self.segments;
        while let [first, others @ ..] = segments {
            left = left.saturating_add(first.len());
            segments = others;
        }
        left
    }

    /// How many steps are left.
    pub fn steps(&self) -> usize
        ensures { (segment_view self.now).budget ≡ Some result }
    {
        self.steps
    }

    /// Goes on to the first segment that has bytes, if there is one.
    fn pass_empty(&mut self)
        ensures end { length self.new.current.now ≡ 0 → rest_of self.new ≡ [] }
        ensures bytes { rest_of self.new ≡ rest_of self.old }
        ensures segment { shown_segment self.new ≡ shown_segment self.old }
        ensures count { full_of self.new ≡ full_of self.old }
        ensures steps { self.new.steps ≡ self.old.steps }
    {
        while self.current.is_empty() {
            let [first, others @ ..] = self.segments else {
                return;
            };
            self.current = first;
            self.segments = others;
        }
    }
}

/// It shows the first `want` bytes of the segment that it stands in, or of the next that has bytes,
/// or all of that segment where it has no more.
impl Source for SegmentReader<'_> {
    type Error = Never;

    ghost view = { segment_view };

    fn show(&mut self, want: usize) -> Result<&[u8], Never>
        ensures prefix { IfOk result
            (λ shown. IfKnown (segment_view self.old).known (IsPrefix want shown.now)) }
        ensures bounded { IfOk result (λ shown. length shown.now ≤ (segment_view self.old).bound) }
        ensures enough { IsTrue (segment_view self.old).zero_copy →
            IfOk result (λ shown. IfKnown (segment_view self.old).known (IsEnough want shown.now)) }
        ensures segment { IfOk result
            (λ shown. length shown.now ≡ min want (length (shown_segment self.old))) }
        ensures* after_borrow { sem 𝓛 (Rests
            (the_row (record { mir = named 1; lft = [] })) self.entry
            (λ new. MatchResult result
            (λ shown. Shows shown.now (segment_view self.old) (segment_view new))
            (λ _. ReaderFails (segment_view self.old) (segment_view new)))) }
    {
        self.pass_empty();
        let shown = want.min(self.current.len());
        Ok(&self.current[..shown])
    }

    #[inline(always)]
    fn window(&self) -> usize {
        usize::MAX
    }

    #[inline(always)]
    fn is_in_memory(&self) -> bool {
        true
    }

    fn advance(&mut self, n: usize) {
        self.current = &self.current[n..];
    }

    fn step_in(&mut self) -> bool {
        steps::step_in(&mut self.steps)
    }

    fn step_out(&mut self) {
        steps::step_out(&mut self.steps);
    }

    ghost known_within_bound = { λ reader xs is. Prim.search rules };
}

/// It lends what it shows, always `Long`.
impl<'de> Read<'de> for SegmentReader<'de> {
    fn fill<'short>(&'short mut self, want: usize) -> Result<Reference<'de, 'short>, Never>
        ensures prefix { IfOk result
            (λ shown. IfKnown (segment_view self.old).known (IsPrefix want (bytes_of shown))) }
        ensures bounded { IfOk result
            (λ shown. length (bytes_of shown) ≤ (segment_view self.old).bound) }
        ensures enough { IsTrue (segment_view self.old).zero_copy → IfOk result
            (λ shown. IfKnown (segment_view self.old).known (IsEnough want (bytes_of shown))) }
        ensures long { IfOk result IsLong }
        ensures place { IfOk result (λ shown. IsSubslice shown (segment_view self.old)) }
        ensures segment { IfOk result
            (λ shown. length (bytes_of shown) ≡ min want (length (shown_segment self.old))) }
        ensures* after_borrow { sem 𝓛 (Rests
            (the_row (record { mir = named 1; lft = [] })) self.entry
            (λ new. MatchResult result
            (λ shown. Shows (bytes_of shown) (segment_view self.old) (segment_view new))
            (λ _. ReaderFails (segment_view self.old) (segment_view new)))) }
    {
        self.pass_empty();
        let shown = want.min(self.current.len());
        Ok(Reference::Long(&self.current[..shown]))
    }
}

/// It lends what it shows, always.
impl<'de> FillLong for SegmentReader<'de> {
    type Long = &'de [u8];

    ghost never_borrows = { false };

    fn fill_long(&mut self, want: usize) -> Result<Option<&'de [u8]>, Never>
        ensures bounded { IfOk result (λ shown. IfSome shown
            (λ long. length long.now ≤ (segment_view self.old).bound)) }
        ensures fills { IfOk result (λ shown. IfSome shown (λ long.
            FillsLong want long.now (segment_view self.old) (segment_view self.new))) }
        ensures none { IfOk result (λ shown. IfNone shown
            (BorrowsNone (segment_view self.old) (segment_view self.new))) }
        ensures never { IsTrue false → IfOk result (λ shown. IfSome shown
            (λ long. long.now ≡ [])) }
        ensures failed { IfErr result
            (λ _. ReaderFails (segment_view self.old) (segment_view self.new)) }
        ensures segment { IfOk result (λ shown. IsSome shown × IfSome shown
            (λ long. length long.now ≡ min want (length (shown_segment self.old)))) }
    {
        self.pass_empty();
        let long = want.min(self.current.len());
        Ok(Some(&self.current[..long]))
    }
}
