//! A reader over one slice.
ghost use Rattle.std.specs.Prelude.{◌≡◌, ◌≤◌, [], Some, false, length, IsTrue, IfOk};
ghost use Rattle.std.specs.Prelude.{IfErr, IfSome, IfNone, IsSome, MatchResult};
ghost use Rattle.std.specs.Borrow.{sem};
ghost use Rattle.std.specs.Io.BufRead.{Rests};
ghost use mir.Syntax.{named};
ghost use Rattle.cbor4ii_rw.specs.contracts.slice_reader.SliceReader.{the_row};
ghost use Rattle.cbor4ii_rw.specs.View.{IfKnown, place_after};
ghost use Rattle.cbor4ii_rw.specs.Reader.{IsPrefix, IsEnough, Shows, ReaderFails};
ghost use Rattle.cbor4ii_rw.specs.Long.{FillsLong, BorrowsNone};
ghost use Rattle.cbor4ii_rw.specs.Reference.{bytes_of, IsLong, IsSubslice};
ghost use Rattle.cbor4ii_rw.specs.Slice.{slice_view};
ghost use Rattle.std.proofs.Common.{rules};

use crate::error::Never;
use crate::long::FillLong;
use crate::read::{Read, Reference, Source};
use crate::steps::{self, NESTING_LIMIT};

/// A reader over one slice. It never fails, shows at most what is wanted, and is zero-copy.
#[derive(Clone, Debug, Drop)]
pub struct SliceReader<'a> {
    bytes: &'a [u8],
    steps: usize,
}

impl<'a> SliceReader<'a> {
    /// A reader over `bytes`, with `NESTING_LIMIT` steps.
    pub fn new(bytes: &'a [u8]) -> SliceReader<'a>
        ensures known { (slice_view result).known ≡ Some bytes.now }
        ensures budget { (slice_view result).budget ≡ Some NESTING_LIMIT }
        ensures place { (slice_view result).ends_at ≡ Some (place_after bytes.entry) }
    {
        SliceReader::with_limit(bytes, NESTING_LIMIT)
    }

    /// A reader over `bytes`, with `limit` steps.
    pub fn with_limit(bytes: &'a [u8], limit: usize) -> SliceReader<'a>
        ensures known { (slice_view result).known ≡ Some bytes.now }
        ensures budget { (slice_view result).budget ≡ Some limit }
        ensures place { (slice_view result).ends_at ≡ Some (place_after bytes.entry) }
    {
        SliceReader {
            bytes,
            steps: limit,
        }
    }

    /// The bytes that are left.
    pub fn remaining(&self) -> &'a [u8]
        ensures known { (slice_view self.now).known ≡ Some result.now }
        ensures place { (slice_view self.now).ends_at ≡ Some (place_after result) }
    {
        self.bytes
    }

    /// How many steps are left.
    pub fn steps(&self) -> usize
        ensures { (slice_view self.now).budget ≡ Some result }
    {
        self.steps
    }
}

/// It shows the first `want` bytes, or all where no more are left.
impl Source for SliceReader<'_> {
    type Error = Never;

    ghost view = { slice_view };

    #[inline(always)]
    fn show(&mut self, want: usize) -> Result<&[u8], Never>
        ensures prefix { IfOk result
            (λ shown. IfKnown (slice_view self.old).known (IsPrefix want shown.now)) }
        ensures bounded { IfOk result (λ shown. length shown.now ≤ (slice_view self.old).bound) }
        ensures enough { IsTrue (slice_view self.old).zero_copy →
            IfOk result (λ shown. IfKnown (slice_view self.old).known (IsEnough want shown.now)) }
        ensures wanted { IfOk result (λ shown. length shown.now ≤ want) }
        ensures* after_borrow { sem 𝓛 (Rests
            (the_row (record { mir = named 1; lft = [] })) self.entry
            (λ new. MatchResult result
            (λ shown. Shows shown.now (slice_view self.old) (slice_view new))
            (λ _. ReaderFails (slice_view self.old) (slice_view new)))) }
    {
        let shown = want.min(self.bytes.len());
        Ok(&self.bytes[..shown])
    }

    #[inline(always)]
    fn window(&self) -> usize {
        usize::MAX
    }

    #[inline(always)]
    fn is_in_memory(&self) -> bool {
        true
    }

    #[inline(always)]
    fn advance(&mut self, n: usize) {
        self.bytes = &self.bytes[n..];
    }

    #[inline(always)]
    fn step_in(&mut self) -> bool {
        steps::step_in(&mut self.steps)
    }

    #[inline(always)]
    fn step_out(&mut self) {
        steps::step_out(&mut self.steps);
    }

    ghost known_within_bound = { λ reader xs is. Prim.search rules };
}

/// It lends what it shows, always `Long`.
impl<'de> Read<'de> for SliceReader<'de> {
    fn fill<'short>(&'short mut self, want: usize) -> Result<Reference<'de, 'short>, Never>
        ensures prefix { IfOk result
            (λ shown. IfKnown (slice_view self.old).known (IsPrefix want (bytes_of shown))) }
        ensures bounded { IfOk result
            (λ shown. length (bytes_of shown) ≤ (slice_view self.old).bound) }
        ensures enough { IsTrue (slice_view self.old).zero_copy → IfOk result
            (λ shown. IfKnown (slice_view self.old).known (IsEnough want (bytes_of shown))) }
        ensures long { IsTrue (slice_view self.old).zero_copy → IfOk result IsLong }
        ensures place { IfOk result (λ shown. IsSubslice shown (slice_view self.old)) }
        ensures wanted { IfOk result (λ shown. length (bytes_of shown) ≤ want) }
        ensures* after_borrow { sem 𝓛 (Rests
            (the_row (record { mir = named 1; lft = [] })) self.entry
            (λ new. MatchResult result
            (λ shown. Shows (bytes_of shown) (slice_view self.old) (slice_view new))
            (λ _. ReaderFails (slice_view self.old) (slice_view new)))) }
    {
        let shown = want.min(self.bytes.len());
        Ok(Reference::Long(&self.bytes[..shown]))
    }
}

/// It lends what it shows, always.
impl<'de> FillLong for SliceReader<'de> {
    type Long = &'de [u8];

    ghost never_borrows = { false };

    fn fill_long(&mut self, want: usize) -> Result<Option<&'de [u8]>, Never>
        ensures bounded { IfOk result (λ shown. IfSome shown
            (λ long. length long.now ≤ (slice_view self.old).bound)) }
        ensures fills { IfOk result (λ shown. IfSome shown (λ long.
            FillsLong want long.now (slice_view self.old) (slice_view self.new))) }
        ensures none { IfOk result (λ shown. IfNone shown
            (BorrowsNone (slice_view self.old) (slice_view self.new))) }
        ensures never { IsTrue false → IfOk result (λ shown. IfSome shown
            (λ long. long.now ≡ [])) }
        ensures failed { IfErr result
            (λ _. ReaderFails (slice_view self.old) (slice_view self.new)) }
        ensures wanted { IfOk result (λ shown. IsSome shown × IfSome shown
            (λ long. length long.now ≤ want)) }
    {
        let shown = want.min(self.bytes.len());
        Ok(Some(&self.bytes[..shown]))
    }
}
