//! What a reader is.
//!
//! A reader shows a prefix of what is left, and takes bytes only when it is asked to advance. It
//! also counts the steps that nested items take (RFC 8949 section 10 leaves the limit to the
//! decoder), so that hostile input cannot drive a recursion as deep as it likes.
ghost use Rattle.std.specs.Prelude.{◌≡◌, ◌≤◌, ◌↔◌, ℕ, ⊤, length, take, IsTrue, IfOk, MatchResult};
ghost use Rattle.std.specs.Borrow.{sem};
ghost use Rattle.std.specs.Io.BufRead.{Rests};
ghost use Rattle.cbor4ii_rw.specs.View.{View, IfKnown};
ghost use Rattle.cbor4ii_rw.specs.Reader.{IsPrefix, IsEnough, Shows, ReaderFails, Advances};
ghost use Rattle.cbor4ii_rw.specs.Reader.{KeepsAllButBudget, StepsIn, step_back};
ghost use Rattle.cbor4ii_rw.specs.Reference.{bytes_of, IsLong, IsSubslice};

use std::fmt::Debug;

/// A prefix of what a reader has left.
#[derive(Clone, Copy, Debug, PartialEq, Eq)]
pub enum Reference<'de, 'short> {
    /// It lives as long as the input, so decoded values may keep parts of it.
    Long(&'de [u8]),
    /// It lives until the reader is used again.
    Short(&'short [u8]),
}

impl<'de, 'short> Reference<'de, 'short> {
    /// The bytes.
    pub fn as_ref(&self) -> &[u8]
        ensures { result.now ≡ bytes_of self.now }
    {
        match self {
            Reference::Long(bytes) => bytes,
            Reference::Short(bytes) => bytes,
        }
    }

    /// The first `len` bytes, or all where there are no more, as long-lived as before.
    pub fn take(self, len: usize) -> Reference<'de, 'short>
        ensures bytes { bytes_of result ≡ take len (bytes_of self.entry) }
        ensures kind { IsLong result ↔ IsLong self.entry }
    {
        match self {
            Reference::Long(bytes) => Reference::Long(&bytes[..len.min(bytes.len())]),
            Reference::Short(bytes) => Reference::Short(&bytes[..len.min(bytes.len())]),
        }
    }
}

/// A reader: its bytes are looked at before they are taken, and it counts steps.
///
/// Code that is generic over readers calls `ask::look` in the place of `show`.
pub trait Source {
    /// Why the reader failed.
    type Error: Debug + Drop;

    // What the reader reports of itself as it stands, in the fields of a `View`: the bytes that are
    // still to come, where it reports them, the steps that are left, how often it failed, and
    // others.
    ghost view: { Self → View };

    // Which numbers above 1 `window` may answer; any, where nothing else is said.
    ghost allows: { Self → ℕ → Type 0 } = { λ _ _. ⊤ };

    /// Shows a prefix of what is left, perhaps shorter or longer than `want`, and takes nothing.
    /// It is empty only at the end, or where `want` is 0. What is shown may be advanced.
    ///
    /// `want` is a wish: one byte is enough. A reader whose `window` is 1 may also wait for all
    /// that is wanted, since the item needs it. Any other may wait for ever then. So many bytes it
    /// may have to hold: `window` says what bounds them.
    ///
    /// # Errors
    ///
    /// The reader's own error, which it counts. Nothing is taken then either, and the budget stays.
    /// The bytes that are left stay known where the reader remembers them, and may be known no more
    /// otherwise.
    fn show(&mut self, want: usize) -> Result<&[u8], Self::Error>
        ensures prefix { IfOk result (λ shown. IfKnown (view self.old).known
            (IsPrefix want shown.now)) }
        ensures bounded { IfOk result (λ shown. length shown.now ≤ (view self.old).bound) }
        ensures enough { IsTrue (view self.old).zero_copy →
            IfOk result (λ shown. IfKnown (view self.old).known (IsEnough want shown.now)) }
        ensures* after_borrow { sem 𝓛 (Rests Self.row self.entry (λ new. MatchResult result
            (λ shown. Shows shown.now (view self.old) (view new))
            (λ _. ReaderFails (view self.old) (view new)))) };

    /// How many bytes a look may ask for where the item in work is sure to need fewer: one at
    /// least, and one where nothing else is said.
    ///
    /// Where it is 1, no call asks for more bytes than the item is sure to need by what was seen
    /// of it, and for none after it. It asks for one at first, then for what the head lacks, and
    /// then for what the content lacks. Where it is greater, a look may ask for so many, and for no
    /// more than the greater of the two.
    ///
    /// A head may say that 2^64 - 1 bytes follow. Of a content that is copied or skipped a look
    /// asks for no more than the greater of the window and 16384 bytes at a time. A content that is
    /// to be lent is wanted whole, by `Read::fill` alone. A `RawValue` and its like ask for all
    /// that is left.
    ///
    /// Only a reader that waits for no byte because more are wanted, and rejects none, answers
    /// more than 1. One that shows what it has, whatever is wanted, answers the greatest number.
    fn window(&self) -> usize
        ensures some { 1 ≤ result }
        ensures allowed { 2 ≤ result → allows self.now result }
    {
        1
    }

    /// Whether all that is left stands in memory, so that a look takes a few instructions; false
    /// where nothing else is said. It decides how short vectors are read and no answer.
    #[inline(always)]
    fn is_in_memory(&self) -> bool {
        false
    }

    /// Takes the next `n` bytes, at most as many as were shown last and not taken since.
    fn advance(&mut self, n: usize)
        requires { n ≤ (view self.old).advanceable }
        ensures { Advances n (view self.old) (view self.new) };

    /// Takes a step of the budget, or answers false where none is left. A reader without a
    /// budget always answers true.
    fn step_in(&mut self) -> bool
        ensures budget { StepsIn (view self.old).budget (view self.new).budget result }
        ensures others { KeepsAllButBudget (view self.old) (view self.new) };

    /// Gives one step back. A budget at usize's greatest number stays there.
    fn step_out(&mut self)
        ensures budget { (view self.new).budget ≡ step_back (view self.old).budget }
        ensures others { KeepsAllButBudget (view self.old) (view self.new) };

    // A law: the bytes that it reports are no more than can still come.
    ghost known_within_bound: { (reader : Self) →
        IfKnown (view reader).known (λ xs. length xs ≤ (view reader).bound) };
}

/// A reader that may lend slices of its input.
///
/// Code that is generic over readers calls `ask::lend` in the place of `fill`.
pub trait Read<'de>: Source {
    /// Shows a prefix as `show` does, and says whether it lives as long as the input. A zero-copy
    /// reader answers `Long`, with at least `want` bytes or all that are left. What is `Long`
    /// stands where the bytes to come begin, if the reader reports where they end.
    ///
    /// # Errors
    ///
    /// The reader's own error, which it counts. Nothing is taken then, and what is left is
    /// described at `Source::show`.
    fn fill<'short>(&'short mut self, want: usize) -> Result<Reference<'de, 'short>, Self::Error>
        ensures prefix { IfOk result
            (λ shown. IfKnown (Self.view self.old).known (IsPrefix want (bytes_of shown))) }
        ensures bounded { IfOk result
            (λ shown. length (bytes_of shown) ≤ (Self.view self.old).bound) }
        ensures enough { IsTrue (Self.view self.old).zero_copy → IfOk result
            (λ shown. IfKnown (Self.view self.old).known (IsEnough want (bytes_of shown))) }
        ensures long { IsTrue (Self.view self.old).zero_copy → IfOk result IsLong }
        ensures place { IfOk result (λ shown. IsSubslice shown (Self.view self.old)) }
        ensures* after_borrow { sem 𝓛 (Rests Self.row self.entry (λ new. MatchResult result
            (λ shown. Shows (bytes_of shown) (Self.view self.old) (Self.view new))
            (λ _. ReaderFails (Self.view self.old) (Self.view new)))) };
}
