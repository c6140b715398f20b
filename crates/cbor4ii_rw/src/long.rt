//! A reader that may lend slices of its input, described without a lifetime.
ghost use Rattle.std.specs.Prelude.{◌≡◌, ◌≤◌, Bool, [], length, IsTrue};
ghost use Rattle.std.specs.Prelude.{IfOk, IfErr, IfSome, IfNone};
ghost use Rattle.cbor4ii_rw.specs.Long.{FillsLong, BorrowsNone};
ghost use Rattle.cbor4ii_rw.specs.Reader.{ReaderFails};

use crate::read::Source;
use std::convert::AsSlice;

/// A reader that may lend slices of its input, as `Read` is, which does not name their lifetime.
///
/// So what keeps no slice of the input, and has to look at all that is left under the reader's
/// steps, is generic over it where a lifetime cannot be named.
pub trait FillLong: Source {
    /// Bytes that live as long as the input.
    type Long: AsSlice<u8> + Drop;

    // Whether it lends no byte, whatever it holds.
    ghost never_borrows: { Bool };

    /// Shows a prefix as `Source::show` does, where it lives as long as the input, and takes
    /// nothing. None where some bytes are left, and what is shown of them does not live so long.
    ///
    /// # Errors
    ///
    /// The reader's own error, which it counts. Nothing is taken then, and what is left is
    /// described at `Source::show`.
    fn fill_long(&mut self, want: usize) -> Result<Option<Self::Long>, Self::Error>
        ensures bounded { IfOk result (λ shown. IfSome shown
            (λ long. length (Self.Long.items long) ≤ (Self.view self.old).bound)) }
        ensures fills { IfOk result (λ shown. IfSome shown (λ long.
            FillsLong want (Self.Long.items long) (Self.view self.old) (Self.view self.new))) }
        ensures none { IfOk result (λ shown. IfNone shown
            (BorrowsNone (Self.view self.old) (Self.view self.new))) }
        ensures never { IsTrue never_borrows → IfOk result (λ shown. IfSome shown
            (λ long. Self.Long.items long ≡ [])) }
        ensures failed { IfErr result (λ _. ReaderFails (Self.view self.old)
            (Self.view self.new)) };
}
