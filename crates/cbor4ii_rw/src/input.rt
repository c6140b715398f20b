//! Inputs that are read from their beginning.
ghost use Rattle.std.specs.Prelude.{◌≡◌, ℕ, List, length, Some, true};
ghost use Rattle.cbor4ii_rw.specs.Input.{limit};
ghost use Rattle.cbor4ii_rw.specs.View.{IfKnown};

use crate::read::Source;
use crate::slice_reader::SliceReader;

/// An input that a call reads from its beginning: a slice.
pub trait Input {
    /// Its reader.
    type Reader: Source + Drop;

    // Its bytes, all of which its reader reports.
    ghost bytes: { Self → List ℕ };

    /// A reader over it, with `NESTING_LIMIT` steps.
    fn reader(self) -> Self::Reader
        ensures known { (Self.Reader.Source.view result).known ≡ Some (bytes self) }
        ensures budget { (Self.Reader.Source.view result).budget ≡ Some limit }
        ensures lends { (Self.Reader.Source.view result).zero_copy ≡ true };

    /// How many bytes its reader has left.
    fn left(reader: &Self::Reader) -> usize
        ensures { IfKnown (Self.Reader.Source.view reader.now).known (λ xs. result ≡ length xs) };
}

/// A slice, read by a `SliceReader`: it reports all its bytes, lends them without a copy, and never
/// fails.
impl<'a> Input for &'a [u8] {
    type Reader = SliceReader<'a>;

    ghost bytes = { λ slice. slice.now };

    fn reader(self) -> SliceReader<'a> {
        SliceReader::new(self)
    }

    fn left(reader: &SliceReader<'a>) -> usize {
        reader.remaining().len()
    }
}
